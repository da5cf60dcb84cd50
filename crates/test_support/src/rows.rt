//! Comparisons that name the row at which they fail.
ghost use Rattle.std.specs.Prelude.{◌≡◌, IfOk, IsTrue, OnOk, Ok};

use std::fmt::Debug;
use std::test::Fail;
use tls_codec::Error;

/// Fails unless both are equal.
pub fn same<T: PartialEq + Debug + Drop>(found: T, expected: T) -> Result<(), Fail>
    ensures { OnOk result (IsTrue (T.eq found expected)) }
{
    if found != expected {
        return Err(Fail::new(format_args!("{found:?} in place of {expected:?}")));
    }
    Ok(())
}

/// Like [`same`], at one of several rows, which a failure names.
pub fn same_at<T: PartialEq + Debug + Drop>(row: &str, found: T, expected: T) -> Result<(), Fail>
    ensures { OnOk result (IsTrue (T.eq found expected)) }
{
    if found == expected {
        return Ok(());
    }
    Err(Fail::new(format_args!("{found:?} in place of {expected:?} at {row}")))
}

/// What a call returned at this row. Fails if that is an error.
pub fn done_at<T: Drop>(row: &str, done: Result<T, Error>) -> Result<T, Fail>
    ensures { IfOk result (λ value. done ≡ Ok value) }
{
    match done {
        Ok(value) => Ok(value),
        Err(error) => Err(Fail::new(format_args!("{error:?} at {row}"))),
    }
}
