//! What rows of bytes can't say of the types.
mod bounds;
mod contexts;
mod each_call;
mod families;
mod lengths;
mod lists;
mod outside;
mod plain;
mod refusals;
mod runs;
mod sizes;

use std::fmt::Debug;
use std::process::Abort;
use tls_codec::Error;

const NO_BYTES: Error = Error::DecodingError("vector element consumed 0 bytes");

// An assertion that is written out is proved at each place: this one is proved once.
fn same<T: PartialEq + Debug + Drop>(rt: &impl Abort, found: T, expected: T) {
    assert_eq!(rt; found, expected);
}

// The same at one of several rows, which a failure names.
fn same_at<Row: Debug + Drop, T: PartialEq + Debug + Drop>(
    rt: &impl Abort,
    row: Row,
    found: T,
    expected: T,
) {
    assert_eq!(rt; found, expected, "at {row:?}");
}

fn holds(rt: &impl Abort, condition: bool) {
    assert!(rt; condition);
}
