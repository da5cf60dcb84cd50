//! [`write_as`] and [`append_as`], which write a value as its borrowed cases.
//!
//! Their signatures don't name [`Error`], which has a text that is `'static`: the borrow checker covers no
//! type argument of several lifetimes in a call whose signature does.
ghost use Rattle.std.specs.Prelude.{◌≡◌, ◌⊎◌, ℕ, IsErrAnd, Result};
ghost use Rattle.tls_codec_wire.specs.declared.error.Error.{Error};
ghost use Rattle.tls_codec_wire.specs.declared.error.Error.TheVariants.{OutOfMemory};
ghost use Rattle.tls_codec_grammar.specs.Encoding.{AppendsForm, Writes};

use tls_codec_base::{Serialize, SerializeFor, Size, SizeFor, reserve_encoding};
use tls_codec_wire::{Error, Sink};

/// The error type of [`write_as`] and [`append_as`]. Only [`Error`] implements it.
pub trait EncoderError {
    ghost with_error: { Result ℕ Self → Result ℕ Error };

    /// The same result.
    fn from_result(found: Result<usize, Error>) -> Result<usize, Self>
        ensures { with_error result ≡ found };
}

impl EncoderError for Error {
    ghost with_error = { λ r. r };

    #[inline(always)]
    fn from_result(found: Result<usize, Error>) -> Result<usize, Error> {
        found
    }
}

/// Sends a value as its borrowed cases, which stand for the same.
#[inline(always)]
pub fn write_as<S: Size, T: Serialize, W: Sink, E: EncoderError>(
    _whole: &S,
    cases: &T,
    writer: &mut W,
) -> Result<usize, E>
    requires { T.plain cases.now ≡ S.plain _whole.now }
    ensures { Writes T.format (S.plain _whole.now) W.Sink writer.old writer.new
        (E.with_error result) }
{
    E::from_result(cases.tls_serialize(writer))
}

/// Appends a value as its borrowed cases, which stand for the same. A vector without room gets room for
/// all of it at once.
#[inline(always)]
pub fn append_as<S: Size, T: Serialize, E: EncoderError>(
    _whole: &S,
    cases: &T,
    out: &mut Vec<u8>,
) -> Result<usize, E>
    requires { T.plain cases.now ≡ S.plain _whole.now }
    ensures appends { AppendsForm T.format (S.plain _whole.now) out.old.items out.new.items
        (E.with_error result) }
    ensures out_of_bounds { T.format.out_of_bounds (S.plain _whole.now)
        → IsErrAnd (E.with_error result)
        (λ e. (e ≡ OutOfMemory) ⊎ T.format.refuses (S.plain _whole.now) e) }
{
    if reserve_encoding(cases, out).is_err() {
        return E::from_result(Err(Error::OutOfMemory));
    }
    E::from_result(cases.tls_serialize_into(out))
}

/// Sends a value in a context as its borrowed cases, which stand for the same.
#[inline(always)]
pub fn write_as_for<K: Size, S: SizeFor<K>, T: SerializeFor<K>, W: Sink, E: EncoderError>(
    _whole: &S,
    cases: &T,
    context: &K,
    writer: &mut W,
) -> Result<usize, E>
    requires { T.plain cases.now ≡ S.plain _whole.now }
    ensures { Writes (T.format_for (K.plain context.now)) (S.plain _whole.now) W.Sink writer.old
        writer.new (E.with_error result) }
{
    E::from_result(cases.tls_serialize_for(context, writer))
}

/// Appends a value in a context as its borrowed cases, which stand for the same.
#[inline(always)]
pub fn append_as_for<K: Size, S: SizeFor<K>, T: SerializeFor<K>, E: EncoderError>(
    _whole: &S,
    cases: &T,
    context: &K,
    out: &mut Vec<u8>,
) -> Result<usize, E>
    requires { T.plain cases.now ≡ S.plain _whole.now }
    ensures { AppendsForm (T.format_for (K.plain context.now)) (S.plain _whole.now) out.old.items
        out.new.items (E.with_error result) }
{
    E::from_result(cases.tls_serialize_into_for(context, out))
}
