//! Length fields: what comes before a content and says how many bytes the content has (RFC 8446, section 3.4;
//! RFC 9420, section 2.1.2).
//!
//! [`TlsVarInt`] is one, up to 2^30 - 1, and so are `u8`, `u16`, `U24` and `u32`. [`Within`] is one over
//! another, with bounds. What comes after a length goes through calls that are generic over the field:
//! [`opaque`](crate::opaque) for bytes, and `counted` of `tls_codec_base` for elements.
ghost use Rattle.std.specs.Prelude.{◌≡◌, ◌≤◌, drop, MatchOption, IfErr, IfOk, OnOk};
ghost use Rattle.tls_codec_wire.specs.Counts.{OnlyInterrupted};
ghost use Rattle.tls_codec_wire.specs.Device.{Gave};
ghost use Rattle.tls_codec_wire.specs.Seen.{RefusedFor};
ghost use Rattle.tls_codec_wire.specs.Numbers.{BeginsNumber, GaveNumber, NumberNotRead};
ghost use Rattle.tls_codec_grammar.specs.Field.{Field};
ghost use Rattle.tls_codec_grammar.specs.Lawful.{MeetsFieldLaws};

use tls_codec_wire::{Error, Source};

mod bounded;
mod fixed;
mod variable;
mod writing;

pub use bounded::Within;
pub(crate) use writing::append_both;
pub use writing::{fill_gap, open_gap, write_length};

/// What comes before a content and says how many bytes the content has.
///
/// The type stands for the encoding of a length, and no value of it is made. Your own encoding of
/// lengths implements this too.
///
/// ```rust
/// let mut src = [0u8, 3, 0xaa].as_slice();
/// assert_eq!(rt; u16::read_length(&mut src), Ok(3));
/// assert_eq!(u16::width(3), 2);
/// ```
pub trait LengthField {
    // Which bytes spell which length, how many of them, and which lengths there are.
    ghost field: { Field };

    /// How many bytes a length has. Announced lengths also count it if the field doesn't hold the length;
    /// then it is whatever the field says.
    fn width(length: usize) -> usize
        ensures { result ≡ field.width length };

    /// The bytes of a length: those of these eight from this place on. `None` if the field doesn't
    /// hold the length.
    fn form(length: usize) -> Option<([u8; 8], usize)>
        ensures { MatchOption result (¬ field.holds length)
            (λ form. (form.1 ≤ 8) × field.spells (drop form.1 form.0) length) };

    /// Reads a length. Only its bytes are taken.
    ///
    /// `DecodingError("read failed")` and `OutOfMemory` are the source's, as in
    /// [`read_exactly`](tls_codec_wire::read_exactly). Every other error is the field's:
    /// `EndOfStream` if the bytes end within a length. For a [`TlsVarInt`] it is also
    /// `InvalidVectorLength`, if the length has more bytes than it needs, or is above the greatest.
    fn read_length<R: Source>(src: &mut R) -> Result<usize, Error>
        ensures gave { Gave R.given src.old src.new }
        ensures ok { IfOk result (λ n. GaveNumber R.given field.spells src.old src.new n) }
        ensures refused { IfErr result
            (RefusedFor R.Source (NumberNotRead field.refuses) src.old src.new) }
        ensures retried { OnOk result (OnlyInterrupted (R.counts src.old) (R.counts src.new)) };

    /// The length that the bytes begin with, and the rest of them.
    ///
    /// The errors are the field's, as in [`read_length`](LengthField::read_length).
    fn split_length(bytes: &[u8]) -> Result<(usize, &[u8]), Error>
        ensures ok { IfOk result
            (λ found. BeginsNumber field.spells bytes.now found.0 found.1.now) }
        ensures err { IfErr result (field.refuses bytes.now) };

    /// The error if there are fewer bytes than the field before them declares, and they are taken
    /// at once and not as elements.
    fn cut_off() -> Error
        ensures { field.cut_off result };

    ghost lawful: { MeetsFieldLaws field };
}
