//! A value and the end of its source.
ghost use Rattle.std.specs.Prelude.{IfErr, IfOk};
ghost use Rattle.tls_codec_wire.specs.Seen.{RefusedFor};
ghost use Rattle.tls_codec_grammar.specs.Decoding.{GaveSpelling};
ghost use Rattle.tls_codec_base.specs.PartNames.{SawSpelling, to_end_names};

use crate::traits::Deserialize;
use std::alloc::Global;
use tls_codec_wire::{Error, Source, expect_end};

/// The value that all of the bytes to come encode, as in a file that holds one message.
///
/// `TrailingData`: a value was read, and another byte came after it. Every other error is that of
/// [`tls_deserialize`](Deserialize::tls_deserialize), or the source's after the value.
///
/// ```rust
/// let mut file = [0u8, 7, 1].as_slice();
/// assert_eq!(rt; deserialize_to_end::<u16, _>(alloc, &mut file), Err(Error::TrailingData));
/// ```
pub fn deserialize_to_end<T: Deserialize, R: Source>(alloc: Global, src: &mut R) -> Result<T, Error>
    ensures gave { IfOk result
        (λ v. GaveSpelling R.given T.format.spells src.old src.new (T.plain v)) }
    ensures whole { IfOk result
        (λ v. SawSpelling R.Source T.format.spells src.old src.new (T.plain v)) }
    ensures refused { IfErr result
        (RefusedFor R.Source (to_end_names T.format T.names) src.old src.new) }
{
    let value = T::tls_deserialize(alloc, src)?;
    expect_end(src)?;
    Ok(value)
}
