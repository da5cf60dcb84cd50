//! [`rewrite`], all of the program's work.
ghost use Rattle.guide.specs.Guide.{Rewrites};

use crate::extension::Extension;
use std::alloc::Global;
use tls_codec::{Deserialize, Error, Serialize, Sink, Source};

/// Reads an extension from a source, sends its canonical encoding to a sink, and returns how many
/// bytes that is.
///
/// If none is read, nothing is sent.
pub fn rewrite<R: Source, W: Sink>(
    alloc: Global,
    input: &mut R,
    output: &mut W,
) -> Result<usize, Error>
    ensures { Rewrites R.Source W.Sink input.old input.new output.old output.new result }
{
    let extension = Extension::tls_deserialize(alloc, input)?;
    extension.tls_serialize(output)
}
