//! A run, from an input to a sink, and the kinds: each names a type that bytes are read as.
ghost use Rattle.tls_codec.specs.Devices.{Gave, NoneFell};
ghost use Rattle.tlsview_run.specs.Run.{Runs, RunsBy};
ghost use Rattle.tlsview_run.specs.View.{IsView};

use crate::fault::ViewFault;
use crate::show::Show;
use crate::view::view_of;
use std::alloc::Global;
use tls_codec::{Sink, Source, TlsByteVecU32, TlsVarInt, TlsVecU8, VLBytes, write_all};
use tls_codec_vectors::{Leaf, Log, Step};
use view_input::text::{decode, read_text};

/// Reads the input, and prints the view of the bytes that it stands for, by the type of the kind of
/// this name.
///
/// The name is compared byte for byte, before the input is read. Of the faults only `Write` may
/// come after something was sent.
pub fn run<R: Source, W: Sink>(
    alloc: Global,
    kind: &str,
    input: &mut R,
    out: &mut W,
) -> Result<bool, ViewFault>
    ensures runs { Runs kind.now R.Source W.Sink input.old input.new out.old out.new result }
    ensures gave { Gave R.given input.old input.new }
    ensures input_counts { NoneFell (R.counts input.old) (R.counts input.new) }
    ensures sink_counts { NoneFell (W.counts out.old) (W.counts out.new) }
{
    match kind {
        "u16" => run_as::<u16, _, _>(alloc, input, out),
        "varint" => run_as::<TlsVarInt, _, _>(alloc, input, out),
        "option-u16" => run_as::<Option<u16>, _, _>(alloc, input, out),
        "vec-u8" => run_as::<Vec<u8>, _, _>(alloc, input, out),
        "vec-u16" => run_as::<Vec<u16>, _, _>(alloc, input, out),
        "vec-vec-u16" => run_as::<Vec<Vec<u16>>, _, _>(alloc, input, out),
        "string" => run_as::<String, _, _>(alloc, input, out),
        "mixed" => run_as::<(u8, Vec<u16>, Option<String>), _, _>(alloc, input, out),
        "vlbytes" => run_as::<VLBytes, _, _>(alloc, input, out),
        "vec-vlbytes" => run_as::<Vec<VLBytes>, _, _>(alloc, input, out),
        "vecu8-u16" => run_as::<TlsVecU8<u16>, _, _>(alloc, input, out),
        "bytevecu32" => run_as::<TlsByteVecU32, _, _>(alloc, input, out),
        "leaf" => run_as::<Leaf, _, _>(alloc, input, out),
        "step" => run_as::<Step, _, _>(alloc, input, out),
        "log" => run_as::<Log, _, _>(alloc, input, out),
        _ => Err(ViewFault::Kind),
    }
}

// The same, by a type.
fn run_as<T: Show, R: Source, W: Sink>(
    alloc: Global,
    input: &mut R,
    out: &mut W,
) -> Result<bool, ViewFault>
    ensures runs { RunsBy (IsView T.format.spells T.text) R.Source W.Sink input.old input.new
        out.old out.new result }
    ensures gave { Gave R.given input.old input.new }
    ensures input_counts { NoneFell (R.counts input.old) (R.counts input.new) }
    ensures sink_counts { NoneFell (W.counts out.old) (W.counts out.new) }
{
    let text = read_text(alloc, input)?;
    let bytes = decode(alloc, &text)?;
    let view = view_of::<T>(alloc, &bytes)?;
    match write_all(out, view.lines.as_bytes()) {
        Ok(()) => Ok(view.accepted),
        Err(_) => Err(ViewFault::Write),
    }
}
