//! The lines that are printed of some bytes.
ghost use Rattle.std.specs.Prelude.{◌≡◌, ◌≢◌, ◌++◌, IfOk, IfErr, OnOk, codes, string_bytes};
ghost use Rattle.tls_codec.specs.Errors.{OutOfMemory, name_of};
ghost use Rattle.tlsview_run.specs.View.{AppendsLeast, IsView, ok_line, refused_line};

use crate::fault::ViewFault;
use crate::show::{Show, push_hex};
use std::alloc::{AllocError, Global};
use tls_codec::Error;

/// The lines that are printed of some bytes.
#[derive(Drop)]
pub struct View {
    /// The lines, each ended by a line feed.
    pub lines: String,
    /// Whether the bytes begin with an encoding.
    pub accepted: bool,
}

/// Reads a value by both paths, and shows what each of them returns.
///
/// `Memory` is an `OutOfMemory` of either path, or memory that the lines ask for.
pub fn view_of<T: Show>(alloc: Global, bytes: &[u8]) -> Result<View, ViewFault>
    ensures ok { IfOk result
        (λ view. IsView T.format.spells T.text bytes.now view.accepted (string_bytes view.lines)) }
    ensures err { IfErr result (λ fault. fault ≡ ViewFault.Memory) }
{
    let mut left = bytes;
    let by_slice = T::tls_deserialize_bytes(alloc, bytes);
    let by_reader = T::tls_deserialize(alloc, &mut left);
    let mut lines = String::new(alloc);
    match (by_slice, by_reader) {
        (Ok((value, rest)), Ok(again)) => {
            show_value(alloc, &mut lines, "slice", &value, rest)?;
            show_value(alloc, &mut lines, "reader", &again, left)?;
            show_least(alloc, &mut lines, &value)?;
            Ok(View {
                lines,
                accepted: true,
            })
        }
        (Err(by_slice), Err(by_reader)) => {
            show_refusal(&mut lines, "slice", by_slice)?;
            show_refusal(&mut lines, "reader", by_reader)?;
            Ok(View {
                lines,
                accepted: false,
            })
        }
        (Ok(_), Err(error)) => Err(no_memory(error)),
        (Err(error), Ok(_)) => Err(no_memory(error)),
    }
}

// The two paths accept the same bytes, so one that rejects what the other accepts is out of
// memory.
fn no_memory(_error: Error) -> ViewFault
    requires { _error ≡ OutOfMemory }
    ensures { result ≡ ViewFault.Memory }
{
    ViewFault::Memory
}

// Appends the line of a path that reads a value.
fn show_value<T: Show>(
    alloc: Global,
    out: &mut String,
    path: &str,
    value: &T,
    rest: &[u8],
) -> Result<(), AllocError>
    ensures { OnOk result (string_bytes out.new
        ≡ string_bytes out.old ++ ok_line path.now (T.text (T.plain value.now)) rest.now) }
{
    write!(out, "{path} ok ")?;
    value.show(alloc, out)?;
    out.push_str(" rest ")?;
    push_hex(alloc, out, rest)?;
    out.push_str("\n")
}

// Appends the line of a path that rejects the bytes. An `OutOfMemory` has no line.
fn show_refusal(out: &mut String, path: &str, error: Error) -> Result<(), ViewFault>
    ensures line { OnOk result (string_bytes out.new
        ≡ string_bytes out.old ++ refused_line path.now (name_of error)) }
    ensures of_bytes { OnOk result (error ≢ OutOfMemory) }
    ensures err { IfErr result (λ fault. fault ≡ ViewFault.Memory) }
{
    if let Error::OutOfMemory = error {
        return Err(ViewFault::Memory);
    }
    let name = error.name();
    writeln!(out, "{path} refused {name}")?;
    Ok(())
}

// Appends the line of the value's shortest form.
//
// A value that was read has a shortest form, no longer than what was read. So an encoder fails
// only if memory runs out.
fn show_least<T: Show>(alloc: Global, out: &mut String, value: &T) -> Result<(), AllocError>
    ensures { OnOk result
        (AppendsLeast T.format.spells (T.plain value.now) (string_bytes out.old)
        (string_bytes out.new)) }
{
    let Ok(form) = value.tls_serialize_detached(alloc) else {
        return Err(AllocError);
    };
    out.push_str("least ")?;
    push_hex(alloc, out, &form)?;
    out.push_str("\n")
}
