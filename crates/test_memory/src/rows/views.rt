//! A run of `tlsview`, and its parts: the text, the bytes of that, and the lines of a value.
use super::{Requests, Wrong, same};
use std::alloc::Global;
use tls_codec::Outside;
use tlsview_run::fault::ViewFault;
use tlsview_run::run::run;
use tlsview_run::view::view_of;
use view_input::fault::InputFault;
use view_input::text::{decode, read_text};

pub fn all(alloc: Global, requests: &mut Requests) -> Result<(), Wrong> {
    a_text(alloc, requests)?;
    a_view(alloc, requests)?;
    a_view_of_a_refusal(alloc, requests)?;
    a_run(alloc, requests)
}

// A refused piece of the input has been taken from it.
fn a_text(alloc: Global, requests: &mut Requests) -> Result<(), Wrong> {
    requests.begin("a_text");
    let text = b"07\n".as_slice();
    let mut input = text;
    let outcome = counted!(
        requests,
        1,
        read_text(alloc, &mut input),
        InputFault::Memory,
        {
            same(input.is_empty(), true)?;
            input = text;
        }
    );
    let found = outcome?;
    same(found.as_slice(), text)?;
    let outcome = counted!(requests, 2, decode(alloc, &found), InputFault::Memory, ());
    same(outcome?.as_slice(), [7].as_slice())?;
    Ok(())
}

fn a_view(alloc: Global, requests: &mut Requests) -> Result<(), Wrong> {
    requests.begin("a_view");
    let outcome = counted!(
        requests,
        6,
        view_of::<u8>(alloc, &[7]),
        ViewFault::Memory,
        ()
    );
    let view = outcome?;
    let lines = "slice ok 7 rest -\nreader ok 7 rest -\nleast 07\n";
    same(view.lines.as_str(), lines)?;
    same(view.accepted, true)?;
    Ok(())
}

fn a_view_of_a_refusal(alloc: Global, requests: &mut Requests) -> Result<(), Wrong> {
    requests.begin("a_view_of_a_refusal");
    let outcome = counted!(
        requests,
        4,
        view_of::<u8>(alloc, &[]),
        ViewFault::Memory,
        ()
    );
    let view = outcome?;
    let lines = "slice refused EndOfStream\nreader refused EndOfStream\n";
    same(view.lines.as_str(), lines)?;
    same(view.accepted, false)?;
    Ok(())
}

// The sink takes no memory, so what is refused is the run's own request.
fn a_run(alloc: Global, requests: &mut Requests) -> Result<(), Wrong> {
    requests.begin("a_run");
    let text = b"010007ee\n".as_slice();
    let lines = b"slice ok some 7 rest ee\nreader ok some 7 rest ee\nleast 010007\n".as_slice();
    let mut input = text;
    let mut out = [0; 64];
    let outcome = counted!(
        requests,
        11,
        run(
            alloc,
            "option-u16",
            &mut input,
            &mut Outside::new(out.as_mut_slice())
        ),
        ViewFault::Memory,
        {
            same(out, [0; 64])?;
            input = text;
        }
    );
    same(outcome, Ok(true))?;
    same(out.get(..lines.len()), Some(lines))
}
