//! `tlsview KIND` shows how bytes are read as a value of one type.
//!
//! It reads a hex text from standard input to its end, and drops the tabs, line feeds, carriage
//! returns and spaces in it. Then it prints what each of the two decoders returns for the bytes,
//! and the value's shortest form:
//!
//! ```text
//! $ echo 010007ee | tlsview option-u16
//! slice ok some 7 rest ee
//! reader ok some 7 rest ee
//! least 010007
//! ```
//!
//! Bytes that begin with no encoding give two lines such as `slice refused EndOfStream`. The exit
//! status is 0 if a value is read, 1 if none is, and 2 if there is no view. Then the only line is
//! `error kind`, `error long`, `error read`, `error hex` or `error memory`; if standard output
//! failed, there is none.
//!
//! The program's crate has only a `main` that calls [`program`], so that stored runs with other
//! arguments are programs of the same text.
//!
//! - [`answer`]: [`answer`](answer::answer), the program over its words, any input and any sink.
//! - [`run`]: [`run`](run::run), of one kind, and what types the kinds are. `view_input` has how
//!   its input is read.
//! - [`view`]: the lines that are printed of some bytes.
//! - [`show`]: [`Show`](show::Show), the text of a value.
//! - [`fault`]: [`ViewFault`](fault::ViewFault), why there is no view.
//! - [`laws`]: how faults are compared, and which kinds there are.
#![tactic(auto)]

ghost use Rattle.tlsview_run.specs.Endings.{EndsBySomeWords};

pub mod answer;
pub mod fault;
pub mod laws;
pub mod run;
pub mod show;
pub mod view;

use std::env;
use std::env::Env;
use std::io::{Read, Write};
use std::process::ExitCode;
use tls_codec::{Outside, Sink, Source};

/// All of `main`: its words are those of the process. std says nothing of them, and so the contract is
/// that of the [answer](answer::answer) to some words.
pub fn program<E: Env + AllocGlobal, R: Read + Drop, W: Write + Drop>(
    rt: &E,
    input: R,
    out: W,
) -> ExitCode
    ensures { EndsBySomeWords ⟦<Outside<R> as Source>⟧ ⟦<Outside<W> as Sink>⟧
        (R.remaining input) (W.contents out) result }
{
    let mut input = Outside::new(input);
    let mut out = Outside::new(out);
    let status = answer::answer(rt.alloc(), env::args(rt), &mut input, &mut out);
    ExitCode::from(status)
}
