//! `tlsview KIND` shows how bytes are read as a value of one type: see `tlsview_run`.
#![tactic(auto)]

use std::process::ExitCode;

fn main(rt: HostRuntime) -> ExitCode {
    tlsview_run::program(&rt, rt.stdin(), rt.stdout())
}
