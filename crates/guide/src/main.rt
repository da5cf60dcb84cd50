//! `guide [FILE]` reads an extension of MLS from a file, or from standard input, and writes its
//! canonical encoding to standard output.
//!
//! It is a program as a user of `tls_codec` writes it; docs/GUIDE.md goes through it.
//!
//! - [`extension`]: [`Extension`](extension::Extension), a message of your own.
//! - [`rewrite`]: [`rewrite`](rewrite::rewrite), from any source to any sink.
//! - [`chained`]: [`Chained`](chained::Chained), a source of your own.
//! - [`aad`]: [`PrivateContentAad`](aad::PrivateContentAad), a message of four fields.
//! - [`border`]: [`find`](border::find), a check of bytes from outside.
//! - [`credential`]: [`Credential`](credential::Credential), an enum.
//! - [`hello_extension`]: [`HelloExtension`](hello_extension::HelloExtension), an enum with a case for every
//!   other tag; and [`hello_extension_for`], where its tag was read before.
//! - [`signed`]: [`Signed`](signed::Signed), a message with a part that an earlier field decides; and
//!   [`auth_data`]: [`AuthData`](auth_data::AuthData), that part.
#![tactic(auto)]

pub mod aad;
pub mod auth_data;
pub mod border;
#[cfg(test)]
mod border_tests;
pub mod chained;
pub mod credential;
#[cfg(test)]
mod credential_tests;
pub mod extension;
pub mod hello_extension;
pub mod hello_extension_for;
#[cfg(test)]
mod hello_extension_tests;
#[cfg(test)]
mod readme_tests;
pub mod rewrite;
pub mod signed;
#[cfg(test)]
mod signed_tests;
#[cfg(test)]
mod tests;

use rewrite::rewrite;
use std::env;
use std::fs::File;
use std::process::ExitCode;
use tls_codec::{Error, Outside};

fn main(rt: HostRuntime) -> Result<ExitCode, Error> {
    let alloc = rt.alloc();
    let mut output = Outside::new(rt.stdout());
    let words: Vec<String> = env::args(&rt)?.collect(alloc)?;
    match words.as_slice() {
        [_program, path] => match File::open(&rt, path.as_str()) {
            Ok(file) => rewrite(alloc, &mut Outside::new(file), &mut output)?,
            Err(error) => {
                eprintln!(rt; "{path}: {error}")?;
                return Ok(ExitCode::FAILURE);
            }
        },
        _ => rewrite(alloc, &mut Outside::new(rt.stdin()), &mut output)?,
    };
    Ok(ExitCode::SUCCESS)
}
