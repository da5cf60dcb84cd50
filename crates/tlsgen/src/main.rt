//! `tlsgen INPUT --crate NAME` writes the sources of a crate from messages in the presentation language of TLS
//! (RFC 8446, section 3; RFC 9420, section 2.1): code, definitions and answers, which the prover then checks.
//!
//! It prints each file after a line with its path. With `--to FOLDER` it writes them there. With
//! `--compare FOLDER` it ends with status 0 if the files there differ at most in layout. Else it
//! ends with status 1 and prints the first line that differs, or the first file that can't be read
//! or isn't written. `--notes FILE` has what the RFC says of the text in prose. `--with NAME=FILE`,
//! or `NAME=FILE,NOTES`, names another crate and its input: the text may name its types. A text
//! that is rejected or can't be read, and a file that can't be written, end it with status 2. It
//! writes nothing before it has read the whole text.
//!
//! - [`command_line`]: the command line.
//! - [`texts`]: the texts of a crate and of those that it is over.
//! - [`files`]: printing, writing and comparing files.
#![tactic(auto)]

mod command_line;
mod files;
mod texts;

use clap::ArgMatches;
use command_line::command;
use std::process::ExitCode;
use std::rt::Files;
use std::{env, fs};
use texts::Texts;
use tlsgen_emit::file::files_of;
use tlsgen_model::names::is_crate_name;
use tlsgen_model::plan::Plan;
use tlsgen_syntax::rejection::Trouble;

// The status after a text that is rejected, and after words that aren't understood.
const REJECTED: u8 = 2;

fn main(rt: HostRuntime) -> anyhow::Result<ExitCode> {
    let alloc = rt.alloc();
    let words: Vec<String> = env::args(&rt)?.collect(alloc)?;
    let matches = match command(alloc)?.try_get_matches_from(words.as_slice()) {
        Ok(matches) => matches,
        Err(error) => {
            error.print(&rt)?;
            return Ok(ExitCode::from(error.exit_code() as u8));
        }
    };
    let mut texts = Texts::new(alloc);
    let Some(plan) = planned(&rt, &mut texts, &matches)? else {
        return Ok(ExitCode::from(REJECTED));
    };
    let written = files_of(
        alloc,
        matches.get_str("crate").unwrap_or(""),
        texts.crates.as_slice(),
        texts.heading.as_str(),
        &plan,
    )?;
    if let Some(folder) = matches.get_str("to") {
        return files::write_to(&rt, folder, written.as_slice());
    }
    if let Some(folder) = matches.get_str("compare") {
        return files::compare_with(&rt, folder, written.as_slice());
    }
    files::print(&rt, written.as_slice())
}

// The plan of the crate that the words ask for, or prints why there is none.
fn planned<R: Eprint + AllocGlobal + Files>(
    rt: &R,
    texts: &mut Texts,
    matches: &ArgMatches<'_>,
) -> anyhow::Result<Option<Plan>> {
    let is_read = is_named(rt, "--crate", matches.get_str("crate").unwrap_or(""))?
        && are_folders(rt, matches)?
        && add_others(rt, texts, matches.get_strs("with").unwrap_or(&[]))?
        && add(
            rt,
            texts,
            matches.get_str("INPUT").unwrap_or(""),
            matches.get_str("notes"),
        )?;
    if !is_read {
        return Ok(None);
    }
    plan(rt, texts)
}

// Returns whether a crate can have a name, or prints that it can't.
fn is_named<R: Eprint>(rt: &R, word: &str, name: &str) -> anyhow::Result<bool> {
    if is_crate_name(name) {
        return Ok(true);
    }
    eprintln!(rt;
        "{word} {name}: expected a crate's name, of small letters, digits and _, and no word of Rust"
    )?;
    Ok(false)
}

// Returns whether the folders that are given have names, or prints which hasn't.
fn are_folders<R: Eprint>(rt: &R, matches: &ArgMatches<'_>) -> anyhow::Result<bool> {
    for word in ["to", "compare"] {
        if matches.get_str(word) == Some("") {
            eprintln!(rt; "--{word}: expected a folder")?;
            return Ok(false);
        }
    }
    Ok(true)
}

// Adds the texts of other crates, each given as `NAME=FILE` or `NAME=FILE,NOTES`. Returns whether all were read.
fn add_others<R: Eprint + AllocGlobal + Files>(
    rt: &R,
    texts: &mut Texts,
    words: &[&str],
) -> anyhow::Result<bool> {
    for word in words {
        let Some((name, path)) = word.split_once('=') else {
            eprintln!(rt; "--with {word}: expected NAME=FILE or NAME=FILE,NOTES")?;
            return Ok(false);
        };
        if !is_named(rt, "--with", name)? {
            return Ok(false);
        }
        let (path, notes) = match path.split_once(',') {
            Some((path, notes)) => (path, Some(notes)),
            None => (path, None),
        };
        if !add(rt, texts, path, notes)? {
            return Ok(false);
        }
        texts.end_crate(rt.alloc(), name)?;
    }
    Ok(true)
}

// Adds a file's text and its notes, if there are any, or prints why one can't be read.
fn add<R: Eprint + AllocGlobal + Files>(
    rt: &R,
    texts: &mut Texts,
    path: &str,
    notes: Option<&str>,
) -> anyhow::Result<bool> {
    let Some(text) = read(rt, path)? else {
        return Ok(false);
    };
    if let Err(trouble) = texts.add(rt.alloc(), path, without_mark(text.as_str())) {
        print_trouble(rt, path, trouble)?;
        return Ok(false);
    }
    match notes {
        Some(path) => add_notes(rt, texts, path),
        None => Ok(true),
    }
}

// Adds the notes of the text that was added last, or prints why they can't be read.
fn add_notes<R: Eprint + AllocGlobal + Files>(
    rt: &R,
    texts: &mut Texts,
    path: &str,
) -> anyhow::Result<bool> {
    let Some(text) = read(rt, path)? else {
        return Ok(false);
    };
    if let Err(trouble) = texts.add_notes(rt.alloc(), path, without_mark(text.as_str())) {
        print_trouble(rt, path, trouble)?;
        return Ok(false);
    }
    Ok(true)
}

// The text of a file, or prints why it can't be read.
fn read<R: Eprint + AllocGlobal + Files>(rt: &R, path: &str) -> anyhow::Result<Option<String>> {
    match fs::read_to_string(rt, path) {
        Ok(text) => Ok(Some(text)),
        Err(error) => {
            eprintln!(rt; "{path}: {error}")?;
            Ok(None)
        }
    }
}

// A text without a mark of the byte order, which editors may put first.
fn without_mark(text: &str) -> &str {
    text.strip_prefix('\u{feff}').unwrap_or(text)
}

// The plan of the crate, or prints why a text is rejected.
fn plan<R: Eprint + AllocGlobal>(rt: &R, texts: &mut Texts) -> anyhow::Result<Option<Plan>> {
    match texts.plan(rt.alloc()) {
        Ok(plan) => Ok(Some(plan)),
        Err(error) => {
            let homes = texts.homes(rt.alloc(), &error)?;
            print_trouble(rt, texts.path(&error), error.trouble)?;
            if !homes.is_empty() {
                eprintln!(rt; "of other crates, this name is in: {homes}")?;
            }
            Ok(None)
        }
    }
}

fn print_trouble<R: Eprint>(rt: &R, path: &str, trouble: Trouble) -> anyhow::Result<()> {
    match trouble {
        Trouble::Rejected(rejection) => eprintln!(rt; "{path}: {rejection}")?,
        Trouble::Memory => eprintln!(rt; "{path}: out of memory")?,
        Trouble::Inconsistent => {
            eprintln!(rt; "{path}: a fault of tlsgen, not of this text; please report it")?;
        }
    }
    Ok(())
}
