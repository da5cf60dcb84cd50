//! The program, from its arguments to its exit status.

use crate::answer::{Answer, json, tree};
use crate::command_line::command;
use crate::dump::dump_of;
use crate::input::{InputError, LONGEST, LONGEST_TEXT, read};
use crate::kinds::{Kind, Named, PROTOCOLS, Protocol, kind_of, recognised};
use crate::notation::{Notation, NotationError, bytes_of};
use crate::show::PrintOptions;
use crate::texts::definitions;
use clap::ArgMatches;
use std::alloc::{AllocError, Global};
use std::env::Env;
use std::io::Read;
use std::process::ExitCode;
use std::rt::Files;
use std::{env, fs};
use tlsgen_syntax::syntax::Item;

// Each message was shown.
const ALL: u8 = 0;
// A field was rejected.
const REJECTED: u8 = 1;
// The arguments or the input can't be read.
const UNREAD: u8 = 2;
// Memory or the output failed.
const FAILED: u8 = 3;

/// All of `main`.
pub fn program<R: Env + Files + Print + Eprint + AllocGlobal, I: Read + Drop>(
    rt: &R,
    input: I,
) -> ExitCode {
    match run(rt, input) {
        Ok(status) => ExitCode::from(status),
        Err(error) => {
            let _ = eprintln!(rt; "tlsdump: {error}");
            ExitCode::from(FAILED)
        }
    }
}

// Does what the arguments say. It fails if memory runs out, or if the output has no room.
fn run<R: Env + Files + Print + Eprint + AllocGlobal, I: Read + Drop>(
    rt: &R,
    input: I,
) -> anyhow::Result<u8> {
    let alloc = rt.alloc();
    let words: Vec<String> = env::args(rt)?.collect(alloc)?;
    let matches = match command(alloc)?.try_get_matches_from(words.as_slice()) {
        Ok(matches) => matches,
        Err(error) => {
            error.print(rt)?;
            return Ok(error.exit_code() as u8);
        }
    };
    if matches.get_flag("list") {
        print!(rt; "{}", list(alloc)?)?;
        return Ok(ALL);
    }
    print_input(rt, input, &matches)
}

// Prints the messages of the input: those of the type that an argument names, or that the first
// bytes are taken for.
fn print_input<R: Files + Print + Eprint + AllocGlobal, I: Read + Drop>(
    rt: &R,
    input: I,
    matches: &ArgMatches<'_>,
) -> anyhow::Result<u8> {
    let word = matches.get_str("TYPE").unwrap_or("auto");
    let kind = match kind_of(word) {
        Named::One(kind) => Some(kind),
        Named::Nothing if word == "auto" => None,
        unknown => {
            print_unknown(rt, word, unknown)?;
            return Ok(UNREAD);
        }
    };
    let Some(bytes) = bytes_from(rt, input, matches)? else {
        return Ok(UNREAD);
    };
    let found = match kind {
        None => recognised(bytes.as_slice()),
        named => named,
    };
    let Some(kind) = found else {
        eprintln!(rt;
            "tlsdump: the input begins like neither an MLSMessage nor a TLS record: give a TYPE \
             (--list prints them)"
        )?;
        return Ok(UNREAD);
    };
    print_messages(rt, kind, matches, bytes.as_slice())
}

// Prints why a word names no type.
fn print_unknown<R: Eprint + AllocGlobal>(
    rt: &R,
    word: &str,
    named: Named<'_>,
) -> anyhow::Result<()> {
    match named {
        Named::Several => eprintln!(rt;
            "tlsdump: {word} names several types: write {}",
            types_named(rt.alloc(), word)?
        )?,
        _ => eprintln!(rt; "tlsdump: there is no type {word}: --list prints them")?,
    }
    Ok(())
}

// The types of this name, such as `mls.Extension or tls.Extension`.
fn types_named(alloc: Global, name: &str) -> Result<String, AllocError> {
    let mut out = String::new(alloc);
    for protocol in PROTOCOLS {
        if protocol.has(name) {
            if !out.is_empty() {
                out.push_str(" or ")?;
            }
            write!(&mut out, "{}.{name}", protocol.word())?;
        }
    }
    Ok(out)
}

// The bytes that the input encodes, or prints why there are none.
fn bytes_from<R: Files + Eprint + AllocGlobal, I: Read + Drop>(
    rt: &R,
    input: I,
    matches: &ArgMatches<'_>,
) -> anyhow::Result<Option<Vec<u8>>> {
    let notation = notation_of(matches);
    let Some(text) = read_input(rt, input, matches.get_str("FILE"), notation)? else {
        return Ok(None);
    };
    match bytes_of(rt.alloc(), notation, text) {
        Ok(bytes) if bytes.len() <= LONGEST => return Ok(Some(bytes)),
        Ok(_) => eprintln!(rt; "tlsdump: the input has more than {LONGEST} bytes of messages")?,
        Err(error) => print_error(rt, error)?,
    }
    Ok(None)
}

// How the input encodes bytes, by the arguments.
fn notation_of(matches: &ArgMatches<'_>) -> Notation {
    if matches.get_flag("binary") {
        Notation::Binary
    } else if matches.get_flag("base64") {
        Notation::Base64
    } else {
        Notation::Text
    }
}

// Prints the messages of a type that bytes are, up to a rejected field.
fn print_messages<R: Print + Eprint + AllocGlobal>(
    rt: &R,
    kind: Kind<'_>,
    matches: &ArgMatches<'_>,
    bytes: &[u8],
) -> anyhow::Result<u8> {
    let alloc = rt.alloc();
    let Ok(definitions) = definitions(alloc, kind.protocol) else {
        return Err(AllocError.into());
    };
    let options = PrintOptions {
        has_offsets: matches.get_flag("offsets"),
        is_short: matches.get_flag("short"),
    };
    let dump = dump_of(alloc, &definitions, kind, bytes)?;
    let Answer { shown, reason } = if matches.get_flag("json") {
        json(alloc, kind.name, &dump)?
    } else {
        tree(alloc, options, &dump)?
    };
    print!(rt; "{shown}")?;
    if dump.rejection.is_none() {
        return Ok(ALL);
    }
    eprintln!(rt; "tlsdump: {reason}")?;
    Ok(REJECTED)
}

// All that the input has, or prints why it isn't read.
fn read_input<R: Files + Eprint + AllocGlobal, I: Read + Drop>(
    rt: &R,
    mut input: I,
    file: Option<&str>,
    notation: Notation,
) -> anyhow::Result<Option<Vec<u8>>> {
    let alloc = rt.alloc();
    let most = match notation {
        Notation::Binary => LONGEST,
        _ => LONGEST_TEXT,
    };
    let found = match file {
        None => read(alloc, &mut input, most),
        Some(path) => match fs::open(rt, path) {
            Ok(mut file) => read(alloc, &mut file, most),
            Err(error) => {
                eprintln!(rt; "tlsdump: {path}: {error}")?;
                return Ok(None);
            }
        },
    };
    match found {
        Ok(text) => return Ok(Some(text)),
        Err(InputError::Long) => eprintln!(rt; "tlsdump: the input has more than {most} bytes")?,
        Err(InputError::Failed) => eprintln!(rt; "tlsdump: the input failed")?,
        Err(InputError::Memory) => return Err(AllocError.into()),
    }
    Ok(None)
}

// Prints why a text stands for no bytes. Refused memory is no error of the text.
fn print_error<R: Eprint>(rt: &R, error: NotationError) -> anyhow::Result<()> {
    match error {
        NotationError::Digit { line, column, byte } => eprintln!(rt;
            "tlsdump: line {line}, column {column}: 0x{byte:02x} is no hex digit; --binary takes \
             the bytes themselves, --base64 base64"
        )?,
        NotationError::Odd(count) => eprintln!(rt;
            "tlsdump: an odd number of hex digits ({count}); --binary takes the bytes themselves"
        )?,
        NotationError::Base64 => eprintln!(rt;
            "tlsdump: the input looks like base64, but isn't; --binary takes the bytes themselves"
        )?,
        NotationError::Memory => return Err(AllocError.into()),
    }
    Ok(())
}

// The types, each with the section that has it.
fn list(alloc: Global) -> Result<String, AllocError> {
    let mut out = String::new(alloc);
    for protocol in PROTOCOLS {
        let Ok(definitions) = definitions(alloc, protocol) else {
            return Err(AllocError);
        };
        for file in definitions.files() {
            for item in &file.items {
                push_type(&mut out, protocol, item)?;
            }
        }
    }
    Ok(out)
}

// Adds a definition if it is a type.
fn push_type(out: &mut String, protocol: Protocol, item: &Item) -> Result<(), AllocError> {
    let name = item.name();
    if protocol.has(name.text.as_str()) {
        writeln!(
            out,
            "{}.{} ({})",
            protocol.word(),
            name.text,
            name.remark.section
        )?;
    }
    Ok(())
}
