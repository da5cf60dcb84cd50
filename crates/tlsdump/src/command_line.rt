//! The command line: the words that the program takes.

use clap::{Arg, ArgAction, Command};
use std::alloc::{AllocError, Global};

/// The command line.
pub fn command<'a>(alloc: Global) -> Result<Command<'a>, AllocError> {
    let of = Arg::new(alloc, "TYPE").action(ArgAction::Set).help(
        "What the bytes are, such as KeyPackage or tls.Certificate. With auto, or without it: an \
         MLSMessage or a TLS record, by the first bytes",
    );
    let file = Arg::new(alloc, "FILE")
        .action(ArgAction::Set)
        .help("The input; without it, standard input");
    let binary = flag(alloc, "binary", "The input is the bytes themselves");
    let base64 = flag(
        alloc,
        "base64",
        "The input is base64, whatever it looks like",
    );
    let json = flag(alloc, "json", "Print JSON");
    let short = flag(alloc, "short", "Print the first 16 of more than 32 bytes");
    let offsets = flag(
        alloc,
        "offsets",
        "Begin each line with the position of its first byte",
    );
    let list = flag(alloc, "list", "Print the types");
    Command::new(alloc, "tlsdump")
        .version("0.3.0")
        .about(
            "Shows messages of MLS, TLS 1.3 and Certificate Transparency as a tree, one field per line.

The input is hex (with 0x, colons, commas, blanks and line breaks, or a dump as xxd prints it), \
             base64 or, with --binary, the bytes: one message or several in a row, of at most \
             16 MiB (16,777,216 bytes).

The exit status is 0 if all of the input is messages, 1 if a field is rejected (the tree has what is \
             before it, and standard error the field, its byte and what is expected), 2 if the \
             arguments or the input can't be read, 3 if memory or the output fails.",
        )
        .arg(of)?
        .arg(file)?
        .arg(list)?
        .arg(binary)?
        .arg(base64)?
        .arg(json)?
        .arg(short)?
        .arg(offsets)
}

fn flag<'a>(alloc: Global, name: &'a str, help: &'a str) -> Arg<'a> {
    Arg::new(alloc, name)
        .long(name)
        .action(ArgAction::SetTrue)
        .help(help)
}
