//! The command line.

use clap::{Arg, ArgAction, Command};
use std::alloc::{AllocError, Global};

/// The command line of the program: `INPUT --crate NAME [--notes FILE] [--with NAME=FILE].. [--to FOLDER | --compare FOLDER]`.
pub fn command<'a>(alloc: Global) -> Result<Command<'a>, AllocError> {
    let input = Arg::new(alloc, "INPUT")
        .required(true)
        .action(ArgAction::Set)
        .help("A file with messages in the presentation language of TLS");
    let name = Arg::new(alloc, "crate")
        .long("crate")
        .value_name("NAME")
        .required(true)
        .action(ArgAction::Set)
        .help("The name of the crate whose sources are written");
    let notes = Arg::new(alloc, "notes")
        .long("notes")
        .value_name("FILE")
        .action(ArgAction::Set)
        .help("What the RFC says of INPUT in prose, as `Handshake.length counts rest;`");
    let with = Arg::new(alloc, "with")
        .long("with")
        .value_name("NAME=FILE[,NOTES]")
        .action(ArgAction::Append)
        .help("Another crate, and the file that it was written for: its types may be named");
    let to = Arg::new(alloc, "to")
        .long("to")
        .value_name("FOLDER")
        .action(ArgAction::Set)
        .help("Write the files into this folder");
    let compare = Arg::new(alloc, "compare")
        .long("compare")
        .value_name("FOLDER")
        .action(ArgAction::Set)
        .conflicts_with("to")?
        .help("Compare the files of this folder with what would be written, but for layout");
    Command::new(alloc, "tlsgen")
        .about(
            "Writes a crate of proved messages from the presentation language of TLS (RFC 8446, section 3)",
        )
        .arg(input)?
        .arg(name)?
        .arg(notes)?
        .arg(with)?
        .arg(to)?
        .arg(compare)
}
