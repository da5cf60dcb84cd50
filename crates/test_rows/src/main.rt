//! `tlsview` over a table of inputs, as one stored run.
//!
//! Each row of standard input has a kind and the hex of some bytes, `-` for none, with a tab between. The
//! program prints the row again. After it come the exit status of `tlsview` and what `tlsview` prints,
//! each line feed as `\n`, with tabs between. If an accepted input isn't the encoding of its value and
//! the rest, the program prints a line that says so.
//!
//! The rows of `stdout` are the answers of an independent implementation, not of this one.
#![tactic(auto)]

use std::alloc::{AllocError, Global};
use std::io;
use std::io::{BufRead, BufReader, BufWriter, Write};
use tlsview_run::answer::answer;

fn main(rt: HostRuntime) -> io::Result<()> {
    let alloc = rt.alloc();
    let mut out = BufWriter::new(alloc, io::writer(&rt))?;
    for row in BufReader::new(alloc, rt.reader())?.lines(alloc) {
        let row = row?;
        let (kind, hex) = row.split_once('\t').unwrap_or((row.as_str(), "-"));
        let (status, printed) = answer_of(alloc, kind, hex)?;
        write!(out, "{row}\t{status}\t")?;
        write_escaped(&mut out, &printed)?;
        writeln!(out)?;
        if status == 0 && !is_encoding(alloc, hex, &printed)? {
            writeln!(out, "{row}\tnot the encoding of its value")?;
        }
    }
    out.flush()
}

// The exit status, and what is printed.
fn answer_of(alloc: Global, kind: &str, hex: &str) -> Result<(u8, Vec<u8>), AllocError> {
    let words = Vec::from_array(alloc, ["tlsview".to_string(alloc)?, kind.to_string(alloc)?])?;
    let mut input = digits(hex).as_bytes();
    let mut printed = Vec::new(alloc);
    let status = answer(alloc, Ok(words.into_iter()), &mut input, &mut printed);
    Ok((status, printed))
}

// The hex of some bytes; `-` stands for none.
fn digits(hex: &str) -> &str {
    match hex {
        "-" => "",
        _ => hex,
    }
}

// Whether the hex after `least ` and then that after ` rest ` is the input's.
fn is_encoding(alloc: Global, hex: &str, printed: &[u8]) -> Result<bool, AllocError> {
    let Ok(text) = std::str::from_utf8(printed) else {
        return Ok(false);
    };
    let Some((lines, least)) = text.trim_end().rsplit_once("least ") else {
        return Ok(false);
    };
    let Some((_, rest)) = lines.trim_end().rsplit_once(" rest ") else {
        return Ok(false);
    };
    let whole = format!(in alloc; "{}{}", digits(least), digits(rest))?;
    Ok(whole.as_str() == digits(hex))
}

// Writes a text, each line feed as `\n`.
fn write_escaped<W: Write>(out: &mut W, text: &[u8]) -> io::Result<()> {
    for byte in text {
        match byte {
            b'\n' => out.write_all(b"\\n")?,
            _ => out.write_all(&[*byte])?,
        }
    }
    Ok(())
}
