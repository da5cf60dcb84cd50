//! Programs that answer a table of inputs, a row each.
ghost use Rattle.std.specs.Prelude.{◌≡◌, ◌≢◌, ◌⊎◌, [], codes, IfSome, None, Ok};
ghost use Rattle.hex.specs.Hex.{decode_of};

use std::alloc::{AllocError, Global};
use std::io;
use std::io::{BufRead, BufReader, BufWriter, Read, Write};

/// Writes each row of the input again, and after it a tab and what `answer` returns of it.
pub fn answer_rows<I, O, A>(alloc: Global, input: I, out: O, answer: A) -> io::Result<()>
where
    I: Read + Drop,
    O: Write + Drop,
    A: Fn(Global, &str) -> Result<String, AllocError>,
    requires { A.IsAlwaysCallable answer }
{
    let mut out = BufWriter::new(alloc, out)?;
    for row in BufReader::new(alloc, input)?.lines(alloc) {
        let row = row?;
        let answered = answer(alloc, row.as_str())?;
        writeln!(out, "{row}\t{answered}")?;
    }
    out.flush()
}

/// The bytes that hex digits stand for; `-` is none.
pub fn bytes_of(alloc: Global, digits: &str) -> Option<Vec<u8>>
    ensures bytes { IfSome result (λ bytes.
        ((digits.now ≡ codes "-") × (bytes.items ≡ [])) ⊎ (decode_of digits.now ≡ Ok bytes.items)) }
    ensures dash { result ≡ None → digits.now ≢ codes "-" }
{
    match digits {
        "-" => Some(Vec::new(alloc)),
        _ => hex::decode(alloc, digits).ok(),
    }
}
