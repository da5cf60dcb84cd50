//! What elements of lists take in memory, as docs/QUESTIONS.md has it.
use std::mem::size_of;
use std::test::Fail;
use test_support::rows::same;
use tls13::{CertificateEntry, Extension};

// Memory for each byte of the input: room for four elements, over the fewest bytes of one. Other lists of a `Handshake` take no more.
#[test]
fn lists_in_memory() -> Result<(), Fail> {
    let hello = 4 * size_of::<Extension>() / 4; // ClientHello: an element has 4 bytes or more
    let certificate = 4 * size_of::<CertificateEntry>() / 6; // Certificate: 6 or more
    same([hello, certificate], [32, 32])
}
