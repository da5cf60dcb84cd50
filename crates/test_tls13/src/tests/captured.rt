//! Messages as OpenSSL 3.0 sent them, in hex digits: each of seven runs.
pub(super) mod basic;
pub(super) mod hrr;
pub(super) mod keyup;
pub(super) mod mtls;
pub(super) mod resume;
pub(super) mod seed;
pub(super) mod tls12;

use std::alloc::Global;
use std::process::Abort;
use std::test::Fail;
use tls_codec::Error;

// A message that TLS 1.3 has. A parser in Python, of these messages alone, gave the types of its
// extensions in their order, and those whose structure RFC 8446 has.
pub(super) struct Row {
    pub name: &'static str,
    pub digits: &'static [&'static str],
    pub extensions: &'static [u16],
    pub opened: &'static [u16],
}

// A message that TLS 1.3 has not.
pub(super) struct Rejected {
    pub name: &'static str,
    pub digits: &'static [&'static str],
    pub error: Error,
}

// The last alert of each run.
pub(super) static ALERTS: [(&str, &[u8]); 7] = [
    ("basic-alert", &[1, 0]),
    ("hrr-alert", &[1, 0]),
    ("keyup-alert", &[1, 0]),
    ("mtls-alert", &[1, 0]),
    ("resume-alert", &[1, 0]),
    ("seed-alert", &[1, 0]),
    ("tls12-alert", &[1, 0]),
];

// The bytes that lines of digits stand for.
pub(super) fn bytes(rt: &impl Abort, alloc: Global, digits: &[&str]) -> Result<Vec<u8>, Fail> {
    let mut bytes = Vec::new(alloc);
    for line in digits {
        let Ok(decoded) = hex::decode(alloc, *line) else {
            panic!(rt; "no hex digits: {line}");
        };
        bytes.extend_from_slice(&decoded)?;
    }
    Ok(bytes)
}
