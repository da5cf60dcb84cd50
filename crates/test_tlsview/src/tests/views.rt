// Worked rows of each kind. The stored run of `test_rows` has two thousand more.
use super::run_on;
use crate::tests::same_at;
use std::test::Fail;

// Each of these rows has a kind and the hex of some bytes. Then come the text of the value that
// they begin with, the rest's hex, and the shortest form's.
#[test]
fn values_are_shown(rt: HostRuntime) -> Result<(), Fail> {
    for (kind, text, value, rest, least) in [
        ("u16", "0007ee", "7", "ee", "0007"),
        ("varint", "4040ee", "64", "ee", "4040"),
        ("option-u16", "010007ee", "some 7", "ee", "010007"),
        ("option-u16", "00", "none", "-", "00"),
        ("vec-u8", "00", "[]", "-", "00"),
        ("vec-u16", "0400010002", "[1,2]", "-", "0400010002"),
        ("vec-vec-u16", "03020001", "[[1]]", "-", "03020001"),
        ("string", "03e282ac", "e282ac", "-", "03e282ac"),
        (
            "mixed",
            "0704000100020102c3a9",
            "(7,[1,2],some c3a9)",
            "-",
            "0704000100020102c3a9",
        ),
        ("vlbytes", "00ee", "-", "ee", "00"),
        ("vec-vlbytes", "02 01 AA", "[aa]", "-", "0201aa"),
        ("vecu8-u16", "0400010002ff", "[1,2]", "ff", "0400010002"),
        ("bytevecu32", "0000000100", "00", "-", "0000000100"),
        ("leaf", "010200", "(258,-)", "-", "010200"),
        ("step", "00ee", "ping", "ee", "00"),
        ("step", "01026869", "note 6869", "-", "01026869"),
        ("step", "0200000005", "jump 5", "-", "0200000005"),
        ("log", "00000000", "(-,[],none)", "-", "00000000"),
        (
            "log",
            "01ab000400010107010200000005",
            "(ab,[(1,07)],some jump 5)",
            "-",
            "01ab000400010107010200000005",
        ),
    ] {
        let read = format!(in rt.alloc(); "ok {value} rest {rest}")?;
        let lines = format!(in rt.alloc(); "slice {read}\nreader {read}\nleast {least}\n")?;
        let (outcome, out) = run_on(rt.alloc(), kind, text.as_bytes());
        same_at(&rt, text, outcome, Ok(true));
        same_at(&rt, text, out.as_slice(), lines.as_bytes());
    }
    Ok(())
}

// Each of these rows has a kind, the hex of some bytes, and the errors by slice and by reader.
#[test]
fn bytes_without_a_spelling_are_refused(rt: HostRuntime) -> Result<(), Fail> {
    let ended = "EndOfStream";
    let wrong = "DecodingError";
    let wide = "InvalidVectorLength";
    for (kind, text, by_slice, by_reader) in [
        ("u16", "", ended, ended),
        ("option-u16", "02", wrong, wrong),
        ("vlbytes", "050102", wrong, ended),
        ("bytevecu32", "ffffffff010203", ended, ended),
        ("mixed", "07030001000200", wrong, ended),
        ("step", "07", "UnknownValue", "UnknownValue"),
        ("varint", "4025ee", wide, wide),
        ("vec-vec-u16", "0440020001", wide, wide),
        ("vec-vlbytes", "03 40 01 AA", wide, wide),
    ] {
        let lines = format!(in rt.alloc();
            "slice refused {by_slice}\nreader refused {by_reader}\n"
        )?;
        let (outcome, out) = run_on(rt.alloc(), kind, text.as_bytes());
        same_at(&rt, text, outcome, Ok(false));
        same_at(&rt, text, out.as_slice(), lines.as_bytes());
    }
    Ok(())
}
