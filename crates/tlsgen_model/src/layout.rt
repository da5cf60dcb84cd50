//! Where two sources differ in more than their layout: blanks, line feeds, tabs, and a comma before a closing bracket.
//!
//! ```rust
//! let written = b"struct { a: u8 }";
//! assert_eq!(rt; first_difference(written, b"struct {\n    a: u8,\n}"), None);
//! assert_eq!(rt; first_difference(written, b"struct {\n    b: u8,\n}"), Some(2));
//! ```
ghost use Rattle.std.specs.Prelude.{◌≡◌, [], ◌∷◌, ◌<◌, length, IfSome, MatchOption};
ghost use Rattle.tlsgen_model.specs.Layout.{closes, is_blank, is_closing, is_layout, significant};

/// The line of `theirs`, from 1, at which it first differs from `ours` in more than layout.
pub fn first_difference(ours: &[u8], theirs: &[u8]) -> Option<usize>
    ensures { MatchOption result
        (significant ours.now ≡ significant theirs.now)
        (λ _. significant ours.now ≡ significant theirs.now → ⊥) }
{
    let mut mine = ours;
    let mut other = theirs;
    loop {
        let next = next_byte(mine);
        let found = next_byte(other);
        match (next, found) {
            (None, None) => return None,
            (Some((byte, after)), Some((same, left))) if byte == same => {
                mine = after;
                other = left;
            }
            (_, Some((_, left))) => return Some(line_before(theirs, left.len())),
            (_, None) => return Some(line_before(theirs, 0)),
        }
    }
}

// The line, from 1, on which the byte before the last `left` bytes of a text is.
fn line_before(text: &[u8], left: usize) -> usize {
    let taken = text.len().saturating_sub(left);
    let mut line = 1usize;
    for byte in text.iter().take(taken) {
        if *byte == b'\n' {
            line = line.saturating_add(1);
        }
    }
    line
}

// The first byte that is no layout, and what is after it.
fn next_byte(text: &[u8]) -> Option<(u8, &[u8])>
    ensures next { MatchOption result (significant text.now ≡ [])
        (λ found. significant text.now ≡ found.0 ∷ significant found.1.now) }
    ensures shorter { IfSome result (λ found. length found.1.now < length text.now) }
{
    let mut rest = text;
    while let Some((byte, after)) = rest.split_first() {
        if !is_layout_before(*byte, after) {
            return Some((*byte, after));
        }
        rest = after;
    }
    None
}

// Whether a byte is layout before these: a blank, or a comma before a closing bracket.
fn is_layout_before(byte: u8, after: &[u8]) -> bool
    ensures { result ≡ is_layout byte after.now }
{
    blank(byte) || byte == b',' && closing_is_next(after)
}

fn blank(byte: u8) -> bool
    ensures { result ≡ is_blank byte }
{
    byte == b' ' || byte == b'\n' || byte == b'\t' || byte == b'\r'
}

fn closing(byte: u8) -> bool
    ensures { result ≡ is_closing byte }
{
    byte == b')' || byte == b']' || byte == b'}' || byte == b'>'
}

// Whether a closing bracket comes next, after any blanks.
fn closing_is_next(text: &[u8]) -> bool
    ensures { result ≡ closes text.now }
{
    let mut rest = text;
    while let Some((byte, after)) = rest.split_first() {
        if !blank(*byte) {
            return closing(*byte);
        }
        rest = after;
    }
    false
}
