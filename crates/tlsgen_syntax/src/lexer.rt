//! Cuts a text into its words, numbers and marks.
ghost use Rattle.std.specs.Prelude.{◌≡◌, ◌<◌, ◌≤◌, length, IfSome, MatchOption};
ghost use Rattle.tlsgen_syntax.specs.Comments.{GoesOn, IsComment};

use crate::comments::{Comment, comment_of};
use crate::cursor::Cursor;
use crate::rejection::{Place, Trouble};
use crate::remarks::give;
use crate::syntax::Remark;
use crate::token::{Mark, Token, TokenKind};
use std::alloc::{AllocError, Global};

/// The words, numbers and marks of a text, in order, without its blanks. What its comments say of a name is with that.
///
/// Rejects a character outside ASCII, also in a comment; a number past 64 bits; a comment that doesn't end; a name with a
/// hyphen; any other character that begins no word, number or mark.
pub fn lex(alloc: Global, text: &str) -> Result<Vec<Token>, Trouble> {
    if !text.is_ascii() {
        return Err(outside(alloc, text));
    }
    let mut cursor = Cursor::new(text);
    let mut tokens = Vec::new(alloc);
    let mut comments = Vec::new(alloc);
    skip_blanks(&mut cursor, 0, &mut comments)?;
    'more: while !cursor.left().is_empty() {
        let place = cursor.place();
        let count = token_len(cursor.left());
        let kind = kind_of(alloc, cursor.take(count), place)?;
        let remark = Remark::none(alloc);
        tokens.push(Token {
            kind,
            place,
            remark,
        })?;
        skip_blanks(&mut cursor, tokens.len(), &mut comments)?;
    }
    give(alloc, &mut tokens, &comments)?;
    Ok(tokens)
}

// The error for the first character outside ASCII.
fn outside(alloc: Global, text: &str) -> Trouble {
    let place = text
        .bytes()
        .take_while(|byte| byte.is_ascii())
        .fold(Place::START, |place, byte| place.after(byte));
    let found = text
        .chars()
        .filter(|c| !c.is_ascii())
        .take(1)
        .collect(alloc);
    Trouble::at(place, found, "an ASCII character")
}

// Skips blanks and comments. It keeps each comment with `before`, the number of tokens before it.
fn skip_blanks<'a>(
    cursor: &mut Cursor<'a>,
    before: usize,
    comments: &mut Vec<Comment<'a>>,
) -> Result<(), AllocError>
    ensures { length cursor.new.left.now ≤ length cursor.old.left.now }
{
    'more: loop {
        let count = blank_len(cursor.left());
        if count == 0 {
            return Ok(());
        }
        let place = cursor.place();
        let text = cursor.take(count);
        if let Some(comment) = comment_of(text, place, cursor.place(), before) {
            comments.push(comment)?;
        }
    }
}

// How many bytes a blank or a comment at the front takes, 0 where there is none.
fn blank_len(left: &[u8]) -> usize
    ensures { result ≤ length left.now }
{
    match left {
        [b' ' | b'\t' | b'\r' | b'\n', ..] => 1,
        [b'/', b'/', comment @ ..] => 2 + line_len(comment),
        [b'/', b'*', comment @ ..] => match comment_len(comment) {
            Some(len) => 2 + len,
            None => 0,
        },
        _ => 0,
    }
}

// How many bytes come before the end of a line.
fn line_len(bytes: &[u8]) -> usize
    ensures { result ≤ length bytes.now }
{
    let end = bytes.iter().position(|byte| *byte == b'\n');
    end.unwrap_or(bytes.len())
}

// How many bytes a comment takes with its end.
fn comment_len(bytes: &[u8]) -> Option<usize>
    ensures within { IfSome result (λ len. len ≤ length bytes.now) }
    ensures first { MatchOption result (GoesOn bytes.now (length bytes.now)) (IsComment bytes.now) }
{
    for i in 1..bytes.len() {
        if bytes[i - 1] == b'*' && bytes[i] == b'/' {
            return Some(i + 1);
        }
    }
    None
}

// How many bytes what begins at the front takes.
fn token_len(left: &[u8]) -> usize
    requires { 0 < length left.now }
    ensures some { 0 < result }
    ensures within { result ≤ length left.now }
{
    match left {
        [b'0'..=b'9', ..] => number_len(left),
        [b'a'..=b'z' | b'A'..=b'Z' | b'_', rest @ ..] => 1 + name_len(rest),
        [b'.', b'.', ..] | [b'/', b'*', ..] => 2,
        _ => 1,
    }
}

fn number_len(left: &[u8]) -> usize
    requires { 0 < length left.now }
    ensures some { 0 < result }
    ensures within { result ≤ length left.now }
{
    let base = 1 + word_len(&left[1..]);
    let power = base + part_len(&left[base..], b'^');
    power + part_len(&left[power..], b'-')
}

// How many bytes a sign and the digits after it take, 0 where there are none.
fn part_len(left: &[u8], sign: u8) -> usize
    ensures { result ≤ length left.now }
{
    match left {
        [first, b'0'..=b'9', rest @ ..] if *first == sign => 2 + word_len(rest),
        _ => 0,
    }
}

// How many bytes of a name are at the front: a dot before a digit is part of it, as in `ASN.1Cert`, and a hyphen before a
// letter, as in `digitally-signed`.
fn name_len(bytes: &[u8]) -> usize
    ensures { result ≤ length bytes.now }
{
    let first = word_len(bytes);
    match &bytes[first..] {
        [b'.', b'0'..=b'9', rest @ ..] => first + 2 + word_len(rest),
        [b'-', b'a'..=b'z' | b'A'..=b'Z', rest @ ..] => first + 2 + word_len(rest),
        _ => first,
    }
}

// How many letters, digits and low lines are at the front.
fn word_len(bytes: &[u8]) -> usize
    ensures { result ≤ length bytes.now }
{
    let end = bytes
        .iter()
        .position(|byte| !byte.is_ascii_alphanumeric() && *byte != b'_');
    end.unwrap_or(bytes.len())
}

// What the text of one word, number or mark is.
fn kind_of(alloc: Global, text: &str, place: Place) -> Result<TokenKind, Trouble> {
    match text.as_bytes() {
        [b'0'..=b'9', ..] => match number(text) {
            Some(number) => Ok(TokenKind::Number(number)),
            None => Err(rejection(
                alloc,
                text,
                place,
                "a number of 64 bits, as 12, 0x0a or 2^16-1",
            )),
        },
        [b'a'..=b'z' | b'A'..=b'Z' | b'_', ..] => word(alloc, text, place),
        b".." => Ok(TokenKind::Mark(Mark::Dots)),
        b"/*" => Err(rejection(alloc, text, place, "a comment that ends")),
        [byte] => match Mark::of_byte(*byte) {
            Some(mark) => Ok(TokenKind::Mark(mark)),
            None => Err(no_token(alloc, text, place)),
        },
        _ => Err(no_token(alloc, text, place)),
    }
}

fn no_token(alloc: Global, text: &str, place: Place) -> Trouble {
    rejection(alloc, text, place, "a word, a number or a mark")
}

fn rejection(alloc: Global, text: &str, place: Place, expected: &'static str) -> Trouble {
    Trouble::at(place, String::from_str(alloc, text), expected)
}

fn word(alloc: Global, text: &str, place: Place) -> Result<TokenKind, Trouble> {
    if let Some(mark) = Mark::of_word(text) {
        return Ok(TokenKind::Mark(mark));
    }
    if text.as_bytes().contains(&b'-') {
        return Err(rejection(
            alloc,
            text,
            place,
            "a name without a hyphen, or digitally-signed",
        ));
    }
    Ok(TokenKind::Word(String::from_str(alloc, text)?))
}

// The value of `12`, `0x0a` or `2^16-1`, if it is a number of 64 bits.
fn number(text: &str) -> Option<u64> {
    if let Some(digits) = text.strip_prefix("0x") {
        return u64::from_str_radix(digits, 16).ok();
    }
    let (power, less) = match text.split_once('-') {
        Some((power, less)) => (power, less.parse::<u128>().ok()?),
        None => (text, 0),
    };
    let (base, exponent) = match power.split_once('^') {
        Some((base, exponent)) => (base, exponent.parse::<u32>().ok()?),
        None => (power, 1),
    };
    let power = base.parse::<u128>().ok()?.checked_pow(exponent)?;
    u64::try_from(power.checked_sub(less)?).ok()
}
