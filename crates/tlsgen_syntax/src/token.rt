//! What a text consists of: words, numbers and marks.
ghost use Rattle.std.specs.Prelude.{◌≡◌, [], ◌∷◌, IfSome};
ghost use Rattle.tlsgen_syntax.specs.Signs.{mark_text, sign_of};
ghost use Rattle.tlsgen_syntax.specs.Signs as sign;

use crate::rejection::Place;
use crate::syntax::Remark;
use std::fmt;

/// A word, a number or a mark, and its place in the text.
#[derive(Drop)]
pub struct Token {
    pub kind: TokenKind,
    pub place: Place,
    /// What comments say of what it names, if it is a name that is given.
    pub remark: Remark,
}

#[derive(Drop)]
pub enum TokenKind {
    /// A word that may be a name.
    Word(String),
    /// `12`, `0x0a` or `2^16-1`, by its value.
    Number(u64),
    Mark(Mark),
}

/// A sign of punctuation, or a word of the language, which is no name.
#[derive(Clone, Copy, PartialEq)]
pub enum Mark {
    Case,
    DigitallySigned,
    Enum,
    Borrowed,
    Open,
    Optional,
    Select,
    Struct,
    OpeningBrace,
    ClosingBrace,
    OpeningParenthesis,
    ClosingParenthesis,
    OpeningBracket,
    ClosingBracket,
    OpeningAngle,
    ClosingAngle,
    Comma,
    Semicolon,
    Colon,
    Equals,
    Dot,
    Dots,
}

impl Mark {
    /// How it is written.
    pub fn as_str(self) -> &'static str
        ensures { result.now ≡ mark_text self }
    {
        match self {
            Mark::Case => "case",
            Mark::DigitallySigned => "digitally-signed",
            Mark::Enum => "enum",
            Mark::Borrowed => "borrowed",
            Mark::Open => "open",
            Mark::Optional => "optional",
            Mark::Select => "select",
            Mark::Struct => "struct",
            Mark::OpeningBrace => "{",
            Mark::ClosingBrace => "}",
            Mark::OpeningParenthesis => "(",
            Mark::ClosingParenthesis => ")",
            Mark::OpeningBracket => "[",
            Mark::ClosingBracket => "]",
            Mark::OpeningAngle => "<",
            Mark::ClosingAngle => ">",
            Mark::Comma => ",",
            Mark::Semicolon => ";",
            Mark::Colon => ":",
            Mark::Equals => "=",
            Mark::Dot => ".",
            Mark::Dots => "..",
        }
    }

    /// The mark that a word is, if it is no name.
    pub fn of_word(word: &str) -> Option<Mark>
        ensures { IfSome result (λ m. mark_text m ≡ word.now) }
    {
        match word {
            "case" => Some(Mark::Case),
            "digitally-signed" => Some(Mark::DigitallySigned),
            "enum" => Some(Mark::Enum),
            "borrowed" => Some(Mark::Borrowed),
            "open" => Some(Mark::Open),
            "optional" => Some(Mark::Optional),
            "select" => Some(Mark::Select),
            "struct" => Some(Mark::Struct),
            _ => None,
        }
    }

    /// The mark that a byte of punctuation begins and ends.
    pub fn of_byte(byte: u8) -> Option<Mark>
        ensures { IfSome result (λ m. mark_text m ≡ byte ∷ []) }
    {
        match byte {
            b'{' => Some(Mark::OpeningBrace),
            b'}' => Some(Mark::ClosingBrace),
            b'(' => Some(Mark::OpeningParenthesis),
            b')' => Some(Mark::ClosingParenthesis),
            b'[' => Some(Mark::OpeningBracket),
            b']' => Some(Mark::ClosingBracket),
            b'<' => Some(Mark::OpeningAngle),
            b'>' => Some(Mark::ClosingAngle),
            b',' => Some(Mark::Comma),
            b';' => Some(Mark::Semicolon),
            b':' => Some(Mark::Colon),
            b'=' => Some(Mark::Equals),
            b'.' => Some(Mark::Dot),
            _ => None,
        }
    }
}

impl TokenKind {
    pub(crate) fn word(&self) -> Option<&str>
        ensures { IfSome result (λ text. sign_of self.now ≡ sign.word text.now) }
    {
        match self {
            TokenKind::Word(word) => Some(word.as_str()),
            _ => None,
        }
    }

    pub(crate) fn number(&self) -> Option<u64>
        ensures { IfSome result (λ value. sign_of self.now ≡ sign.number value) }
    {
        match self {
            TokenKind::Number(number) => Some(*number),
            _ => None,
        }
    }

    pub(crate) fn mark(&self) -> Option<Mark>
        ensures { IfSome result (λ m. sign_of self.now ≡ sign.mark m) }
    {
        match self {
            TokenKind::Mark(mark) => Some(*mark),
            _ => None,
        }
    }
}

/// As it is written in the one layout: a number in decimal.
impl fmt::Display for TokenKind {
    fn fmt<W: fmt::Write>(&self, f: &mut fmt::Formatter<W>) -> fmt::Result {
        match self {
            TokenKind::Word(word) => f.write_str(word.as_str()),
            TokenKind::Number(number) => write!(f, "{number}"),
            TokenKind::Mark(mark) => f.write_str(mark.as_str()),
        }
    }
}
