//! A token among others: what begins and ends there, and whether it gives a name.

use crate::token::{Mark, Token, TokenKind};

/// A token, and those before and after it.
#[derive(Clone, Copy)]
pub(crate) struct Around {
    /// The line of the token.
    pub(crate) line: usize,
    before: Kind,
    kind: Kind,
    behind: Kind,
}

// What a token is, without its text.
#[derive(Clone, Copy, PartialEq)]
enum Kind {
    None,
    Word,
    Number,
    Mark(Mark),
}

impl Around {
    pub(crate) fn of(tokens: &[Token], at: usize) -> Around {
        Around {
            line: tokens.get(at).map_or(0, |token| token.place.line),
            before: kind_of(token_before(tokens, at)),
            kind: kind_of(tokens.get(at)),
            behind: kind_of(tokens.get(at.saturating_add(1))),
        }
    }

    /// Whether it is the name that a definition, a field, a value or a select gives: it isn't a
    /// constant, and the end, or something else that belongs to the name, comes after it.
    pub(crate) fn is_name(self) -> bool {
        self.kind == Kind::Word
            && self.before != Kind::Mark(Mark::Equals)
            && matches!(
                self.behind,
                Kind::Mark(
                    Mark::Semicolon
                        | Mark::OpeningBracket
                        | Mark::OpeningAngle
                        | Mark::OpeningParenthesis
                        | Mark::Equals
                )
            )
    }

    /// Whether a field or a value may begin with it.
    pub(crate) fn begins_part(self) -> bool {
        matches!(self.kind, Kind::Word | Kind::Mark(Mark::Optional))
    }

    /// Whether it is the opening brace of a definition or a select. That of a constant comes after
    /// `=`.
    pub(crate) fn opens(self) -> bool {
        self.kind == Kind::Mark(Mark::OpeningBrace) && self.before != Kind::Mark(Mark::Equals)
    }

    /// Whether it is the closing brace of a definition or a select. That of a constant comes after
    /// a number.
    pub(crate) fn closes(self) -> bool {
        self.kind == Kind::Mark(Mark::ClosingBrace) && self.before != Kind::Number
    }

    /// Whether what is before it has ended.
    pub(crate) fn begins(self) -> bool {
        self.opens()
            || self.closes()
            || self.kind == Kind::Mark(Mark::Colon)
            || self.before == Kind::Mark(Mark::Semicolon)
            || self.before == Kind::Mark(Mark::Comma) && self.kind != Kind::Number
    }
}

/// The token before a position.
pub(crate) fn token_before(tokens: &[Token], at: usize) -> Option<&Token> {
    tokens.get(at.checked_sub(1)?)
}

fn kind_of(token: Option<&Token>) -> Kind {
    match token {
        None => Kind::None,
        Some(token) => match token.kind {
            TokenKind::Word(_) => Kind::Word,
            TokenKind::Number(_) => Kind::Number,
            TokenKind::Mark(mark) => Kind::Mark(mark),
        },
    }
}
