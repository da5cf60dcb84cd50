//! The tokens of a text, taken from their front.
ghost use Rattle.std.specs.Prelude.{◌≡◌, ◌==◌, ◌+◌, ◌<◌, ◌∷◌, MatchOption, OnOk, if◌then◌else◌};
ghost use Rattle.tlsgen_syntax.specs.Signs.{Reads, count_left, flag_then, name_then, number_then, signs, signs_left, word_then};
ghost use Rattle.tlsgen_syntax.specs.Signs as sign;

use crate::rejection::{Place, Trouble};
use crate::syntax::{Name, Number};
use crate::token::{Mark, Token};
use std::alloc::Global;

/// The tokens that are left, and where the text ends.
#[derive(Drop)]
pub(crate) struct Tokens<'a> {
    left: &'a [Token],
    end: Place,
}

impl<'a> Tokens<'a> {
    pub(crate) fn new(left: &'a [Token], end: Place) -> Tokens<'a>
        ensures { signs_left result ≡ signs left.now }
    {
        Tokens { left, end }
    }

    pub(crate) fn is_empty(&self) -> bool
        ensures { result ≡ (count_left self.now == 0) }
    {
        self.left.is_empty()
    }

    /// The place of the next token, or of the end.
    pub(crate) fn place(&self) -> Place {
        match self.left.split_first() {
            Some((token, _left)) => token.place,
            None => self.end,
        }
    }

    /// The next token, if it is a mark.
    pub(crate) fn mark(&self) -> Option<Mark> {
        let (token, _left) = self.left.split_first()?;
        token.kind.mark()
    }

    /// Whether a word is next, and this mark after it.
    pub(crate) fn is_word_before(&self, mark: Mark) -> bool {
        let Some((word, left)) = self.left.split_first() else {
            return false;
        };
        let Some((next, _left)) = left.split_first() else {
            return false;
        };
        word.kind.word().is_some() && next.kind.mark() == Some(mark)
    }

    /// Takes the next token if it is this mark.
    pub(crate) fn take(&mut self, mark: Mark) -> bool
        ensures read { signs_left self.old ≡ flag_then mark result (signs_left self.new) }
        ensures count { count_left self.old ≡ count_left self.new + (if result then 1 else 0) }
    {
        let Some((token, left)) = self.left.split_first() else {
            return false;
        };
        match token.kind.mark() {
            Some(next) if next == mark => {
                self.left = left;
                true
            }
            _ => false,
        }
    }

    /// Takes the next token if it is this word.
    pub(crate) fn take_word(&mut self, text: &str) -> bool
        ensures read { signs_left self.old ≡ word_then text.now result (signs_left self.new) }
        ensures count { count_left self.old ≡ count_left self.new + (if result then 1 else 0) }
    {
        let Some((token, left)) = self.left.split_first() else {
            return false;
        };
        match token.kind.word() {
            Some(word) if word == text => {
                self.left = left;
                true
            }
            _ => false,
        }
    }

    /// Takes the next token if it is a number.
    pub(crate) fn take_number(&mut self) -> Option<Number>
        ensures read { MatchOption result (signs_left self.old ≡
            signs_left self.new) (λ n. signs_left self.old ≡ number_then n (signs_left self.new)) }
        ensures count { MatchOption result (count_left self.old ≡
            count_left self.new) (λ _. count_left self.new < count_left self.old) }
    {
        let Some((token, left)) = self.left.split_first() else {
            return None;
        };
        match token.kind.number() {
            Some(value) => {
                self.left = left;
                Some(Number {
                    value,
                    place: token.place,
                })
            }
            None => None,
        }
    }

    /// Takes a mark, and rejects any other token.
    pub(crate) fn expect(
        &mut self,
        alloc: Global,
        mark: Mark,
        expected: &'static str,
    ) -> Result<(), Trouble>
        ensures read { OnOk result (signs_left self.old ≡ sign.mark mark ∷ signs_left self.new) }
        ensures fewer { OnOk result (count_left self.new < count_left self.old) }
    {
        if self.take(mark) {
            return Ok(());
        }
        Err(self.rejected(alloc, expected))
    }

    /// Takes a word as a name, and rejects any other token.
    pub(crate) fn name(&mut self, alloc: Global, expected: &'static str) -> Result<Name, Trouble>
        ensures read { Reads name_then self.old self.new result }
        ensures fewer { OnOk result (count_left self.new < count_left self.old) }
    {
        let Some((token, left)) = self.left.split_first() else {
            return Err(self.rejected(alloc, expected));
        };
        match token.kind.word() {
            Some(word) => {
                let text = String::from_str(alloc, word)?;
                let remark = token.remark.clone()?;
                self.left = left;
                Ok(Name {
                    text,
                    place: token.place,
                    remark,
                })
            }
            None => Err(self.rejected(alloc, expected)),
        }
    }

    /// Takes a number, and rejects any other token.
    pub(crate) fn number(
        &mut self,
        alloc: Global,
        expected: &'static str,
    ) -> Result<Number, Trouble>
        ensures read { Reads number_then self.old self.new result }
        ensures fewer { OnOk result (count_left self.new < count_left self.old) }
    {
        match self.take_number() {
            Some(number) => Ok(number),
            None => Err(self.rejected(alloc, expected)),
        }
    }

    /// The error for the next token, or for the end.
    pub(crate) fn rejected(&self, alloc: Global, expected: &'static str) -> Trouble {
        let Some((token, _left)) = self.left.split_first() else {
            return Trouble::at(self.end, Ok(String::new(alloc)), expected);
        };
        Trouble::at(token.place, token.kind.to_string(alloc), expected)
    }
}
