//! An ASCII text that is read from its front.
ghost use Rattle.std.specs.Prelude.{◌≡◌, ◌+◌, ◌≤◌, length, take, drop};
ghost use Rattle.std.specs.Str.{IsAscii};

use crate::rejection::Place;

/// What is left of a text, and where that begins.
#[derive(Drop)]
pub(crate) struct Cursor<'a> {
    pub(crate) left: &'a str,
    place: Place,
    ghost ascii: { IsAscii left.now },
}

impl<'a> Cursor<'a> {
    pub(crate) fn new(text: &'a str) -> Cursor<'a>
        requires { IsAscii text.now }
    {
        Cursor {
            left: text,
            place: Place::START,
        }
    }

    pub(crate) fn place(&self) -> Place {
        self.place
    }

    pub(crate) fn left(&self) -> &'a [u8]
        ensures { result.now ≡ self.now.left.now }
    {
        self.left.as_bytes()
    }

    /// Takes `count` bytes.
    pub(crate) fn take(&mut self, count: usize) -> &'a str
        requires { count ≤ length self.old.left.now }
        ensures text { result.now ≡ take count self.old.left.now }
        ensures left { self.new.left.now ≡ drop count self.old.left.now }
        ensures fewer { length self.new.left.now + count ≡ length self.old.left.now }
    {
        let (text, left) = self.left.split_at(count);
        self.left = left;
        self.place = text
            .bytes()
            .fold(self.place, |place, byte| place.after(byte));
        text
    }
}
