//! Lines: the fields of a message, each with its bytes.

/// A field, and the bytes of the message that this line alone shows: of a list those of its length,
/// of a struct none.
#[derive(Clone, Copy)]
pub struct Line<'a> {
    /// How many structs and lists it is in.
    pub depth: usize,
    pub label: Label<'a>,
    pub bytes: &'a [u8],
    pub shown: Shown<'a>,
}

/// What a line is called.
#[derive(Clone, Copy)]
pub enum Label<'a> {
    /// By the field's name.
    Field(&'a str),
    /// By the position in a list.
    Element(usize),
}

/// What a line's bytes are.
#[derive(Clone, Copy)]
pub enum Shown<'a> {
    /// No bytes: the fields of a struct of this name are below.
    Struct(&'a str),
    /// The length of a list with this number of elements, which are below.
    List(usize),
    /// The length of a list that ends at a rejected field, after this number of elements.
    Cut(usize),
    /// The tag of an option that holds a value of this type, which is below.
    Present(&'a str),
    /// The tag of an option without a value.
    Absent,
    /// An integer.
    Number,
    /// A number of a registry or an enum, with its name if it has one.
    Code(Option<&'a str>),
    /// A length, which takes this number of bytes, and the bytes after it. These were expected to
    /// be of this type, and aren't.
    Bytes(usize, Option<&'a str>),
    /// The length, which takes this number of bytes, of bytes of this type. Their lines are below.
    Opened(usize, &'a str),
    /// Bytes about which nothing is known.
    Unread,
}

impl<'a> Line<'a> {
    /// The bytes after a length.
    pub fn content(&self) -> &'a [u8] {
        let length = match self.shown {
            Shown::Bytes(length, _) | Shown::Opened(length, _) => length,
            _ => 0,
        };
        match self.bytes.split_at_checked(length) {
            Some((_, content)) => content,
            None => self.bytes,
        }
    }

    /// The number that its bytes are, of at most eight.
    pub fn number(&self) -> u64 {
        number_of(self.bytes)
    }
}

/// The number that bytes are, of at most eight.
pub fn number_of(bytes: &[u8]) -> u64 {
    let mut number = 0u64;
    for byte in bytes {
        number = number.wrapping_mul(256).wrapping_add(u64::from(*byte));
    }
    number
}
