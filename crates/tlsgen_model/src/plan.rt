//! What is written: messages whose names, types and tags are settled.

/// All that is written for a file, in its order, and what it names of other crates.
#[derive(Drop)]
pub struct Plan {
    pub aliases: Vec<Alias>,
    pub messages: Vec<Message>,
    pub others: Vec<Other>,
    /// The messages that hold a tag of others.
    pub holders: Vec<Holder>,
}

/// A type that another crate has.
#[derive(Drop)]
pub struct Other {
    pub name: String,
    /// Its module's name there.
    pub module: String,
    /// Which crate has it, counted from 0 in the order in which they were named.
    pub home: usize,
    /// It has references to its fields.
    pub is_borrowed: bool,
    /// What it is another name of, if it is one.
    pub of: Option<Type>,
}

/// Another name of a type: `pub type MAC = VLBytes;`. What it refers to is above it.
#[derive(Drop)]
pub struct Alias {
    pub name: String,
    pub of: Type,
    /// The type is the last byte that isn't zero, after the content whose type it is:
    /// `pub type Inner = InnerPlaintext<ContentType>;`.
    pub ends: bool,
    /// Which crate has it: after the others the one that is written.
    pub home: usize,
    /// The text of its doc comment: the line of the file, such as `opaque MAC<V>;`, its section and
    /// what comments say of it.
    pub doc: String,
}

#[derive(Drop)]
pub struct Message {
    /// The type's name, such as `LeafNode`.
    pub name: String,
    /// Its module's name, such as `leaf_node`.
    pub module: String,
    /// Which crate has it: after the others the one that is written.
    pub home: usize,
    /// It has references to its fields. It can only be encoded.
    pub is_borrowed: bool,
    /// The text of its doc comment.
    pub doc: String,
    /// What decides its parts, if that is in another struct.
    pub context: Option<Context>,
    /// The tag in front of its cases, if it has one.
    pub tag: Option<CaseTag>,
    pub body: Body,
}

/// A tag in front of a message's cases.
#[derive(Drop)]
pub struct CaseTag {
    /// Its name in Rust, such as `msg_type`.
    pub name: String,
    /// The name of its enum in Rust, such as `HandshakeType`; `None` if it is a number.
    pub of: Option<String>,
    /// That enum keeps numbers that have no name.
    pub is_open: bool,
}

/// A tag in another struct, on which a message's selects are: the message is read and written in its context.
#[derive(Drop)]
pub struct Context {
    /// The tag's name in Rust, such as `content_type`.
    pub name: String,
    /// An integer of 1 or 2 bytes, or an enum of numbers.
    pub of: Element,
}

/// A message that holds a tag. The tag decides selects of other messages, which may be in its
/// context.
#[derive(Drop)]
pub struct Holder {
    /// The message's name.
    pub name: String,
    /// The tag's type in Rust: an enum of numbers, `u8` or `u16`.
    pub tag: String,
    /// The member that is the tag or holds it; none if it is the tag of the message's own cases.
    pub member: Option<String>,
}

#[derive(Drop)]
pub enum Body {
    /// An enum of numbers only, each of `width` bytes.
    Values {
        width: usize,
        is_open: bool,
        values: Vec<Value>,
    },
    /// A struct.
    Fields(Vec<Member>),
    /// A tag of `width` bytes (1, 2, 4 or 8), and what comes after each of its numbers.
    Choice {
        width: usize,
        variants: Vec<Variant>,
    },
    /// What comes after each number of a tag of `width` bytes. It comes after the tag and a length
    /// of `length` bytes (1 to 4), and fills that length; or it is alone, if the tag is the
    /// message's context.
    Sum {
        width: usize,
        length: Option<usize>,
        variants: Vec<Variant>,
    },
}

#[derive(Drop)]
pub struct Value {
    /// Its name in the file, such as `mls10`.
    pub label: String,
    /// The variant's name, such as `Mls10`.
    pub name: String,
    /// The name of its constant, such as `MLS10`.
    pub constant: String,
    pub number: u64,
    /// What comments of the file say of it, line by line.
    pub comment: String,
}

#[derive(Drop)]
pub struct Variant {
    /// Its label in the file, such as `new_member_commit`, or `case_5` for a number without a name.
    pub label: String,
    /// The variant's name, such as `NewMemberCommit`.
    pub name: String,
    /// The name of its tag's constant, such as `NEW_MEMBER_COMMIT`.
    pub constant: String,
    pub tag: u64,
    /// Its one field is bytes in a vector, whose length is that of the sum.
    pub fills: bool,
    pub fields: Vec<Member>,
}

/// A field of a struct or of a variant.
#[derive(Drop)]
pub struct Member {
    /// Its name in Rust: that of the file, or another where that is a word of Rust or of the definitions.
    pub name: String,
    pub of: Type,
    pub decided: Decided,
    /// If a tag alone decides whether it is present: the numbers for which it is. No byte says so.
    pub present_for: Option<Vec<u64>>,
    /// The line of the file, such as `opaque group_id<V>;`.
    pub declared: String,
    /// What comments of the file say of it, line by line.
    pub comment: String,
}

/// What decides a member's parts.
#[derive(Drop)]
pub enum Decided {
    /// Only its own bytes.
    Alone,
    /// The context of the message that has it, in which its type is too.
    Outside,
    /// A tag that a member before it is, or holds: its type is in the context of that.
    Before(Before),
}

/// A member before another, and the tag of it that decides that one's parts.
#[derive(Drop)]
pub struct Before {
    /// The member's name.
    pub member: String,
    /// The tag's type in Rust: an enum of numbers, `u8` or `u16`. The member is of that type, or holds one.
    pub tag: String,
}

/// An element, and how many of it there are.
#[derive(Drop)]
pub struct Type {
    pub shape: Shape,
    /// Each of them may be missing: `optional<T>`. This excludes arrays of bytes and opaques.
    pub is_optional: bool,
    pub element: Element,
}

#[derive(Drop)]
pub enum Element {
    /// An unsigned integer, by its bytes: 1, 2, 3, 4 or 8.
    Integer(usize),
    /// Bytes, in a vector or an array.
    Opaque,
    /// UTF-8, after a length of variable width.
    Text,
    /// A message of the plan.
    Message(String),
    /// Another name of a type, which is above.
    Alias(String),
}

#[derive(Clone, Copy)]
pub enum Shape {
    One,
    /// An array of bytes.
    Array(u64),
    /// Of this many bytes together, without a length: an array of what isn't a byte.
    Exact(u64),
    /// After a length of variable width.
    Variable,
    /// After a length of `width` bytes (1 to 4), which is neither below `least` nor above `most`.
    Bounded { width: usize, least: u64, most: u64 },
}
