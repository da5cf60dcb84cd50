//! What a text of the presentation language says, with what is signed and types in place apart.

use crate::rejection::Place;
use std::alloc::Global;

/// A name, its place in the text, and what comments say about what it names.
#[derive(Clone, Drop)]
pub struct Name {
    pub text: String,
    pub place: Place,
    pub remark: Remark,
}

/// What comments say of what a name names.
#[derive(Clone, Drop)]
pub struct Remark {
    /// The section of a definition, such as `RFC 9420, section 6.3.2`. Empty if no heading names
    /// one.
    pub section: String,
    /// The lines of the comments above and after it. Empty if there are none.
    pub text: String,
}

impl Remark {
    /// Where no comment says anything.
    pub(crate) fn none(alloc: Global) -> Remark {
        Remark {
            section: String::new(alloc),
            text: String::new(alloc),
        }
    }
}

/// What a file defines, in its order, and what an RFC says of it in prose.
#[derive(Drop)]
pub struct File {
    pub items: Vec<Item>,
    pub notes: Vec<Note>,
}

/// What the RFC's prose says of a field or of a number: `Handshake.length counts rest;`
#[derive(Drop)]
pub struct Note {
    /// The words before it, at least one.
    pub path: Vec<Name>,
    pub said: Said,
}

#[derive(Drop)]
pub enum Said {
    /// `Hash.length = 48`: 48 bytes where an array has this name. `CredentialType.basic = 1`: a
    /// value of an integer type.
    Number(Number),
    /// `CertificateEntry.certificate_type = X509`: the only value of a tag that is elsewhere.
    Named(Name),
    /// `Handshake.length counts rest`: it counts the bytes of the select after it.
    Counts,
    /// `Finished.verify_data fills rest`, `HeartbeatMessage.padding fills rest`: as many bytes as are left.
    Fills,
    /// `PrivateMessageContent.padding fills rest with zeros`: zeros go to the end of what is read.
    Pads,
    /// `TLSInnerPlaintext.type ends content`: the last byte that isn't zero is this field, and the one named is all before it.
    Ends(Name),
    /// `FramedContent.content_type called content`: a select on this tag has a name.
    Called(Name),
    /// `ContentType is open`: an enum keeps numbers without a name.
    Open,
    /// `KeyUpdateRequest is closed`: an enum rejects numbers without a name.
    Closed,
    /// `FramedContentTBS is borrowed`: a struct has references to its fields, and is only written.
    Borrowed,
    /// `TLSInnerPlaintext left out`: nothing is made of a definition.
    LeftOut,
}

#[derive(Drop)]
pub enum Item {
    /// `enum { member(1), external(2), (255) } SenderType;`
    Enum(Enum),
    /// `struct { uint32 leaf_index; opaque key<V>; } Sender;`
    Struct(Struct),
    /// `opaque MAC<V>;` gives `MAC` as another name of a type.
    Alias(Field),
}

impl Item {
    /// The name that it defines.
    pub fn name(&self) -> &Name {
        match self {
            Item::Enum(one) => &one.name,
            Item::Struct(one) => &one.name,
            Item::Alias(field) => &field.name,
        }
    }

    /// The name that it defines, which may be changed.
    pub fn name_mut(&mut self) -> &mut Name {
        match self {
            Item::Enum(one) => &mut one.name,
            Item::Struct(one) => &mut one.name,
            Item::Alias(field) => &mut field.name,
        }
    }
}

/// Numbers with names. In an open one numbers without a name are kept too: it is `open enum { .. }`, or no select is on it
/// (RFC 8446, section 3.5), unless the notes say otherwise.
#[derive(Drop)]
pub struct Enum {
    pub is_open: bool,
    /// At least one.
    pub values: Vec<Value>,
    pub name: Name,
}

/// `member(1)`, or `(255)` without a name, which gives the width of the number. `private_use(0xFE00..0xFFFF)` keeps a
/// range of numbers free.
#[derive(Drop)]
pub struct Value {
    pub name: Option<Name>,
    pub number: Number,
    /// The last number of a range.
    pub last: Option<Number>,
}

/// A number, and its place in the text.
#[derive(Clone, Copy)]
pub struct Number {
    pub value: u64,
    pub place: Place,
}

/// Fields and selects in a row. A borrowed one, `borrowed struct { .. }` or by a note, has references to its fields, and is only
/// written.
#[derive(Drop)]
pub struct Struct {
    pub is_borrowed: bool,
    pub parts: Vec<Part>,
    pub name: Name,
}

impl Struct {
    /// Its field of this name, the first of two. Those of its selects' cases don't count.
    pub fn field(&self, name: &Name) -> Option<&Field> {
        self.parts.iter().find_map(|part| match part {
            Part::Field(field) if field.name.text == name.text => Some(field),
            _ => None,
        })
    }
}

#[derive(Drop)]
pub enum Part {
    Field(Field),
    Select(Select),
}

/// `uint16 suites<V>;`, without the semicolon.
#[derive(Drop)]
pub struct Field {
    /// `optional<of>`.
    pub is_optional: bool,
    /// The type's name, as `uint16` or `opaque`.
    pub of: Name,
    /// Its own, or that of its type where it has none, as in `case client_hello: ClientHello;`.
    pub name: Name,
    /// It has a name of its own.
    pub is_named: bool,
    pub vector: Vector,
    /// `version = mls10`.
    pub constant: Option<Constant>,
}

/// What a field always is.
#[derive(Drop)]
pub enum Constant {
    /// A value of the field's enum.
    Named(Name),
    /// `= 0x0303`.
    Number(Number),
    /// `= {254, 253}`: each element of an array, at least one.
    Elements(Vec<Number>),
}

/// How many of a type there are.
#[derive(Drop)]
pub enum Vector {
    /// `uint8 a`: one.
    One,
    /// `opaque a[16]`: 16 bytes.
    Array(Number),
    /// `opaque fragment[TLSPlaintext.length]`: as many bytes as a field says. The words between the brackets, at least one.
    Counted(Vec<Name>),
    /// `opaque a<V>`: after a length of variable width (RFC 9420, section 2.1.2).
    Variable,
    /// `opaque a<2..2^16-2>`: after a length in bytes that is neither below the first number nor above the second.
    Bounded(Number, Number),
}

/// `select (Sender.sender_type) { case member: uint32 leaf_index; .. } SenderData;`
#[derive(Drop)]
pub struct Select {
    /// The words between the brackets, at least one.
    pub path: Vec<Name>,
    pub cases: Vec<Case>,
    /// The name of the type that the tag and the select become, where it is given.
    pub name: Option<Name>,
    /// Without a name the semicolon may be left out.
    pub ends_in_semicolon: bool,
    pub place: Place,
}

/// Labels with what comes after each: `case member: case external: uint32 index;`. No fields: `struct {};`.
#[derive(Drop)]
pub struct Case {
    /// At least one.
    pub labels: Vec<Label>,
    pub fields: Vec<Field>,
}

#[derive(Drop)]
pub enum Label {
    Name(Name),
    Number(Number),
}
