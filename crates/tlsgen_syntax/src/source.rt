//! What a text says as it is written: what is signed, and types in place of their names, are inside
//! the struct around them.

use crate::rejection::Place;
use crate::syntax::{Field, Name, Number, Part, Vector};

/// What a text defines, in its order.
#[derive(Drop)]
pub struct Source {
    pub definitions: Vec<Definition>,
}

#[derive(Drop)]
pub enum Definition {
    /// `enum { member(1), external(2), (255) } SenderType;`
    Enum(SourceEnum),
    /// `struct { LogID id; digitally-signed struct { uint64 timestamp; }; } Receipt;`
    Struct(SourceStruct),
    /// `opaque MAC<V>;` gives `MAC` as another name of a type.
    Alias(Field),
}

/// `enum { 2^9(1), 2^10(2), (255) } MaxFragmentLength;`
#[derive(Drop)]
pub struct SourceEnum {
    pub numbers: Numbers,
    pub name: Name,
}

/// Numbers with names, `enum { a(1), (255) }`, or with others too, `open enum { a(1), (255) }`.
#[derive(Drop)]
pub struct Numbers {
    pub is_open: bool,
    /// At least one.
    pub values: Vec<SourceValue>,
}

/// `member(1)`, `2^9(1)`, `(255)` or `private_use(0xFE00..0xFFFF)`.
#[derive(Drop)]
pub struct SourceValue {
    pub name: Option<ValueName>,
    pub number: Number,
    /// The last number of a range.
    pub last: Option<Number>,
}

/// What a value is called.
#[derive(Drop)]
pub enum ValueName {
    /// `member(1)`
    Word(Name),
    /// `2^9(1)` (RFC 6066, section 4)
    Number(Number),
}

/// Fields, selects, signatures and fields with their types in place, in a row.
#[derive(Drop)]
pub struct SourceStruct {
    pub kind: StructKind,
    pub parts: Vec<SourcePart>,
    pub name: Name,
}

/// What a struct is for.
#[derive(Drop)]
pub enum StructKind {
    /// `struct { .. }` is sent.
    Sent,
    /// `borrowed struct { .. }` has references to its fields, and is only written.
    Borrowed,
    /// `digitally-signed struct { .. }` is signed, and a signature is sent in its place.
    Signed,
}

#[derive(Drop)]
pub enum SourcePart {
    /// A field or a select.
    Sent(Part),
    /// A signature.
    Signed(Signed),
    /// A field with its type in place.
    InPlace(InPlace),
}

/// `digitally-signed struct { uint64 timestamp; } signature;`: a signature, and what it is of (RFC 5246, section 4.7).
#[derive(Drop)]
pub struct Signed {
    /// Where it begins.
    pub place: Place,
    /// What is signed.
    pub parts: Vec<Part>,
    /// The name of the signature, where it has one.
    pub name: Option<Name>,
}

/// `enum { a(1), (255) } kind;`: a field that has a type in place of a type's name.
#[derive(Drop)]
pub struct InPlace {
    pub of: TypeInPlace,
    pub name: Name,
    pub vector: Vector,
}

#[derive(Drop)]
pub enum TypeInPlace {
    /// `enum { a(1), (255) } kind;`
    Enum(Numbers),
    /// `struct { opaque a[2]; } inner;`
    Struct(Vec<Part>),
}
