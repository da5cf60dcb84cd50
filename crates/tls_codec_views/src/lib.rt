//! Encodings that are read where they lie: no value is made, and nothing is copied.
//!
//! Bytes are validated once. After that no call fails or asks for memory, but `to_value`, which decodes.
//!
//! - [`Encoded`]: bytes that are one encoding of a type. What it is made of is borrowed from the same bytes: `split` for
//!   pairs and triples, `payload` for options and boxes, `content` for byte vectors, `as_str` for texts, `elements` for
//!   lists, `get` for integers, `parts` and `case` for messages of your own.
//! - [`Elements`]: the elements of a list, one by one.
//! - [`EncodedFor`]: bytes that are one encoding in a context, as what comes after the first part of a `Then`; `split`,
//!   `always`, `payload`, `held` and `elements` ([`ElementsFor`]) take it apart.
//! - [`Parted`]: a message of your own, which is encoded as its parts are. [`Choice`]: an enum of
//!   your own, whose encoding has one case. [`Numbered`]: one of numbers alone. [`PartedFor`] and [`ChoiceFor`]: those
//!   that a context decides.
#![tactic(auto)]

mod choices;
mod content;
mod contexts;
mod elements;
mod elements_for;
mod encoded;
mod encoded_for;
mod numbers;
mod parted;
mod parts_for;
mod payloads;
mod products;

pub use choices::{Choice, Numbered};
pub use elements::Elements;
pub use elements_for::ElementsFor;
pub use encoded::Encoded;
pub use encoded_for::EncodedFor;
pub use numbers::ReadInPlace;
pub use parted::Parted;
pub use parts_for::{ChoiceFor, PartedFor};
