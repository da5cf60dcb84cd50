//! Whether bytes begin with an encoding, and where it ends, without making its value.
//!
//! Validation asks for no memory: its calls are given no allocator. A decoder accepts the same
//! bytes, if there is memory for the value, and every error here is one that the type's slice
//! decoder names for these bytes.
//!
//! - [`Validate`]: the trait of every type with a decoder that no context decides. `T::tls_validate` is for all of the
//!   bytes, `T::tls_validate_prefix` for the encoding that they begin with. `T::tls_deserialize_validated` makes the
//!   value once the bytes are validated. A struct of your own validates as the tuple of its fields.
//! - [`Rejected`]: what is wrong with the bytes, and where its field begins.
//! - [`ValidateFor`]: the trait of what a context decides, by the context's key ([`Keyed`]).
//!   [`ValidateKeyed`]: the key in bytes, which decides how what comes after them is validated.
//! - [`ValidateCases`]: sums of cases. [`split_u8`] and its siblings: the tag that bytes begin with, for enums of your own.
//! - [`laws`]: what is validated is decoded. They do nothing when they run.
//! - [`types`]: the table of types, by the field that is rejected. It does nothing either.
#![tactic(auto)]

mod boxes;
mod bytes;
mod cases;
mod contexts;
mod digits;
mod elements;
mod enclosed;
mod keyless;
mod keys;
pub mod laws;
mod numbers;
mod options;
mod products;
mod rejected;
mod tagged;
mod tags;
mod texts;
mod traits;
pub mod types;
mod validate_for;
mod vectors;

pub use cases::ValidateCases;
pub use keyless::Keyless;
pub use keys::{HoldsKey, Keyed, TagFirst, TagKeyed, ValidateKeyed, validate_tag_first};
pub use rejected::Rejected;
pub use tagged::FindTag;
pub use tags::{split_u8, split_u16, split_u32, split_u64};
pub use traits::Validate;
pub use validate_for::{KeyCondition, ValidateFor};
