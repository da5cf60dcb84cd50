//! Parts that something read earlier decides: a select whose tag isn't beside it, as `select (FramedContent.content_type)`
//! in another struct (RFC 8446, sections 3.8 and 4; RFC 9420, section 6).
//!
//! What decides is the part's *context*. It is a value with [`Size`](crate::Size): a field that comes before the part, the
//! struct that holds that field, or what the user knows of the connection. No byte repeats it.
//!
//! - [`SizeFor`], [`SerializeFor`], [`DeserializeFor`], [`DeserializeBytesFor`]: the traits of a type in a context.
//! - [`Then`]: a first part and what it decides, which gives the context. [`ByRefThen`], [`ByRefThen2`]: the same to write.
//! - [`When`]: a payload that is there if a [`Condition`] holds of the context. [`ByRefWhen`]: the same to write.
//! - `(T, U)`, `(T, U, V)`: parts in one context. [`Always`]: a part that no context decides. [`ByRefIn`]: a borrowed part.
//! - `Vec<T>`: elements in one context, after their length. Calls on elements: [`lists`](crate::lists).
//! - [`split_enclosed`], [`read_enclosed`], [`write_enclosed`], [`append_enclosed`]: a value that fills what a length
//!   counts.
//! - [`present`]: what [`When`] does, for code of your own; [`does_not_fit`], the error for a value that
//!   doesn't fit.

mod always;
mod by_ref_then;
mod enclosed;
mod pairs;
pub mod present;
mod then;
mod traits;
mod triples;
mod vectors;
mod when;

pub use always::{Always, ByRefIn};
pub use by_ref_then::{ByRefThen, ByRefThen2};
pub use enclosed::{append_enclosed, read_enclosed, split_enclosed, write_enclosed};
pub use present::does_not_fit;
pub use then::Then;
pub use traits::{DeserializeBytesFor, DeserializeFor, SerializeFor, SizeFor};
pub use when::{ByRefWhen, Condition, When};
