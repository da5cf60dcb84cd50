//! What a type of the TLS presentation language is (RFC 8446, section 3): five traits, with the
//! grammar of each type, the laws it meets and the contracts of its decoders and encoders.
//!
//! The layer above relies only on the contracts of [`traits`], and so do the types here that have
//! parameters. A decoder accepts exactly the inputs that begin with an encoding, gives its one
//! value and leaves the rest unread. An encoder writes the canonical encoding of its value.
//!
//! - [`traits`]: [`Size`], [`Serialize`], [`SerializeBytes`], [`Deserialize`], [`DeserializeBytes`].
//! - [`numbers`]: `u8`, `u16`, `U24`, `u32` and `u64`.
//! - [`varint`]: `TlsVarInt`, variable-length integers.
//! - [`arrays`]: `[u8; LEN]`.
//! - [`options`]: `Option<T>`.
//! - [`products`]: `(T, U)`, `(T, U, V)`, `()` and `PhantomData<T>`.
//! - [`boxes`]: `Box<T>`. [`by_ref`]: [`ByRef`], a borrowed value, for messages of your own; [`by_refs`]:
//!   [`ByRef2`] to [`ByRef9`], two to nine of them in a row.
//! - [`context`]: parts that something read earlier decides, with four traits of their own.
//! - [`tags`]: [`unknown_value`], the error for a tag that an enum of your own doesn't have.
//! - [`lists`]: the engines that every list goes through. [`vectors`]: `Vec<T>` and `&[T]`.
//! - [`ends`]: [`deserialize_to_end`], a value and the end of its source. [`rooms`]: [`reserve_encoding`], room
//!   for a whole encoding.
//! - [`texts`]: `String` and `&str`, by [`opaque`], bytes after their length.
//! - [`laws`]: what is lawful if its parts are. [`error_laws`]: where `TrailingData` and `InvalidVectorLength`
//!   come from. Their functions do nothing. [`error_texts`]: errors that validators return too.
#![tactic(auto)]

pub mod arrays;
pub mod boxes;
pub mod by_ref;
pub mod by_refs;
pub mod context;
pub mod counted;
pub mod ends;
pub mod error_laws;
pub mod error_texts;
pub mod laws;
pub mod lists;
pub mod numbers;
pub mod options;
pub mod products;
pub mod rooms;
pub mod tags;
pub mod texts;
pub mod traits;
pub mod varint;
pub mod vectors;

pub use by_ref::ByRef;
pub use by_refs::{ByRef2, ByRef3, ByRef4, ByRef5, ByRef6, ByRef7, ByRef8, ByRef9};
pub use context::{
    Always, ByRefIn, ByRefThen, ByRefThen2, ByRefWhen, Condition, DeserializeBytesFor,
    DeserializeFor, SerializeFor, SizeFor, Then, When,
};
pub use ends::deserialize_to_end;
pub use rooms::reserve_encoding;
pub use tags::unknown_value;
pub use tls_codec_grammar::{LengthField, Within, opaque};
pub use traits::{Deserialize, DeserializeBytes, Serialize, SerializeBytes, Size};
