//! Messages of your own: structs and enums, proved to be as lawful as the types that they are made of.
//!
//! They use [`tls_codec`] and `tls_codec_validate`. A struct is read as the tuple of its fields and written as the tuple
//! of its borrowed fields; nothing of that is proved by hand. An enum reads its tag and then what the tag's
//! variant has; each variant has a line of proof for each call.
//!
//! - [`leaf`]: [`Leaf`], a struct of two fields.
//! - [`step`]: [`Step`], an enum with a tag of one byte.
//! - [`log`]: [`Log`], a struct of the two.
//! - [`laws`]: equality, hash and order of the vectors that messages are made of.
//!
//! There are devices for tests too. They show how a device of your own is proved:
//!
//! - [`drip`]: [`Drip`], a source of one byte a call. [`trickle`]: [`Trickle`], such a sink.
//! - [`failing`]: [`Failing`], a device with some calls that fail.
#![tactic(auto)]

pub mod drip;
pub mod failing;
pub mod laws;
pub mod leaf;
pub mod log;
pub mod step;
pub mod trickle;

pub use drip::Drip;
pub use failing::Failing;
pub use leaf::Leaf;
pub use log::Log;
pub use step::Step;
pub use trickle::Trickle;
