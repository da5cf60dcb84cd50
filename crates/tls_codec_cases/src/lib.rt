//! An enum's codec as a value of a generic sum, so that an enum of your own needs no answers.
//!
//! [`Tagged`] is a tag and after it what its case has; [`Case`] is one case, and [`Or`] joins two sums of them. An enum says
//! which of the cases it is, borrowed ([`write_as`], [`append_as`]), and is made of one that was read (RFC 8446, section 3.8).
//! [`Else`] adds a case for every other tag; [`Chosen`] is for a tag that a context says, and [`By`] for one that
//! a part before [holds](Holds); [`Enclosed`] is a value in its length, and [`Exactly`] the length
//! of lists that have always as many bytes. [`Padded`], [`Followed`] and [`InnerPlaintext`] are
//! read of all the bytes that there are.
#![tactic(auto)]

pub mod case;
pub mod cases;
pub mod chosen;
pub mod condition;
pub mod either;
pub mod elses;
pub mod enclosed;
pub mod exactly;
pub mod followed;
pub mod held;
pub mod inner;
pub mod other;
pub mod padded;
pub mod tag;
pub mod tagged;
pub mod written_as;

pub use case::Case;
pub use cases::{Cases, ReadCases, SplitCases, Tags, WriteCases};
pub use chosen::{Chosen, Selector};
pub use condition::{AnyOf, Is};
pub use either::Or;
pub use elses::Else;
pub use enclosed::Enclosed;
pub use exactly::Exactly;
pub use followed::Followed;
pub use held::{By, Holds};
pub use inner::InnerPlaintext;
pub use other::Other;
pub use padded::Padded;
pub use tag::Tag;
pub use tagged::{Tagged, tags_are_valid};
pub use written_as::{EncoderError, append_as, append_as_for, write_as, write_as_for};
