//! Products: the parts' encodings in a row (RFC 8446, section 3.6), with nothing before, between or
//! after them.
//!
//! Their proofs rest on lemmas about a first part and the others after it, and about no parts. So a
//! struct takes one citation for each field, however many it has.

mod pair;
mod phantom;
mod triple;
mod unit;
