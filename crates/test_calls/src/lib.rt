//! What isn't a worked value of a type: devices and sources that fail or don't report which bytes
//! are to come, the engines under the traits, laws beside what they say of some bytes, and the
//! calls of the types that neither read nor write.
//!
//! The crate has only tests, as `test_types` has. It is a crate of its own since a large one takes longer to
//! prove than two of half its size.
#![tactic(auto)]

#[cfg(test)]
mod tests;
