//! Tests of encodings that are read where they lie.
//!
//! The crate has only tests.
#![tactic(auto)]

#[cfg(test)]
mod tests;
