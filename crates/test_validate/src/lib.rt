//! What the rows of `test_values` can't say of validation: fixed widths, what is decoded once it is validated, and
//! the tags of enums.
//!
//! The crate has only tests.
#![tactic(auto)]

#[cfg(test)]
mod tests;
