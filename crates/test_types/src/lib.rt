//! What the rows of `test_values` can't say of the public types: values that no bytes are read as, parts that
//! are borrowed, each size to 600, contexts, and lengths by themselves.
//!
//! The crate has only tests. It is above the libraries so that none of those is proved twice.
#![tactic(auto)]

#[cfg(test)]
mod tests;
