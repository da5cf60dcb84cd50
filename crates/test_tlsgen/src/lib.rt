//! Worked texts of the presentation language, from their tokens to the plan of what is written for them.
//!
//! The crate has only tests. It is above the libraries so that neither of those is proved twice.
#![tactic(auto)]

#[cfg(test)]
mod tests;
