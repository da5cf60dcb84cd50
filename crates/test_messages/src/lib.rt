//! Worked values of written messages, by each call: one message of each shape, and those of MLS.
//!
//! The crate has only tests. It is above the messages so that none of those is proved twice.
#![tactic(auto)]

#[cfg(test)]
mod tests;
