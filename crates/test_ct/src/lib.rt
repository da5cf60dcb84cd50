//! Messages of Certificate Transparency, by each call, encoded field by field from RFC 6962.
//!
//! The crate has only tests. It is above `ct` so that no message is proved twice.
#![tactic(auto)]

#[cfg(test)]
mod tests;
