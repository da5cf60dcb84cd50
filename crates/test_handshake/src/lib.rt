//! Structs of the handshake of TLS 1.3, by each call: messages that OpenSSL 3.0 sent, and others
//! encoded field by field.
//!
//! The crate has only tests. It is above the structs so that none of those is proved twice.
#![tactic(auto)]

#[cfg(test)]
mod tests;
