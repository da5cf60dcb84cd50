//! Messages of TLS 1.3, by each call: each that OpenSSL 3.0 sent, with its extensions, and others
//! encoded field by field.
//!
//! The crate has only tests. It is above `tls13` so that no message is proved twice.
#![tactic(auto)]

#[cfg(test)]
mod tests;
