//! Worked values of `tls_codec_wire`, and its calls over devices that follow a plan.
//!
//! The crate has only tests. It is above the library so that the library is proved once.
#![tactic(auto)]

#[cfg(test)]
mod tests;
