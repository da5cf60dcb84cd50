//! Printed texts of worked inputs, and how runs and the program of `tlsview_run` end.
//!
//! The crate has only tests. It is above the library so that the library is proved once.
#![tactic(auto)]

#[cfg(test)]
mod tests;
