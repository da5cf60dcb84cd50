//! Worked values and rejected bytes.
mod captured;
mod certificates;
mod each_call;
mod handshakes;
mod key_shares;
