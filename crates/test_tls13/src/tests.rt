//! Worked values, captures and rejected bytes.
mod captured;
mod captures;
mod extensions;
mod handshakes;
mod hellos;
mod inner;
mod lists;
mod names;
mod records;
mod sending;
mod streams;
mod views;
