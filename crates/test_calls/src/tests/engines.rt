//! The calls under the traits, by the names of their own crates: digits; lengths that are sent or put into a gap; and
//! elements and bytes after their length.
mod contents;
mod digits;
