//! Devices, engines, laws, and calls that neither read nor write.
mod appending;
mod callers;
mod calls;
mod clearing;
mod devices;
mod engines;
mod laws;
mod messages;
mod quiet;

use std::fmt::Debug;
use std::hash::{DefaultHasher, Hash, Hasher};
use std::process::Abort;

// An assertion that is written out is proved at each place: this one is proved once.
fn same<T: PartialEq + Debug + Drop>(rt: &impl Abort, found: T, expected: T) {
    assert_eq!(rt; found, expected);
}

// The same at one of several rows, which a failure names.
fn same_at<Row: Debug + Drop, T: PartialEq + Debug + Drop>(
    rt: &impl Abort,
    row: Row,
    found: T,
    expected: T,
) {
    assert_eq!(rt; found, expected, "at {row:?}");
}

fn holds(rt: &impl Abort, condition: bool) {
    assert!(rt; condition);
}

fn hash_of<T: Hash>(value: &T) -> u64 {
    let mut state = DefaultHasher::new();
    value.hash(&mut state);
    state.finish()
}
