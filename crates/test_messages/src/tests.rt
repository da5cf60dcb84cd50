//! Worked values and rejected bytes.
mod arrays;
mod elements;
mod elsewhere;
mod held;
mod key_packages;
mod mls_messages;
mod of_cases;
mod parts;
mod private;
mod selected;
mod senders;
mod sending;
mod shapes;
mod signed;
mod signed_parts;
mod signing;
mod to_end;
mod views;

use std::alloc::Global;
use std::fmt::Debug;
use std::process::Abort;
use tls_codec::{Error, Serialize, VLBytes};

const DOES_NOT_FIT: Error = Error::EncodingError("value does not fit its context");

const NOT_FILLED: Error = Error::DecodingError("elements do not fill the declared length");

const NOT_THERE: Error = Error::DecodingError("declared content is not there");

const LENGTH: Error = Error::InvalidVectorLength;

const TRAILING: Error = Error::TrailingData;

const END: Error = Error::EndOfStream;

// An assertion that is written out is proved at each place: this one is proved once.
fn same<T: PartialEq + Debug + Drop>(rt: &impl Abort, found: T, expected: T) {
    assert_eq!(rt; found, expected);
}

// The same at one of several rows, which a failure names.
fn same_at<Row: Debug + Drop, T: PartialEq + Debug + Drop>(
    rt: &impl Abort,
    row: Row,
    found: T,
    expected: T,
) {
    assert_eq!(rt; found, expected, "at {row:?}");
}

fn holds(rt: &impl Abort, condition: bool) {
    assert!(rt; condition);
}

// No encoder writes the value: a part is for another tag than the one before it.
fn expect_does_not_fit<T: Serialize>(rt: &impl Abort, alloc: Global, value: &T) {
    same(
        rt,
        value.tls_serialize_detached(alloc).err(),
        Some(DOES_NOT_FIT),
    );
}

fn one_byte(alloc: Global, byte: u8) -> Result<VLBytes, Error> {
    VLBytes::from_array(alloc, &[byte])
}
