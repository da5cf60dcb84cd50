//! Arrays of what isn't a byte, by their bytes (RFC 8446, section 3.4).
use crate::tests::{holds, same};
use messages_of_each_shape::{Line, Pixel, ThreeData};
use std::alloc::Global;
use std::process::Abort;
use std::test::Fail;
use test_support::each_call::{expect_encoded_as, expect_rejected};
use tls_codec::{Error, Serialize, TlsVec};

fn three_data(alloc: Global, data: &[[u8; 3]]) -> Result<ThreeData, Error> {
    let data_ = TlsVec::new(data.to_vec(alloc)?);
    Ok(ThreeData { data_ })
}

// Each encoder rejects the value, and nothing of it is sent.
fn expect_not_written<T: Serialize>(rt: &impl Abort, alloc: Global, value: &T) {
    let refused = Some(Error::InvalidVectorLength);
    same(rt, value.tls_serialize_detached(alloc).err(), refused);
    let mut received = Vec::new(alloc);
    same(rt, value.tls_serialize(&mut received).err(), refused);
    same(rt, value.tls_serialize_into(&mut received).err(), refused);
    holds(rt, received.is_empty());
}

// Nine bytes are three elements, as the section has them.
#[test]
fn data_of_three_bytes(rt: HostRuntime) -> Result<(), Fail> {
    let alloc = rt.alloc();
    let three = three_data(alloc, &[[1, 2, 3], [4, 5, 6], [7, 8, 9]])?;
    expect_encoded_as(alloc, "nine bytes", &three, &[1, 2, 3, 4, 5, 6, 7, 8, 9])?;
    for bytes in [
        [].as_slice(),
        &[1],
        &[1, 2, 3, 4, 5, 6],
        &[1, 2, 3, 4, 5, 6, 7, 8],
    ] {
        let row = format!(in alloc; "{bytes:?}")?;
        expect_rejected::<ThreeData>(alloc, &row, bytes, Error::EndOfStream)?;
    }
    Ok(())
}

#[test]
fn another_number_of_bytes(rt: HostRuntime) -> Result<(), Fail> {
    let alloc = rt.alloc();
    for data in [[].as_slice(), &[[1, 2, 3], [4, 5, 6]], &[[0; 3]; 4]] {
        expect_not_written(&rt, alloc, &three_data(alloc, data)?);
    }
    Ok(())
}

// Six bytes are two structs, between other fields.
#[test]
fn structs(rt: HostRuntime) -> Result<(), Fail> {
    let alloc = rt.alloc();
    let pixels = [Pixel { x: 2, y: 3 }, Pixel { x: 4, y: 5 }];
    let line = Line {
        before: 1,
        pixels: TlsVec::new(Vec::from_array(alloc, pixels)?),
        after: 6,
    };
    let spelled = [0, 0, 0, 1, 2, 0, 3, 4, 0, 5, 0, 6];
    expect_encoded_as(alloc, "two", &line, &spelled)?;
    expect_rejected::<Line>(alloc, "one", &[0, 0, 0, 1, 2, 0, 3, 4], Error::EndOfStream)
}
