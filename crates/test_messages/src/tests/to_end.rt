//! What goes to the end of what is read: any bytes, and a type with zeros after it.
use crate::tests::same;
use messages_of_each_shape::{Beat, BodyKind, Inner};
use std::test::Fail;
use tls_codec::{Error, TlsByteVecU16};
use tls_codec_cases::Followed;

#[test]
fn bytes_to_the_end(rt: HostRuntime) -> Result<(), Fail> {
    let alloc = rt.alloc();
    let bytes = [1, 0, 2, 8, 9, 5, 0, 6].as_slice();
    let found = <Followed<Beat>>::tls_deserialize_exact_bytes(alloc, bytes)?;
    let expected = Followed {
        content: Beat {
            kind: BodyKind::Chat,
            payload: TlsByteVecU16::from_slice(alloc, &[8, 9])?,
        },
        rest: [5, 0, 6].to_vec(alloc)?,
    };
    same(&rt, &found, &expected);
    same(&rt, found.tls_serialized_len(), 8);
    let mut out = [7].to_vec(alloc)?;
    same(&rt, found.tls_serialize_into(&mut out), Ok(8));
    same(&rt, out.get(1..), Some(bytes));
    // no bytes after it, and too few in it
    let found = <Followed<Beat>>::tls_deserialize_exact_bytes(alloc, &bytes[..5])?;
    same(&rt, found.rest.as_slice(), [].as_slice());
    let cut_off = <Followed<Beat>>::tls_deserialize_exact_bytes(alloc, &bytes[..4]).err();
    same(&rt, cut_off, Some(Error::EndOfStream));
    Ok(())
}

#[test]
fn a_type_and_zeros(rt: HostRuntime) -> Result<(), Fail> {
    let alloc = rt.alloc();
    let found = Inner::tls_deserialize_exact_bytes(alloc, &[0, 9, 2, 0])?;
    let expected = Inner {
        content: [0, 9].to_vec(alloc)?,
        kind: BodyKind::File,
        padding: 1,
    };
    same(&rt, &found, &expected);
    Ok(())
}
