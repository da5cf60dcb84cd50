//! The calls that read and write nothing.
use crate::tests::{hash_of, holds, same};
use std::test::Fail;
use tls_codec::{VLByteSlice, VLByteVec, VLBytes};

// Each call of a type with bytes of its own.
macro_rules! owned_calls {
    ($rt:ident, $Owned:ident, $shown:literal, $shown_empty:literal) => {
        let alloc = $rt.alloc();
        let mut owned = $Owned::new(Vec::new(alloc));
        same(&$rt, owned.pop(), None);
        let text = format!(in alloc; "{owned:?}")?;
        same(&$rt, text.as_str(), $shown_empty);
        owned.push(5)?;
        same(&$rt, owned.as_slice(), [5].as_slice());
        let copy = owned.clone()?;
        same(&$rt, owned.pop(), Some(5));
        same(&$rt, copy.as_slice(), [5].as_slice());

        let low = $Owned::from_slice(alloc, &[0x00, 0xff])?;
        let high = $Owned::from_array(alloc, &[0x01])?;
        holds(&$rt, low < high);
        holds(&$rt, low != high);
        let equal = $Owned::from_array(alloc, &[0x00, 0xff])?;
        holds(&$rt, low == equal);
        same(&$rt, hash_of(&low), hash_of(&equal));

        let shown = $Owned::from_array(alloc, &[0x00, 0xaa])?;
        let text = format!(in alloc; "{shown:?}")?;
        same(&$rt, text.as_str(), $shown);

        let content: Vec<u8> = low.into();
        same(&$rt, content.as_slice(), [0x00, 0xff].as_slice());
        let back = $Owned::from(content);
        holds(&$rt, back == equal);
    };
}

#[test]
fn calls_of_vl_bytes(rt: HostRuntime) -> Result<(), Fail> {
    owned_calls!(rt, VLBytes, "VLBytes { 0x00aa }", "VLBytes { b\"\" }");
    Ok(())
}

#[test]
fn calls_of_vl_byte_vec(rt: HostRuntime) -> Result<(), Fail> {
    owned_calls!(rt, VLByteVec, "VLByteVec { 0x00aa }", "VLByteVec { b\"\" }");
    Ok(())
}

#[test]
fn borrowed_bytes_are_shown(rt: HostRuntime) -> Result<(), Fail> {
    let table = [
        ([0x00, 0xaa].as_slice(), "VLByteSlice { 0x00aa }"),
        (&[], "VLByteSlice { b\"\" }"),
    ];
    for (content, text) in table {
        let slice = VLByteSlice(content);
        same(&rt, format!(in rt.alloc(); "{slice:?}")?.as_str(), text);
        same(&rt, slice.as_slice(), content);
    }
    Ok(())
}
