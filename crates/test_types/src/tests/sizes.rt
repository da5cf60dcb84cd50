//! Each size to 600, and large ones, by each call that writes, reads or copies that number of
//! bytes.
mod families;

use super::each_call::{
    expect_read, expect_read_at_once, expect_written, expect_written_alone, filled,
};
use crate::tests::{holds, same};
use std::alloc::{AllocError, Global};
use std::process::Abort;
use std::test::Fail;
use tls_codec::{
    Deserialize, DeserializeBytes, SecretVarBytes, Serialize, SerializeBytes, VLBytes, VarBytes,
};
use tls_codec_vl::names::{SecretVLByteVecName, SecretVLBytesName, VLByteVecName, VLBytesName};

const GREATEST: usize = 1_048_576;

// Each size to 600, and the large ones, none above `most`.
fn sizes_to(alloc: Global, most: usize) -> Result<Vec<usize>, AllocError> {
    let mut sizes = Vec::new(alloc);
    for size in 0..=most.min(600) {
        sizes.push(size)?;
    }
    for great in [16_383, 16_384, 65_535, 65_536, GREATEST] {
        if great <= most {
            sizes.push(great)?;
        }
    }
    Ok(sizes)
}

// The content after its length: one byte below 64, two that begin with the bits 01 below 16,384, and
// from there four that begin with 10.
fn spelled(alloc: Global, content: &[u8]) -> Result<Vec<u8>, AllocError> {
    let [.., top, high, middle, low] = content.len().to_be_bytes();
    let mut form = match content.len() {
        0..64 => [low].to_vec(alloc)?,
        64..16_384 => [0x40 | middle, low].to_vec(alloc)?,
        _ => [0x80 | top, high, middle, low].to_vec(alloc)?,
    };
    form.extend_from_slice(content)?;
    Ok(form)
}

// Each decoder reads the value from these bytes. Few bytes are also read one byte a pull, which
// takes long.
fn expect_read_back<T: Deserialize + DeserializeBytes + PartialEq>(
    rt: &impl Abort,
    alloc: Global,
    value: &T,
    bytes: &[u8],
) -> Result<(), Fail> {
    if bytes.len() < 300 {
        expect_read(rt, alloc, bytes, value, &[])?;
    } else {
        expect_read_at_once(rt, alloc, bytes, value, &[])?;
    }
    holds(rt, T::tls_deserialize_exact_bytes(alloc, bytes)? == *value);
    holds(rt, T::tls_deserialize_exact(alloc, bytes)? == *value);
    Ok(())
}

// A copy has the whole content, and a byte is put after it.
macro_rules! expect_copied_and_grown {
    ($rt:expr, $owned:ident, $content:ident) => {
        let copy = $owned.clone()?;
        same($rt, copy.as_slice(), $content.as_slice());
        $owned.push(0x62)?;
        same($rt, $owned.as_slice().split_last(), Some((&0x62, $content.as_slice())));
    };
}

use expect_copied_and_grown;

// What a byte vector does at each size.
macro_rules! expect_byte_vector {
    ($rt:ident, $alloc:ident, $Owned:ty, $expect_written:ident) => {
        for size in sizes_to($alloc, GREATEST)? {
            let content = filled($alloc, size, 0x61)?;
            let form = spelled($alloc, &content)?;
            let mut owned = <$Owned>::from_slice($alloc, &content)?;
            $expect_written($rt, $alloc, &owned, &form)?;
            expect_read_back($rt, $alloc, &owned, &form)?;
            expect_copied_and_grown!($rt, owned, content);
        }
    };
}

fn expect_byte_vectors<N>(rt: &impl Abort, alloc: Global) -> Result<(), Fail> {
    expect_byte_vector!(rt, alloc, VarBytes<N>, expect_written_alone);
    Ok(())
}

fn expect_secrets<N>(rt: &impl Abort, alloc: Global) -> Result<(), Fail> {
    expect_byte_vector!(rt, alloc, SecretVarBytes<N>, expect_written);
    Ok(())
}

#[test]
fn sizes_of_vl_bytes(rt: HostRuntime) -> Result<(), Fail> {
    expect_byte_vectors::<VLBytesName>(&rt, rt.alloc())
}

#[test]
fn sizes_of_vl_byte_vec(rt: HostRuntime) -> Result<(), Fail> {
    expect_byte_vectors::<VLByteVecName>(&rt, rt.alloc())
}

#[test]
fn sizes_of_secret_vl_bytes(rt: HostRuntime) -> Result<(), Fail> {
    expect_secrets::<SecretVLBytesName>(&rt, rt.alloc())
}

#[test]
fn sizes_of_secret_vl_byte_vec(rt: HostRuntime) -> Result<(), Fail> {
    expect_secrets::<SecretVLByteVecName>(&rt, rt.alloc())
}

#[test]
fn sizes_of_vectors(rt: HostRuntime) -> Result<(), Fail> {
    let alloc = rt.alloc();
    for size in sizes_to(alloc, GREATEST)? {
        let content = filled(alloc, size, 0x61)?;
        let form = spelled(alloc, &content)?;
        let mut list = content.as_slice().to_vec(alloc)?;
        expect_written_alone(&rt, alloc, &list, &form)?;
        expect_read_back(&rt, alloc, &list, &form)?;
        expect_copied_and_grown!(&rt, list, content);
    }
    Ok(())
}

// A text of `size` bytes.
fn text_of(alloc: Global, size: usize) -> Result<String, AllocError> {
    let mut text = String::new(alloc);
    for _at in 0..size {
        text.push('a')?;
    }
    Ok(text)
}

#[test]
fn sizes_of_texts(rt: HostRuntime) -> Result<(), Fail> {
    let alloc = rt.alloc();
    for size in sizes_to(alloc, GREATEST)? {
        let text = text_of(alloc, size)?;
        let form = spelled(alloc, &filled(alloc, size, b'a')?)?;
        expect_written_alone(&rt, alloc, &text, &form)?;
        expect_read_back(&rt, alloc, &text, &form)?;
    }
    Ok(())
}

// A list of `count` empty byte vectors, and its encoding.
fn empty_vectors(alloc: Global, count: usize) -> Result<(Vec<VLBytes>, Vec<u8>), AllocError> {
    let mut list = Vec::new(alloc);
    for _at in 0..count {
        list.push(VLBytes::new(Vec::new(alloc)))?;
    }
    let form = spelled(alloc, &filled(alloc, count, 0)?)?;
    Ok((list, form))
}

#[test]
fn empty_vectors_are_written(rt: HostRuntime) -> Result<(), Fail> {
    let alloc = rt.alloc();
    for size in sizes_to(alloc, 65_536)? {
        let (list, form) = empty_vectors(alloc, size)?;
        expect_written_alone(&rt, alloc, &list, &form)?;
    }
    Ok(())
}

#[test]
fn empty_vectors_are_read(rt: HostRuntime) -> Result<(), Fail> {
    let alloc = rt.alloc();
    for size in sizes_to(alloc, 65_536)? {
        let (list, form) = empty_vectors(alloc, size)?;
        expect_read_back(&rt, alloc, &list, &form)?;
    }
    Ok(())
}

// The greatest list of them, by one call a test, since each takes long.
#[test]
fn many_empty_vectors_are_sent(rt: HostRuntime) -> Result<(), Fail> {
    let (list, form) = empty_vectors(rt.alloc(), GREATEST)?;
    let mut received = Vec::new(rt.alloc());
    same(&rt, list.tls_serialize(&mut received)?, form.len());
    holds(&rt, received == form);
    Ok(())
}

#[test]
fn many_empty_vectors_are_appended(rt: HostRuntime) -> Result<(), Fail> {
    let (list, form) = empty_vectors(rt.alloc(), GREATEST)?;
    let mut out = Vec::new(rt.alloc());
    same(&rt, list.tls_serialize_into(&mut out)?, form.len());
    holds(&rt, out == form);
    Ok(())
}

#[test]
fn many_empty_vectors_are_detached(rt: HostRuntime) -> Result<(), Fail> {
    let (list, form) = empty_vectors(rt.alloc(), GREATEST)?;
    holds(&rt, list.tls_serialize_detached(rt.alloc())? == form);
    Ok(())
}

#[test]
fn many_empty_vectors_are_a_vector(rt: HostRuntime) -> Result<(), Fail> {
    let (list, form) = empty_vectors(rt.alloc(), GREATEST)?;
    holds(&rt, list.tls_serialize_bytes(rt.alloc())? == form);
    Ok(())
}

#[test]
fn many_empty_vectors_are_split(rt: HostRuntime) -> Result<(), Fail> {
    let (list, form) = empty_vectors(rt.alloc(), GREATEST)?;
    let found = <Vec<VLBytes>>::tls_deserialize_exact_bytes(rt.alloc(), &form)?;
    holds(&rt, found == list);
    Ok(())
}

#[test]
fn many_empty_vectors_are_read(rt: HostRuntime) -> Result<(), Fail> {
    let (list, form) = empty_vectors(rt.alloc(), GREATEST)?;
    let found = <Vec<VLBytes>>::tls_deserialize_exact(rt.alloc(), &form)?;
    holds(&rt, found == list);
    Ok(())
}
