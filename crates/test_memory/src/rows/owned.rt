//! The calls that request memory, of each type with bytes of its own.
use super::{Requests, Wrong, full, same};
use std::alloc::Global;
use tls_codec::{
    Error, SecretTlsVec, SecretVLByteVec, SecretVLBytes, TlsByteVec, TlsVec, U24, VLByteVec,
    VLBytes,
};

pub fn all(alloc: Global, requests: &mut Requests) -> Result<(), Wrong> {
    vectors_u8(alloc, requests)?;
    vectors_u16(alloc, requests)?;
    vectors_u24(alloc, requests)?;
    vectors_u32(alloc, requests)?;
    secret_vectors_u8(alloc, requests)?;
    secret_vectors_u16(alloc, requests)?;
    secret_vectors_u24(alloc, requests)?;
    secret_vectors_u32(alloc, requests)?;
    byte_vectors_u8(alloc, requests)?;
    byte_vectors_u16(alloc, requests)?;
    byte_vectors_u24(alloc, requests)?;
    byte_vectors_u32(alloc, requests)?;
    vl_bytes(alloc, requests)?;
    vl_byte_vec(alloc, requests)?;
    secret_vl_bytes(alloc, requests)?;
    secret_vl_byte_vec(alloc, requests)
}

// The bytes 1, 2, 3 are made as `$made` says, copied from a slice, cloned, and the last of them is pushed. Each
// call makes one request.
macro_rules! owned_calls {
    ($alloc:ident, $requests:ident, $Owned:ty, $made:expr) => {
        let whole = [1, 2, 3].as_slice();
        let made = counted!($requests, 1, $made)?;
        same(made.as_slice(), whole)?;
        let copied = counted!($requests, 1, <$Owned>::from_slice($alloc, whole))?;
        same(copied.as_slice(), whole)?;
        let cloned = counted!(
            $requests,
            1,
            copied.clone(),
            Error::OutOfMemory,
            same(copied.as_slice(), whole)?
        )?;
        same(cloned.as_slice(), whole)?;
        let two = [1, 2].as_slice();
        let mut owned = <$Owned>::new(full($alloc, $requests, two)?);
        counted!(
            $requests,
            1,
            owned.push(3),
            Error::OutOfMemory,
            same(owned.as_slice(), two)?
        )?;
        same(owned.as_slice(), whole)?;
    };
}

fn calls_of_vectors<F>(alloc: Global, requests: &mut Requests) -> Result<(), Wrong> {
    owned_calls!(
        alloc,
        requests,
        TlsVec<F, u8>,
        TlsVec::<F, u8>::try_from_iter(alloc, [1, 2, 3])
    );
    Ok(())
}

fn calls_of_secret_vectors<F>(alloc: Global, requests: &mut Requests) -> Result<(), Wrong> {
    owned_calls!(
        alloc,
        requests,
        SecretTlsVec<F, u8>,
        SecretTlsVec::<F, u8>::try_from_iter(alloc, [1, 2, 3])
    );
    Ok(())
}

fn calls_of_byte_vectors<F>(alloc: Global, requests: &mut Requests) -> Result<(), Wrong> {
    owned_calls!(
        alloc,
        requests,
        TlsByteVec<F>,
        TlsByteVec::<F>::try_from_iter(alloc, [1, 2, 3])
    );
    Ok(())
}

fn vectors_u8(alloc: Global, requests: &mut Requests) -> Result<(), Wrong> {
    requests.begin("vectors_u8");
    calls_of_vectors::<u8>(alloc, requests)
}

fn vectors_u16(alloc: Global, requests: &mut Requests) -> Result<(), Wrong> {
    requests.begin("vectors_u16");
    calls_of_vectors::<u16>(alloc, requests)
}

fn vectors_u24(alloc: Global, requests: &mut Requests) -> Result<(), Wrong> {
    requests.begin("vectors_u24");
    calls_of_vectors::<U24>(alloc, requests)
}

fn vectors_u32(alloc: Global, requests: &mut Requests) -> Result<(), Wrong> {
    requests.begin("vectors_u32");
    calls_of_vectors::<u32>(alloc, requests)
}

fn secret_vectors_u8(alloc: Global, requests: &mut Requests) -> Result<(), Wrong> {
    requests.begin("secret_vectors_u8");
    calls_of_secret_vectors::<u8>(alloc, requests)
}

fn secret_vectors_u16(alloc: Global, requests: &mut Requests) -> Result<(), Wrong> {
    requests.begin("secret_vectors_u16");
    calls_of_secret_vectors::<u16>(alloc, requests)
}

fn secret_vectors_u24(alloc: Global, requests: &mut Requests) -> Result<(), Wrong> {
    requests.begin("secret_vectors_u24");
    calls_of_secret_vectors::<U24>(alloc, requests)
}

fn secret_vectors_u32(alloc: Global, requests: &mut Requests) -> Result<(), Wrong> {
    requests.begin("secret_vectors_u32");
    calls_of_secret_vectors::<u32>(alloc, requests)
}

fn byte_vectors_u8(alloc: Global, requests: &mut Requests) -> Result<(), Wrong> {
    requests.begin("byte_vectors_u8");
    calls_of_byte_vectors::<u8>(alloc, requests)
}

fn byte_vectors_u16(alloc: Global, requests: &mut Requests) -> Result<(), Wrong> {
    requests.begin("byte_vectors_u16");
    calls_of_byte_vectors::<u16>(alloc, requests)
}

fn byte_vectors_u24(alloc: Global, requests: &mut Requests) -> Result<(), Wrong> {
    requests.begin("byte_vectors_u24");
    calls_of_byte_vectors::<U24>(alloc, requests)
}

fn byte_vectors_u32(alloc: Global, requests: &mut Requests) -> Result<(), Wrong> {
    requests.begin("byte_vectors_u32");
    calls_of_byte_vectors::<u32>(alloc, requests)
}

fn vl_bytes(alloc: Global, requests: &mut Requests) -> Result<(), Wrong> {
    requests.begin("vl_bytes");
    owned_calls!(
        alloc,
        requests,
        VLBytes,
        VLBytes::from_array(alloc, &[1, 2, 3])
    );
    Ok(())
}

fn vl_byte_vec(alloc: Global, requests: &mut Requests) -> Result<(), Wrong> {
    requests.begin("vl_byte_vec");
    owned_calls!(
        alloc,
        requests,
        VLByteVec,
        VLByteVec::from_array(alloc, &[1, 2, 3])
    );
    Ok(())
}

fn secret_vl_bytes(alloc: Global, requests: &mut Requests) -> Result<(), Wrong> {
    requests.begin("secret_vl_bytes");
    owned_calls!(
        alloc,
        requests,
        SecretVLBytes,
        SecretVLBytes::from_array(alloc, &[1, 2, 3])
    );
    Ok(())
}

fn secret_vl_byte_vec(alloc: Global, requests: &mut Requests) -> Result<(), Wrong> {
    requests.begin("secret_vl_byte_vec");
    owned_calls!(
        alloc,
        requests,
        SecretVLByteVec,
        SecretVLByteVec::from_array(alloc, &[1, 2, 3])
    );
    Ok(())
}
