//! Worked values and rejected bytes.
mod entries;
mod signed;
mod timestamps;
mod trees;

use ct::{ASN1Cert, CtExtensions, PreCert};
use std::alloc::Global;
use std::test::Fail;
use tls_codec::{TlsByteVec, TlsByteVecU16};

// 14 November 2023, in milliseconds since 1970.
const TIME: u64 = 0x018b_cfe5_6800;

fn certificate(alloc: Global, bytes: &[u8]) -> Result<ASN1Cert, Fail> {
    Ok(TlsByteVec::from_slice(alloc, bytes)?)
}

fn precertificate(alloc: Global) -> Result<PreCert, Fail> {
    Ok(PreCert {
        issuer_key_hash: [6; 32],
        tbs_certificate: TlsByteVec::from_slice(alloc, &[8, 9])?,
    })
}

fn extensions(alloc: Global, bytes: &[u8]) -> Result<CtExtensions, Fail> {
    Ok(TlsByteVecU16::from_slice(alloc, bytes)?)
}
