//! The types of rows, by their names.
use crate::row::{Row, answer as answer_of};
use std::alloc::{AllocError, Global};
use tls_codec::{
    SecretTlsVec, SecretTlsVecU8, SecretTlsVecU16, SecretTlsVecU24, SecretTlsVecU32,
    SecretVLByteVec, SecretVLBytes, TlsByteVec, TlsByteVecU8, TlsByteVecU16, TlsByteVecU24,
    TlsByteVecU32, TlsVarInt, TlsVec, TlsVecU8, TlsVecU16, TlsVecU24, TlsVecU32, U24, VLByteVec,
    VLBytes, Within,
};
use tls_codec_vectors::{Leaf, Log, Step};

/// Appends the answer of the row in the line.
pub fn answer(alloc: Global, line: &str, out: &mut String) -> Result<(), AllocError> {
    let Some((name, others)) = line.split_once('\t') else {
        return out.push_str("no row");
    };
    let Some((call, bytes)) = others.split_once('\t') else {
        return out.push_str("no row");
    };
    let Some(row) = Row::of(alloc, call, bytes) else {
        return out.push_str("no such call, or no bytes");
    };
    if plain(alloc, name, &row, out)?
        || composed(alloc, name, &row, out)?
        || variable(alloc, name, &row, out)?
        || vectors(alloc, name, &row, out)?
        || byte_vectors(alloc, name, &row, out)?
        || secrets(alloc, name, &row, out)?
        || bounded(alloc, name, &row, out)?
    {
        return Ok(());
    }
    out.push_str("no such type")
}

// Numbers, arrays, nothing, and messages.
fn plain(alloc: Global, name: &str, row: &Row, out: &mut String) -> Result<bool, AllocError> {
    match name {
        "u8" => answer_of::<u8>(alloc, row, out),
        "u16" => answer_of::<u16>(alloc, row, out),
        "U24" => answer_of::<U24>(alloc, row, out),
        "u32" => answer_of::<u32>(alloc, row, out),
        "u64" => answer_of::<u64>(alloc, row, out),
        "TlsVarInt" => answer_of::<TlsVarInt>(alloc, row, out),
        "()" => answer_of::<()>(alloc, row, out),
        "[u8; 0]" => answer_of::<[u8; 0]>(alloc, row, out),
        "[u8; 4]" => answer_of::<[u8; 4]>(alloc, row, out),
        "Leaf" => answer_of::<Leaf>(alloc, row, out),
        "Step" => answer_of::<Step>(alloc, row, out),
        "Log" => answer_of::<Log>(alloc, row, out),
        _ => Ok(false),
    }
}

// Options, boxes, pairs and triples.
fn composed(alloc: Global, name: &str, row: &Row, out: &mut String) -> Result<bool, AllocError> {
    match name {
        "Option<u8>" => answer_of::<Option<u8>>(alloc, row, out),
        "Option<u16>" => answer_of::<Option<u16>>(alloc, row, out),
        "Option<Option<u8>>" => answer_of::<Option<Option<u8>>>(alloc, row, out),
        "Box<u16>" => answer_of::<Box<u16>>(alloc, row, out),
        "Box<Option<u8>>" => answer_of::<Box<Option<u8>>>(alloc, row, out),
        "(u8, Option<u16>)" => answer_of::<(u8, Option<u16>)>(alloc, row, out),
        "(U24, u8, ())" => answer_of::<(U24, u8, ())>(alloc, row, out),
        "(Option<u8>, Option<u8>, Option<u8>)" => {
            answer_of::<(Option<u8>, Option<u8>, Option<u8>)>(alloc, row, out)
        }
        "(u8, Vec<u16>, Option<String>)" => {
            answer_of::<(u8, Vec<u16>, Option<String>)>(alloc, row, out)
        }
        "(u8, TlsVecU8<u8>)" => answer_of::<(u8, TlsVecU8<u8>)>(alloc, row, out),
        "(u8, TlsByteVecU16)" => answer_of::<(u8, TlsByteVecU16)>(alloc, row, out),
        "(TlsVecU16<u8>, TlsVecU32<u16>)" => {
            answer_of::<(TlsVecU16<u8>, TlsVecU32<u16>)>(alloc, row, out)
        }
        _ => Ok(false),
    }
}

type Deep = Vec<Vec<Vec<Vec<Vec<Vec<Vec<Vec<u8>>>>>>>>;

// Lists and bytes after a variable-length length.
fn variable(alloc: Global, name: &str, row: &Row, out: &mut String) -> Result<bool, AllocError> {
    match name {
        "Vec<u8>" => answer_of::<Vec<u8>>(alloc, row, out),
        "Vec<u16>" => answer_of::<Vec<u16>>(alloc, row, out),
        "Vec<Option<u8>>" => answer_of::<Vec<Option<u8>>>(alloc, row, out),
        "Vec<Vec<u8>>" => answer_of::<Vec<Vec<u8>>>(alloc, row, out),
        "Vec<Vec<u16>>" => answer_of::<Vec<Vec<u16>>>(alloc, row, out),
        "Vec, eight times, of u8" => answer_of::<Deep>(alloc, row, out),
        "Vec<VLBytes>" => answer_of::<Vec<VLBytes>>(alloc, row, out),
        "Vec<TlsByteVecU16>" => answer_of::<Vec<TlsByteVecU16>>(alloc, row, out),
        "String" => answer_of::<String>(alloc, row, out),
        "VLBytes" => answer_of::<VLBytes>(alloc, row, out),
        "VLByteVec" => answer_of::<VLByteVec>(alloc, row, out),
        "SecretVLBytes" => answer_of::<SecretVLBytes>(alloc, row, out),
        "SecretVLByteVec" => answer_of::<SecretVLByteVec>(alloc, row, out),
        _ => Ok(false),
    }
}

// Lists after a length of one to four bytes.
fn vectors(alloc: Global, name: &str, row: &Row, out: &mut String) -> Result<bool, AllocError> {
    match name {
        "TlsVecU8<u8>" => answer_of::<TlsVecU8<u8>>(alloc, row, out),
        "TlsVecU16<u8>" => answer_of::<TlsVecU16<u8>>(alloc, row, out),
        "TlsVecU24<u8>" => answer_of::<TlsVecU24<u8>>(alloc, row, out),
        "TlsVecU32<u8>" => answer_of::<TlsVecU32<u8>>(alloc, row, out),
        "TlsVecU8<u16>" => answer_of::<TlsVecU8<u16>>(alloc, row, out),
        "TlsVecU16<u16>" => answer_of::<TlsVecU16<u16>>(alloc, row, out),
        "TlsVecU24<u16>" => answer_of::<TlsVecU24<u16>>(alloc, row, out),
        "TlsVecU32<u16>" => answer_of::<TlsVecU32<u16>>(alloc, row, out),
        "TlsVecU8<()>" => answer_of::<TlsVecU8<()>>(alloc, row, out),
        "TlsVecU8<VLBytes>" => answer_of::<TlsVecU8<VLBytes>>(alloc, row, out),
        "TlsVecU16<TlsVecU8<u8>>" => answer_of::<TlsVecU16<TlsVecU8<u8>>>(alloc, row, out),
        _ => Ok(false),
    }
}

// Byte vectors after such a length.
fn byte_vectors(
    alloc: Global,
    name: &str,
    row: &Row,
    out: &mut String,
) -> Result<bool, AllocError> {
    match name {
        "TlsByteVecU8" => answer_of::<TlsByteVecU8>(alloc, row, out),
        "TlsByteVecU16" => answer_of::<TlsByteVecU16>(alloc, row, out),
        "TlsByteVecU24" => answer_of::<TlsByteVecU24>(alloc, row, out),
        "TlsByteVecU32" => answer_of::<TlsByteVecU32>(alloc, row, out),
        _ => Ok(false),
    }
}

// Secrets after such a length.
fn secrets(alloc: Global, name: &str, row: &Row, out: &mut String) -> Result<bool, AllocError> {
    match name {
        "SecretTlsVecU8<u8>" => answer_of::<SecretTlsVecU8<u8>>(alloc, row, out),
        "SecretTlsVecU16<u8>" => answer_of::<SecretTlsVecU16<u8>>(alloc, row, out),
        "SecretTlsVecU24<u8>" => answer_of::<SecretTlsVecU24<u8>>(alloc, row, out),
        "SecretTlsVecU8<u16>" => answer_of::<SecretTlsVecU8<u16>>(alloc, row, out),
        "SecretTlsVecU16<u16>" => answer_of::<SecretTlsVecU16<u16>>(alloc, row, out),
        "SecretTlsVecU24<u16>" => answer_of::<SecretTlsVecU24<u16>>(alloc, row, out),
        "SecretTlsVecU32<u16>" => answer_of::<SecretTlsVecU32<u16>>(alloc, row, out),
        "SecretTlsVecU8<SecretVLBytes>" => {
            answer_of::<SecretTlsVecU8<SecretVLBytes>>(alloc, row, out)
        }
        _ => Ok(false),
    }
}

// What is after a length with bounds, as its definition has it.
fn bounded(alloc: Global, name: &str, row: &Row, out: &mut String) -> Result<bool, AllocError> {
    match name {
        "uint16<2..2^16-2>" => { answer_of::<TlsVec<Within<u16, 2, 65_534>, u16>>(alloc, row, out) }
        "uint8<2..2^16-2>" => answer_of::<TlsVec<Within<u16, 2, 65_534>, u8>>(alloc, row, out),
        "opaque<1..2^8-1>" => answer_of::<TlsByteVec<Within<u8, 1, 255>>>(alloc, row, out),
        "opaque<32..32>" => answer_of::<TlsByteVec<Within<u8, 32, 32>>>(alloc, row, out),
        "Vec of opaque<1..2^8-1>" => {
            answer_of::<Vec<TlsByteVec<Within<u8, 1, 255>>>>(alloc, row, out)
        }
        "secret uint16<2..4>" => {
            answer_of::<SecretTlsVec<Within<u8, 2, 4>, u16>>(alloc, row, out)
        }
        "VLBytes<1..63>" => {
            answer_of::<TlsVec<Within<TlsVarInt, 1, 63>, VLBytes>>(alloc, row, out)
        }
        _ => Ok(false),
    }
}
