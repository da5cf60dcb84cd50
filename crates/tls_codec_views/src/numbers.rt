//! Integers and arrays of bytes: their values.
ghost use Rattle.std.specs.Prelude.{◌≡◌, length};
ghost use Rattle.tls_codec_grammar.specs.Grammar.{Reading};

use crate::encoded::Encoded;
use tls_codec_validate::Validate;
use tls_codec_wire::quic::split_varint;
use tls_codec_wire::{TlsVarInt, U24};

/// A type whose value is read from an [`Encoded`] without allocating and without failing: integers,
/// arrays of bytes, and enums of numbers.
pub trait ReadInPlace: Validate {
    /// The value.
    fn read(encoded: &Encoded<'_, Self>) -> Self
        ensures { Self.format.spells Reading encoded.now (Self.plain result) };
}

impl<'a, T: ReadInPlace> Encoded<'a, T> {
    /// The value.
    pub fn get(&self) -> T
        ensures { T.format.spells Reading self.now (T.plain result) }
    {
        T::read(self)
    }
}

impl ReadInPlace for u8 {
    fn read(encoded: &Encoded<'_, u8>) -> u8 {
        u8::from_be_bytes(array_of(encoded.bytes))
    }
}

impl ReadInPlace for u16 {
    fn read(encoded: &Encoded<'_, u16>) -> u16 {
        u16::from_be_bytes(array_of(encoded.bytes))
    }
}

impl ReadInPlace for U24 {
    fn read(encoded: &Encoded<'_, U24>) -> U24 {
        U24::from_be_bytes(array_of(encoded.bytes))
    }
}

impl ReadInPlace for u32 {
    fn read(encoded: &Encoded<'_, u32>) -> u32 {
        u32::from_be_bytes(array_of(encoded.bytes))
    }
}

impl ReadInPlace for u64 {
    fn read(encoded: &Encoded<'_, u64>) -> u64 {
        u64::from_be_bytes(array_of(encoded.bytes))
    }
}

impl<const LEN: usize> ReadInPlace for [u8; LEN] {
    fn read(encoded: &Encoded<'_, [u8; LEN]>) -> [u8; LEN] {
        array_of(encoded.bytes)
    }
}

impl ReadInPlace for TlsVarInt {
    fn read(encoded: &Encoded<'_, TlsVarInt>) -> TlsVarInt {
        match split_varint(encoded.bytes) {
            Ok((number, _)) => number,
            Err(_) => unreachable!(),
        }
    }
}

// The bytes. It is known that there are `LEN` of them.
fn array_of<const LEN: usize>(bytes: &[u8]) -> [u8; LEN]
    requires { length bytes.now ≡ LEN }
    ensures { result ≡ bytes.now }
{
    match bytes.split_first_chunk::<LEN>() {
        Some((array, _)) => *array,
        None => unreachable!(),
    }
}
