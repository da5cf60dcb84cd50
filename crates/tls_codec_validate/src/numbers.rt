//! Integers, arrays of bytes and variable-length integers.
ghost use Rattle.tls_codec_validate.specs.Places.{here};

use crate::digits::skip;
use crate::rejected::{Rejected, or_rejected};
use crate::traits::Validate;
use tls_codec_base::DeserializeBytes;
use tls_codec_wire::quic::split_varint;
use tls_codec_wire::{TlsVarInt, U24};

impl Validate for u8 {
    ghost places = { here ⟦<u8 as DeserializeBytes>⟧.names };

    #[inline(always)]
    fn tls_validate_prefix(bytes: &[u8]) -> Result<&[u8], Rejected<'_>> {
        skip(bytes, 1)
    }

    #[inline(always)]
    fn tls_width() -> Option<usize> {
        Some(1)
    }
}

impl Validate for u16 {
    ghost places = { here ⟦<u16 as DeserializeBytes>⟧.names };

    #[inline(always)]
    fn tls_validate_prefix(bytes: &[u8]) -> Result<&[u8], Rejected<'_>> {
        skip(bytes, 2)
    }

    #[inline(always)]
    fn tls_width() -> Option<usize> {
        Some(2)
    }
}

impl Validate for U24 {
    ghost places = { here ⟦<U24 as DeserializeBytes>⟧.names };

    #[inline(always)]
    fn tls_validate_prefix(bytes: &[u8]) -> Result<&[u8], Rejected<'_>> {
        skip(bytes, 3)
    }

    #[inline(always)]
    fn tls_width() -> Option<usize> {
        Some(3)
    }
}

impl Validate for u32 {
    ghost places = { here ⟦<u32 as DeserializeBytes>⟧.names };

    #[inline(always)]
    fn tls_validate_prefix(bytes: &[u8]) -> Result<&[u8], Rejected<'_>> {
        skip(bytes, 4)
    }

    #[inline(always)]
    fn tls_width() -> Option<usize> {
        Some(4)
    }
}

impl Validate for u64 {
    ghost places = { here ⟦<u64 as DeserializeBytes>⟧.names };

    #[inline(always)]
    fn tls_validate_prefix(bytes: &[u8]) -> Result<&[u8], Rejected<'_>> {
        skip(bytes, 8)
    }

    #[inline(always)]
    fn tls_width() -> Option<usize> {
        Some(8)
    }
}

impl<const LEN: usize> Validate for [u8; LEN] {
    ghost places = { here ⟦<[u8; LEN] as DeserializeBytes>⟧.names };

    #[inline(always)]
    fn tls_validate_prefix(bytes: &[u8]) -> Result<&[u8], Rejected<'_>> {
        skip(bytes, LEN)
    }

    #[inline(always)]
    fn tls_width() -> Option<usize> {
        Some(LEN)
    }
}

impl Validate for TlsVarInt {
    ghost places = { here ⟦<TlsVarInt as DeserializeBytes>⟧.names };

    fn tls_validate_prefix(bytes: &[u8]) -> Result<&[u8], Rejected<'_>> {
        let (_, rest) = or_rejected(split_varint(bytes), bytes)?;
        Ok(rest)
    }
}
