//! [`Header`].
ghost use Rattle.std.specs.Prelude.{◌≡◌, ◌&&◌, ◌++◌};
ghost use Rattle.messages_of_each_shape.specs.Header.{header_format, header_meets, header_plain};
ghost use Rattle.messages_of_each_shape.specs.declared.header.Header.{Header};
ghost use Rattle.messages_of_each_shape.specs.Header.{header_u16};

use std::alloc::Global;
use tls_codec::{
    ByRef, Deserialize, DeserializeBytes, Error, Serialize, Sink, Size, Source, VLBytes,
};
use tls_codec_cases::{Holds, Selector, append_as};
use tls_codec_validate::{HoldsKey, Keyed, Keyless, Rejected, Validate, ValidateKeyed};
use tls_codec_views::{Encoded, Parted};

/// `Header`.
///
/// A number of another struct: cases of one field, of more, and of none.
#[derive(PartialEq, Eq, Debug, Clone, Drop)]
pub struct Header {
    /// `uint16 version;`
    pub version: u16,
    /// `opaque rest<V>;`
    pub rest_: VLBytes,
}

type Parts = (u16, VLBytes);

impl Size for Header {
    ghost plain = { header_plain };

    ghost format = { header_format };

    fn tls_serialized_len(&self) -> usize {
        (ByRef(&self.version), ByRef(&self.rest_)).tls_serialized_len()
    }

    ghost lawful = { header_meets };
}

impl Serialize for Header {
    fn tls_serialize<W: Sink>(&self, writer: &mut W) -> Result<usize, Error> {
        (ByRef(&self.version), ByRef(&self.rest_)).tls_serialize(writer)
    }

    fn tls_serialize_into(&self, out: &mut Vec<u8>) -> Result<usize, Error> {
        append_as(self, &(ByRef(&self.version), ByRef(&self.rest_)), out)
    }
}

impl Deserialize for Header {
    ghost names = { ⟦<Parts as Deserialize>⟧.names };

    fn tls_deserialize<R: Source>(alloc: Global, src: &mut R) -> Result<Header, Error> {
        let (version, rest_) = <Parts>::tls_deserialize(alloc, src)?;
        Ok(Header { version, rest_ })
    }
}

impl DeserializeBytes for Header {
    ghost names = { ⟦<Parts as DeserializeBytes>⟧.names };

    fn tls_deserialize_bytes(alloc: Global, whole: &[u8]) -> Result<(Header, &[u8]), Error> {
        let ((version, rest_), rest) = <Parts>::tls_deserialize_bytes(alloc, whole)?;
        Ok((Header { version, rest_ }, rest))
    }
}

impl Validate for Header {
    ghost places = { ⟦<Parts as Validate>⟧.places };

    fn tls_validate_prefix(whole: &[u8]) -> Result<&[u8], Rejected<'_>> {
        <Parts>::tls_validate_prefix(whole)
    }

    fn tls_width() -> Option<usize> {
        <Parts>::tls_width()
    }
}

impl Parted for Header {
    type Parts = Parts;

    ghost as_parts = { λ bytes is. is };
}

/// The encoding of a [`Header`], split into its fields.
#[derive(Drop)]
pub struct HeaderView<'a> {
    /// `uint16 version;`
    pub version: Encoded<'a, u16>,
    /// `opaque rest<V>;`
    pub rest_: Encoded<'a, VLBytes>,
}

impl<'a> From<Encoded<'a, Header>> for HeaderView<'a> {
    ghost from_gives = { λ whole view. whole ≡ (view.version ++ view.rest_) };

    fn from(whole: Encoded<'a, Header>) -> HeaderView<'a> {
        let (version, rest_) = whole.parts().split();
        HeaderView { version, rest_ }
    }
}

impl Holds<u16> for Header {
    ghost held = { header_u16 };

    fn held(&self) -> u16 {
        self.version
    }
}

impl Keyed for Header {
    type Key = u64;

    ghost is_key = { λ key c. (key ≡ ⟦<u16 as Selector>⟧.selected (header_u16 c)) };

    fn key(&self) -> u64 {
        <Header as Holds<u16>>::held(self).selects()
    }
}

impl HoldsKey<u16> for Header {
    fn held_key(key: &u64) -> u64 {
        *key
    }
}

type KeyedParts = (u16, Keyless<VLBytes>);

impl ValidateKeyed for Header {
    fn tls_validate_keyed(whole: &[u8]) -> Result<(u64, &[u8]), Rejected<'_>> {
        let ((version, _), rest) = <KeyedParts>::tls_validate_keyed(whole)?;
        Ok((version, rest))
    }
}

/// Two values are equal if and only if all their fields are equal.
pub fn is_compared_by_its_fields()
    ensures { (x y : Header) →
        ⟦<Header as PartialEq>⟧.eq x y
        ≡ (⟦<u16 as PartialEq>⟧.eq x.version y.version
        && ⟦<VLBytes as PartialEq>⟧.eq x.rest_ y.rest_) }
{}
