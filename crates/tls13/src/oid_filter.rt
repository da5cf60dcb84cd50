//! [`OIDFilter`].
ghost use Rattle.std.specs.Prelude.{◌≡◌, ◌&&◌, ◌++◌};
ghost use Rattle.tls13.specs.OIDFilter.{oid_filter_format, oid_filter_meets, oid_filter_plain};
ghost use Rattle.tls13.specs.declared.oid_filter.OIDFilter.{OIDFilter};

use std::alloc::Global;
use tls_codec::{
    ByRef, Deserialize, DeserializeBytes, Error, Serialize, Sink, Size, Source, TlsByteVec,
    TlsByteVecU16, Within,
};
use tls_codec_cases::append_as;
use tls_codec_validate::{Rejected, Validate};
use tls_codec_views::{Encoded, Parted};

/// `OIDFilter` (RFC 8446, appendix B.3.2).
#[derive(PartialEq, Eq, Debug, Clone, Drop)]
pub struct OIDFilter {
    /// `opaque certificate_extension_oid<1..2^8-1>;`
    pub certificate_extension_oid: TlsByteVec<Within<u8, 1, 255>>,
    /// `opaque certificate_extension_values<0..2^16-1>;`
    pub certificate_extension_values: TlsByteVecU16,
}

type Parts = (TlsByteVec<Within<u8, 1, 255>>, TlsByteVecU16);

impl Size for OIDFilter {
    ghost plain = { oid_filter_plain };

    ghost format = { oid_filter_format };

    fn tls_serialized_len(&self) -> usize {
        (
            ByRef(&self.certificate_extension_oid),
            ByRef(&self.certificate_extension_values),
        )
            .tls_serialized_len()
    }

    ghost lawful = { oid_filter_meets };
}

impl Serialize for OIDFilter {
    fn tls_serialize<W: Sink>(&self, writer: &mut W) -> Result<usize, Error> {
        (
            ByRef(&self.certificate_extension_oid),
            ByRef(&self.certificate_extension_values),
        )
            .tls_serialize(writer)
    }

    fn tls_serialize_into(&self, out: &mut Vec<u8>) -> Result<usize, Error> {
        append_as(
            self,
            &(
                ByRef(&self.certificate_extension_oid),
                ByRef(&self.certificate_extension_values),
            ),
            out,
        )
    }
}

impl Deserialize for OIDFilter {
    ghost names = { ⟦<Parts as Deserialize>⟧.names };

    fn tls_deserialize<R: Source>(alloc: Global, src: &mut R) -> Result<OIDFilter, Error> {
        let (certificate_extension_oid, certificate_extension_values) = <Parts>::tls_deserialize(
            alloc, src,
        )?;
        Ok(OIDFilter {
            certificate_extension_oid,
            certificate_extension_values,
        })
    }
}

impl DeserializeBytes for OIDFilter {
    ghost names = { ⟦<Parts as DeserializeBytes>⟧.names };

    fn tls_deserialize_bytes(alloc: Global, whole: &[u8]) -> Result<(OIDFilter, &[u8]), Error> {
        let ((certificate_extension_oid, certificate_extension_values), rest) =
            <Parts>::tls_deserialize_bytes(alloc, whole)?;
        Ok((
            OIDFilter {
                certificate_extension_oid,
                certificate_extension_values,
            },
            rest,
        ))
    }
}

impl Validate for OIDFilter {
    ghost places = { ⟦<Parts as Validate>⟧.places };

    fn tls_validate_prefix(whole: &[u8]) -> Result<&[u8], Rejected<'_>> {
        <Parts>::tls_validate_prefix(whole)
    }

    fn tls_width() -> Option<usize> {
        <Parts>::tls_width()
    }
}

impl Parted for OIDFilter {
    type Parts = Parts;

    ghost as_parts = { λ bytes is. is };
}

/// The encoding of a [`OIDFilter`], split into its fields.
#[derive(Drop)]
pub struct OIDFilterView<'a> {
    /// `opaque certificate_extension_oid<1..2^8-1>;`
    pub certificate_extension_oid: Encoded<'a, TlsByteVec<Within<u8, 1, 255>>>,
    /// `opaque certificate_extension_values<0..2^16-1>;`
    pub certificate_extension_values: Encoded<'a, TlsByteVecU16>,
}

impl<'a> From<Encoded<'a, OIDFilter>> for OIDFilterView<'a> {
    ghost from_gives = { λ whole view. whole ≡ (view.certificate_extension_oid ++
        view.certificate_extension_values) };

    fn from(whole: Encoded<'a, OIDFilter>) -> OIDFilterView<'a> {
        let (certificate_extension_oid, certificate_extension_values) = whole.parts().split();
        OIDFilterView {
            certificate_extension_oid,
            certificate_extension_values,
        }
    }
}

/// Two values are equal if and only if all their fields are equal.
pub fn is_compared_by_its_fields()
    ensures { (x y : OIDFilter) →
        ⟦<OIDFilter as PartialEq>⟧.eq x y
        ≡ (⟦<TlsByteVec<Within<u8, 1, 255>> as PartialEq>⟧.eq x.certificate_extension_oid
        y.certificate_extension_oid
        && ⟦<TlsByteVecU16 as PartialEq>⟧.eq x.certificate_extension_values
        y.certificate_extension_values) }
{}
