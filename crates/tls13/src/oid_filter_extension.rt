//! [`OIDFilterExtension`].
ghost use Rattle.std.specs.Prelude.{◌≡◌};
ghost use Rattle.tls13.specs.OIDFilterExtension.{oid_filter_extension_format, oid_filter_extension_meets, oid_filter_extension_plain};
ghost use Rattle.tls13.specs.declared.oid_filter_extension.OIDFilterExtension.{OIDFilterExtension};

use crate::OIDFilter;
use std::alloc::Global;
use tls_codec::{Deserialize, DeserializeBytes, Error, Serialize, Sink, Size, Source, TlsVecU16};
use tls_codec_cases::append_as;
use tls_codec_validate::{Rejected, Validate};
use tls_codec_views::{Encoded, Parted};

/// `OIDFilterExtension` (RFC 8446, appendix B.3.2).
#[derive(PartialEq, Eq, Debug, Clone, Drop)]
pub struct OIDFilterExtension {
    /// `OIDFilter filters<0..2^16-1>;`
    pub filters: TlsVecU16<OIDFilter>,
}

impl Size for OIDFilterExtension {
    ghost plain = { oid_filter_extension_plain };

    ghost format = { oid_filter_extension_format };

    fn tls_serialized_len(&self) -> usize {
        self.filters.tls_serialized_len()
    }

    ghost lawful = { oid_filter_extension_meets };
}

impl Serialize for OIDFilterExtension {
    fn tls_serialize<W: Sink>(&self, writer: &mut W) -> Result<usize, Error> {
        self.filters.tls_serialize(writer)
    }

    fn tls_serialize_into(&self, out: &mut Vec<u8>) -> Result<usize, Error> {
        append_as(self, &self.filters, out)
    }
}

impl Deserialize for OIDFilterExtension {
    ghost names = { ⟦<TlsVecU16<OIDFilter> as Deserialize>⟧.names };

    fn tls_deserialize<R: Source>(alloc: Global, src: &mut R) -> Result<OIDFilterExtension, Error> {
        let filters = <TlsVecU16<OIDFilter>>::tls_deserialize(alloc, src)?;
        Ok(OIDFilterExtension { filters })
    }
}

impl DeserializeBytes for OIDFilterExtension {
    ghost names = { ⟦<TlsVecU16<OIDFilter> as DeserializeBytes>⟧.names };

    fn tls_deserialize_bytes(
        alloc: Global,
        whole: &[u8],
    ) -> Result<(OIDFilterExtension, &[u8]), Error> {
        let (filters, rest) = <TlsVecU16<OIDFilter>>::tls_deserialize_bytes(alloc, whole)?;
        Ok((OIDFilterExtension { filters }, rest))
    }
}

impl Validate for OIDFilterExtension {
    ghost places = { ⟦<TlsVecU16<OIDFilter> as Validate>⟧.places };

    fn tls_validate_prefix(whole: &[u8]) -> Result<&[u8], Rejected<'_>> {
        <TlsVecU16<OIDFilter>>::tls_validate_prefix(whole)
    }

    fn tls_width() -> Option<usize> {
        <TlsVecU16<OIDFilter>>::tls_width()
    }
}

impl Parted for OIDFilterExtension {
    type Parts = Box<TlsVecU16<OIDFilter>>;

    ghost as_parts = { λ bytes is. is };
}

/// The encoding of a [`OIDFilterExtension`], split into its fields.
#[derive(Drop)]
pub struct OIDFilterExtensionView<'a> {
    /// `OIDFilter filters<0..2^16-1>;`
    pub filters: Encoded<'a, TlsVecU16<OIDFilter>>,
}

impl<'a> From<Encoded<'a, OIDFilterExtension>> for OIDFilterExtensionView<'a> {
    ghost from_gives = { λ whole view. whole ≡ view.filters };

    fn from(whole: Encoded<'a, OIDFilterExtension>) -> OIDFilterExtensionView<'a> {
        let filters = whole.parts().payload();
        OIDFilterExtensionView { filters }
    }
}

/// Two values are equal if and only if all their fields are equal.
pub fn is_compared_by_its_fields()
    ensures { (x y : OIDFilterExtension) →
        ⟦<OIDFilterExtension as PartialEq>⟧.eq x y
        ≡ ⟦<TlsVecU16<OIDFilter> as PartialEq>⟧.eq x.filters y.filters }
{}
