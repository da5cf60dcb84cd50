//! [`SignedCertificateTimestampList`].
ghost use Rattle.std.specs.Prelude.{◌≡◌};
ghost use Rattle.ct.specs.SignedCertificateTimestampList.{signed_certificate_timestamp_list_format, signed_certificate_timestamp_list_meets, signed_certificate_timestamp_list_plain};
ghost use Rattle.ct.specs.declared.signed_certificate_timestamp_list.SignedCertificateTimestampList.{SignedCertificateTimestampList};

use crate::SerializedSCT;
use std::alloc::Global;
use tls_codec::{
    Deserialize, DeserializeBytes, Error, Serialize, Sink, Size, Source, TlsVec, Within,
};
use tls_codec_cases::append_as;
use tls_codec_validate::{Rejected, Validate};
use tls_codec_views::{Encoded, Parted};

/// `SignedCertificateTimestampList` (RFC 6962, section 3.3).
#[derive(PartialEq, Eq, Debug, Clone, Drop)]
pub struct SignedCertificateTimestampList {
    /// `SerializedSCT sct_list<1..2^16-1>;`
    pub sct_list: TlsVec<Within<u16, 1, 65535>, SerializedSCT>,
}

type Parts = TlsVec<Within<u16, 1, 65535>, SerializedSCT>;

impl Size for SignedCertificateTimestampList {
    ghost plain = { signed_certificate_timestamp_list_plain };

    ghost format = { signed_certificate_timestamp_list_format };

    fn tls_serialized_len(&self) -> usize {
        self.sct_list.tls_serialized_len()
    }

    ghost lawful = { signed_certificate_timestamp_list_meets };
}

impl Serialize for SignedCertificateTimestampList {
    fn tls_serialize<W: Sink>(&self, writer: &mut W) -> Result<usize, Error> {
        self.sct_list.tls_serialize(writer)
    }

    fn tls_serialize_into(&self, out: &mut Vec<u8>) -> Result<usize, Error> {
        append_as(self, &self.sct_list, out)
    }
}

impl Deserialize for SignedCertificateTimestampList {
    ghost names = { ⟦<Parts as Deserialize>⟧.names };

    fn tls_deserialize<R: Source>(
        alloc: Global,
        src: &mut R,
    ) -> Result<SignedCertificateTimestampList, Error> {
        let sct_list = <Parts>::tls_deserialize(alloc, src)?;
        Ok(SignedCertificateTimestampList { sct_list })
    }
}

impl DeserializeBytes for SignedCertificateTimestampList {
    ghost names = { ⟦<Parts as DeserializeBytes>⟧.names };

    fn tls_deserialize_bytes(
        alloc: Global,
        whole: &[u8],
    ) -> Result<(SignedCertificateTimestampList, &[u8]), Error> {
        let (sct_list, rest) = <Parts>::tls_deserialize_bytes(alloc, whole)?;
        Ok((SignedCertificateTimestampList { sct_list }, rest))
    }
}

impl Validate for SignedCertificateTimestampList {
    ghost places = { ⟦<Parts as Validate>⟧.places };

    fn tls_validate_prefix(whole: &[u8]) -> Result<&[u8], Rejected<'_>> {
        <Parts>::tls_validate_prefix(whole)
    }

    fn tls_width() -> Option<usize> {
        <Parts>::tls_width()
    }
}

impl Parted for SignedCertificateTimestampList {
    type Parts = Parts;

    ghost as_parts = { λ bytes is. is };
}

/// The encoding of a [`SignedCertificateTimestampList`], split into its fields.
#[derive(Drop)]
pub struct SignedCertificateTimestampListView<'a> {
    /// `SerializedSCT sct_list<1..2^16-1>;`
    pub sct_list: Encoded<'a, TlsVec<Within<u16, 1, 65535>, SerializedSCT>>,
}

impl<'a> From<Encoded<'a, SignedCertificateTimestampList>>
    for SignedCertificateTimestampListView<'a> {
    ghost from_gives = { λ whole view. whole ≡ view.sct_list };

    fn from(
        whole: Encoded<'a, SignedCertificateTimestampList>,
    ) -> SignedCertificateTimestampListView<'a> {
        let sct_list = whole.parts();
        SignedCertificateTimestampListView { sct_list }
    }
}

/// Two values are equal if and only if all their fields are equal.
pub fn is_compared_by_its_fields()
    ensures { (x y : SignedCertificateTimestampList) →
        ⟦<SignedCertificateTimestampList as PartialEq>⟧.eq x y
        ≡ ⟦<TlsVec<Within<u16, 1, 65535>, SerializedSCT> as PartialEq>⟧.eq x.sct_list y.sct_list }
{}
