//! [`TLSCiphertext`].
ghost use Rattle.std.specs.Prelude.{◌≡◌, ◌&&◌, ◌++◌};
ghost use Rattle.tls13.specs.TLSCiphertext.{tls_ciphertext_format, tls_ciphertext_meets, tls_ciphertext_plain};
ghost use Rattle.tls13.specs.declared.tls_ciphertext.TLSCiphertext.{TLSCiphertext};

use crate::{ContentTypeApplicationData, ProtocolVersionX0303};
use std::alloc::Global;
use tls_codec::{
    ByRef, Deserialize, DeserializeBytes, Error, Serialize, Sink, Size, Source, TlsByteVecU16,
};
use tls_codec_cases::append_as;
use tls_codec_validate::{Rejected, Validate};
use tls_codec_views::{Encoded, Parted};

/// `TLSCiphertext` (RFC 8446, appendix B.1).
#[derive(PartialEq, Eq, Debug, Clone, Drop)]
pub struct TLSCiphertext {
    /// `ContentType opaque_type = application_data;`
    /// 23
    pub opaque_type: ContentTypeApplicationData,
    /// `ProtocolVersion legacy_record_version = 0x0303;`
    /// TLS v1.2
    pub legacy_record_version: ProtocolVersionX0303,
    /// `opaque encrypted_record[TLSCiphertext.length];`
    pub encrypted_record: TlsByteVecU16,
}

type Parts = (
    ContentTypeApplicationData,
    ProtocolVersionX0303,
    TlsByteVecU16,
);

impl Size for TLSCiphertext {
    ghost plain = { tls_ciphertext_plain };

    ghost format = { tls_ciphertext_format };

    fn tls_serialized_len(&self) -> usize {
        (
            ByRef(&self.opaque_type),
            ByRef(&self.legacy_record_version),
            ByRef(&self.encrypted_record),
        )
            .tls_serialized_len()
    }

    ghost lawful = { tls_ciphertext_meets };
}

impl Serialize for TLSCiphertext {
    fn tls_serialize<W: Sink>(&self, writer: &mut W) -> Result<usize, Error> {
        (
            ByRef(&self.opaque_type),
            ByRef(&self.legacy_record_version),
            ByRef(&self.encrypted_record),
        )
            .tls_serialize(writer)
    }

    fn tls_serialize_into(&self, out: &mut Vec<u8>) -> Result<usize, Error> {
        append_as(
            self,
            &(
                ByRef(&self.opaque_type),
                ByRef(&self.legacy_record_version),
                ByRef(&self.encrypted_record),
            ),
            out,
        )
    }
}

impl Deserialize for TLSCiphertext {
    ghost names = { ⟦<Parts as Deserialize>⟧.names };

    fn tls_deserialize<R: Source>(alloc: Global, src: &mut R) -> Result<TLSCiphertext, Error> {
        let (opaque_type, legacy_record_version, encrypted_record) = <Parts>::tls_deserialize(
            alloc, src,
        )?;
        Ok(TLSCiphertext {
            opaque_type,
            legacy_record_version,
            encrypted_record,
        })
    }
}

impl DeserializeBytes for TLSCiphertext {
    ghost names = { ⟦<Parts as DeserializeBytes>⟧.names };

    fn tls_deserialize_bytes(alloc: Global, whole: &[u8]) -> Result<(TLSCiphertext, &[u8]), Error> {
        let ((opaque_type, legacy_record_version, encrypted_record), rest) =
            <Parts>::tls_deserialize_bytes(alloc, whole)?;
        Ok((
            TLSCiphertext {
                opaque_type,
                legacy_record_version,
                encrypted_record,
            },
            rest,
        ))
    }
}

impl Validate for TLSCiphertext {
    ghost places = { ⟦<Parts as Validate>⟧.places };

    fn tls_validate_prefix(whole: &[u8]) -> Result<&[u8], Rejected<'_>> {
        <Parts>::tls_validate_prefix(whole)
    }

    fn tls_width() -> Option<usize> {
        <Parts>::tls_width()
    }
}

impl Parted for TLSCiphertext {
    type Parts = Parts;

    ghost as_parts = { λ bytes is. is };
}

/// The encoding of a [`TLSCiphertext`], split into its fields.
#[derive(Drop)]
pub struct TLSCiphertextView<'a> {
    /// `ContentType opaque_type = application_data;`
    /// 23
    pub opaque_type: Encoded<'a, ContentTypeApplicationData>,
    /// `ProtocolVersion legacy_record_version = 0x0303;`
    /// TLS v1.2
    pub legacy_record_version: Encoded<'a, ProtocolVersionX0303>,
    /// `opaque encrypted_record[TLSCiphertext.length];`
    pub encrypted_record: Encoded<'a, TlsByteVecU16>,
}

impl<'a> From<Encoded<'a, TLSCiphertext>> for TLSCiphertextView<'a> {
    ghost from_gives = { λ whole view. whole ≡ (view.opaque_type ++
        (view.legacy_record_version ++ view.encrypted_record)) };

    fn from(whole: Encoded<'a, TLSCiphertext>) -> TLSCiphertextView<'a> {
        let (opaque_type, legacy_record_version, encrypted_record) = whole.parts().split();
        TLSCiphertextView {
            opaque_type,
            legacy_record_version,
            encrypted_record,
        }
    }
}

/// Two values are equal if and only if all their fields are equal.
pub fn is_compared_by_its_fields()
    ensures { (x y : TLSCiphertext) →
        ⟦<TLSCiphertext as PartialEq>⟧.eq x y
        ≡ (⟦<ContentTypeApplicationData as PartialEq>⟧.eq x.opaque_type y.opaque_type
        && (⟦<ProtocolVersionX0303 as PartialEq>⟧.eq x.legacy_record_version y.legacy_record_version
        && ⟦<TlsByteVecU16 as PartialEq>⟧.eq x.encrypted_record y.encrypted_record)) }
{}
