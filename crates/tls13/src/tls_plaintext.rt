//! [`TLSPlaintext`].
ghost use Rattle.std.specs.Prelude.{◌≡◌, ◌&&◌, ◌++◌};
ghost use Rattle.tls13.specs.TLSPlaintext.{tls_plaintext_format, tls_plaintext_meets, tls_plaintext_plain};
ghost use Rattle.tls13.specs.declared.tls_plaintext.TLSPlaintext.{TLSPlaintext};

use crate::{ContentType, ProtocolVersion};
use std::alloc::Global;
use tls_codec::{
    ByRef, Deserialize, DeserializeBytes, Error, Serialize, Sink, Size, Source, TlsByteVecU16,
};
use tls_codec_cases::append_as;
use tls_codec_validate::{Rejected, Validate};
use tls_codec_views::{Encoded, Parted};

/// `TLSPlaintext` (RFC 8446, appendix B.1).
#[derive(PartialEq, Eq, Debug, Clone, Drop)]
pub struct TLSPlaintext {
    /// `ContentType type;`
    pub kind: ContentType,
    /// `ProtocolVersion legacy_record_version;`
    pub legacy_record_version: ProtocolVersion,
    /// `opaque fragment[TLSPlaintext.length];`
    pub fragment: TlsByteVecU16,
}

type Parts = (ContentType, ProtocolVersion, TlsByteVecU16);

impl Size for TLSPlaintext {
    ghost plain = { tls_plaintext_plain };

    ghost format = { tls_plaintext_format };

    fn tls_serialized_len(&self) -> usize {
        (
            ByRef(&self.kind),
            ByRef(&self.legacy_record_version),
            ByRef(&self.fragment),
        )
            .tls_serialized_len()
    }

    ghost lawful = { tls_plaintext_meets };
}

impl Serialize for TLSPlaintext {
    fn tls_serialize<W: Sink>(&self, writer: &mut W) -> Result<usize, Error> {
        (
            ByRef(&self.kind),
            ByRef(&self.legacy_record_version),
            ByRef(&self.fragment),
        )
            .tls_serialize(writer)
    }

    fn tls_serialize_into(&self, out: &mut Vec<u8>) -> Result<usize, Error> {
        append_as(
            self,
            &(
                ByRef(&self.kind),
                ByRef(&self.legacy_record_version),
                ByRef(&self.fragment),
            ),
            out,
        )
    }
}

impl Deserialize for TLSPlaintext {
    ghost names = { ⟦<Parts as Deserialize>⟧.names };

    fn tls_deserialize<R: Source>(alloc: Global, src: &mut R) -> Result<TLSPlaintext, Error> {
        let (kind, legacy_record_version, fragment) = <Parts>::tls_deserialize(alloc, src)?;
        Ok(TLSPlaintext {
            kind,
            legacy_record_version,
            fragment,
        })
    }
}

impl DeserializeBytes for TLSPlaintext {
    ghost names = { ⟦<Parts as DeserializeBytes>⟧.names };

    fn tls_deserialize_bytes(alloc: Global, whole: &[u8]) -> Result<(TLSPlaintext, &[u8]), Error> {
        let ((kind, legacy_record_version, fragment), rest) = <Parts>::tls_deserialize_bytes(
            alloc, whole,
        )?;
        Ok((
            TLSPlaintext {
                kind,
                legacy_record_version,
                fragment,
            },
            rest,
        ))
    }
}

impl Validate for TLSPlaintext {
    ghost places = { ⟦<Parts as Validate>⟧.places };

    fn tls_validate_prefix(whole: &[u8]) -> Result<&[u8], Rejected<'_>> {
        <Parts>::tls_validate_prefix(whole)
    }

    fn tls_width() -> Option<usize> {
        <Parts>::tls_width()
    }
}

impl Parted for TLSPlaintext {
    type Parts = Parts;

    ghost as_parts = { λ bytes is. is };
}

/// The encoding of a [`TLSPlaintext`], split into its fields.
#[derive(Drop)]
pub struct TLSPlaintextView<'a> {
    /// `ContentType type;`
    pub kind: Encoded<'a, ContentType>,
    /// `ProtocolVersion legacy_record_version;`
    pub legacy_record_version: Encoded<'a, ProtocolVersion>,
    /// `opaque fragment[TLSPlaintext.length];`
    pub fragment: Encoded<'a, TlsByteVecU16>,
}

impl<'a> From<Encoded<'a, TLSPlaintext>> for TLSPlaintextView<'a> {
    ghost from_gives = { λ whole view. whole ≡ (view.kind ++
        (view.legacy_record_version ++ view.fragment)) };

    fn from(whole: Encoded<'a, TLSPlaintext>) -> TLSPlaintextView<'a> {
        let (kind, legacy_record_version, fragment) = whole.parts().split();
        TLSPlaintextView {
            kind,
            legacy_record_version,
            fragment,
        }
    }
}

/// Two values are equal if and only if all their fields are equal.
pub fn is_compared_by_its_fields()
    ensures { (x y : TLSPlaintext) →
        ⟦<TLSPlaintext as PartialEq>⟧.eq x y
        ≡ (⟦<ContentType as PartialEq>⟧.eq x.kind y.kind
        && (⟦<ProtocolVersion as PartialEq>⟧.eq x.legacy_record_version y.legacy_record_version
        && ⟦<TlsByteVecU16 as PartialEq>⟧.eq x.fragment y.fragment)) }
{}
