//! [`Capabilities`].
ghost use Rattle.std.specs.Prelude.{◌≡◌, ◌&&◌, ◌++◌};
ghost use Rattle.mls_tree.specs.Capabilities.{capabilities_format, capabilities_meets, capabilities_plain};
ghost use Rattle.mls_tree.specs.declared.capabilities.Capabilities.{Capabilities};

use crate::{CipherSuite, CredentialType, ExtensionType, ProposalType, ProtocolVersion};
use std::alloc::Global;
use tls_codec::{
    ByRef2, ByRef3, Deserialize, DeserializeBytes, Error, Serialize, Sink, Size, Source,
};
use tls_codec_cases::append_as;
use tls_codec_validate::{Rejected, Validate};
use tls_codec_views::{Encoded, Parted};

/// `Capabilities` (RFC 9420, section 7.2).
#[derive(PartialEq, Eq, Debug, Clone, Drop)]
pub struct Capabilities {
    /// `ProtocolVersion versions<V>;`
    pub versions: Vec<ProtocolVersion>,
    /// `CipherSuite cipher_suites<V>;`
    pub cipher_suites: Vec<CipherSuite>,
    /// `ExtensionType extensions<V>;`
    pub extensions: Vec<ExtensionType>,
    /// `ProposalType proposals<V>;`
    pub proposals: Vec<ProposalType>,
    /// `CredentialType credentials<V>;`
    pub credentials: Vec<CredentialType>,
}

type Parts = (
    (Vec<ProtocolVersion>, Vec<CipherSuite>, Vec<ExtensionType>),
    (Vec<ProposalType>, Vec<CredentialType>),
);

impl Size for Capabilities {
    ghost plain = { capabilities_plain };

    ghost format = { capabilities_format };

    fn tls_serialized_len(&self) -> usize {
        (
            ByRef3(&self.versions, &self.cipher_suites, &self.extensions),
            ByRef2(&self.proposals, &self.credentials),
        )
            .tls_serialized_len()
    }

    ghost lawful = { capabilities_meets };
}

impl Serialize for Capabilities {
    fn tls_serialize<W: Sink>(&self, writer: &mut W) -> Result<usize, Error> {
        (
            ByRef3(&self.versions, &self.cipher_suites, &self.extensions),
            ByRef2(&self.proposals, &self.credentials),
        )
            .tls_serialize(writer)
    }

    fn tls_serialize_into(&self, out: &mut Vec<u8>) -> Result<usize, Error> {
        append_as(
            self,
            &(
                ByRef3(&self.versions, &self.cipher_suites, &self.extensions),
                ByRef2(&self.proposals, &self.credentials),
            ),
            out,
        )
    }
}

impl Deserialize for Capabilities {
    ghost names = { ⟦<Parts as Deserialize>⟧.names };

    fn tls_deserialize<R: Source>(alloc: Global, src: &mut R) -> Result<Capabilities, Error> {
        let ((versions, cipher_suites, extensions), (proposals, credentials)) =
            <Parts>::tls_deserialize(alloc, src)?;
        Ok(Capabilities {
            versions,
            cipher_suites,
            extensions,
            proposals,
            credentials,
        })
    }
}

impl DeserializeBytes for Capabilities {
    ghost names = { ⟦<Parts as DeserializeBytes>⟧.names };

    fn tls_deserialize_bytes(alloc: Global, whole: &[u8]) -> Result<(Capabilities, &[u8]), Error> {
        let (((versions, cipher_suites, extensions), (proposals, credentials)), rest) =
            <Parts>::tls_deserialize_bytes(alloc, whole)?;
        Ok((
            Capabilities {
                versions,
                cipher_suites,
                extensions,
                proposals,
                credentials,
            },
            rest,
        ))
    }
}

impl Validate for Capabilities {
    ghost places = { ⟦<Parts as Validate>⟧.places };

    fn tls_validate_prefix(whole: &[u8]) -> Result<&[u8], Rejected<'_>> {
        <Parts>::tls_validate_prefix(whole)
    }

    fn tls_width() -> Option<usize> {
        <Parts>::tls_width()
    }
}

impl Parted for Capabilities {
    type Parts = Parts;

    ghost as_parts = { λ bytes is. is };
}

/// The encoding of a [`Capabilities`], split into its fields.
#[derive(Drop)]
pub struct CapabilitiesView<'a> {
    /// `ProtocolVersion versions<V>;`
    pub versions: Encoded<'a, Vec<ProtocolVersion>>,
    /// `CipherSuite cipher_suites<V>;`
    pub cipher_suites: Encoded<'a, Vec<CipherSuite>>,
    /// `ExtensionType extensions<V>;`
    pub extensions: Encoded<'a, Vec<ExtensionType>>,
    /// `ProposalType proposals<V>;`
    pub proposals: Encoded<'a, Vec<ProposalType>>,
    /// `CredentialType credentials<V>;`
    pub credentials: Encoded<'a, Vec<CredentialType>>,
}

impl<'a> From<Encoded<'a, Capabilities>> for CapabilitiesView<'a> {
    ghost from_gives = { λ whole view. whole ≡ ((view.versions ++
        (view.cipher_suites ++ view.extensions)) ++ (view.proposals ++ view.credentials)) };

    fn from(whole: Encoded<'a, Capabilities>) -> CapabilitiesView<'a> {
        let (parts_0, parts_1) = whole.parts().split();
        let (versions, cipher_suites, extensions) = parts_0.split();
        let (proposals, credentials) = parts_1.split();
        CapabilitiesView {
            versions,
            cipher_suites,
            extensions,
            proposals,
            credentials,
        }
    }
}

/// Two values are equal if and only if all their fields are equal.
pub fn is_compared_by_its_fields()
    ensures { (x y : Capabilities) →
        ⟦<Capabilities as PartialEq>⟧.eq x y
        ≡ (⟦<Vec<ProtocolVersion> as PartialEq>⟧.eq x.versions y.versions
        && (⟦<Vec<CipherSuite> as PartialEq>⟧.eq x.cipher_suites y.cipher_suites
        && (⟦<Vec<ExtensionType> as PartialEq>⟧.eq x.extensions y.extensions
        && (⟦<Vec<ProposalType> as PartialEq>⟧.eq x.proposals y.proposals
        && ⟦<Vec<CredentialType> as PartialEq>⟧.eq x.credentials y.credentials)))) }
{}
