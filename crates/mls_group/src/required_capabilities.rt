//! [`RequiredCapabilities`].
ghost use Rattle.std.specs.Prelude.{◌≡◌, ◌&&◌, ◌++◌};
ghost use Rattle.mls_group.specs.RequiredCapabilities.{required_capabilities_format, required_capabilities_meets, required_capabilities_plain};
ghost use Rattle.mls_group.specs.declared.required_capabilities.RequiredCapabilities.{RequiredCapabilities};

use mls_tree::{CredentialType, ExtensionType, ProposalType};
use std::alloc::Global;
use tls_codec::{ByRef, Deserialize, DeserializeBytes, Error, Serialize, Sink, Size, Source};
use tls_codec_cases::append_as;
use tls_codec_validate::{Rejected, Validate};
use tls_codec_views::{Encoded, Parted};

/// `RequiredCapabilities` (RFC 9420, section 11.1).
#[derive(PartialEq, Eq, Debug, Clone, Drop)]
pub struct RequiredCapabilities {
    /// `ExtensionType extension_types<V>;`
    pub extension_types: Vec<ExtensionType>,
    /// `ProposalType proposal_types<V>;`
    pub proposal_types: Vec<ProposalType>,
    /// `CredentialType credential_types<V>;`
    pub credential_types: Vec<CredentialType>,
}

type Parts = (Vec<ExtensionType>, Vec<ProposalType>, Vec<CredentialType>);

impl Size for RequiredCapabilities {
    ghost plain = { required_capabilities_plain };

    ghost format = { required_capabilities_format };

    fn tls_serialized_len(&self) -> usize {
        (
            ByRef(&self.extension_types),
            ByRef(&self.proposal_types),
            ByRef(&self.credential_types),
        )
            .tls_serialized_len()
    }

    ghost lawful = { required_capabilities_meets };
}

impl Serialize for RequiredCapabilities {
    fn tls_serialize<W: Sink>(&self, writer: &mut W) -> Result<usize, Error> {
        (
            ByRef(&self.extension_types),
            ByRef(&self.proposal_types),
            ByRef(&self.credential_types),
        )
            .tls_serialize(writer)
    }

    fn tls_serialize_into(&self, out: &mut Vec<u8>) -> Result<usize, Error> {
        append_as(
            self,
            &(
                ByRef(&self.extension_types),
                ByRef(&self.proposal_types),
                ByRef(&self.credential_types),
            ),
            out,
        )
    }
}

impl Deserialize for RequiredCapabilities {
    ghost names = { ⟦<Parts as Deserialize>⟧.names };

    fn tls_deserialize<R: Source>(
        alloc: Global,
        src: &mut R,
    ) -> Result<RequiredCapabilities, Error> {
        let (extension_types, proposal_types, credential_types) = <Parts>::tls_deserialize(
            alloc, src,
        )?;
        Ok(RequiredCapabilities {
            extension_types,
            proposal_types,
            credential_types,
        })
    }
}

impl DeserializeBytes for RequiredCapabilities {
    ghost names = { ⟦<Parts as DeserializeBytes>⟧.names };

    fn tls_deserialize_bytes(
        alloc: Global,
        whole: &[u8],
    ) -> Result<(RequiredCapabilities, &[u8]), Error> {
        let ((extension_types, proposal_types, credential_types), rest) =
            <Parts>::tls_deserialize_bytes(alloc, whole)?;
        Ok((
            RequiredCapabilities {
                extension_types,
                proposal_types,
                credential_types,
            },
            rest,
        ))
    }
}

impl Validate for RequiredCapabilities {
    ghost places = { ⟦<Parts as Validate>⟧.places };

    fn tls_validate_prefix(whole: &[u8]) -> Result<&[u8], Rejected<'_>> {
        <Parts>::tls_validate_prefix(whole)
    }

    fn tls_width() -> Option<usize> {
        <Parts>::tls_width()
    }
}

impl Parted for RequiredCapabilities {
    type Parts = Parts;

    ghost as_parts = { λ bytes is. is };
}

/// The encoding of a [`RequiredCapabilities`], split into its fields.
#[derive(Drop)]
pub struct RequiredCapabilitiesView<'a> {
    /// `ExtensionType extension_types<V>;`
    pub extension_types: Encoded<'a, Vec<ExtensionType>>,
    /// `ProposalType proposal_types<V>;`
    pub proposal_types: Encoded<'a, Vec<ProposalType>>,
    /// `CredentialType credential_types<V>;`
    pub credential_types: Encoded<'a, Vec<CredentialType>>,
}

impl<'a> From<Encoded<'a, RequiredCapabilities>> for RequiredCapabilitiesView<'a> {
    ghost from_gives = { λ whole view. whole ≡ (view.extension_types ++
        (view.proposal_types ++ view.credential_types)) };

    fn from(whole: Encoded<'a, RequiredCapabilities>) -> RequiredCapabilitiesView<'a> {
        let (extension_types, proposal_types, credential_types) = whole.parts().split();
        RequiredCapabilitiesView {
            extension_types,
            proposal_types,
            credential_types,
        }
    }
}

/// Two values are equal if and only if all their fields are equal.
pub fn is_compared_by_its_fields()
    ensures { (x y : RequiredCapabilities) →
        ⟦<RequiredCapabilities as PartialEq>⟧.eq x y
        ≡ (⟦<Vec<ExtensionType> as PartialEq>⟧.eq x.extension_types y.extension_types
        && (⟦<Vec<ProposalType> as PartialEq>⟧.eq x.proposal_types y.proposal_types
        && ⟦<Vec<CredentialType> as PartialEq>⟧.eq x.credential_types y.credential_types)) }
{}
