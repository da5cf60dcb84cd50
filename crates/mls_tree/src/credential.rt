//! [`Credential`].
ghost use Rattle.std.specs.Prelude.{◌≡◌, IsTrue};
ghost use Rattle.tls_codec.specs.OwnMessages.{no_variant_names, no_variant_source_names, tagged_names, tagged_source_names, variant_names, variant_source_names};
ghost use Rattle.tls_codec_validate.specs.TaggedPlaces.{no_variant_places, tagged_places, variant_places};
ghost use Rattle.mls_tree.specs.Credential.{credential_format, credential_meets, credential_plain, credential_tag, credential_variants};
ghost use Rattle.mls_tree.specs.declared.credential.Credential.{Credential};
ghost use Rattle.tls_codec_views.specs.Views.{IsCase};
ghost use Rattle.mls_tree.specs.declared.credential.CredentialView.{CredentialView};

use crate::{Certificate, CredentialType};
use std::alloc::Global;
use tls_codec::{
    ByRef, Deserialize, DeserializeBytes, Error, Serialize, Sink, Size, Source, VLBytes,
    unknown_value,
};
use tls_codec_validate::{Rejected, Validate, split_u16};
use tls_codec_views::{Choice, Encoded};

const BASIC: u16 = 1;

const X509: u16 = 2;

/// `CredentialType credential_type` of `Credential` (RFC 9420, section 5.3), and what comes
/// after each.
#[derive(PartialEq, Eq, Debug, Clone, Drop)]
pub enum Credential {
    /// `case basic: opaque identity<V>;`
    Basic(VLBytes),
    /// `case x509: Certificate certificates<V>;`
    X509(Vec<Certificate>),
}

impl Size for Credential {
    ghost plain = { credential_plain };

    ghost format = { credential_format };

    fn tls_serialized_len(&self) -> usize {
        match self {
            Credential::Basic(identity) => (BASIC, ByRef(identity)).tls_serialized_len(),
            Credential::X509(certificates) => (X509, ByRef(certificates)).tls_serialized_len(),
        }
    }

    ghost lawful = { credential_meets };
}

impl Serialize for Credential {
    fn tls_serialize<W: Sink>(&self, writer: &mut W) -> Result<usize, Error> {
        match self {
            Credential::Basic(identity) => (BASIC, ByRef(identity)).tls_serialize(writer),
            Credential::X509(certificates) => (X509, ByRef(certificates)).tls_serialize(writer),
        }
    }

    fn tls_serialize_into(&self, out: &mut Vec<u8>) -> Result<usize, Error> {
        match self {
            Credential::Basic(identity) => (BASIC, ByRef(identity)).tls_serialize_into(out),
            Credential::X509(certificates) => (X509, ByRef(certificates)).tls_serialize_into(out),
        }
    }
}

impl Deserialize for Credential {
    ghost names = { tagged_source_names 2
        (variant_source_names 1 ⟦<VLBytes as Deserialize>⟧.names
        (variant_source_names 2 ⟦<Vec<Certificate> as Deserialize>⟧.names
        no_variant_source_names)) };

    fn tls_deserialize<R: Source>(alloc: Global, src: &mut R) -> Result<Credential, Error> {
        let tag = u16::tls_deserialize(alloc, src)?;
        match tag {
            BASIC => {
                let identity = VLBytes::tls_deserialize(alloc, src)?;
                Ok(Credential::Basic(identity))
            }
            X509 => {
                let certificates = <Vec<Certificate>>::tls_deserialize(alloc, src)?;
                Ok(Credential::X509(certificates))
            }
            _ => Err(unknown_value(u64::from(tag))),
        }
    }
}

impl DeserializeBytes for Credential {
    ghost names = { tagged_names 2
        (variant_names 1 ⟦<VLBytes as DeserializeBytes>⟧.names
        (variant_names 2 ⟦<Vec<Certificate> as DeserializeBytes>⟧.names
        no_variant_names)) };

    fn tls_deserialize_bytes(alloc: Global, whole: &[u8]) -> Result<(Credential, &[u8]), Error> {
        let (tag, rest) = u16::tls_deserialize_bytes(alloc, whole)?;
        match tag {
            BASIC => {
                let (identity, rest) = VLBytes::tls_deserialize_bytes(alloc, rest)?;
                Ok((Credential::Basic(identity), rest))
            }
            X509 => {
                let (certificates, rest) = <Vec<Certificate>>::tls_deserialize_bytes(alloc, rest)?;
                Ok((Credential::X509(certificates), rest))
            }
            _ => Err(unknown_value(u64::from(tag))),
        }
    }
}

impl Validate for Credential {
    ghost places = { tagged_places 2
        (variant_places 1 ⟦<VLBytes as Validate>⟧.places
        (variant_places 2 ⟦<Vec<Certificate> as Validate>⟧.places
        no_variant_places)) };

    fn tls_validate_prefix(whole: &[u8]) -> Result<&[u8], Rejected<'_>> {
        let (tag, rest) = split_u16(whole)?;
        match tag {
            BASIC => {
                let behind = VLBytes::tls_validate_prefix(rest)?;
                Ok(behind)
            }
            X509 => {
                let behind = <Vec<Certificate>>::tls_validate_prefix(rest)?;
                Ok(behind)
            }
            _ => Err(Rejected {
                error: unknown_value(u64::from(tag)),
                rest: whole,
            }),
        }
    }
}

impl Choice for Credential {
    type Tag = u16;

    ghost variants = { credential_variants };

    ghost as_choice = { λ bytes is. is };
}

/// The encoding of a [`Credential`], split into its case and fields.
#[derive(Drop)]
pub enum CredentialView<'a> {
    /// `case basic: opaque identity<V>;`
    Basic(Encoded<'a, VLBytes>),
    /// `case x509: Certificate certificates<V>;`
    X509(Encoded<'a, Vec<Certificate>>),
}

impl<'a> From<Encoded<'a, Credential>> for CredentialView<'a> {
    ghost from_gives = { λ whole view. elim view as (λ v. Type 0) [
      | CredentialView.Basic a0 ↦ IsCase 2 1 whole a0
      | CredentialView.X509 a0 ↦ IsCase 2 2 whole a0
    ] };

    fn from(whole: Encoded<'a, Credential>) -> CredentialView<'a> {
        let (tag, parts) = whole.case();
        match tag {
            1 => CredentialView::Basic(Encoded::from_only_part(parts)),
            2 => CredentialView::X509(Encoded::from_only_part(parts)),
            _ => unreachable!(),
        }
    }
}

impl Credential {
    /// The tag of this value's case.
    pub fn credential_type(&self) -> CredentialType
        ensures { result.0 ≡ credential_tag self.now }
    {
        match self {
            Credential::Basic(_) => CredentialType(1),
            Credential::X509(_) => CredentialType(2),
        }
    }
}

/// The case `basic` with this content.
impl From<VLBytes> for Credential {
    ghost from_gives = { λ content value. value ≡ Credential.Basic content };

    fn from(content: VLBytes) -> Credential {
        Credential::Basic(content)
    }
}

/// The case `x509` with this content.
impl From<Vec<Certificate>> for Credential {
    ghost from_gives = { λ content value. value ≡ Credential.X509 content };

    fn from(content: Vec<Certificate>) -> Credential {
        Credential::X509(content)
    }
}

/// Two values are equal if and only if they have the same case and all their fields are equal.
pub fn is_compared_by_its_case()
    ensures tag { (x y : Credential) →
        IsTrue (⟦<Credential as PartialEq>⟧.eq x y) → credential_tag x ≡ credential_tag y }
    ensures case_1 { (a0 b0 : _) →
        ⟦<Credential as PartialEq>⟧.eq (Credential.Basic a0) (Credential.Basic b0)
        ≡ ⟦<VLBytes as PartialEq>⟧.eq a0 b0 }
    ensures case_2 { (a0 b0 : _) →
        ⟦<Credential as PartialEq>⟧.eq (Credential.X509 a0) (Credential.X509 b0)
        ≡ ⟦<Vec<Certificate> as PartialEq>⟧.eq a0 b0 }
{}
