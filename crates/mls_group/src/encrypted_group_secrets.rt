//! [`EncryptedGroupSecrets`].
ghost use Rattle.std.specs.Prelude.{◌≡◌, ◌&&◌, ◌++◌};
ghost use Rattle.mls_group.specs.EncryptedGroupSecrets.{encrypted_group_secrets_format, encrypted_group_secrets_meets, encrypted_group_secrets_plain};
ghost use Rattle.mls_group.specs.declared.encrypted_group_secrets.EncryptedGroupSecrets.{EncryptedGroupSecrets};

use crate::{HPKECiphertext, KeyPackageRef};
use std::alloc::Global;
use tls_codec::{ByRef, Deserialize, DeserializeBytes, Error, Serialize, Sink, Size, Source};
use tls_codec_cases::append_as;
use tls_codec_validate::{Rejected, Validate};
use tls_codec_views::{Encoded, Parted};

/// `EncryptedGroupSecrets` (RFC 9420, section 12.4.3.1).
#[derive(PartialEq, Eq, Debug, Clone, Drop)]
pub struct EncryptedGroupSecrets {
    /// `KeyPackageRef new_member;`
    pub new_member: KeyPackageRef,
    /// `HPKECiphertext encrypted_group_secrets;`
    pub encrypted_group_secrets: HPKECiphertext,
}

type Parts = (KeyPackageRef, HPKECiphertext);

impl Size for EncryptedGroupSecrets {
    ghost plain = { encrypted_group_secrets_plain };

    ghost format = { encrypted_group_secrets_format };

    fn tls_serialized_len(&self) -> usize {
        (
            ByRef(&self.new_member),
            ByRef(&self.encrypted_group_secrets),
        )
            .tls_serialized_len()
    }

    ghost lawful = { encrypted_group_secrets_meets };
}

impl Serialize for EncryptedGroupSecrets {
    fn tls_serialize<W: Sink>(&self, writer: &mut W) -> Result<usize, Error> {
        (
            ByRef(&self.new_member),
            ByRef(&self.encrypted_group_secrets),
        )
            .tls_serialize(writer)
    }

    fn tls_serialize_into(&self, out: &mut Vec<u8>) -> Result<usize, Error> {
        append_as(
            self,
            &(
                ByRef(&self.new_member),
                ByRef(&self.encrypted_group_secrets),
            ),
            out,
        )
    }
}

impl Deserialize for EncryptedGroupSecrets {
    ghost names = { ⟦<Parts as Deserialize>⟧.names };

    fn tls_deserialize<R: Source>(
        alloc: Global,
        src: &mut R,
    ) -> Result<EncryptedGroupSecrets, Error> {
        let (new_member, encrypted_group_secrets) = <Parts>::tls_deserialize(alloc, src)?;
        Ok(EncryptedGroupSecrets {
            new_member,
            encrypted_group_secrets,
        })
    }
}

impl DeserializeBytes for EncryptedGroupSecrets {
    ghost names = { ⟦<Parts as DeserializeBytes>⟧.names };

    fn tls_deserialize_bytes(
        alloc: Global,
        whole: &[u8],
    ) -> Result<(EncryptedGroupSecrets, &[u8]), Error> {
        let ((new_member, encrypted_group_secrets), rest) = <Parts>::tls_deserialize_bytes(
            alloc, whole,
        )?;
        Ok((
            EncryptedGroupSecrets {
                new_member,
                encrypted_group_secrets,
            },
            rest,
        ))
    }
}

impl Validate for EncryptedGroupSecrets {
    ghost places = { ⟦<Parts as Validate>⟧.places };

    fn tls_validate_prefix(whole: &[u8]) -> Result<&[u8], Rejected<'_>> {
        <Parts>::tls_validate_prefix(whole)
    }

    fn tls_width() -> Option<usize> {
        <Parts>::tls_width()
    }
}

impl Parted for EncryptedGroupSecrets {
    type Parts = Parts;

    ghost as_parts = { λ bytes is. is };
}

/// The encoding of a [`EncryptedGroupSecrets`], split into its fields.
#[derive(Drop)]
pub struct EncryptedGroupSecretsView<'a> {
    /// `KeyPackageRef new_member;`
    pub new_member: Encoded<'a, KeyPackageRef>,
    /// `HPKECiphertext encrypted_group_secrets;`
    pub encrypted_group_secrets: Encoded<'a, HPKECiphertext>,
}

impl<'a> From<Encoded<'a, EncryptedGroupSecrets>> for EncryptedGroupSecretsView<'a> {
    ghost from_gives = { λ whole view. whole ≡ (view.new_member ++ view.encrypted_group_secrets) };

    fn from(whole: Encoded<'a, EncryptedGroupSecrets>) -> EncryptedGroupSecretsView<'a> {
        let (new_member, encrypted_group_secrets) = whole.parts().split();
        EncryptedGroupSecretsView {
            new_member,
            encrypted_group_secrets,
        }
    }
}

/// Two values are equal if and only if all their fields are equal.
pub fn is_compared_by_its_fields()
    ensures { (x y : EncryptedGroupSecrets) →
        ⟦<EncryptedGroupSecrets as PartialEq>⟧.eq x y
        ≡ (⟦<KeyPackageRef as PartialEq>⟧.eq x.new_member y.new_member
        && ⟦<HPKECiphertext as PartialEq>⟧.eq x.encrypted_group_secrets y.encrypted_group_secrets) }
{}
