//! [`Welcome`].
ghost use Rattle.std.specs.Prelude.{◌≡◌, ◌&&◌, ◌++◌};
ghost use Rattle.mls_group.specs.Welcome.{welcome_format, welcome_meets, welcome_plain};
ghost use Rattle.mls_group.specs.declared.welcome.Welcome.{Welcome};

use crate::EncryptedGroupSecrets;
use mls_tree::CipherSuite;
use std::alloc::Global;
use tls_codec::{
    ByRef, Deserialize, DeserializeBytes, Error, Serialize, Sink, Size, Source, VLBytes,
};
use tls_codec_cases::append_as;
use tls_codec_validate::{Rejected, Validate};
use tls_codec_views::{Encoded, Parted};

/// `Welcome` (RFC 9420, section 12.4.3.1).
#[derive(PartialEq, Eq, Debug, Clone, Drop)]
pub struct Welcome {
    /// `CipherSuite cipher_suite;`
    pub cipher_suite: CipherSuite,
    /// `EncryptedGroupSecrets secrets<V>;`
    pub secrets: Vec<EncryptedGroupSecrets>,
    /// `opaque encrypted_group_info<V>;`
    pub encrypted_group_info: VLBytes,
}

type Parts = (CipherSuite, Vec<EncryptedGroupSecrets>, VLBytes);

impl Size for Welcome {
    ghost plain = { welcome_plain };

    ghost format = { welcome_format };

    fn tls_serialized_len(&self) -> usize {
        (
            ByRef(&self.cipher_suite),
            ByRef(&self.secrets),
            ByRef(&self.encrypted_group_info),
        )
            .tls_serialized_len()
    }

    ghost lawful = { welcome_meets };
}

impl Serialize for Welcome {
    fn tls_serialize<W: Sink>(&self, writer: &mut W) -> Result<usize, Error> {
        (
            ByRef(&self.cipher_suite),
            ByRef(&self.secrets),
            ByRef(&self.encrypted_group_info),
        )
            .tls_serialize(writer)
    }

    fn tls_serialize_into(&self, out: &mut Vec<u8>) -> Result<usize, Error> {
        append_as(
            self,
            &(
                ByRef(&self.cipher_suite),
                ByRef(&self.secrets),
                ByRef(&self.encrypted_group_info),
            ),
            out,
        )
    }
}

impl Deserialize for Welcome {
    ghost names = { ⟦<Parts as Deserialize>⟧.names };

    fn tls_deserialize<R: Source>(alloc: Global, src: &mut R) -> Result<Welcome, Error> {
        let (cipher_suite, secrets, encrypted_group_info) = <Parts>::tls_deserialize(alloc, src)?;
        Ok(Welcome {
            cipher_suite,
            secrets,
            encrypted_group_info,
        })
    }
}

impl DeserializeBytes for Welcome {
    ghost names = { ⟦<Parts as DeserializeBytes>⟧.names };

    fn tls_deserialize_bytes(alloc: Global, whole: &[u8]) -> Result<(Welcome, &[u8]), Error> {
        let ((cipher_suite, secrets, encrypted_group_info), rest) = <Parts>::tls_deserialize_bytes(
            alloc, whole,
        )?;
        Ok((
            Welcome {
                cipher_suite,
                secrets,
                encrypted_group_info,
            },
            rest,
        ))
    }
}

impl Validate for Welcome {
    ghost places = { ⟦<Parts as Validate>⟧.places };

    fn tls_validate_prefix(whole: &[u8]) -> Result<&[u8], Rejected<'_>> {
        <Parts>::tls_validate_prefix(whole)
    }

    fn tls_width() -> Option<usize> {
        <Parts>::tls_width()
    }
}

impl Parted for Welcome {
    type Parts = Parts;

    ghost as_parts = { λ bytes is. is };
}

/// The encoding of a [`Welcome`], split into its fields.
#[derive(Drop)]
pub struct WelcomeView<'a> {
    /// `CipherSuite cipher_suite;`
    pub cipher_suite: Encoded<'a, CipherSuite>,
    /// `EncryptedGroupSecrets secrets<V>;`
    pub secrets: Encoded<'a, Vec<EncryptedGroupSecrets>>,
    /// `opaque encrypted_group_info<V>;`
    pub encrypted_group_info: Encoded<'a, VLBytes>,
}

impl<'a> From<Encoded<'a, Welcome>> for WelcomeView<'a> {
    ghost from_gives = { λ whole view. whole ≡ (view.cipher_suite ++
        (view.secrets ++ view.encrypted_group_info)) };

    fn from(whole: Encoded<'a, Welcome>) -> WelcomeView<'a> {
        let (cipher_suite, secrets, encrypted_group_info) = whole.parts().split();
        WelcomeView {
            cipher_suite,
            secrets,
            encrypted_group_info,
        }
    }
}

/// Two values are equal if and only if all their fields are equal.
pub fn is_compared_by_its_fields()
    ensures { (x y : Welcome) →
        ⟦<Welcome as PartialEq>⟧.eq x y
        ≡ (⟦<CipherSuite as PartialEq>⟧.eq x.cipher_suite y.cipher_suite
        && (⟦<Vec<EncryptedGroupSecrets> as PartialEq>⟧.eq x.secrets y.secrets
        && ⟦<VLBytes as PartialEq>⟧.eq x.encrypted_group_info y.encrypted_group_info)) }
{}
