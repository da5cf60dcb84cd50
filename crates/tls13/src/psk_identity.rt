//! [`PskIdentity`].
ghost use Rattle.std.specs.Prelude.{◌≡◌, ◌&&◌, ◌++◌};
ghost use Rattle.tls13.specs.PskIdentity.{psk_identity_format, psk_identity_meets, psk_identity_plain};
ghost use Rattle.tls13.specs.declared.psk_identity.PskIdentity.{PskIdentity};

use std::alloc::Global;
use tls_codec::{
    ByRef, Deserialize, DeserializeBytes, Error, Serialize, Sink, Size, Source, TlsByteVec, Within,
};
use tls_codec_cases::append_as;
use tls_codec_validate::{Rejected, Validate};
use tls_codec_views::{Encoded, Parted};

/// `PskIdentity` (RFC 8446, appendix B.3.1).
#[derive(PartialEq, Eq, Debug, Clone, Drop)]
pub struct PskIdentity {
    /// `opaque identity<1..2^16-1>;`
    pub identity: TlsByteVec<Within<u16, 1, 65535>>,
    /// `uint32 obfuscated_ticket_age;`
    pub obfuscated_ticket_age: u32,
}

type Parts = (TlsByteVec<Within<u16, 1, 65535>>, u32);

impl Size for PskIdentity {
    ghost plain = { psk_identity_plain };

    ghost format = { psk_identity_format };

    fn tls_serialized_len(&self) -> usize {
        (ByRef(&self.identity), ByRef(&self.obfuscated_ticket_age)).tls_serialized_len()
    }

    ghost lawful = { psk_identity_meets };
}

impl Serialize for PskIdentity {
    fn tls_serialize<W: Sink>(&self, writer: &mut W) -> Result<usize, Error> {
        (ByRef(&self.identity), ByRef(&self.obfuscated_ticket_age)).tls_serialize(writer)
    }

    fn tls_serialize_into(&self, out: &mut Vec<u8>) -> Result<usize, Error> {
        append_as(
            self,
            &(ByRef(&self.identity), ByRef(&self.obfuscated_ticket_age)),
            out,
        )
    }
}

impl Deserialize for PskIdentity {
    ghost names = { ⟦<Parts as Deserialize>⟧.names };

    fn tls_deserialize<R: Source>(alloc: Global, src: &mut R) -> Result<PskIdentity, Error> {
        let (identity, obfuscated_ticket_age) = <Parts>::tls_deserialize(alloc, src)?;
        Ok(PskIdentity {
            identity,
            obfuscated_ticket_age,
        })
    }
}

impl DeserializeBytes for PskIdentity {
    ghost names = { ⟦<Parts as DeserializeBytes>⟧.names };

    fn tls_deserialize_bytes(alloc: Global, whole: &[u8]) -> Result<(PskIdentity, &[u8]), Error> {
        let ((identity, obfuscated_ticket_age), rest) = <Parts>::tls_deserialize_bytes(
            alloc, whole,
        )?;
        Ok((
            PskIdentity {
                identity,
                obfuscated_ticket_age,
            },
            rest,
        ))
    }
}

impl Validate for PskIdentity {
    ghost places = { ⟦<Parts as Validate>⟧.places };

    fn tls_validate_prefix(whole: &[u8]) -> Result<&[u8], Rejected<'_>> {
        <Parts>::tls_validate_prefix(whole)
    }

    fn tls_width() -> Option<usize> {
        <Parts>::tls_width()
    }
}

impl Parted for PskIdentity {
    type Parts = Parts;

    ghost as_parts = { λ bytes is. is };
}

/// The encoding of a [`PskIdentity`], split into its fields.
#[derive(Drop)]
pub struct PskIdentityView<'a> {
    /// `opaque identity<1..2^16-1>;`
    pub identity: Encoded<'a, TlsByteVec<Within<u16, 1, 65535>>>,
    /// `uint32 obfuscated_ticket_age;`
    pub obfuscated_ticket_age: Encoded<'a, u32>,
}

impl<'a> From<Encoded<'a, PskIdentity>> for PskIdentityView<'a> {
    ghost from_gives = { λ whole view. whole ≡ (view.identity ++ view.obfuscated_ticket_age) };

    fn from(whole: Encoded<'a, PskIdentity>) -> PskIdentityView<'a> {
        let (identity, obfuscated_ticket_age) = whole.parts().split();
        PskIdentityView {
            identity,
            obfuscated_ticket_age,
        }
    }
}

/// Two values are equal if and only if all their fields are equal.
pub fn is_compared_by_its_fields()
    ensures { (x y : PskIdentity) →
        ⟦<PskIdentity as PartialEq>⟧.eq x y
        ≡ (⟦<TlsByteVec<Within<u16, 1, 65535>> as PartialEq>⟧.eq x.identity y.identity
        && ⟦<u32 as PartialEq>⟧.eq x.obfuscated_ticket_age y.obfuscated_ticket_age) }
{}
