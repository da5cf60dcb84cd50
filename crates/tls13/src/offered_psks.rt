//! [`OfferedPsks`].
ghost use Rattle.std.specs.Prelude.{◌≡◌, ◌&&◌, ◌++◌};
ghost use Rattle.tls13.specs.OfferedPsks.{offered_psks_format, offered_psks_meets, offered_psks_plain};
ghost use Rattle.tls13.specs.declared.offered_psks.OfferedPsks.{OfferedPsks};

use crate::{PskBinderEntry, PskIdentity};
use std::alloc::Global;
use tls_codec::{
    ByRef, Deserialize, DeserializeBytes, Error, Serialize, Sink, Size, Source, TlsVec, Within,
};
use tls_codec_cases::append_as;
use tls_codec_validate::{Rejected, Validate};
use tls_codec_views::{Encoded, Parted};

/// `OfferedPsks` (RFC 8446, appendix B.3.1).
#[derive(PartialEq, Eq, Debug, Clone, Drop)]
pub struct OfferedPsks {
    /// `PskIdentity identities<7..2^16-1>;`
    pub identities: TlsVec<Within<u16, 7, 65535>, PskIdentity>,
    /// `PskBinderEntry binders<33..2^16-1>;`
    pub binders: TlsVec<Within<u16, 33, 65535>, PskBinderEntry>,
}

type Parts = (
    TlsVec<Within<u16, 7, 65535>, PskIdentity>,
    TlsVec<Within<u16, 33, 65535>, PskBinderEntry>,
);

impl Size for OfferedPsks {
    ghost plain = { offered_psks_plain };

    ghost format = { offered_psks_format };

    fn tls_serialized_len(&self) -> usize {
        (ByRef(&self.identities), ByRef(&self.binders)).tls_serialized_len()
    }

    ghost lawful = { offered_psks_meets };
}

impl Serialize for OfferedPsks {
    fn tls_serialize<W: Sink>(&self, writer: &mut W) -> Result<usize, Error> {
        (ByRef(&self.identities), ByRef(&self.binders)).tls_serialize(writer)
    }

    fn tls_serialize_into(&self, out: &mut Vec<u8>) -> Result<usize, Error> {
        append_as(self, &(ByRef(&self.identities), ByRef(&self.binders)), out)
    }
}

impl Deserialize for OfferedPsks {
    ghost names = { ⟦<Parts as Deserialize>⟧.names };

    fn tls_deserialize<R: Source>(alloc: Global, src: &mut R) -> Result<OfferedPsks, Error> {
        let (identities, binders) = <Parts>::tls_deserialize(alloc, src)?;
        Ok(OfferedPsks {
            identities,
            binders,
        })
    }
}

impl DeserializeBytes for OfferedPsks {
    ghost names = { ⟦<Parts as DeserializeBytes>⟧.names };

    fn tls_deserialize_bytes(alloc: Global, whole: &[u8]) -> Result<(OfferedPsks, &[u8]), Error> {
        let ((identities, binders), rest) = <Parts>::tls_deserialize_bytes(alloc, whole)?;
        Ok((
            OfferedPsks {
                identities,
                binders,
            },
            rest,
        ))
    }
}

impl Validate for OfferedPsks {
    ghost places = { ⟦<Parts as Validate>⟧.places };

    fn tls_validate_prefix(whole: &[u8]) -> Result<&[u8], Rejected<'_>> {
        <Parts>::tls_validate_prefix(whole)
    }

    fn tls_width() -> Option<usize> {
        <Parts>::tls_width()
    }
}

impl Parted for OfferedPsks {
    type Parts = Parts;

    ghost as_parts = { λ bytes is. is };
}

/// The encoding of a [`OfferedPsks`], split into its fields.
#[derive(Drop)]
pub struct OfferedPsksView<'a> {
    /// `PskIdentity identities<7..2^16-1>;`
    pub identities: Encoded<'a, TlsVec<Within<u16, 7, 65535>, PskIdentity>>,
    /// `PskBinderEntry binders<33..2^16-1>;`
    pub binders: Encoded<'a, TlsVec<Within<u16, 33, 65535>, PskBinderEntry>>,
}

impl<'a> From<Encoded<'a, OfferedPsks>> for OfferedPsksView<'a> {
    ghost from_gives = { λ whole view. whole ≡ (view.identities ++ view.binders) };

    fn from(whole: Encoded<'a, OfferedPsks>) -> OfferedPsksView<'a> {
        let (identities, binders) = whole.parts().split();
        OfferedPsksView {
            identities,
            binders,
        }
    }
}

/// Two values are equal if and only if all their fields are equal.
pub fn is_compared_by_its_fields()
    ensures { (x y : OfferedPsks) →
        ⟦<OfferedPsks as PartialEq>⟧.eq x y
        ≡ (⟦<TlsVec<Within<u16, 7, 65535>, PskIdentity> as PartialEq>⟧.eq x.identities y.identities
        && ⟦<TlsVec<Within<u16, 33, 65535>, PskBinderEntry> as PartialEq>⟧.eq x.binders y.binders) }
{}
