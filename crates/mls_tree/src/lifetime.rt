//! [`Lifetime`].
ghost use Rattle.std.specs.Prelude.{◌≡◌, ◌&&◌, ◌++◌};
ghost use Rattle.mls_tree.specs.Lifetime.{lifetime_format, lifetime_meets, lifetime_plain};
ghost use Rattle.mls_tree.specs.declared.lifetime.Lifetime.{Lifetime};

use std::alloc::Global;
use tls_codec::{ByRef, Deserialize, DeserializeBytes, Error, Serialize, Sink, Size, Source};
use tls_codec_cases::append_as;
use tls_codec_validate::{Rejected, Validate};
use tls_codec_views::{Encoded, Parted};

/// `Lifetime` (RFC 9420, section 7.2).
#[derive(PartialEq, Eq, Debug, Clone, Drop)]
pub struct Lifetime {
    /// `uint64 not_before;`
    pub not_before: u64,
    /// `uint64 not_after;`
    pub not_after: u64,
}

type Parts = (u64, u64);

impl Size for Lifetime {
    ghost plain = { lifetime_plain };

    ghost format = { lifetime_format };

    fn tls_serialized_len(&self) -> usize {
        (ByRef(&self.not_before), ByRef(&self.not_after)).tls_serialized_len()
    }

    ghost lawful = { lifetime_meets };
}

impl Serialize for Lifetime {
    fn tls_serialize<W: Sink>(&self, writer: &mut W) -> Result<usize, Error> {
        (ByRef(&self.not_before), ByRef(&self.not_after)).tls_serialize(writer)
    }

    fn tls_serialize_into(&self, out: &mut Vec<u8>) -> Result<usize, Error> {
        append_as(
            self,
            &(ByRef(&self.not_before), ByRef(&self.not_after)),
            out,
        )
    }
}

impl Deserialize for Lifetime {
    ghost names = { ⟦<Parts as Deserialize>⟧.names };

    fn tls_deserialize<R: Source>(alloc: Global, src: &mut R) -> Result<Lifetime, Error> {
        let (not_before, not_after) = <Parts>::tls_deserialize(alloc, src)?;
        Ok(Lifetime {
            not_before,
            not_after,
        })
    }
}

impl DeserializeBytes for Lifetime {
    ghost names = { ⟦<Parts as DeserializeBytes>⟧.names };

    fn tls_deserialize_bytes(alloc: Global, whole: &[u8]) -> Result<(Lifetime, &[u8]), Error> {
        let ((not_before, not_after), rest) = <Parts>::tls_deserialize_bytes(alloc, whole)?;
        Ok((
            Lifetime {
                not_before,
                not_after,
            },
            rest,
        ))
    }
}

impl Validate for Lifetime {
    ghost places = { ⟦<Parts as Validate>⟧.places };

    fn tls_validate_prefix(whole: &[u8]) -> Result<&[u8], Rejected<'_>> {
        <Parts>::tls_validate_prefix(whole)
    }

    fn tls_width() -> Option<usize> {
        <Parts>::tls_width()
    }
}

impl Parted for Lifetime {
    type Parts = Parts;

    ghost as_parts = { λ bytes is. is };
}

/// The encoding of a [`Lifetime`], split into its fields.
#[derive(Drop)]
pub struct LifetimeView<'a> {
    /// `uint64 not_before;`
    pub not_before: Encoded<'a, u64>,
    /// `uint64 not_after;`
    pub not_after: Encoded<'a, u64>,
}

impl<'a> From<Encoded<'a, Lifetime>> for LifetimeView<'a> {
    ghost from_gives = { λ whole view. whole ≡ (view.not_before ++ view.not_after) };

    fn from(whole: Encoded<'a, Lifetime>) -> LifetimeView<'a> {
        let (not_before, not_after) = whole.parts().split();
        LifetimeView {
            not_before,
            not_after,
        }
    }
}

/// Two values are equal if and only if all their fields are equal.
pub fn is_compared_by_its_fields()
    ensures { (x y : Lifetime) →
        ⟦<Lifetime as PartialEq>⟧.eq x y
        ≡ (⟦<u64 as PartialEq>⟧.eq x.not_before y.not_before
        && ⟦<u64 as PartialEq>⟧.eq x.not_after y.not_after) }
{}
