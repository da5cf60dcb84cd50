//! [`Bounded`].
ghost use Rattle.std.specs.Prelude.{◌≡◌, ◌&&◌, ◌++◌};
ghost use Rattle.messages_of_each_shape.specs.Bounded.{bounded_format, bounded_meets, bounded_plain};
ghost use Rattle.messages_of_each_shape.specs.declared.bounded.Bounded.{Bounded};

use std::alloc::Global;
use tls_codec::{
    ByRef, Deserialize, DeserializeBytes, Error, Serialize, Sink, Size, Source, TlsByteVec, TlsVec,
    Within,
};
use tls_codec_cases::append_as;
use tls_codec_validate::{Rejected, Validate};
use tls_codec_views::{Encoded, Parted};

/// `Bounded`.
///
/// Bounds on bytes and on a list of numbers.
#[derive(PartialEq, Eq, Debug, Clone, Drop)]
pub struct Bounded {
    /// `opaque session<0..32>;`
    pub session: TlsByteVec<Within<u8, 0, 32>>,
    /// `uint16 suites<2..65534>;`
    pub suites: TlsVec<Within<u16, 2, 65534>, u16>,
}

type Parts = (
    TlsByteVec<Within<u8, 0, 32>>,
    TlsVec<Within<u16, 2, 65534>, u16>,
);

impl Size for Bounded {
    ghost plain = { bounded_plain };

    ghost format = { bounded_format };

    fn tls_serialized_len(&self) -> usize {
        (ByRef(&self.session), ByRef(&self.suites)).tls_serialized_len()
    }

    ghost lawful = { bounded_meets };
}

impl Serialize for Bounded {
    fn tls_serialize<W: Sink>(&self, writer: &mut W) -> Result<usize, Error> {
        (ByRef(&self.session), ByRef(&self.suites)).tls_serialize(writer)
    }

    fn tls_serialize_into(&self, out: &mut Vec<u8>) -> Result<usize, Error> {
        append_as(self, &(ByRef(&self.session), ByRef(&self.suites)), out)
    }
}

impl Deserialize for Bounded {
    ghost names = { ⟦<Parts as Deserialize>⟧.names };

    fn tls_deserialize<R: Source>(alloc: Global, src: &mut R) -> Result<Bounded, Error> {
        let (session, suites) = <Parts>::tls_deserialize(alloc, src)?;
        Ok(Bounded { session, suites })
    }
}

impl DeserializeBytes for Bounded {
    ghost names = { ⟦<Parts as DeserializeBytes>⟧.names };

    fn tls_deserialize_bytes(alloc: Global, whole: &[u8]) -> Result<(Bounded, &[u8]), Error> {
        let ((session, suites), rest) = <Parts>::tls_deserialize_bytes(alloc, whole)?;
        Ok((Bounded { session, suites }, rest))
    }
}

impl Validate for Bounded {
    ghost places = { ⟦<Parts as Validate>⟧.places };

    fn tls_validate_prefix(whole: &[u8]) -> Result<&[u8], Rejected<'_>> {
        <Parts>::tls_validate_prefix(whole)
    }

    fn tls_width() -> Option<usize> {
        <Parts>::tls_width()
    }
}

impl Parted for Bounded {
    type Parts = Parts;

    ghost as_parts = { λ bytes is. is };
}

/// The encoding of a [`Bounded`], split into its fields.
#[derive(Drop)]
pub struct BoundedView<'a> {
    /// `opaque session<0..32>;`
    pub session: Encoded<'a, TlsByteVec<Within<u8, 0, 32>>>,
    /// `uint16 suites<2..65534>;`
    pub suites: Encoded<'a, TlsVec<Within<u16, 2, 65534>, u16>>,
}

impl<'a> From<Encoded<'a, Bounded>> for BoundedView<'a> {
    ghost from_gives = { λ whole view. whole ≡ (view.session ++ view.suites) };

    fn from(whole: Encoded<'a, Bounded>) -> BoundedView<'a> {
        let (session, suites) = whole.parts().split();
        BoundedView { session, suites }
    }
}

/// Two values are equal if and only if all their fields are equal.
pub fn is_compared_by_its_fields()
    ensures { (x y : Bounded) →
        ⟦<Bounded as PartialEq>⟧.eq x y
        ≡ (⟦<TlsByteVec<Within<u8, 0, 32>> as PartialEq>⟧.eq x.session y.session
        && ⟦<TlsVec<Within<u16, 2, 65534>, u16> as PartialEq>⟧.eq x.suites y.suites) }
{}
