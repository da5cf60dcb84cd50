//! [`Versioned`].
ghost use Rattle.std.specs.Prelude.{◌≡◌, ◌&&◌};
ghost use Rattle.messages_of_each_shape.specs.Versioned.{versioned_format, versioned_meets, versioned_plain};
ghost use Rattle.messages_of_each_shape.specs.declared.versioned.Versioned.{Versioned};

use crate::{ByVersion, Header};
use std::alloc::Global;
use std::marker::PhantomData;
use tls_codec::{
    ByRefIn, ByRefThen, Deserialize, DeserializeBytes, Error, Serialize, Sink, Size, Source, Then,
};
use tls_codec_cases::{By, append_as, write_as};
use tls_codec_validate::{Rejected, Validate};
use tls_codec_views::Parted;

/// `Versioned`.
#[derive(PartialEq, Eq, Debug, Clone, Drop)]
pub struct Versioned {
    /// `Header header;`
    pub header: Header,
    /// `ByVersion parts;`
    pub parts_: ByVersion,
}

type Parts = Then<Header, By<u16, ByVersion>>;

type ByRefParts<'a> = ByRefThen<'a, Header, By<u16, ByRefIn<'a, ByVersion>>>;

impl Versioned {
    fn parts(&self) -> ByRefParts<'_>
        ensures { ⟦<ByRefParts<'static> as Size>⟧.plain result ≡ versioned_plain self.now }
    {
        let first = &self.header;
        let rest = By(ByRefIn(&self.parts_), PhantomData);
        ByRefThen { first, rest }
    }
}

impl Size for Versioned {
    ghost plain = { versioned_plain };

    ghost format = { versioned_format };

    fn tls_serialized_len(&self) -> usize {
        self.parts().tls_serialized_len()
    }

    ghost lawful = { versioned_meets };
}

/// `EncodingError("value does not fit its context")`: a field's case is for another tag.
impl Serialize for Versioned {
    fn tls_serialize<W: Sink>(&self, writer: &mut W) -> Result<usize, Error> {
        write_as(self, &self.parts(), writer)
    }

    fn tls_serialize_into(&self, out: &mut Vec<u8>) -> Result<usize, Error> {
        append_as(self, &self.parts(), out)
    }
}

impl Deserialize for Versioned {
    ghost names = { ⟦<Parts as Deserialize>⟧.names };

    fn tls_deserialize<R: Source>(alloc: Global, src: &mut R) -> Result<Versioned, Error> {
        let parts = <Parts>::tls_deserialize(alloc, src)?;
        let Then {
            first: header,
            rest,
        } = parts;
        let By(parts_, _) = rest;
        Ok(Versioned { header, parts_ })
    }
}

impl DeserializeBytes for Versioned {
    ghost names = { ⟦<Parts as DeserializeBytes>⟧.names };

    fn tls_deserialize_bytes(alloc: Global, whole: &[u8]) -> Result<(Versioned, &[u8]), Error> {
        let (parts, left) = <Parts>::tls_deserialize_bytes(alloc, whole)?;
        let Then {
            first: header,
            rest,
        } = parts;
        let By(parts_, _) = rest;
        Ok((Versioned { header, parts_ }, left))
    }
}

impl Validate for Versioned {
    ghost places = { ⟦<Parts as Validate>⟧.places };

    fn tls_validate_prefix(whole: &[u8]) -> Result<&[u8], Rejected<'_>> {
        <Parts>::tls_validate_prefix(whole)
    }
}

impl Parted for Versioned {
    type Parts = Parts;

    ghost as_parts = { λ bytes is. is };
}

/// Two values are equal if and only if all their fields are equal.
pub fn is_compared_by_its_fields()
    ensures { (x y : Versioned) →
        ⟦<Versioned as PartialEq>⟧.eq x y
        ≡ (⟦<Header as PartialEq>⟧.eq x.header y.header
        && ⟦<ByVersion as PartialEq>⟧.eq x.parts_ y.parts_) }
{}
