//! [`Bearer`].
ghost use Rattle.std.specs.Prelude.{◌≡◌, ◌&&◌};
ghost use Rattle.messages_of_each_shape.specs.Bearer.{bearer_format, bearer_meets, bearer_plain};
ghost use Rattle.messages_of_each_shape.specs.declared.bearer.Bearer.{Bearer};

use crate::{Key, NameType, NameTypeData, Named};
use std::alloc::Global;
use std::marker::PhantomData;
use tls_codec::{
    Always, ByRef, ByRefIn, ByRefThen, Deserialize, DeserializeBytes, Error, Serialize, Sink, Size,
    Source, Then,
};
use tls_codec_cases::{By, append_as, write_as};
use tls_codec_validate::{Rejected, Validate};
use tls_codec_views::Parted;

/// `Bearer`.
#[derive(PartialEq, Eq, Debug, Clone, Drop)]
pub struct Bearer {
    /// `uint8 level;`
    pub level: u8,
    /// `Named named;`
    pub named: Named,
    /// `select (name_type);`
    pub body: NameTypeData,
    /// `Key last;`
    pub last: Key,
}

type Parts = (u8, Then<Named, (By<NameType, NameTypeData>, Always<Key>)>);

type ByRefParts<'a> = (
    ByRef<'a, u8>,
    ByRefThen<'a, Named, (By<NameType, ByRefIn<'a, NameTypeData>>, ByRef<'a, Key>)>,
);

impl Bearer {
    fn parts(&self) -> ByRefParts<'_>
        ensures { ⟦<ByRefParts<'static> as Size>⟧.plain result ≡ bearer_plain self.now }
    {
        let first = &self.named;
        let rest = (By(ByRefIn(&self.body), PhantomData), ByRef(&self.last));
        (ByRef(&self.level), ByRefThen { first, rest })
    }
}

impl Size for Bearer {
    ghost plain = { bearer_plain };

    ghost format = { bearer_format };

    fn tls_serialized_len(&self) -> usize {
        self.parts().tls_serialized_len()
    }

    ghost lawful = { bearer_meets };
}

/// `EncodingError("value does not fit its context")`: a field's case is for another tag.
impl Serialize for Bearer {
    fn tls_serialize<W: Sink>(&self, writer: &mut W) -> Result<usize, Error> {
        write_as(self, &self.parts(), writer)
    }

    fn tls_serialize_into(&self, out: &mut Vec<u8>) -> Result<usize, Error> {
        append_as(self, &self.parts(), out)
    }
}

impl Deserialize for Bearer {
    ghost names = { ⟦<Parts as Deserialize>⟧.names };

    fn tls_deserialize<R: Source>(alloc: Global, src: &mut R) -> Result<Bearer, Error> {
        let parts = <Parts>::tls_deserialize(alloc, src)?;
        let (parts, rest) = parts;
        let level = parts;
        let Then { first: named, rest } = rest;
        let (By(body, _), Always(last)) = rest;
        Ok(Bearer {
            level,
            named,
            body,
            last,
        })
    }
}

impl DeserializeBytes for Bearer {
    ghost names = { ⟦<Parts as DeserializeBytes>⟧.names };

    fn tls_deserialize_bytes(alloc: Global, whole: &[u8]) -> Result<(Bearer, &[u8]), Error> {
        let (parts, left) = <Parts>::tls_deserialize_bytes(alloc, whole)?;
        let (parts, rest) = parts;
        let level = parts;
        let Then { first: named, rest } = rest;
        let (By(body, _), Always(last)) = rest;
        Ok((
            Bearer {
                level,
                named,
                body,
                last,
            },
            left,
        ))
    }
}

impl Validate for Bearer {
    ghost places = { ⟦<Parts as Validate>⟧.places };

    fn tls_validate_prefix(whole: &[u8]) -> Result<&[u8], Rejected<'_>> {
        <Parts>::tls_validate_prefix(whole)
    }
}

impl Parted for Bearer {
    type Parts = Parts;

    ghost as_parts = { λ bytes is. is };
}

/// Two values are equal if and only if all their fields are equal.
pub fn is_compared_by_its_fields()
    ensures { (x y : Bearer) →
        ⟦<Bearer as PartialEq>⟧.eq x y
        ≡ (⟦<u8 as PartialEq>⟧.eq x.level y.level
        && (⟦<Named as PartialEq>⟧.eq x.named y.named
        && (⟦<NameTypeData as PartialEq>⟧.eq x.body y.body
        && ⟦<Key as PartialEq>⟧.eq x.last y.last))) }
{}
