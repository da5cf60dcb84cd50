//! [`Carrier`].
ghost use Rattle.std.specs.Prelude.{◌≡◌, ◌&&◌};
ghost use Rattle.messages_of_each_shape.specs.Carrier.{carrier_format, carrier_meets, carrier_plain};
ghost use Rattle.messages_of_each_shape.specs.declared.carrier.Carrier.{Carrier};

use crate::{BodyKind, KindBody};
use std::alloc::Global;
use tls_codec::{
    Always, ByRef, ByRefIn, ByRefThen, Deserialize, DeserializeBytes, Error, Serialize, Sink, Size,
    Source, Then, TlsVecU16,
};
use tls_codec_cases::{append_as, write_as};
use tls_codec_validate::{Rejected, Validate};
use tls_codec_views::Parted;

/// `Carrier`.
#[derive(PartialEq, Eq, Debug, Clone, Drop)]
pub struct Carrier {
    /// `BodyKind body_kind;`
    pub body_kind: BodyKind,
    /// `KindBody one;`
    pub one: KindBody,
    /// `uint8 count;`
    pub count: u8,
    /// `KindBody many<0..2^16-1>;`
    pub many: TlsVecU16<KindBody>,
    /// `KindBody more<V>;`
    pub more: Vec<KindBody>,
}

type Parts = Then<BodyKind, ((KindBody, Always<u8>), (TlsVecU16<KindBody>, Vec<KindBody>))>;

type ByRefParts<'a> = ByRefThen<
    'a,
    BodyKind,
    (
        (ByRefIn<'a, KindBody>, ByRef<'a, u8>),
        (ByRefIn<'a, TlsVecU16<KindBody>>, ByRefIn<'a, Vec<KindBody>>),
    ),
>;

impl Carrier {
    fn parts(&self) -> ByRefParts<'_>
        ensures { ⟦<ByRefParts<'static> as Size>⟧.plain result ≡ carrier_plain self.now }
    {
        let first = &self.body_kind;
        let rest = (
            (ByRefIn(&self.one), ByRef(&self.count)),
            (ByRefIn(&self.many), ByRefIn(&self.more)),
        );
        ByRefThen { first, rest }
    }
}

impl Size for Carrier {
    ghost plain = { carrier_plain };

    ghost format = { carrier_format };

    fn tls_serialized_len(&self) -> usize {
        self.parts().tls_serialized_len()
    }

    ghost lawful = { carrier_meets };
}

/// `EncodingError("value does not fit its context")`: a field's case is for another tag.
impl Serialize for Carrier {
    fn tls_serialize<W: Sink>(&self, writer: &mut W) -> Result<usize, Error> {
        write_as(self, &self.parts(), writer)
    }

    fn tls_serialize_into(&self, out: &mut Vec<u8>) -> Result<usize, Error> {
        append_as(self, &self.parts(), out)
    }
}

impl Deserialize for Carrier {
    ghost names = { ⟦<Parts as Deserialize>⟧.names };

    fn tls_deserialize<R: Source>(alloc: Global, src: &mut R) -> Result<Carrier, Error> {
        let parts = <Parts>::tls_deserialize(alloc, src)?;
        let Then {
            first: body_kind,
            rest,
        } = parts;
        let (parts_0, parts_1) = rest;
        let (one, Always(count)) = parts_0;
        let (many, more) = parts_1;
        Ok(Carrier {
            body_kind,
            one,
            count,
            many,
            more,
        })
    }
}

impl DeserializeBytes for Carrier {
    ghost names = { ⟦<Parts as DeserializeBytes>⟧.names };

    fn tls_deserialize_bytes(alloc: Global, whole: &[u8]) -> Result<(Carrier, &[u8]), Error> {
        let (parts, left) = <Parts>::tls_deserialize_bytes(alloc, whole)?;
        let Then {
            first: body_kind,
            rest,
        } = parts;
        let (parts_0, parts_1) = rest;
        let (one, Always(count)) = parts_0;
        let (many, more) = parts_1;
        Ok((
            Carrier {
                body_kind,
                one,
                count,
                many,
                more,
            },
            left,
        ))
    }
}

impl Validate for Carrier {
    ghost places = { ⟦<Parts as Validate>⟧.places };

    fn tls_validate_prefix(whole: &[u8]) -> Result<&[u8], Rejected<'_>> {
        <Parts>::tls_validate_prefix(whole)
    }
}

impl Parted for Carrier {
    type Parts = Parts;

    ghost as_parts = { λ bytes is. is };
}

/// Two values are equal if and only if all their fields are equal.
pub fn is_compared_by_its_fields()
    ensures { (x y : Carrier) →
        ⟦<Carrier as PartialEq>⟧.eq x y
        ≡ (⟦<BodyKind as PartialEq>⟧.eq x.body_kind y.body_kind
        && (⟦<KindBody as PartialEq>⟧.eq x.one y.one
        && (⟦<u8 as PartialEq>⟧.eq x.count y.count
        && (⟦<TlsVecU16<KindBody> as PartialEq>⟧.eq x.many y.many
        && ⟦<Vec<KindBody> as PartialEq>⟧.eq x.more y.more)))) }
{}
