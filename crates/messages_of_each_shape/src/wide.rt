//! [`Wide`].
ghost use Rattle.std.specs.Prelude.{◌≡◌, ◌&&◌, ◌++◌};
ghost use Rattle.messages_of_each_shape.specs.Wide.{wide_format, wide_meets, wide_plain};
ghost use Rattle.messages_of_each_shape.specs.declared.wide.Wide.{Wide};

use crate::Key;
use std::alloc::Global;
use tls_codec::{
    ByRef4, Deserialize, DeserializeBytes, Error, Serialize, Sink, Size, Source, TlsByteVecU8,
    TlsByteVecU16, TlsByteVecU24, TlsByteVecU32, TlsVecU16, U24,
};
use tls_codec_cases::append_as;
use tls_codec_validate::{Rejected, Validate};
use tls_codec_views::{Encoded, Parted};

/// `Wide`.
///
/// Twelve fields.
#[derive(PartialEq, Eq, Debug, Clone, Drop)]
pub struct Wide {
    /// `uint8 a;`
    pub a: u8,
    /// `uint24 b;`
    pub b: U24,
    /// `uint32 c;`
    pub c: u32,
    /// `uint64 d;`
    pub d: u64,
    /// `opaque e[16];`
    pub e: [u8; 16],
    /// `opaque f<0..2^8-1>;`
    pub f: TlsByteVecU8,
    /// `opaque g<0..2^16-1>;`
    pub g: TlsByteVecU16,
    /// `opaque h<0..2^24-1>;`
    pub h: TlsByteVecU24,
    /// `opaque i<0..2^32-1>;`
    pub i: TlsByteVecU32,
    /// `Key j<0..2^16-1>;`
    pub j: TlsVecU16<Key>,
    /// `string k;`
    pub k: String,
    /// `optional<uint16> l;`
    pub l: Option<u16>,
}

type Parts = (
    ((u8, U24), (u32, u64)),
    (([u8; 16], TlsByteVecU8), (TlsByteVecU16, TlsByteVecU24)),
    ((TlsByteVecU32, TlsVecU16<Key>), (String, Option<u16>)),
);

impl Size for Wide {
    ghost plain = { wide_plain };

    ghost format = { wide_format };

    fn tls_serialized_len(&self) -> usize {
        (
            ByRef4(&self.a, &self.b, &self.c, &self.d),
            ByRef4(&self.e, &self.f, &self.g, &self.h),
            ByRef4(&self.i, &self.j, &self.k, &self.l),
        )
            .tls_serialized_len()
    }

    ghost lawful = { wide_meets };
}

impl Serialize for Wide {
    fn tls_serialize<W: Sink>(&self, writer: &mut W) -> Result<usize, Error> {
        (
            ByRef4(&self.a, &self.b, &self.c, &self.d),
            ByRef4(&self.e, &self.f, &self.g, &self.h),
            ByRef4(&self.i, &self.j, &self.k, &self.l),
        )
            .tls_serialize(writer)
    }

    fn tls_serialize_into(&self, out: &mut Vec<u8>) -> Result<usize, Error> {
        append_as(
            self,
            &(
                ByRef4(&self.a, &self.b, &self.c, &self.d),
                ByRef4(&self.e, &self.f, &self.g, &self.h),
                ByRef4(&self.i, &self.j, &self.k, &self.l),
            ),
            out,
        )
    }
}

impl Deserialize for Wide {
    ghost names = { ⟦<Parts as Deserialize>⟧.names };

    fn tls_deserialize<R: Source>(alloc: Global, src: &mut R) -> Result<Wide, Error> {
        let (((a, b), (c, d)), ((e, f), (g, h)), ((i, j), (k, l))) = <Parts>::tls_deserialize(
            alloc, src,
        )?;
        Ok(Wide {
            a,
            b,
            c,
            d,
            e,
            f,
            g,
            h,
            i,
            j,
            k,
            l,
        })
    }
}

impl DeserializeBytes for Wide {
    ghost names = { ⟦<Parts as DeserializeBytes>⟧.names };

    fn tls_deserialize_bytes(alloc: Global, whole: &[u8]) -> Result<(Wide, &[u8]), Error> {
        let ((((a, b), (c, d)), ((e, f), (g, h)), ((i, j), (k, l))), rest) =
            <Parts>::tls_deserialize_bytes(alloc, whole)?;
        Ok((
            Wide {
                a,
                b,
                c,
                d,
                e,
                f,
                g,
                h,
                i,
                j,
                k,
                l,
            },
            rest,
        ))
    }
}

impl Validate for Wide {
    ghost places = { ⟦<Parts as Validate>⟧.places };

    fn tls_validate_prefix(whole: &[u8]) -> Result<&[u8], Rejected<'_>> {
        <Parts>::tls_validate_prefix(whole)
    }

    fn tls_width() -> Option<usize> {
        <Parts>::tls_width()
    }
}

impl Parted for Wide {
    type Parts = Parts;

    ghost as_parts = { λ bytes is. is };
}

/// The encoding of a [`Wide`], split into its fields.
#[derive(Drop)]
pub struct WideView<'a> {
    /// `uint8 a;`
    pub a: Encoded<'a, u8>,
    /// `uint24 b;`
    pub b: Encoded<'a, U24>,
    /// `uint32 c;`
    pub c: Encoded<'a, u32>,
    /// `uint64 d;`
    pub d: Encoded<'a, u64>,
    /// `opaque e[16];`
    pub e: Encoded<'a, [u8; 16]>,
    /// `opaque f<0..2^8-1>;`
    pub f: Encoded<'a, TlsByteVecU8>,
    /// `opaque g<0..2^16-1>;`
    pub g: Encoded<'a, TlsByteVecU16>,
    /// `opaque h<0..2^24-1>;`
    pub h: Encoded<'a, TlsByteVecU24>,
    /// `opaque i<0..2^32-1>;`
    pub i: Encoded<'a, TlsByteVecU32>,
    /// `Key j<0..2^16-1>;`
    pub j: Encoded<'a, TlsVecU16<Key>>,
    /// `string k;`
    pub k: Encoded<'a, String>,
    /// `optional<uint16> l;`
    pub l: Encoded<'a, Option<u16>>,
}

impl<'a> From<Encoded<'a, Wide>> for WideView<'a> {
    ghost from_gives = { λ whole view. whole ≡ (((view.a ++ view.b) ++ (view.c ++ view.d)) ++
        (((view.e ++ view.f) ++ (view.g ++ view.h)) ++
        ((view.i ++ view.j) ++ (view.k ++ view.l)))) };

    fn from(whole: Encoded<'a, Wide>) -> WideView<'a> {
        let (parts_0, parts_1, parts_2) = whole.parts().split();
        let (part_0, part_1) = parts_0.split();
        let (a, b) = part_0.split();
        let (c, d) = part_1.split();
        let (part_2, part_0) = parts_1.split();
        let (e, f) = part_2.split();
        let (g, h) = part_0.split();
        let (part_1, part_2) = parts_2.split();
        let (i, j) = part_1.split();
        let (k, l) = part_2.split();
        WideView {
            a,
            b,
            c,
            d,
            e,
            f,
            g,
            h,
            i,
            j,
            k,
            l,
        }
    }
}

/// Two values are equal if and only if all their fields are equal.
pub fn is_compared_by_its_fields()
    ensures { (x y : Wide) →
        ⟦<Wide as PartialEq>⟧.eq x y
        ≡ (⟦<u8 as PartialEq>⟧.eq x.a y.a
        && (⟦<U24 as PartialEq>⟧.eq x.b y.b
        && (⟦<u32 as PartialEq>⟧.eq x.c y.c
        && (⟦<u64 as PartialEq>⟧.eq x.d y.d
        && (⟦<[u8; 16] as PartialEq>⟧.eq x.e y.e
        && (⟦<TlsByteVecU8 as PartialEq>⟧.eq x.f y.f
        && (⟦<TlsByteVecU16 as PartialEq>⟧.eq x.g y.g
        && (⟦<TlsByteVecU24 as PartialEq>⟧.eq x.h y.h
        && (⟦<TlsByteVecU32 as PartialEq>⟧.eq x.i y.i
        && (⟦<TlsVecU16<Key> as PartialEq>⟧.eq x.j y.j
        && (⟦<String as PartialEq>⟧.eq x.k y.k
        && ⟦<Option<u16> as PartialEq>⟧.eq x.l y.l))))))))))) }
{}
