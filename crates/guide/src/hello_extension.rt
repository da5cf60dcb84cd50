//! [`HelloExtension`], an enum with a case for every other tag.
ghost use Rattle.std.specs.Prelude.{◌≡◌};
ghost use Rattle.guide.specs.HelloExtensions.{hello_extension_format, hello_extension_meets, hello_extension_plain};

use std::alloc::Global;
use std::marker::PhantomData;
use tls_codec::{
    ByRef, Deserialize, DeserializeBytes, Error, Serialize, Sink, Size, SizeFor, Source,
    TlsByteVecU16, TlsVecU8,
};
use tls_codec_cases::{Case, Chosen, Else, Enclosed, Or, Other, Tagged, append_as, write_as};

/// An extension of a hello (RFC 8446, section 4.2): which versions are supported, or which group is selected. One of
/// another type is kept as bytes.
#[derive(PartialEq, Drop)]
pub enum HelloExtension {
    SupportedVersions(TlsVecU8<u16>),
    SelectedGroup(u16),
    Unknown(UnknownExtension),
}

pub(crate) type KnownExtensions = Or<
    Case<43, Enclosed<u16, TlsVecU8<u16>>>,
    Case<51, Enclosed<u16, u16>>,
>;

/// An extension of neither type.
pub type UnknownExtension = Other<KnownExtensions, u16, TlsByteVecU16>;

pub(crate) type Extensions = Else<KnownExtensions, u16, TlsByteVecU16>;

pub(crate) type BorrowedExtensions<'a> = Else<
    Or<Case<43, Enclosed<u16, ByRef<'a, TlsVecU8<u16>>>>, Case<51, Enclosed<u16, ByRef<'a, u16>>>>,
    u16,
    ByRef<'a, TlsByteVecU16>,
>;

impl HelloExtension {
    pub(crate) fn cases(&self) -> BorrowedExtensions<'_>
        ensures { ⟦<Chosen<BorrowedExtensions<'static>> as SizeFor<u16>>⟧.plain
            (record { 0 = result })
            ≡ hello_extension_plain self.now }
    {
        match self {
            HelloExtension::SupportedVersions(versions) => {
                Else::Known(Or::First(Case(Enclosed(ByRef(versions), PhantomData))))
            }
            HelloExtension::SelectedGroup(group) => {
                Else::Known(Or::Second(Case(Enclosed(ByRef(group), PhantomData))))
            }
            HelloExtension::Unknown(other) => Else::Unknown(other.by_ref()),
        }
    }

    fn tagged(&self) -> Tagged<u16, BorrowedExtensions<'_>>
        ensures { ⟦<Tagged<u16, BorrowedExtensions<'static>> as Size>⟧.plain result
            ≡ hello_extension_plain self.now }
    {
        Tagged(self.cases(), PhantomData)
    }

    pub(crate) fn of(cases: Extensions) -> HelloExtension
        ensures { hello_extension_plain result
            ≡ ⟦<Chosen<Extensions> as SizeFor<u16>>⟧.plain (record { 0 = cases }) }
    {
        match cases {
            Else::Known(Or::First(versions)) => HelloExtension::SupportedVersions(versions.0.0),
            Else::Known(Or::Second(group)) => HelloExtension::SelectedGroup(group.0.0),
            Else::Unknown(other) => HelloExtension::Unknown(other),
        }
    }
}

impl Size for HelloExtension {
    ghost plain = { hello_extension_plain };

    ghost format = { hello_extension_format };

    fn tls_serialized_len(&self) -> usize {
        self.tagged().tls_serialized_len()
    }

    ghost lawful = { hello_extension_meets };
}

impl Serialize for HelloExtension {
    fn tls_serialize<W: Sink>(&self, writer: &mut W) -> Result<usize, Error> {
        write_as(self, &self.tagged(), writer)
    }

    fn tls_serialize_into(&self, out: &mut Vec<u8>) -> Result<usize, Error> {
        append_as(self, &self.tagged(), out)
    }
}

impl Deserialize for HelloExtension {
    ghost names = { ⟦<Tagged<u16, Extensions> as Deserialize>⟧.names };

    /// Every error is that of a field.
    fn tls_deserialize<R: Source>(alloc: Global, src: &mut R) -> Result<HelloExtension, Error> {
        let found = <Tagged<u16, Extensions>>::tls_deserialize(alloc, src)?;
        Ok(HelloExtension::of(found.0))
    }
}

impl DeserializeBytes for HelloExtension {
    ghost names = { ⟦<Tagged<u16, Extensions> as DeserializeBytes>⟧.names };

    /// Every error is that of a field.
    fn tls_deserialize_bytes(
        alloc: Global,
        whole: &[u8],
    ) -> Result<(HelloExtension, &[u8]), Error> {
        let (found, rest) = <Tagged<u16, Extensions>>::tls_deserialize_bytes(alloc, whole)?;
        Ok((HelloExtension::of(found.0), rest))
    }
}
