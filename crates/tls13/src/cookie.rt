//! [`Cookie`].
ghost use Rattle.std.specs.Prelude.{◌≡◌};
ghost use Rattle.tls13.specs.Cookie.{cookie_format, cookie_meets, cookie_plain};
ghost use Rattle.tls13.specs.declared.cookie.Cookie.{Cookie};

use std::alloc::Global;
use tls_codec::{
    Deserialize, DeserializeBytes, Error, Serialize, Sink, Size, Source, TlsByteVec, Within,
};
use tls_codec_cases::append_as;
use tls_codec_validate::{Rejected, Validate};
use tls_codec_views::{Encoded, Parted};

/// `Cookie` (RFC 8446, appendix B.3.1.2).
#[derive(PartialEq, Eq, Debug, Clone, Drop)]
pub struct Cookie {
    /// `opaque cookie<1..2^16-1>;`
    pub cookie: TlsByteVec<Within<u16, 1, 65535>>,
}

impl Size for Cookie {
    ghost plain = { cookie_plain };

    ghost format = { cookie_format };

    fn tls_serialized_len(&self) -> usize {
        self.cookie.tls_serialized_len()
    }

    ghost lawful = { cookie_meets };
}

impl Serialize for Cookie {
    fn tls_serialize<W: Sink>(&self, writer: &mut W) -> Result<usize, Error> {
        self.cookie.tls_serialize(writer)
    }

    fn tls_serialize_into(&self, out: &mut Vec<u8>) -> Result<usize, Error> {
        append_as(self, &self.cookie, out)
    }
}

impl Deserialize for Cookie {
    ghost names = { ⟦<TlsByteVec<Within<u16, 1, 65535>> as Deserialize>⟧.names };

    fn tls_deserialize<R: Source>(alloc: Global, src: &mut R) -> Result<Cookie, Error> {
        let cookie = <TlsByteVec<Within<u16, 1, 65535>>>::tls_deserialize(alloc, src)?;
        Ok(Cookie { cookie })
    }
}

impl DeserializeBytes for Cookie {
    ghost names = { ⟦<TlsByteVec<Within<u16, 1, 65535>> as DeserializeBytes>⟧.names };

    fn tls_deserialize_bytes(alloc: Global, whole: &[u8]) -> Result<(Cookie, &[u8]), Error> {
        let (cookie, rest) = <TlsByteVec<Within<u16, 1, 65535>>>::tls_deserialize_bytes(
            alloc, whole,
        )?;
        Ok((Cookie { cookie }, rest))
    }
}

impl Validate for Cookie {
    ghost places = { ⟦<TlsByteVec<Within<u16, 1, 65535>> as Validate>⟧.places };

    fn tls_validate_prefix(whole: &[u8]) -> Result<&[u8], Rejected<'_>> {
        <TlsByteVec<Within<u16, 1, 65535>>>::tls_validate_prefix(whole)
    }

    fn tls_width() -> Option<usize> {
        <TlsByteVec<Within<u16, 1, 65535>>>::tls_width()
    }
}

impl Parted for Cookie {
    type Parts = TlsByteVec<Within<u16, 1, 65535>>;

    ghost as_parts = { λ bytes is. is };
}

/// The encoding of a [`Cookie`], split into its fields.
#[derive(Drop)]
pub struct CookieView<'a> {
    /// `opaque cookie<1..2^16-1>;`
    pub cookie: Encoded<'a, TlsByteVec<Within<u16, 1, 65535>>>,
}

impl<'a> From<Encoded<'a, Cookie>> for CookieView<'a> {
    ghost from_gives = { λ whole view. whole ≡ view.cookie };

    fn from(whole: Encoded<'a, Cookie>) -> CookieView<'a> {
        let cookie = whole.parts();
        CookieView { cookie }
    }
}

/// Two values are equal if and only if all their fields are equal.
pub fn is_compared_by_its_fields()
    ensures { (x y : Cookie) →
        ⟦<Cookie as PartialEq>⟧.eq x y
        ≡ ⟦<TlsByteVec<Within<u16, 1, 65535>> as PartialEq>⟧.eq x.cookie y.cookie }
{}
