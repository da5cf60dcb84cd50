//! [`ContentType`].
ghost use Rattle.std.specs.Prelude.{◌≡◌, Some, nat_eq, option_map};
ghost use Rattle.std.specs.Ordering.{nat_cmp};
ghost use Rattle.tls_codec.specs.Registries.{listed_name, name_or_number};
ghost use Rattle.tls13.specs.ContentType.{content_type_format, content_type_meets, content_type_names, content_type_plain};
ghost use Rattle.tls13.specs.declared.content_type.ContentType.{ContentType};

use std::alloc::Global;
use std::fmt;
use tls_codec::{Deserialize, DeserializeBytes, Error, Serialize, Sink, Size, Source};
use tls_codec_validate::{Rejected, Validate};
use tls_codec_views::{Encoded, Parted, ReadInPlace};

/// `ContentType` (RFC 8446, appendix B.1).
#[derive(PartialEq, Eq, PartialOrd, Ord, Hash, Debug, Clone, Copy)]
pub struct ContentType(pub u8);

impl ContentType {
    /// `invalid`
    pub const INVALID: ContentType = ContentType(0);

    /// `change_cipher_spec`
    pub const CHANGE_CIPHER_SPEC: ContentType = ContentType(20);

    /// `alert`
    pub const ALERT: ContentType = ContentType(21);

    /// `handshake`
    pub const HANDSHAKE: ContentType = ContentType(22);

    /// `application_data`
    pub const APPLICATION_DATA: ContentType = ContentType(23);

    /// `heartbeat`
    /// RFC 6520
    pub const HEARTBEAT: ContentType = ContentType(24);

    /// Its name in the presentation language, if it has one.
    pub fn name(&self) -> Option<&'static str>
        ensures { option_map (λ t. t.now) result ≡ listed_name content_type_names self.now.0 }
    {
        match self.0 {
            0 => Some("invalid"),
            20 => Some("change_cipher_spec"),
            21 => Some("alert"),
            22 => Some("handshake"),
            23 => Some("application_data"),
            24 => Some("heartbeat"),
            _ => None,
        }
    }
}

/// Its name, or else its number in hexadecimal, two digits per byte. A width pads only names.
impl fmt::Display for ContentType {
    ghost output = { λ v. Some (name_or_number content_type_names 2 v.0) };

    #[tactic(auto, using(tls_codec::specs::Registries::hexadecimal_digits))]
    fn fmt<W: fmt::Write>(&self, f: &mut fmt::Formatter<W>) -> fmt::Result {
        match self.name() {
            Some(name) => f.pad(name),
            None => write!(f, "0x{:02x}", self.0),
        }
    }
}

/// Its number.
impl From<ContentType> for u8 {
    ghost from_gives = { λ v number. number ≡ v.0 };

    fn from(value: ContentType) -> u8 {
        value.0
    }
}

/// The value with this number.
impl From<u8> for ContentType {
    ghost from_gives = { λ number v. v.0 ≡ number };

    fn from(number: u8) -> ContentType {
        ContentType(number)
    }
}

impl Size for ContentType {
    ghost plain = { content_type_plain };

    ghost format = { content_type_format };

    fn tls_serialized_len(&self) -> usize {
        1
    }

    fn tls_fixed_len() -> Option<usize> {
        Some(1)
    }

    ghost lawful = { content_type_meets };
}

impl Serialize for ContentType {
    fn tls_serialize<W: Sink>(&self, writer: &mut W) -> Result<usize, Error> {
        self.0.tls_serialize(writer)
    }

    fn tls_serialize_into(&self, out: &mut Vec<u8>) -> Result<usize, Error> {
        self.0.tls_serialize_into(out)
    }
}

impl Deserialize for ContentType {
    ghost names = { ⟦<u8 as Deserialize>⟧.names };

    fn tls_deserialize<R: Source>(alloc: Global, src: &mut R) -> Result<ContentType, Error> {
        let number = u8::tls_deserialize(alloc, src)?;
        Ok(ContentType(number))
    }
}

impl DeserializeBytes for ContentType {
    ghost names = { ⟦<u8 as DeserializeBytes>⟧.names };

    fn tls_deserialize_bytes(alloc: Global, whole: &[u8]) -> Result<(ContentType, &[u8]), Error> {
        let (number, rest) = u8::tls_deserialize_bytes(alloc, whole)?;
        Ok((ContentType(number), rest))
    }
}

impl Validate for ContentType {
    ghost places = { ⟦<u8 as Validate>⟧.places };

    fn tls_validate_prefix(whole: &[u8]) -> Result<&[u8], Rejected<'_>> {
        u8::tls_validate_prefix(whole)
    }

    fn tls_width() -> Option<usize> {
        u8::tls_width()
    }
}

impl Parted for ContentType {
    type Parts = u8;

    ghost as_parts = { λ bytes is. is };
}

impl ReadInPlace for ContentType {
    fn read(encoded: &Encoded<'_, ContentType>) -> ContentType {
        ContentType(encoded.parts().get())
    }
}

/// Two values are equal if and only if their numbers are equal.
pub fn is_compared_by_its_number()
    ensures { (x y : ContentType) →
        ⟦<ContentType as PartialEq>⟧.eq x y ≡ nat_eq x.0 y.0 }
{}

/// Values are ordered by their numbers.
pub fn is_ordered_by_its_number()
    ensures { (x y : ContentType) →
        ⟦<ContentType as Ord>⟧.cmp x y ≡ nat_cmp x.0 y.0 }
{}
