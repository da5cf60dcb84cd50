//! [`Add`].
ghost use Rattle.std.specs.Prelude.{◌≡◌};
ghost use Rattle.mls_group.specs.Add.{add_format, add_meets, add_plain};
ghost use Rattle.mls_group.specs.declared.add.Add.{Add};

use mls_tree::KeyPackage;
use std::alloc::Global;
use tls_codec::{Deserialize, DeserializeBytes, Error, Serialize, Sink, Size, Source};
use tls_codec_cases::append_as;
use tls_codec_validate::{Rejected, Validate};
use tls_codec_views::{Encoded, Parted};

/// `Add` (RFC 9420, section 12.1.1).
#[derive(PartialEq, Eq, Debug, Clone, Drop)]
pub struct Add {
    /// `KeyPackage key_package;`
    pub key_package: KeyPackage,
}

impl Size for Add {
    ghost plain = { add_plain };

    ghost format = { add_format };

    fn tls_serialized_len(&self) -> usize {
        self.key_package.tls_serialized_len()
    }

    ghost lawful = { add_meets };
}

impl Serialize for Add {
    fn tls_serialize<W: Sink>(&self, writer: &mut W) -> Result<usize, Error> {
        self.key_package.tls_serialize(writer)
    }

    fn tls_serialize_into(&self, out: &mut Vec<u8>) -> Result<usize, Error> {
        append_as(self, &self.key_package, out)
    }
}

impl Deserialize for Add {
    ghost names = { ⟦<KeyPackage as Deserialize>⟧.names };

    fn tls_deserialize<R: Source>(alloc: Global, src: &mut R) -> Result<Add, Error> {
        let key_package = KeyPackage::tls_deserialize(alloc, src)?;
        Ok(Add { key_package })
    }
}

impl DeserializeBytes for Add {
    ghost names = { ⟦<KeyPackage as DeserializeBytes>⟧.names };

    fn tls_deserialize_bytes(alloc: Global, whole: &[u8]) -> Result<(Add, &[u8]), Error> {
        let (key_package, rest) = KeyPackage::tls_deserialize_bytes(alloc, whole)?;
        Ok((Add { key_package }, rest))
    }
}

impl Validate for Add {
    ghost places = { ⟦<KeyPackage as Validate>⟧.places };

    fn tls_validate_prefix(whole: &[u8]) -> Result<&[u8], Rejected<'_>> {
        KeyPackage::tls_validate_prefix(whole)
    }

    fn tls_width() -> Option<usize> {
        KeyPackage::tls_width()
    }
}

impl Parted for Add {
    type Parts = KeyPackage;

    ghost as_parts = { λ bytes is. is };
}

/// The encoding of a [`Add`], split into its fields.
#[derive(Drop)]
pub struct AddView<'a> {
    /// `KeyPackage key_package;`
    pub key_package: Encoded<'a, KeyPackage>,
}

impl<'a> From<Encoded<'a, Add>> for AddView<'a> {
    ghost from_gives = { λ whole view. whole ≡ view.key_package };

    fn from(whole: Encoded<'a, Add>) -> AddView<'a> {
        let key_package = whole.parts();
        AddView { key_package }
    }
}

/// Two values are equal if and only if all their fields are equal.
pub fn is_compared_by_its_fields()
    ensures { (x y : Add) →
        ⟦<Add as PartialEq>⟧.eq x y
        ≡ ⟦<KeyPackage as PartialEq>⟧.eq x.key_package y.key_package }
{}
