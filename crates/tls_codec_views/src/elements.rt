//! [`Elements`]: the elements of a list.
ghost use Rattle.std.specs.Prelude.{◌≡◌, ℕ, List, length};
ghost use Rattle.std.specs.Iterator.{at_most};
ghost use Rattle.tls_codec_grammar.specs.Field.{variable_field};
ghost use Rattle.tls_codec_grammar.specs.Grammar.{content};
ghost use Rattle.tls_codec_base.specs.PartNames.{IsSpelling};
ghost use Rattle.tls_codec_views.specs.Views.{GivesElement, IsAfterLength};

use crate::content::after_length;
use crate::encoded::{Encoded, take};
use std::marker::{Model, PhantomData};
use tls_codec_base::LengthField;
use tls_codec_secret::SecretTlsVec;
use tls_codec_validate::Validate;
use tls_codec_vec::TlsVec;
use tls_codec_vl::Zeroize;
use tls_codec_wire::TlsVarInt;

/// The encodings of the elements of a list, in a row: an iterator over them, which can't fail.
///
/// ```rust
/// let list = Encoded::<Vec<VLBytes>>::new(&[4, 1, 7, 1, 8])?;
/// for element in list.elements() {
///     assert_eq!(rt; element.content().len(), 1);
/// }
/// ```
#[derive(Drop)]
pub struct Elements<'a, T: Validate> {
    bytes: &'a [u8],
    of: PhantomData<T>,
}

impl<'a, T: Validate> Model for Elements<'a, T> {
    ghost Value = { List ℕ };

    ghost view = { λ e. e.bytes.now };

    ghost invariant = { λ e. IsSpelling (content T.format.spells) e.bytes.now };
}

impl<'a, T: Validate> Elements<'a, T> {
    /// The bytes of the elements that are left, without the length before them.
    pub fn as_bytes(&self) -> &'a [u8]
        ensures same { result.now ≡ self.now }
        ensures encoding { IsSpelling (content T.format.spells) self.now }
    {
        self.bytes
    }
}

impl<'a, T: Validate> Iterator for Elements<'a, T> {
    type Item = Encoded<'a, T>;

    ghost next_gives = { GivesElement T.format.spells };

    ghost remaining = { λ s. at_most (length s) };

    fn next(&mut self) -> Option<Encoded<'a, T>> {
        if self.bytes.is_empty() {
            return None;
        }
        let (element, rest) = take::<T>(self.bytes);
        self.bytes = rest;
        Some(element)
    }
}

impl<'a, T: Validate> Encoded<'a, Vec<T>> {
    /// The elements.
    pub fn elements(&self) -> Elements<'a, T>
        ensures { IsAfterLength variable_field self.now result }
    {
        Elements {
            bytes: after_length::<TlsVarInt>(self.bytes),
            of: PhantomData,
        }
    }
}

impl<'a, F: LengthField, T: Validate> Encoded<'a, TlsVec<F, T>> {
    /// The elements.
    pub fn elements(&self) -> Elements<'a, T>
        ensures { IsAfterLength F.field self.now result }
    {
        Elements {
            bytes: after_length::<F>(self.bytes),
            of: PhantomData,
        }
    }
}

impl<'a, F: LengthField, T: Validate + Zeroize> Encoded<'a, SecretTlsVec<F, T>> {
    /// The elements.
    pub fn elements(&self) -> Elements<'a, T>
        ensures { IsAfterLength F.field self.now result }
    {
        Elements {
            bytes: after_length::<F>(self.bytes),
            of: PhantomData,
        }
    }
}
