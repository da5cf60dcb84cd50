//! Values of the types of rows: their texts, and the other forms in which encoders take them.
mod families;
mod messages;
mod numbers;
mod products;
mod slices;

use crate::encoded::Encoded;
use crate::notation::MANY;
use std::alloc::{AllocError, Global};
use tls_codec::{Deserialize, DeserializeBytes, Serialize, SerializeBytes};
use tls_codec_validate::Validate;

/// A type of rows.
pub trait Value: Serialize + Deserialize + Validate + PartialEq {
    /// Appends the value's text.
    fn show(&self, alloc: Global, out: &mut String) -> Result<(), AllocError>;

    /// Whether the other encoders that the type has, and references and slices of the value, do as these did.
    fn is_borrowed_alike(&self, _alloc: Global, _encoded: &Encoded) -> bool {
        true
    }

    /// The list or byte vector that has these bytes in it.
    fn of_content(_alloc: Global, _content: &[u8]) -> Option<Self> {
        None
    }
}

/// Appends the text of a list.
pub fn push_list<T: Value>(
    alloc: Global,
    out: &mut String,
    elements: &[T],
) -> Result<(), AllocError> {
    out.push('[')?;
    if let Some((first, others)) = elements.split_first() {
        first.show(alloc, out)?;
        let count = elements.len();
        if count >= MANY && others.iter().all(|other| other == first) {
            write!(out, "*{count}")?;
        } else {
            push_others(alloc, out, others)?;
        }
    }
    out.push(']')
}

fn push_others<T: Value>(alloc: Global, out: &mut String, others: &[T]) -> Result<(), AllocError> {
    for other in others {
        out.push(',')?;
        other.show(alloc, out)?;
    }
    Ok(())
}

impl<T: Value + SerializeBytes> Value for Vec<T> {
    fn show(&self, alloc: Global, out: &mut String) -> Result<(), AllocError> {
        push_list(alloc, out, self)
    }

    fn is_borrowed_alike(&self, alloc: Global, encoded: &Encoded) -> bool {
        encoded.is_alone(alloc, self)
            && encoded.is_alone(alloc, &self)
            && encoded.is_of(alloc, &self.as_slice())
            && encoded.is_alone(alloc, &self.as_slice())
    }
}

/// In quotes.
impl Value for String {
    fn show(&self, _alloc: Global, out: &mut String) -> Result<(), AllocError> {
        write!(out, "\"{self}\"")
    }

    fn is_borrowed_alike(&self, alloc: Global, encoded: &Encoded) -> bool {
        encoded.is_alone(alloc, self)
            && encoded.is_of(alloc, &self.as_str())
            && encoded.is_alone(alloc, &self.as_str())
    }
}
