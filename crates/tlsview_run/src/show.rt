//! How values are printed.
ghost use Rattle.std.specs.Prelude.{◌≡◌, ℕ, List, ◌++◌, OnOk, string_bytes};
ghost use Rattle.tls_codec.specs.OwnMessages.{Tree, Empty, Join, trees, number_trees};
ghost use Rattle.tlsview_run.specs.Texts.{bytes_text, elements_text, hex_or_dash, leaf_text, list_text, log_text, number_text, option_text, step_text, triple_text};

use std::alloc::{AllocError, Global};
use tls_codec::{
    Deserialize, DeserializeBytes, LengthField, Serialize, TlsByteVec, TlsVarInt, TlsVec, VLBytes,
};
use tls_codec_vectors::{Leaf, Log, Step};

/// A type whose values a view prints.
pub trait Show: Serialize + Deserialize + DeserializeBytes {
    // The text of what a value stands for.
    ghost text: { Tree → List ℕ };

    /// Appends the value's text.
    fn show(&self, alloc: Global, out: &mut String) -> Result<(), AllocError>
        ensures { OnOk result
            (string_bytes out.new ≡ string_bytes out.old ++ text (Self.plain self.now)) };
}

impl Show for u8 {
    ghost text = { number_text };

    fn show(&self, alloc: Global, out: &mut String) -> Result<(), AllocError> {
        u32::from(*self).show(alloc, out)
    }
}

impl Show for u16 {
    ghost text = { number_text };

    fn show(&self, alloc: Global, out: &mut String) -> Result<(), AllocError> {
        u32::from(*self).show(alloc, out)
    }
}

impl Show for u32 {
    ghost text = { number_text };

    fn show(&self, _alloc: Global, out: &mut String) -> Result<(), AllocError> {
        write!(out, "{self}")
    }
}

impl Show for TlsVarInt {
    ghost text = { number_text };

    fn show(&self, _alloc: Global, out: &mut String) -> Result<(), AllocError> {
        write!(out, "{}", self.value())
    }
}

impl<T: Show> Show for Option<T> {
    ghost text = { option_text T.text };

    fn show(&self, alloc: Global, out: &mut String) -> Result<(), AllocError> {
        match self {
            None => out.push_str("none"),
            Some(payload) => {
                out.push_str("some ")?;
                payload.show(alloc, out)
            }
        }
    }
}

impl<T: Show, U: Show, V: Show> Show for (T, U, V) {
    ghost text = { triple_text T.text U.text V.text };

    fn show(&self, alloc: Global, out: &mut String) -> Result<(), AllocError> {
        push_triple(alloc, out, &self.0, &self.1, &self.2)
    }
}

impl<T: Show> Show for Vec<T> {
    ghost text = { list_text T.text };

    fn show(&self, alloc: Global, out: &mut String) -> Result<(), AllocError> {
        push_list(alloc, out, self.as_slice())
    }
}

impl<F: LengthField, T: Show> Show for TlsVec<F, T> {
    ghost text = { list_text T.text };

    fn show(&self, alloc: Global, out: &mut String) -> Result<(), AllocError> {
        push_list(alloc, out, self.as_slice())
    }
}

/// Its UTF-8 is shown.
impl Show for String {
    ghost text = { bytes_text };

    fn show(&self, alloc: Global, out: &mut String) -> Result<(), AllocError> {
        push_hex(alloc, out, self.as_bytes())
    }
}

impl Show for VLBytes {
    ghost text = { bytes_text };

    fn show(&self, alloc: Global, out: &mut String) -> Result<(), AllocError> {
        push_hex(alloc, out, self.as_slice())
    }
}

impl<F: LengthField> Show for TlsByteVec<F> {
    ghost text = { bytes_text };

    fn show(&self, alloc: Global, out: &mut String) -> Result<(), AllocError> {
        push_hex(alloc, out, self.as_slice())
    }
}

impl Show for Leaf {
    ghost text = { leaf_text };

    fn show(&self, alloc: Global, out: &mut String) -> Result<(), AllocError> {
        out.push('(')?;
        self.code.show(alloc, out)?;
        out.push(',')?;
        self.name.show(alloc, out)?;
        out.push(')')
    }
}

impl Show for Step {
    ghost text = { step_text };

    fn show(&self, alloc: Global, out: &mut String) -> Result<(), AllocError> {
        match self {
            Step::Ping => out.push_str("ping"),
            Step::Note(text) => {
                out.push_str("note ")?;
                text.show(alloc, out)
            }
            Step::Jump(to) => {
                out.push_str("jump ")?;
                to.show(alloc, out)
            }
        }
    }
}

impl Show for Log {
    ghost text = { log_text };

    fn show(&self, alloc: Global, out: &mut String) -> Result<(), AllocError> {
        push_triple(alloc, out, &self.id, &self.leaves, &self.last)
    }
}

// Appends the texts of three parts, with commas between them, in parentheses.
fn push_triple<T: Show, U: Show, V: Show>(
    alloc: Global,
    out: &mut String,
    first: &T,
    second: &U,
    third: &V,
) -> Result<(), AllocError>
    ensures { OnOk result
        (string_bytes out.new
        ≡ string_bytes out.old
        ++ triple_text T.text U.text V.text
        (Join (T.plain first.now)
        (Join (U.plain second.now) (Join (V.plain third.now) Empty)))) }
{
    out.push('(')?;
    first.show(alloc, out)?;
    out.push(',')?;
    second.show(alloc, out)?;
    out.push(',')?;
    third.show(alloc, out)?;
    out.push(')')
}

// Appends the text of a list.
fn push_list<T: Show>(alloc: Global, out: &mut String, elements: &[T]) -> Result<(), AllocError>
    ensures { OnOk result
        (string_bytes out.new
        ≡ string_bytes out.old
        ++ list_text T.text (trees T.plain elements.now)) }
{
    out.push('[')?;
    push_elements(alloc, out, elements)?;
    out.push(']')
}

// Appends the texts of some elements, with commas between them.
fn push_elements<T: Show>(alloc: Global, out: &mut String, elements: &[T]) -> Result<(), AllocError>
    ensures { OnOk result
        (string_bytes out.new
        ≡ string_bytes out.old
        ++ elements_text T.text (trees T.plain elements.now)) }
{
    let Some((first, others)) = elements.split_first() else {
        return Ok(());
    };
    first.show(alloc, out)?;
    for element in others {
        out.push(',')?;
        element.show(alloc, out)?;
    }
    Ok(())
}

/// Appends the hex of some bytes, and `-` for none.
#[tactic(auto, using(crate::proofs::Bytes::numbers_again))]
pub fn push_hex(alloc: Global, out: &mut String, bytes: &[u8]) -> Result<(), AllocError>
    ensures hex { OnOk result
        (string_bytes out.new ≡ string_bytes out.old ++ hex_or_dash bytes.now) }

    // These are the texts of values that are bytes.
    ensures text { OnOk result
        (string_bytes out.new ≡ string_bytes out.old ++ bytes_text (number_trees bytes.now)) }
{
    if bytes.is_empty() {
        return out.push_str("-");
    }
    let digits = hex::encode(alloc, bytes)?;
    out.push_str(digits.as_str())
}
