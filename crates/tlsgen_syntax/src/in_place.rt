//! Types in place, as definitions of their own.
//!
//! `struct { enum { a(1), (255) } kind; } Outer;` says what `enum { a(1), (255) } OuterKind;
//! struct { OuterKind kind; } Outer;` does.
ghost use Rattle.std.specs.Prelude.{◌≡◌, ◌∷◌, ◌++◌, List, IfOk, OnOk, string_bytes, true};
ghost use Rattle.std.specs.Str.{chars, encode_utf8_all};
ghost use Rattle.tlsgen_syntax.specs.Apart.{apart_type_then, in_capitals, type_word};
ghost use Rattle.tlsgen_syntax.specs.Signs.{Sign, field_then, item_then, mark, name_then, vector_then, word};

use crate::source::TypeInPlace;
use crate::syntax::{Field, Item, Name, Remark, Struct, Vector};
use crate::token::Mark;
use crate::values::enumeration;
use std::alloc::{AllocError, Global};

/// The name of a field's type, at the field's place: `OuterInner` for a field `inner` of `Outer`.
pub(crate) fn type_name(alloc: Global, outer: &Name, field: &Name) -> Result<Name, AllocError>
    ensures { IfOk result (λ name. string_bytes name.text ≡ type_word outer.now field.now) }
{
    let mut text = String::from_str(alloc, outer.text.as_str())?;
    push_in_capitals(&mut text, field.text.as_str())?;
    Ok(Name {
        text,
        place: field.place,
        remark: Remark {
            section: outer.remark.section.clone()?,
            text: String::new(alloc),
        },
    })
}

// Appends each word between low lines with a capital first.
fn push_in_capitals(out: &mut String, words: &str) -> Result<(), AllocError>
    ensures { OnOk result (string_bytes out.new ≡
        string_bytes out.old ++ encode_utf8_all (in_capitals true (chars words.now))) }
{
    let mut begins = true;
    for c in words.chars() {
        if c == '_' {
            begins = true;
        } else {
            out.push(if begins { c.to_ascii_uppercase() } else { c })?;
            begins = false;
        }
    }
    Ok(())
}

/// The definition of a type in place.
pub(crate) fn definition(alloc: Global, of: TypeInPlace, name: Name) -> Result<Item, AllocError>
    ensures { IfOk result (λ item. (rest : List Sign) → item_then item rest ≡
        apart_type_then of (string_bytes name.text) rest) }
{
    match of {
        TypeInPlace::Enum(numbers) => Ok(Item::Enum(enumeration(alloc, numbers, name)?)),
        TypeInPlace::Struct(parts) => Ok(Item::Struct(Struct {
            is_borrowed: false,
            parts,
            name,
        })),
    }
}

/// A field of a type that is called so.
pub(crate) fn field_of(of: Name, name: Name, vector: Vector) -> Field
    ensures { (rest : List Sign) → field_then result rest ≡
        word (string_bytes of.text)
        ∷ name_then name (vector_then vector (mark Mark.Semicolon ∷ rest)) }
{
    Field {
        is_optional: false,
        of,
        name,
        is_named: true,
        vector,
        constant: None,
    }
}
