//! What files define, by name.
ghost use Rattle.std.specs.Prelude.{IfSome, IsTrue};
ghost use Rattle.tlsgen_model.specs.Types.{is_integer_width};

use crate::scope::Scope;
use tlsgen_syntax::syntax::{Field, Item, Struct, Vector};

/// The most items of all files.
pub const MAX_ITEMS: usize = 100_000;

/// The item of this name, in whichever file it is.
pub fn find<'a>(scope: Scope<'a>, name: &str) -> Option<&'a Item> {
    scope.find(name)
}

/// The struct of this name.
pub fn find_struct<'a>(scope: Scope<'a>, name: &str) -> Option<&'a Struct> {
    match find(scope, name) {
        Some(Item::Struct(one)) => Some(one),
        _ => None,
    }
}

/// Whether a field is one of its type: no vector, and no option.
pub fn is_single(field: &Field) -> bool {
    !field.is_optional && matches!(field.vector, Vector::One)
}

/// Whether a field is a byte, or has bytes in its vector.
pub fn has_bytes(field: &Field) -> bool {
    let of = field.of.text.as_str();
    !field.is_optional && (of == "opaque" || integer_width(of) == Some(1))
}

/// How many bytes an integer of this name has.
pub fn integer_width(name: &str) -> Option<usize>
    ensures { IfSome result (λ width. IsTrue (is_integer_width width)) }
{
    match name {
        "uint8" | "uint8_t" => Some(1),
        "uint16" | "uint16_t" => Some(2),
        "uint24" | "uint24_t" => Some(3),
        "uint32" | "uint32_t" => Some(4),
        "uint64" | "uint64_t" => Some(8),
        _ => None,
    }
}
