//! A struct: it is written as the tuple of its borrowed groups, and read as the tuple of its fields. A borrowed one is only
//! written.

use super::Templates;
use crate::lines::Lines;

/// The templates.
pub fn templates() -> Templates {
    Templates {
        ghost_uses: GHOST_USES,
        code: CODE,
        decoders: DECODERS,
        validator: VALIDATOR,
        law: LAW,
        specs: SPECS,
        texts: &TEXTS,
    }
}

/// No variants are brought in.
pub static TEXTS: [Lines; 1] = [Lines {
    hole: "variants_use",
    before: "",
    each: "",
    bare: None,
    one: None,
    after: "",
    alone: None,
}];

pub const GHOST_USES: &str =
    "ghost use Rattle.$crate$.specs.$name$.{$module$_format, $module$_meets, $module$_plain};
ghost use Rattle.$crate$.specs.declared.$module$.$name$.{$name$};
";

/// How many columns the type of a field that is alone has at most, if it has no other name.
pub const LONG: usize = 40;

/// What a struct is read as: a tuple that has a name.
pub static IN_PARTS: [(&str, &str); 3] = [
    ("read_parts", "type Parts = $types$;\n\n"),
    ("read", "Parts"),
    ("read_path", "<Parts>"),
];

/// One of a single field: that field, or nothing.
pub static ALONE: [(&str, &str); 3] = [
    ("read_parts", ""),
    ("read", "$types$"),
    ("read_path", "$path$"),
];

/// One that is borrowed is only written.
pub static BORROWED: [(&str, &str); 3] = [("read_parts", ""), ("read", ""), ("read_path", "")];

const CODE: &str = "$doc$$borrowed_doc$#[derive($derives$)]
pub struct $name$$lifetime$ {
$declared$}

$read_parts$impl Size for $name$$any$ {
    ghost plain = { $module$_plain };

    ghost format = { $module$_format };

    fn tls_serialized_len(&self) -> usize {
        $borrowed$.tls_serialized_len()
    }

    ghost lawful = { $module$_meets };
}

impl Serialize for $name$$any$ {
    fn tls_serialize<W: Sink>(&self, writer: &mut W) -> Result<usize, Error> {
        $borrowed$.tls_serialize(writer)
    }

    fn tls_serialize_into(&self, out: &mut Vec<u8>) -> Result<usize, Error> {
        append_as(self, &$borrowed$, out)
    }
}
";

const DECODERS: &str = "
impl Deserialize for $name$ {
    ghost names = { ⟦<$read$ as Deserialize>⟧.names };

    fn tls_deserialize<R: Source>(alloc: Global, src: &mut R) -> Result<$name$, Error> {
        let $pattern$ = $read_path$::tls_deserialize(alloc, src)?;
        Ok($name$ { $fields$ })
    }
}

impl DeserializeBytes for $name$ {
    ghost names = { ⟦<$read$ as DeserializeBytes>⟧.names };

    fn tls_deserialize_bytes(alloc: Global, whole: &[u8]) -> Result<($name$, &[u8]), Error> {
        let ($split$, rest) = $read_path$::tls_deserialize_bytes(alloc, whole)?;
$apart$        Ok(($name$ { $fields$ }, rest))
    }
}
";

const VALIDATOR: &str = "
impl Validate for $name$ {
    ghost places = { ⟦<$read$ as Validate>⟧.places };

    fn tls_validate_prefix(whole: &[u8]) -> Result<&[u8], Rejected<'_>> {
        $read_path$::tls_validate_prefix(whole)
    }

    fn tls_width() -> Option<usize> {
        $read_path$::tls_width()
    }
}
$view$";

pub const LAW: &str = "$from_whole$
/// Two values are equal if and only if all their fields are equal.
pub fn is_compared_by_its_fields()
    ensures { (x y : $name$) →
        ⟦<$name$$static$ as PartialEq>⟧.eq x y
        ≡ $alike$ }
{}
";

const SPECS: &str = "abbrev pub $module$_plain : $name$ → Tree
$module$_plain v =$gap$$plain$

abbrev pub $module$_format : Format
$module$_format =$gap$$format$

pub $module$_meets : MeetsLaws $module$_format
$module$_meets =$gap$$law$
";
