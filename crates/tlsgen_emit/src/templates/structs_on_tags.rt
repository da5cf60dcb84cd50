//! A struct with fields that depend on tags of an earlier field, which is or holds them. After the
//! fields before it, that field is read and written, and then the fields that it decides.

use super::{Templates, structs};

/// The holes of some of the fields: how they are read and borrowed, and their definitions.
pub struct FieldHoles {
    pub types: &'static str,
    pub borrowed_types: &'static str,
    pub borrowed: &'static str,
    pub plain: &'static str,
    pub format: &'static str,
    pub law: &'static str,
    /// The lines that take them of a tuple, which the variable has.
    pub lets: &'static str,
    pub tuple: &'static str,
    /// What their format and its law are functions of.
    pub binds: &'static str,
}

/// The templates.
pub fn templates() -> Templates {
    Templates {
        ghost_uses: structs::GHOST_USES,
        code: CODE,
        decoders: DECODERS,
        validator: VALIDATOR,
        law: structs::LAW,
        specs: SPECS,
        texts: &structs::TEXTS,
    }
}

/// The fields before the one that decides others.
pub static BEFORE: FieldHoles = FieldHoles {
    types: "before_types",
    borrowed_types: "before_borrowed_types",
    borrowed: "before_borrowed",
    plain: "before_plain",
    format: "before_format",
    law: "before_law",
    lets: "before_lets",
    tuple: "parts",
    binds: "",
};

/// The field that decides others.
pub static GIVER: FieldHoles = FieldHoles {
    types: "giver_type",
    borrowed_types: "giver_borrowed_type",
    borrowed: "giver_borrowed",
    plain: "giver_plain",
    format: "giver_format",
    law: "giver_law",
    lets: "giver_lets",
    tuple: "first",
    binds: "",
};

/// The fields after it.
pub static AFTER: FieldHoles = FieldHoles {
    types: "after_types",
    borrowed_types: "after_borrowed_types",
    borrowed: "after_borrowed",
    plain: "after_plain",
    format: "after_format",
    law: "after_law",
    lets: "after_lets",
    tuple: "rest",
    binds: "λ c. ",
};

/// The texts for a struct whose first field decides others.
pub static FIRST: [(&str, &str); 7] = [
    ("then_types", "Then<$giver_type$, $after_types$>"),
    (
        "then_borrowed_types",
        "ByRefThen<'a, $giver_rust$, $after_borrowed_types$>",
    ),
    ("then_borrowed", "ByRefThen { first, rest }"),
    (
        "then_lets",
        "        let Then { first: $giver$, rest } = parts;\n",
    ),
    ("then_plain", "Join\n    $giver_plain$\n    $after_plain$"),
    (
        "then_format",
        "then_format\n    $giver_format$\n    $after_format$",
    ),
    ("then_law", "then_meets\n    $giver_law$\n    $after_law$"),
];

/// Of one that has fields before it.
pub static LATER: [(&str, &str); 7] = [
    (
        "then_types",
        "($before_types$, Then<$giver_type$, $after_types$>)",
    ),
    (
        "then_borrowed_types",
        "($before_borrowed_types$, ByRefThen<'a, $giver_rust$, $after_borrowed_types$>)",
    ),
    (
        "then_borrowed",
        "($before_borrowed$, ByRefThen { first, rest })",
    ),
    (
        "then_lets",
        "        let (parts, rest) = parts;
$before_lets$        let Then { first: $giver$, rest } = rest;
",
    ),
    (
        "then_plain",
        "pair_tree\n    $before_plain$\n    (Join $giver_plain$ $after_plain$)",
    ),
    (
        "then_format",
        "pair_format\n    $before_format$\n    (then_format $giver_format$ $after_format$)",
    ),
    (
        "then_law",
        "pair_meets\n    $before_law$\n    (then_meets $giver_law$ $after_law$)",
    ),
];

/// What one that owns its fields is read as.
pub static OWNED: [(&str, &str); 1] = [("read_parts", "type Parts = $then_types$;\n\n")];

/// One that is borrowed is only written.
pub static BORROWED: [(&str, &str); 1] = [("read_parts", "")];

const CODE: &str = "$doc$$borrowed_doc$#[derive($derives$)]
pub struct $name$$lifetime$ {
$declared$}

$read_parts$type ByRefParts<'a> = $then_borrowed_types$;

impl $name$$any$ {
    fn parts(&self) -> ByRefParts<'_>
        ensures { ⟦<ByRefParts<'static> as Size>⟧.plain result ≡ $module$_plain self.now }
    {
        let first = $giver_own$;
        let rest = $after_borrowed$;
        $then_borrowed$
    }
}

impl Size for $name$$any$ {
    ghost plain = { $module$_plain };

    ghost format = { $module$_format };

    fn tls_serialized_len(&self) -> usize {
        self.parts().tls_serialized_len()
    }

    ghost lawful = { $module$_meets };
}

/// `EncodingError(\"value does not fit its context\")`: a field's case is for another tag.
impl Serialize for $name$$any$ {
    fn tls_serialize<W: Sink>(&self, writer: &mut W) -> Result<usize, Error> {
        write_as(self, &self.parts(), writer)
    }

    fn tls_serialize_into(&self, out: &mut Vec<u8>) -> Result<usize, Error> {
        append_as(self, &self.parts(), out)
    }
}
";

const DECODERS: &str = "
impl Deserialize for $name$ {
    ghost names = { ⟦<Parts as Deserialize>⟧.names };

    fn tls_deserialize<R: Source>(alloc: Global, src: &mut R) -> Result<$name$, Error> {
        let parts = <Parts>::tls_deserialize(alloc, src)?;
$then_lets$$after_lets$        Ok($name$ { $fields$ })
    }
}

impl DeserializeBytes for $name$ {
    ghost names = { ⟦<Parts as DeserializeBytes>⟧.names };

    fn tls_deserialize_bytes(alloc: Global, whole: &[u8]) -> Result<($name$, &[u8]), Error> {
        let (parts, left) = <Parts>::tls_deserialize_bytes(alloc, whole)?;
$then_lets$$after_lets$        Ok(($name$ { $fields$ }, left))
    }
}
";

const VALIDATOR: &str = "
impl Validate for $name$ {
    ghost places = { ⟦<Parts as Validate>⟧.places };

    fn tls_validate_prefix(whole: &[u8]) -> Result<&[u8], Rejected<'_>> {
        <Parts>::tls_validate_prefix(whole)
    }
}

impl Parted for $name$ {
    type Parts = Parts;

    ghost as_parts = { λ bytes is. is };
}
";

const SPECS: &str = "abbrev pub $module$_plain : $name$ → Tree
$module$_plain v =
    $then_plain$

abbrev pub $module$_format : Format
$module$_format =
    $then_format$

pub $module$_meets : MeetsLaws $module$_format
$module$_meets =
    $then_law$
";
