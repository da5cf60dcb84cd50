//! A tag and what comes after each: an enum, which is written as its tag and the variant's borrowed groups, and read as
//! the tag and then the tuple of the variant's fields. A borrowed one is only written.

use super::Templates;
use super::contents::CONTENTS;
use crate::lines::Lines;

/// The templates.
pub fn templates() -> Templates {
    Templates {
        ghost_uses: GHOST_USES,
        code: CODE,
        decoders: DECODERS,
        validator: VALIDATOR,
        law: LAW,
        specs: SPECS,
        texts: &TEXTS,
    }
}

const GHOST_USES: &str =
    "$tag_use$$names_use$ghost use Rattle.$crate$.specs.$name$.{$module$_format, $module$_meets, $module$_plain, $module$_tag$variants_taken$};
ghost use Rattle.$crate$.specs.declared.$module$.$name$.{$name$};
$view_use$";

/// What the decoders of one that isn't borrowed take of the codec.
pub static NAMES_USE: &str =
    "ghost use Rattle.tls_codec.specs.OwnMessages.{no_variant_names, no_variant_source_names, $nothing$tagged_names, tagged_source_names, variant_names, variant_source_names};
ghost use Rattle.tls_codec_validate.specs.TaggedPlaces.{no_variant_places, $nothing_placed$tagged_places, variant_places};
";

/// What is brought in for a case without fields.
pub static NOTHING: [(&str, &str); 2] = [
    ("nothing", "nothing_names, nothing_source_names, "),
    ("nothing_placed", "nothing_places, "),
];

/// Each has fields.
pub static SOMETHING: [(&str, &str); 2] = [("nothing", ""), ("nothing_placed", "")];

static TEXTS: [Lines; 20] = [
    Lines {
        hole: "constants",
        before: "",
        each: "const $constant$: u$bits$ = $number$;\n\n",
        bare: None,
        one: None,
        after: "",
        alone: None,
    },
    VARIANTS,
    Lines {
        hole: "counts",
        before: "        match $matched$ {\n",
        each: "            $name$::$variant$ { $fields$ } => ($constant$, $borrowed$).tls_serialized_len(),\n",
        bare: Some("            $name$::$variant$ => $width$,\n"),
        one: Some(
            "            $name$::$variant$($fields$) => ($constant$, $borrowed$).tls_serialized_len(),\n",
        ),
        after: "        }\n",
        alone: Some("        $width$\n"),
    },
    Lines {
        hole: "writes",
        before: "        match $matched$ {\n",
        each: "            $name$::$variant$ { $fields$ } => ($constant$, $borrowed$).tls_serialize(writer),\n",
        bare: Some("            $name$::$variant$ => $constant$.tls_serialize(writer),\n"),
        one: Some(
            "            $name$::$variant$($fields$) => ($constant$, $borrowed$).tls_serialize(writer),\n",
        ),
        after: "        }\n",
        alone: Some("        $constant$.tls_serialize(writer)\n"),
    },
    Lines {
        hole: "appends",
        before: "        match $matched$ {\n",
        each: "            $name$::$variant$ { $fields$ } => ($constant$, $borrowed$).tls_serialize_into(out),\n",
        bare: Some("            $name$::$variant$ => $constant$.tls_serialize_into(out),\n"),
        one: Some(
            "            $name$::$variant$($fields$) => ($constant$, $borrowed$).tls_serialize_into(out),\n",
        ),
        after: "        }\n",
        alone: Some("        $constant$.tls_serialize_into(out)\n"),
    },
    Lines {
        hole: "source_names",
        before: "",
        each: "        (variant_source_names $number$ ⟦<$types$ as Deserialize>⟧.names\n",
        bare: Some("        (variant_source_names $number$ nothing_source_names\n"),
        one: None,
        after: "        no_variant_source_names",
        alone: None,
    },
    Lines {
        hole: "slice_names",
        before: "",
        each: "        (variant_names $number$ ⟦<$types$ as DeserializeBytes>⟧.names\n",
        bare: Some("        (variant_names $number$ nothing_names\n"),
        one: None,
        after: "        no_variant_names",
        alone: None,
    },
    Lines {
        hole: "reads",
        before: "",
        each: "            $constant$ => {
                let $pattern$ = $path$::tls_deserialize(alloc, src)?;
                Ok($name$::$variant$ { $fields$ })
            }
",
        bare: Some("            $constant$ => Ok($name$::$variant$),\n"),
        one: Some(
            "            $constant$ => {
                let $pattern$ = $path$::tls_deserialize(alloc, src)?;
                Ok($name$::$variant$($fields$))
            }
",
        ),
        after: "",
        alone: None,
    },
    Lines {
        hole: "splits",
        before: "",
        each: "            $constant$ => {
                let ($pattern$, rest) = $path$::tls_deserialize_bytes(alloc, rest)?;
                Ok(($name$::$variant$ { $fields$ }, rest))
            }
",
        bare: Some("            $constant$ => Ok(($name$::$variant$, rest)),\n"),
        one: Some(
            "            $constant$ => {
                let ($pattern$, rest) = $path$::tls_deserialize_bytes(alloc, rest)?;
                Ok(($name$::$variant$($fields$), rest))
            }
",
        ),
        after: "",
        alone: None,
    },
    Lines {
        hole: "placed",
        before: "",
        each: "        (variant_places $number$ ⟦<$types$ as Validate>⟧.places\n",
        bare: Some("        (variant_places $number$ nothing_places\n"),
        one: None,
        after: "        no_variant_places",
        alone: None,
    },
    Lines {
        hole: "validates",
        before: "",
        each: "            $constant$ => {
                let behind = $path$::tls_validate_prefix(rest)?;
                Ok(behind)
            }
",
        bare: Some("            $constant$ => Ok(rest),\n"),
        one: None,
        after: "",
        alone: None,
    },
    PLAINS,
    TAGS,
    CASES,
    Lines {
        hole: "formats",
        before: "",
        each: "    $open$variant $number$ $format$\n",
        bare: None,
        one: None,
        after: "    no_variant",
        alone: None,
    },
    Lines {
        hole: "laws",
        before: "",
        each: "    $open$variant_meets $number$ $law$\n",
        bare: None,
        one: None,
        after: "    no_variant_meets",
        alone: None,
    },
    VARIANTS_USE,
    Lines {
        hole: "closing",
        before: "",
        each: "$close$",
        bare: None,
        one: None,
        after: "",
        alone: None,
    },
    CONTENTS,
    DEFINED,
];

/// The cases of the enum.
pub const VARIANTS: Lines = Lines {
    hole: "variants",
    before: "",
    each: "    /// `case $label$:`
    $variant$ {
$declared$    },
",
    bare: Some("    /// `case $label$:`\n    $variant$,\n"),
    one: Some("    /// `case $label$: $stated$`\n$comment$    $variant$($types$),\n"),
    after: "",
    alone: None,
};

/// What each stands for.
pub const PLAINS: Lines = Lines {
    hole: "plains",
    before: "",
    each: "$module$_plain $value$ = Join (Number $number$) $plain$\n",
    bare: None,
    one: None,
    after: "",
    alone: Some("$module$_plain v = Join (Number $number$) Empty\n"),
};

/// The tag of each.
pub const TAGS: Lines = Lines {
    hole: "tags",
    before: "",
    each: "$module$_tag $value$ = $number$\n",
    bare: None,
    one: None,
    after: "",
    alone: Some("$module$_tag v = $number$\n"),
};

/// Where two of one case are equal.
pub const CASES: Lines = Lines {
    hole: "cases",
    before: "",
    each: "    ensures case_$number$ { ($lefts$ $rights$ : _) →
        ⟦<$name$$static$ as PartialEq>⟧.eq ($name$.$variant$ $lefts$) ($name$.$variant$ $rights$)
        ≡ $alike$ }
",
    bare: Some(
        "    ensures case_$number$ { ⟦<$name$$static$ as PartialEq>⟧.eq $name$.$variant$ $name$.$variant$ ≡ true }\n",
    ),
    one: None,
    after: "",
    alone: None,
};

/// The cases that the definitions bring in.
pub const VARIANTS_USE: Lines = Lines {
    hole: "variants_use",
    before: "use Rattle.$crate$.specs.declared.$module$.$name$.TheVariants.{",
    each: "$comma$$variant$",
    bare: None,
    one: None,
    after: "}\n",
    alone: Some(""),
};

/// The definitions of all but the format and its law.
pub const DEFINED: Lines = Lines {
    hole: "defined",
    before: PARTS,
    each: "",
    bare: None,
    one: None,
    after: "",
    alone: None,
};

const CODE: &str = "$constants$$doc$$borrowed_doc$#[derive($derives$)]
pub enum $name$$lifetime$ {
$variants$}

impl Size for $name$$any$ {
    ghost plain = { $module$_plain };

    ghost format = { $module$_format };

    fn tls_serialized_len(&self) -> usize {
$counts$    }

    ghost lawful = { $module$_meets };
}

impl Serialize for $name$$any$ {
    fn tls_serialize<W: Sink>(&self, writer: &mut W) -> Result<usize, Error> {
$writes$    }

    fn tls_serialize_into(&self, out: &mut Vec<u8>) -> Result<usize, Error> {
$appends$    }
}
";

const DECODERS: &str = "
impl Deserialize for $name$ {
    ghost names = { tagged_source_names $width$
$source_names$$closing$) };

    fn tls_deserialize<R: Source>(alloc: Global, src: &mut R) -> Result<$name$, Error> {
        let tag = u$bits$::tls_deserialize(alloc, src)?;
        match tag {
$reads$            _ => Err(unknown_value($u64$)),
        }
    }
}

impl DeserializeBytes for $name$ {
    ghost names = { tagged_names $width$
$slice_names$$closing$) };

    fn tls_deserialize_bytes(alloc: Global, whole: &[u8]) -> Result<($name$, &[u8]), Error> {
        let (tag, rest) = u$bits$::tls_deserialize_bytes(alloc, whole)?;
        match tag {
$splits$            _ => Err(unknown_value($u64$)),
        }
    }
}
";

const VALIDATOR: &str = "
impl Validate for $name$ {
    ghost places = { tagged_places $width$
$placed$$closing$) };

    fn tls_validate_prefix(whole: &[u8]) -> Result<&[u8], Rejected<'_>> {
        let (tag, rest) = split_u$bits$(whole)?;
        match tag {
$validates$            _ => Err(Rejected {
                error: unknown_value($u64$),
                rest: whole,
            }),
        }
    }
}
$view$";

pub const LAW: &str = "$tag_method$$from_contents$
/// Two values are equal if and only if they have the same case and all their fields are equal.
pub fn is_compared_by_its_case()
    ensures tag { (x y : $name$) →
        IsTrue (⟦<$name$$static$ as PartialEq>⟧.eq x y) → $module$_tag x ≡ $module$_tag y }
$cases${}
";

const PARTS: &str = "-- the tag of each case
abbrev pub $module$_tag : $name$ → ℕ
$tags$
abbrev pub $module$_plain : $name$ → Tree
$plains$
abbrev pub $module$_variants : Variants
$module$_variants =
$formats$$closing$

pub $module$_variants_meet : MeetsVariantLaws $module$_variants
$module$_variants_meet =
$laws$$closing$
";

pub const SPECS: &str = "$defined$
abbrev pub $module$_format : Format
$module$_format = tagged_format $width$ $module$_variants

pub $module$_meets : MeetsLaws $module$_format
$module$_meets = tagged_meets $width$ (omega arith) $module$_variants_meet
";
