//! What comes after each number of a tag, as a value of a generic sum: after the tag and a length,
//! or in the context of the tag. To be written, a value is borrowed as its case. A value that is
//! read is made from the case that was read.

use super::contents::CONTENTS;
use super::{Templates, choices};
use crate::lines::Lines;

/// Holes, and what stands for each.
pub type Wrapping = &'static [(&'static str, &'static str)];

/// The templates of a tag and a length.
pub fn tagged() -> Templates {
    Templates {
        ghost_uses: TAGGED_GHOST_USES,
        code: TAGGED_CODE,
        decoders: TAGGED_DECODERS,
        validator: TAGGED_VALIDATOR,
        law: choices::LAW,
        specs: choices::SPECS,
        texts: &TEXTS,
    }
}

/// The templates of a select, whose tag is the context.
pub fn chosen() -> Templates {
    Templates {
        ghost_uses: CHOSEN_GHOST_USES,
        code: CHOSEN_CODE,
        decoders: CHOSEN_DECODERS,
        validator: CHOSEN_VALIDATOR,
        law: choices::LAW,
        specs: CHOSEN_SPECS,
        texts: &TEXTS,
    }
}

/// A case in a length, which it fills.
pub static ENCLOSED: [(&str, &str); 7] = [
    ("after_tag", "Enclosed<$field$, $types$>"),
    ("case", "Case<$number$, Enclosed<$field$, $types$>>"),
    (
        "borrowed_case",
        "Case<$number$, Enclosed<$field$, $borrowed_types$>>",
    ),
    ("made", "Case(Enclosed($borrowed$, PhantomData))"),
    ("taken", "case.0.0"),
    (
        "case_format",
        "variant $number$ (fixed_enclosed_format $length$ $format$) no_variant",
    ),
    (
        "case_law",
        "variant_meets $number$ (fixed_enclosed_meets $length$ (omega arith) $law$) no_variant_meets",
    ),
];

/// A case alone.
pub static ALONE: [(&str, &str); 7] = [
    ("after_tag", "$types$"),
    ("case", "Case<$number$, $types$>"),
    ("borrowed_case", "Case<$number$, $borrowed_types$>"),
    ("made", "Case($borrowed$)"),
    ("taken", "case.0"),
    ("case_format", "variant $number$ $format$ no_variant"),
    ("case_law", "variant_meets $number$ $law$ no_variant_meets"),
];

/// A sum after its tag.
pub static TAGGED: [(&str, &str); 4] = [
    ("of_all", "Tagged<u$bits$, $sum$>"),
    ("borrowed_of_all", "Tagged<u$bits$, $borrowed_sum$>"),
    ("wrapped", "Tagged(cases, PhantomData)"),
    ("sized", "Size"),
];

/// A sum in the context of its tag.
pub static CHOSEN: [(&str, &str); 4] = [
    ("of_all", "Chosen<$sum$>"),
    ("borrowed_of_all", "Chosen<$borrowed_sum$>"),
    ("wrapped", "Chosen(cases)"),
    ("sized", "SizeFor<$key$>"),
];

/// How a value of cases with fields is borrowed.
pub static BORROWED: [(&str, &str); 3] = [
    (
        "borrowed_alias",
        "type ByRefCases<'a> = $borrowed_of_all$;\n\n",
    ),
    ("borrowed_any", "ByRefCases<'_>"),
    ("borrowed_static", "ByRefCases<'static>"),
];

/// No case has fields: nothing is borrowed.
pub static OWNED: [(&str, &str); 3] = [
    ("borrowed_alias", ""),
    ("borrowed_any", "Cases"),
    ("borrowed_static", "Cases"),
];

static TEXTS: [Lines; 10] = [
    choices::VARIANTS,
    choices::PLAINS,
    choices::TAGS,
    choices::CASES,
    choices::VARIANTS_USE,
    CONTENTS,
    choices::DEFINED,
    Lines {
        hole: "lends",
        before: "        let cases = match self {\n",
        each: "            $name$::$variant$ { $fields$ } => $side$$made$$ends$,\n",
        bare: Some("            $name$::$variant$ => $side$$made$$ends$,\n"),
        one: Some("            $name$::$variant$($fields$) => $side$$made$$ends$,\n"),
        after: "        };\n",
        alone: Some("        let cases = $made$;\n"),
    },
    Lines {
        hole: "takes",
        before: "        match cases.0 {\n",
        each: "            $side$case$ends$ => {
                let parts = $taken$;
$lets$                $name$::$variant$ { $fields$ }
            }
",
        bare: Some("            $side$_$ends$ => $name$::$variant$,\n"),
        one: Some("            $side$case$ends$ => $name$::$variant$($taken$),\n"),
        after: "        }\n",
        alone: None,
    },
    Lines {
        hole: "enum",
        before: ENUM,
        each: "",
        bare: None,
        one: None,
        after: "",
        alone: None,
    },
];

const ENUM: &str = "$doc$#[derive($derives$)]
pub enum $name$ {
$variants$}

type Cases = $of_all$;

$borrowed_alias$impl $name$ {
    fn cases(&self) -> $borrowed_any$
        ensures { ⟦<$borrowed_static$ as $sized$>⟧.plain result
            ≡ $module$_plain self.now }
    {
$lends$        $wrapped$
    }

    fn of(cases: Cases) -> $name$
        ensures { $module$_plain result ≡ ⟦<Cases as $sized$>⟧.plain cases }
    {
$takes$    }
}
";

const TAGGED_GHOST_USES: &str =
    "$tag_use$ghost use Rattle.$crate$.specs.$name$.{$module$_format, $module$_meets, $module$_plain, $module$_tag$variants_taken$};
ghost use Rattle.$crate$.specs.declared.$module$.$name$.{$name$};
$view_use$";

const TAGGED_CODE: &str = "$enum$
impl Size for $name$ {
    ghost plain = { $module$_plain };

    ghost format = { $module$_format };

    fn tls_serialized_len(&self) -> usize {
        self.cases().tls_serialized_len()
    }

    ghost lawful = { $module$_meets };
}

impl Serialize for $name$ {
    fn tls_serialize<W: Sink>(&self, writer: &mut W) -> Result<usize, Error> {
        write_as(self, &self.cases(), writer)
    }

    fn tls_serialize_into(&self, out: &mut Vec<u8>) -> Result<usize, Error> {
        append_as(self, &self.cases(), out)
    }
}
";

const TAGGED_DECODERS: &str = "
impl Deserialize for $name$ {
    ghost names = { ⟦<Cases as Deserialize>⟧.names };

    /// `TrailingData`: bytes are left within the length, after the fields of the case.
    /// `UnknownValue`: no case has the tag.
    fn tls_deserialize<R: Source>(alloc: Global, src: &mut R) -> Result<$name$, Error> {
        let cases = <Cases>::tls_deserialize(alloc, src)?;
        Ok($name$::of(cases))
    }
}

impl DeserializeBytes for $name$ {
    ghost names = { ⟦<Cases as DeserializeBytes>⟧.names };

    /// `TrailingData`: bytes are left within the length, after the fields of the case.
    /// `UnknownValue`: no case has the tag.
    fn tls_deserialize_bytes(alloc: Global, whole: &[u8]) -> Result<($name$, &[u8]), Error> {
        let (cases, rest) = <Cases>::tls_deserialize_bytes(alloc, whole)?;
        Ok(($name$::of(cases), rest))
    }
}
";

const TAGGED_VALIDATOR: &str = "
impl Validate for $name$ {
    ghost places = { ⟦<Cases as Validate>⟧.places };

    fn tls_validate_prefix(whole: &[u8]) -> Result<&[u8], Rejected<'_>> {
        <Cases>::tls_validate_prefix(whole)
    }
}
$view$";

const CHOSEN_GHOST_USES: &str =
    "ghost use Rattle.$crate$.specs.$name$.{$module$_format_for, $module$_meets_for, $module$_plain, $module$_tag$variants_taken$};
ghost use Rattle.$crate$.specs.declared.$module$.$name$.{$name$};
";

const CHOSEN_CODE: &str = "$enum$
impl SizeFor<$key$> for $name$ {
    ghost plain = { $module$_plain };

    ghost format_for = { $module$_format_for };

    fn tls_serialized_len_for(&self, $by$: &$key$) -> usize {
        self.cases().tls_serialized_len_for($by$)
    }

    ghost lawful = { $module$_meets_for };
}

/// `EncodingError(\"value does not fit its context\")`: the value's case is for another tag.
impl SerializeFor<$key$> for $name$ {
    fn tls_serialize_for<W: Sink>(&self, $by$: &$key$, writer: &mut W) -> Result<usize, Error> {
        write_as_for(self, &self.cases(), $by$, writer)
    }

    fn tls_serialize_into_for(&self, $by$: &$key$, out: &mut Vec<u8>) -> Result<usize, Error> {
        append_as_for(self, &self.cases(), $by$, out)
    }
}
";

const CHOSEN_DECODERS: &str = "
impl DeserializeFor<$key$> for $name$ {
    ghost names = { ⟦<Cases as DeserializeFor<$key$>>⟧.names };

    /// `UnknownValue`: no case has the context's tag.
    fn tls_deserialize_for<R: Source>($by$: &$key$, alloc: Global, src: &mut R) -> Result<$name$, Error> {
        let cases = <Cases>::tls_deserialize_for($by$, alloc, src)?;
        Ok($name$::of(cases))
    }
}

impl DeserializeBytesFor<$key$> for $name$ {
    ghost names = { ⟦<Cases as DeserializeBytesFor<$key$>>⟧.names };

    /// `UnknownValue`: no case has the context's tag.
    fn tls_deserialize_bytes_for<'a>($by$: &$key$, alloc: Global, whole: &'a [u8]) -> Result<($name$, &'a [u8]), Error> {
        let (cases, rest) = <Cases>::tls_deserialize_bytes_for($by$, alloc, whole)?;
        Ok(($name$::of(cases), rest))
    }
}
";

const CHOSEN_VALIDATOR: &str = "
impl ValidateFor<$key$> for $name$ {
    ghost places = { ⟦<Cases as ValidateFor<$key$>>⟧.places };

    fn tls_validate_prefix_for<'a>(key: &u64, whole: &'a [u8]) -> Result<&'a [u8], Rejected<'a>> {
        <Cases as ValidateFor<$key$>>::tls_validate_prefix_for(key, whole)
    }
}

impl ChoiceFor<$key$> for $name$ {
    ghost variants = { $module$_variants };

    ghost as_choice = { λ c bytes is. is };
}
";

const CHOSEN_SPECS: &str = "$defined$
abbrev pub $module$_format_for : Tree → Format
$module$_format_for c = chosen_format ($selected$ c) $module$_variants

pub $module$_meets_for : EachMeetsLaws $module$_format_for
$module$_meets_for c = chosen_meets ($selected$ c) $module$_variants_meet
";
