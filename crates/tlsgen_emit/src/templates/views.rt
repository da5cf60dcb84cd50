//! The view of a struct and of an enum with cases, and the value of an enum of numbers.

use crate::lines::Lines;

/// A message with a view: what its clauses take.
pub static USES: [(&str, &str); 2] = [
    ("variants_taken", ", $module$_variants"),
    (
        "view_use",
        "ghost use Rattle.tls_codec_views.specs.Views.{IsCase};
ghost use Rattle.$crate$.specs.declared.$module$.$view_name$.{$view_name$};
",
    ),
];

/// A select whose tag is elsewhere: what its clauses take.
pub static OF_SELECT: [(&str, &str); 3] = [
    ("variants_taken", ", $module$_variants"),
    ("view_use", ""),
    ("view", ""),
];

/// One without a view.
pub static NONE: [(&str, &str); 3] = [("variants_taken", ""), ("view_use", ""), ("view", "")];

/// The parts of a struct: what it is read as, or that in a `Box`.
pub static AS_READ: [(&str, &str); 1] = [("parted", "$read$")];

pub static IN_BOX: [(&str, &str); 1] = [("parted", "Box<$read$>")];

pub static OF_FIELDS: [(&str, &str); 1] = [("view", FIELDS)];

const FIELDS: &str = "
impl Parted for $name$ {
    type Parts = $parted$;

    ghost as_parts = { λ bytes is. is };
}

/// The encoding of a [`$name$`], split into its fields.
#[derive(Drop)]
pub struct $view_name$<'a> {
$viewed$}

impl<'a> From<Encoded<'a, $name$>> for $view_name$<'a> {
    ghost from_gives = { λ whole view. whole ≡ $view_bytes$ };

    fn from(whole: Encoded<'a, $name$>) -> $view_name$<'a> {
$view_splits$        $view_name$ { $fields$ }
    }
}
";

pub static OF_CASES: [(&str, &str); 1] = [("view", CASES)];

const CASES: &str = "
impl Choice for $name$ {
    type Tag = u$bits$;

    ghost variants = { $module$_variants };

    ghost as_choice = { λ bytes is. is };
}

/// The encoding of a [`$name$`], split into its case and fields.
#[derive(Drop)]
pub enum $view_name$<'a> {
$view_variants$}

impl<'a> From<Encoded<'a, $name$>> for $view_name$<'a> {
    ghost from_gives = { λ whole view. elim view as (λ v. Type 0) [
$view_cases$    ] };

    fn from(whole: Encoded<'a, $name$>) -> $view_name$<'a> {
        let (tag, parts) = whole.case();
        match tag {
$view_arms$            _ => unreachable!(),
        }
    }
}
";

/// The cases of an enum whose tag is in a row with their fields.
pub static IN_A_ROW: [Lines; 3] = [
    Lines {
        hole: "view_variants",
        before: "",
        each: "    /// `case $label$:`
    $variant$ {
$viewed$    },
",
        bare: Some("    /// `case $label$:`\n    $variant$,\n"),
        one: Some(
            "    /// `case $label$: $stated$`\n$comment$    $variant$(Encoded<'a, $types$>),\n",
        ),
        after: "",
        alone: None,
    },
    Lines {
        hole: "view_cases",
        before: "",
        each: "      | $view_name$.$variant$ $lefts$ ↦ IsCase $width$ $number$ whole $view_bytes$\n",
        bare: Some("      | $view_name$.$variant$ ↦ IsCase $width$ $number$ whole []\n"),
        one: None,
        after: "",
        alone: None,
    },
    Lines {
        hole: "view_arms",
        before: "",
        each: "            $number$ => {
$view_splits$                $view_name$::$variant$ { $fields$ }
            }
",
        bare: Some("            $number$ => $view_name$::$variant$,\n"),
        one: Some(
            "            $number$ => $view_name$::$variant$(Encoded::from_only_part(parts)),\n",
        ),
        after: "",
        alone: None,
    },
];

/// Those of an enum whose cases are one value each, after the tag.
pub static AFTER_TAG: [Lines; 3] = [
    Lines {
        hole: "view_variants",
        before: "",
        each: "    /// `case $label$:`\n    $variant$(Encoded<'a, $after_tag$>),\n",
        bare: None,
        one: Some(
            "    /// `case $label$: $stated$`\n$comment$    $variant$(Encoded<'a, $after_tag$>),\n",
        ),
        after: "",
        alone: None,
    },
    Lines {
        hole: "view_cases",
        before: "",
        each: "      | $view_name$.$variant$ a0 ↦ IsCase $width$ $number$ whole a0\n",
        bare: None,
        one: None,
        after: "",
        alone: None,
    },
    Lines {
        hole: "view_arms",
        before: "",
        each: "            $number$ => $view_name$::$variant$(Encoded::from_proved(parts)),\n",
        bare: None,
        one: None,
        after: "",
        alone: None,
    },
];

/// What is read of an enum of numbers.
pub const NUMBERED: Lines = Lines {
    hole: "numbered",
    before: "
impl Numbered for $name$ {
    type Tag = u$bits$;

    ghost has = { $module$_has };

    ghost as_values = { λ bytes is. is };
}

impl ReadInPlace for $name$ {
    fn read(encoded: &Encoded<'_, $name$>) -> $name$ {
        match encoded.number() {
",
    each: "            $number$ => $name$::$variant$,\n",
    bare: None,
    one: None,
    after: "            _ => unreachable!(),
        }
    }
}
",
    alone: None,
};
