//! An enum of numbers only: its values are read and written as their numbers.

use super::{Templates, views};
use crate::lines::Lines;

/// The templates.
pub fn templates() -> Templates {
    Templates {
        ghost_uses: GHOST_USES,
        code: CODE,
        decoders: "",
        validator: VALIDATOR,
        law: LAW,
        specs: SPECS,
        texts: &TEXTS,
    }
}

const GHOST_USES: &str = "ghost use Rattle.std.specs.Fmt.{padded};
ghost use Rattle.std.specs.Ordering.{nat_cmp};
ghost use Rattle.tls_codec.specs.Errors.{UnknownValue};
$keyed_use$ghost use Rattle.tls_codec.specs.OwnMessages.{$keyed_values$values_names, values_source_names};
ghost use Rattle.tls_codec_validate.specs.TaggedPlaces.{values_places};
ghost use Rattle.$crate$.specs.$name$.{$module$_code, $module$_format, $module$_has, $module$_meets, $module$_name, $module$_plain$selected_use$};
ghost use Rattle.$crate$.specs.declared.$module$.$name$.{$name$};
";

static TEXTS: [Lines; 9] = [
    views::NUMBERED,
    Lines {
        hole: "variants",
        before: "",
        each: "    /// `$label$($number$)`\n$comment$    $variant$,\n",
        bare: None,
        one: None,
        after: "",
        alone: None,
    },
    Lines {
        hole: "code",
        before: "        match self {\n",
        each: "            $name$::$variant$ => $number$,\n",
        bare: None,
        one: None,
        after: "        }\n",
        alone: Some("        $number$\n"),
    },
    Lines {
        hole: "name_of",
        before: "        match self {\n",
        each: "            $name$::$variant$ => \"$label$\",\n",
        bare: None,
        one: None,
        after: "        }\n",
        alone: Some("        \"$label$\"\n"),
    },
    Lines {
        hole: "of_code",
        before: "",
        each: "            $number$ => Some($name$::$variant$),\n",
        bare: None,
        one: None,
        after: "",
        alone: None,
    },
    Lines {
        hole: "codes",
        before: "",
        each: "$module$_code $variant$ = $number$\n",
        bare: None,
        one: None,
        after: "",
        alone: Some("$module$_code v = $number$\n"),
    },
    Lines {
        hole: "named",
        before: "",
        each: "$module$_name $variant$ = codes \"$label$\"\n",
        bare: None,
        one: None,
        after: "",
        alone: Some("$module$_name v = codes \"$label$\"\n"),
    },
    Lines {
        hole: "known",
        before: "",
        each: "$module$_known $variant$ = refl\n",
        bare: None,
        one: None,
        after: "",
        alone: Some("$module$_known v = refl\n"),
    },
    Lines {
        hole: "variants_use",
        before: "use Rattle.$crate$.specs.declared.$module$.$name$.TheVariants.{",
        each: "$comma$$variant$",
        bare: None,
        one: None,
        after: "}\n",
        alone: Some(""),
    },
];

const CODE: &str =
    "$doc$$borrowed_doc$#[derive(PartialEq, Eq, PartialOrd, Ord, Hash, Debug, Clone, Copy)]
pub enum $name$ {
$variants$}

impl $name$ {
    /// Its number.
    pub fn code(&self) -> u$bits$
        ensures { result ≡ $module$_code self.now }
    {
$code$    }

    /// Its name in the presentation language.
    pub fn name(&self) -> &'static str
        ensures { result.now ≡ $module$_name self.now }
    {
$name_of$    }

    /// The value with this number, if there is one.
    pub fn of_code(code: u$bits$) -> Option<$name$>
        ensures { MatchOption result ($module$_has code ≡ false) (λ v. $module$_code v ≡ code) }
    {
        match code {
$of_code$            _ => None,
        }
    }
}

/// Its name.
impl fmt::Display for $name$ {
    ghost output = { λ v. Some ($module$_name v) };

    ghost styled_output = { λ v spec. Some (padded spec ($module$_name v)) };

    fn fmt<W: fmt::Write>(&self, f: &mut fmt::Formatter<W>) -> fmt::Result {
        f.pad(self.name())
    }
}

/// Its number.
impl From<$name$> for u$bits$ {
    ghost from_gives = { λ v number. number ≡ $module$_code v };

    fn from(value: $name$) -> u$bits$ {
        value.code()
    }
}

/// The value with this number.
impl TryFrom<u$bits$> for $name$ {
    type Error = Error;

    ghost try_from_gives = { λ tag r. MatchResult r
        (λ v. $module$_code v ≡ tag)
        (λ e. ($module$_has tag ≡ false) × (e ≡ UnknownValue tag)) };

    fn try_from(tag: u$bits$) -> Result<$name$, Error> {
        match $name$::of_code(tag) {
            Some(value) => Ok(value),
            None => Err(unknown_value($u64$)),
        }
    }
}

impl Size for $name$ {
    ghost plain = { $module$_plain };

    ghost format = { $module$_format };

    fn tls_serialized_len(&self) -> usize {
        $width$
    }

    ghost lawful = { $module$_meets };
}

impl Serialize for $name$ {
    fn tls_serialize<W: Sink>(&self, writer: &mut W) -> Result<usize, Error> {
        self.code().tls_serialize(writer)
    }

    fn tls_serialize_into(&self, out: &mut Vec<u8>) -> Result<usize, Error> {
        self.code().tls_serialize_into(out)
    }
}

impl Deserialize for $name$ {
    ghost names = { values_source_names $width$ $module$_has };

    fn tls_deserialize<R: Source>(alloc: Global, src: &mut R) -> Result<$name$, Error> {
        let tag = u$bits$::tls_deserialize(alloc, src)?;
        match $name$::of_code(tag) {
            Some(value) => Ok(value),
            None => Err(unknown_value($u64$)),
        }
    }
}

impl DeserializeBytes for $name$ {
    ghost names = { values_names $width$ $module$_has };

    fn tls_deserialize_bytes(alloc: Global, whole: &[u8]) -> Result<($name$, &[u8]), Error> {
        let (tag, rest) = u$bits$::tls_deserialize_bytes(alloc, whole)?;
        match $name$::of_code(tag) {
            Some(value) => Ok((value, rest)),
            None => Err(unknown_value($u64$)),
        }
    }
}
$selector$";

const VALIDATOR: &str = "
impl Validate for $name$ {
    ghost places = { values_places $width$ $module$_has };

    fn tls_validate_prefix(whole: &[u8]) -> Result<&[u8], Rejected<'_>> {
        let (tag, rest) = split_u$bits$(whole)?;
        match $name$::of_code(tag) {
            Some(_value) => Ok(rest),
            None => Err(Rejected {
                error: unknown_value($u64$),
                rest: whole,
            }),
        }
    }
}
$numbered$$keyed$";

const LAW: &str = "
/// Two values are equal if and only if their numbers are equal.
pub fn is_compared_by_its_number()
    ensures { (x y : $name$) →
        ⟦<$name$ as PartialEq>⟧.eq x y
        ≡ nat_eq ($module$_code x) ($module$_code y) }
{}

/// Values are ordered by their numbers.
pub fn is_ordered_by_its_number()
    ensures { (x y : $name$) →
        ⟦<$name$ as Ord>⟧.cmp x y
        ≡ nat_cmp ($module$_code x) ($module$_code y) }
{}
";

const SPECS: &str = "-- the number of each value
abbrev pub $module$_code : $name$ → ℕ
$codes$
-- the name of each value
abbrev pub $module$_name : $name$ → List ℕ
$named$
-- whether a value has this number
abbrev pub $module$_has : ℕ → Bool
$module$_has n = $has$

pub $module$_known : (v : $name$) → $module$_has ($module$_code v) ≡ true
$known$
abbrev pub $module$_plain : $name$ → Tree
$module$_plain v = Join (Number ($module$_code v)) Empty

abbrev pub $module$_format : Format
$module$_format = values_format $width$ $module$_has

pub $module$_meets : MeetsLaws $module$_format
$module$_meets = tagged_meets $width$ (omega arith) (values_meet $module$_has)
$selection$";

/// What the answers cite of the definitions.
pub static CITED: &str = "use Rattle.$crate$.specs.$name$.{$module$_has, $module$_known}
";

pub static WRITES: Lines = Lines {
    hole: "answers",
    before: "
pub returns-clause-writes : goal.returns-clause-writes
returns-clause-writes g c =
    value_writes $module$_has u$bits$_meets ($module$_known c.args.self.now) c.code.ensures _ _ _ _
    c.tls_serialize.ensures.writes
",
    each: "",
    bare: None,
    one: None,
    after: "",
    alone: None,
};

pub static APPENDS: Lines = Lines {
    hole: "answers",
    before: "
pub returns-clause-appends : goal.returns-clause-appends
returns-clause-appends c =
    value_appends $module$_has u$bits$_meets ($module$_known c.args.self.now) c.code.ensures _ _ _
    c.tls_serialize_into.ensures.appends
",
    each: "",
    bare: None,
    one: None,
    after: "",
    alone: None,
};

pub static READS: Lines = Lines {
    hole: "answers",
    before: "
pub returns-in_err-tag-clause-reads : goal.returns-in_err-tag-clause-reads
returns-in_err-tag-clause-reads g c =
    tag_reads u$bits$_meets (values_meet $module$_has) _ _ _ _ _ c.from_residual.ensures.1
    c.in_err-tag.ensures.reads

pub returns-in_err-tag-clause-named : goal.returns-in_err-tag-clause-named
returns-in_err-tag-clause-named g c =
    tag_named_source u$bits$_meets (values_meet $module$_has) _ _ _ _ _ c.from_residual.ensures.1
    c.in_err-tag.ensures.named

pub returns-in-Some-clause-reads : goal.returns-in-Some-clause-reads
returns-in-Some-clause-reads g c =
    let source = g.met.R.Source in
    value_given $module$_has u$bits$_meets ($module$_known c.in-Some.value)
    (sym c.in-Some.ensures) source.gives_in_order source.gives_nothing c.in_ok-tag.ensures.reads

pub returns-in-None-clause-reads : goal.returns-in-None-clause-reads
returns-in-None-clause-reads g c =
    let is = c.unknown_value.ensures in
    rw is (tagged_leaves_unknown u$bits$_meets (values_meet $module$_has)
    g.met.R.Source.gives_nothing c.in_ok-tag.ensures.reads c.in-None.ensures)

pub returns-in-None-clause-named : goal.returns-in-None-clause-named
returns-in-None-clause-named g c =
    let source = g.met.R.Source in
    let is = c.unknown_value.ensures in
    rw is $cast$(unknown_named_source u$bits$_meets (values_meet $module$_has) _
    source.gives_nothing source.no_count_falls c.in_ok-tag.ensures.reads
    c.in-None.ensures (λ x. (c.in-None.ensures, refl)))$end$
",
    each: "",
    bare: None,
    one: None,
    after: "",
    alone: None,
};

pub static SPLITS: Lines = Lines {
    hole: "answers",
    before: "
pub returns-in-Some-clause-splits : goal.returns-in-Some-clause-splits
returns-in-Some-clause-splits c =
    value_begins $module$_has u$bits$_meets ($module$_known c.in-Some.value)
    (sym c.in-Some.ensures) c.in_ok-tag.ensures.splits

pub returns-in-None-clause-splits : goal.returns-in-None-clause-splits
returns-in-None-clause-splits c =
    let is = c.unknown_value.ensures in
    rw is (tagged_refuses_unknown u$bits$_meets (values_meet $module$_has)
    c.in_ok-tag.ensures.splits c.in-None.ensures)
",
    each: "",
    bare: None,
    one: None,
    after: "",
    alone: None,
};

pub static VALIDATES: Lines = Lines {
    hole: "answers",
    before: "
pub returns-in_err-tag-clause-validates : goal.returns-in_err-tag-clause-validates
returns-in_err-tag-clause-validates c =
    tag_rejected u$bits$_meets (values_meet $module$_has) _ _ _ c.from_residual.ensures.1
    c.in_err-tag.ensures.finds

pub returns-in_err-tag-clause-rejected : goal.returns-in_err-tag-clause-rejected
returns-in_err-tag-clause-rejected c =
    tag_placed _ _ _ _ c.from_residual.ensures.1 c.in_err-tag.ensures.rejected

pub returns-in-Some-clause-validates : goal.returns-in-Some-clause-validates
returns-in-Some-clause-validates c =
    leaves (value_begins $module$_has u$bits$_meets ($module$_known c.in-Some._value)
    (sym c.in-Some.ensures) c.in_ok-tag.ensures.finds)

pub returns-in-None-clause-validates : goal.returns-in-None-clause-validates
returns-in-None-clause-validates c =
    let is = c.unknown_value.ensures in
    rw is (unknown_rejected u$bits$_meets (values_meet $module$_has)
    c.in_ok-tag.ensures.finds c.in-None.ensures)

pub returns-in-None-clause-rejected : goal.returns-in-None-clause-rejected
returns-in-None-clause-rejected c =
    let is = c.unknown_value.ensures in
    rw is (unknown_placed _ _ _ c.in_ok-tag.ensures.finds refl
    (c.in-None.ensures, search rules) (refl, c.in-None.ensures, search rules))
",
    each: "",
    bare: None,
    one: None,
    after: "",
    alone: None,
};
