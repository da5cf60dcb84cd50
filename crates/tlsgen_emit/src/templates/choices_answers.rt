//! The answers of a tag and what comes after each: one for each case of an encoder, three for each case of a decoder
//! that has fields.

use crate::lines::Lines;

/// What the answers cite of the definitions.
pub static CITED: &str = "use Rattle.$crate$.specs.$name$.{$module$_variants_meet}
";

/// Those of `tls_serialize`.
pub static WRITES: Lines = Lines {
    hole: "answers",
    before: "",
    each: "
pub returns-in-$variant$-clause-writes : goal.returns-in-$variant$-clause-writes
returns-in-$variant$-clause-writes g c = let is = c.in-$variant$.is in rw is (tagged_writes _ _ $module$_variants_meet _ _ _ _ _ c.tls_serialize$later$.ensures.writes)
",
    bare: Some(
        "
pub returns-in-$variant$-clause-writes : goal.returns-in-$variant$-clause-writes
returns-in-$variant$-clause-writes g c = let is = c.in-$variant$.is in rw is (tagged_writes _ _ $module$_variants_meet _ _ _ _ _ (alone_writes u$bits$_meets _ _ _ _ _ c.tls_serialize$later$.ensures.writes))
",
    ),
    one: None,
    after: "",
    alone: Some(
        "
pub returns-clause-writes : goal.returns-clause-writes
returns-clause-writes g c = tagged_writes _ _ $module$_variants_meet _ _ _ _ _ (alone_writes u$bits$_meets _ _ _ _ _ c.tls_serialize.ensures.writes)
",
    ),
};

/// Those of `tls_serialize_into`.
pub static APPENDS: Lines = Lines {
    hole: "answers",
    before: "",
    each: "
pub returns-in-$variant$-clause-appends : goal.returns-in-$variant$-clause-appends
returns-in-$variant$-clause-appends c = let is = c.in-$variant$.is in rw is (tagged_appends _ _ $module$_variants_meet _ _ _ _ c.tls_serialize_into$later$.ensures.appends)
",
    bare: Some(
        "
pub returns-in-$variant$-clause-appends : goal.returns-in-$variant$-clause-appends
returns-in-$variant$-clause-appends c = let is = c.in-$variant$.is in rw is (tagged_appends _ _ $module$_variants_meet _ _ _ _ (alone_appends u$bits$_meets _ _ _ _ c.tls_serialize_into$later$.ensures.appends))
",
    ),
    one: None,
    after: "",
    alone: Some(
        "
pub returns-clause-appends : goal.returns-clause-appends
returns-clause-appends c = tagged_appends _ _ $module$_variants_meet _ _ _ _ (alone_appends u$bits$_meets _ _ _ _ c.tls_serialize_into.ensures.appends)
",
    ),
};

/// Those of `tls_deserialize`. A goal is named for the first variable of its pattern.
pub static READS: Lines = Lines {
    hole: "answers",
    before: "
pub returns-in_err-tag-clause-reads : goal.returns-in_err-tag-clause-reads
returns-in_err-tag-clause-reads g c = tag_reads u$bits$_meets $module$_variants_meet _ _ _ _ _ c.from_residual.ensures.1 c.in_err-tag.ensures.reads

pub returns-in_err-tag-clause-named : goal.returns-in_err-tag-clause-named
returns-in_err-tag-clause-named g c = tag_named_source u$bits$_meets $module$_variants_meet _ _ _ _ _ c.from_residual.ensures.1 c.in_err-tag.ensures.named
",
    each: "
pub returns-in_err-$first$-in-$number$-clause-reads : goal.returns-in_err-$first$-in-$number$-clause-reads
returns-in_err-$first$-in-$number$-clause-reads g c =
    let source = g.met.R.Source in
    tagged_reads u$bits$_meets $module$_variants_meet _ _ _ _ _ source.gives_in_order source.no_count_falls c.from_residual-in_err-$first$-in-$number$.ensures.1 c.in_ok-tag.ensures.reads c.in-$number$.is $leaves$

pub returns-in_err-$first$-in-$number$-clause-named : goal.returns-in_err-$first$-in-$number$-clause-named
returns-in_err-$first$-in-$number$-clause-named g c =
    let source = g.met.R.Source in
    tagged_named_source u$bits$_meets $module$_variants_meet _ _ _ _ _ source.gives_in_order source.no_count_falls c.from_residual-in_err-$first$-in-$number$.ensures.1 c.in_ok-tag.ensures.reads c.in-$number$.is $named$

pub returns-in_ok-$first$-in-$number$-clause-reads : goal.returns-in_ok-$first$-in-$number$-clause-reads
returns-in_ok-$first$-in-$number$-clause-reads g c =
    let source = g.met.R.Source in
    tagged_given u$bits$_meets $module$_variants_meet source.gives_in_order c.in_ok-tag.ensures.reads c.in-$number$.is $given$
",
    bare: Some(""),
    one: None,
    after: "
pub returns-in_default-clause-reads : goal.returns-in_default-clause-reads
returns-in_default-clause-reads g c = let is = c.unknown_value.ensures in rw is (tagged_leaves_unknown u$bits$_meets $module$_variants_meet g.met.R.Source.gives_nothing c.in_ok-tag.ensures.reads (search rules))

pub returns-in_default-clause-named : goal.returns-in_default-clause-named
returns-in_default-clause-named g c =
    let source = g.met.R.Source in
    let is = c.unknown_value.ensures in rw is $cast$(unknown_named_source u$bits$_meets $module$_variants_meet _ source.gives_nothing source.no_count_falls c.in_ok-tag.ensures.reads (search rules) (λ x. search rules))$end$
",
    alone: None,
};

/// Those of `tls_deserialize_bytes`.
pub static SPLITS: Lines = Lines {
    hole: "answers",
    before: "",
    each: "
pub returns-in_err-$first$-in-$number$-clause-splits : goal.returns-in_err-$first$-in-$number$-clause-splits
returns-in_err-$first$-in-$number$-clause-splits c = tagged_splits u$bits$_meets $module$_variants_meet _ _ _ c.from_residual-in_err-$first$-in-$number$.ensures.1 c.in_ok-tag.ensures.splits c.in-$number$.is $refuses$

pub returns-in_err-$first$-in-$number$-clause-named : goal.returns-in_err-$first$-in-$number$-clause-named
returns-in_err-$first$-in-$number$-clause-named c = tagged_named _ _ c.from_residual-in_err-$first$-in-$number$.ensures.1 c.in_ok-tag.ensures.splits c.in-$number$.is c.in_err-$first$-in-$number$.ensures.named

pub returns-in_ok-$first$-in-$number$-clause-splits : goal.returns-in_ok-$first$-in-$number$-clause-splits
returns-in_ok-$first$-in-$number$-clause-splits c = tagged_begins u$bits$_meets $module$_variants_meet c.in_ok-tag.ensures.splits c.in-$number$.is $begins$
",
    bare: Some(""),
    one: None,
    after: "
pub returns-in_default-clause-splits : goal.returns-in_default-clause-splits
returns-in_default-clause-splits c = let is = c.unknown_value.ensures in rw is (tagged_refuses_unknown u$bits$_meets $module$_variants_meet c.in_ok-tag.ensures.splits (search rules))
",
    alone: None,
};

/// Those of `tls_validate_prefix`.
pub static VALIDATES: Lines = Lines {
    hole: "answers",
    before: "
pub returns-in_err-tag-clause-validates : goal.returns-in_err-tag-clause-validates
returns-in_err-tag-clause-validates c = tag_rejected u$bits$_meets $module$_variants_meet _ _ _ c.from_residual.ensures.1 c.in_err-tag.ensures.finds

pub returns-in_err-tag-clause-rejected : goal.returns-in_err-tag-clause-rejected
returns-in_err-tag-clause-rejected c = tag_placed _ _ _ _ c.from_residual.ensures.1 c.in_err-tag.ensures.rejected
",
    each: "
pub returns-in_err-behind-in-$number$-clause-validates : goal.returns-in_err-behind-in-$number$-clause-validates
returns-in_err-behind-in-$number$-clause-validates c = parts_rejected u$bits$_meets $module$_variants_meet _ _ _ c.from_residual-in_err-behind-in-$number$.ensures.1 c.in_ok-tag.ensures.finds c.in-$number$.is $rejects$

pub returns-in_err-behind-in-$number$-clause-rejected : goal.returns-in_err-behind-in-$number$-clause-rejected
returns-in_err-behind-in-$number$-clause-rejected c = parts_placed _ _ _ _ c.from_residual-in_err-behind-in-$number$.ensures.1 c.in_ok-tag.ensures.finds c.in-$number$.is c.in_err-behind-in-$number$.ensures.rejected

pub returns-in_ok-behind-in-$number$-clause-validates : goal.returns-in_ok-behind-in-$number$-clause-validates
returns-in_ok-behind-in-$number$-clause-validates c = parts_leave u$bits$_meets $module$_variants_meet c.in_ok-tag.ensures.finds c.in-$number$.is $left_behind$
",
    bare: Some(
        "
pub returns-in-$number$-clause-validates : goal.returns-in-$number$-clause-validates
returns-in-$number$-clause-validates c = parts_leave u$bits$_meets $module$_variants_meet c.in_ok-tag.ensures.finds c.in-$number$.is (nothing_begins _)
",
    ),
    one: None,
    after: "
pub returns-in_default-clause-validates : goal.returns-in_default-clause-validates
returns-in_default-clause-validates c = let is = c.unknown_value.ensures in rw is (unknown_rejected u$bits$_meets $module$_variants_meet c.in_ok-tag.ensures.finds (search rules))

pub returns-in_default-clause-rejected : goal.returns-in_default-clause-rejected
returns-in_default-clause-rejected c = let is = c.unknown_value.ensures in rw is (unknown_placed _ _ _ c.in_ok-tag.ensures.finds refl (search rules) (search rules))
",
    alone: None,
};
