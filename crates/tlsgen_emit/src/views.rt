//! The view of a struct or of an enum with cases: its encoding, split into its fields.

use crate::joining::Join;
use crate::lines::{self, Lines};
use crate::nested_fields::NestedFields;
use crate::nesting::Nesting;
use crate::template::Holes;
use crate::templates::structs_in_context::{NOT_PARTED, PARTED};
use crate::templates::views::{AS_READ, IN_BOX, NONE, OF_CASES, OF_FIELDS, OF_SELECT, USES};
use crate::thens;
use crate::types::Names;
use crate::variant_forms::VariantForm;
use std::alloc::{AllocError, Global};
use tlsgen_model::plan::{Body, Decided, Element, Member, Message, Shape};

/// The name of a message's view, if it has one: it is a struct with fields or an enum with cases, nothing decides which it
/// has, it isn't borrowed, and nothing else has the name.
pub fn name_of(
    alloc: Global,
    names: &Names<'_>,
    message: &Message,
) -> Result<Option<String>, AllocError> {
    if message.is_borrowed || !is_viewed(message) {
        return Ok(None);
    }
    let name = format!(in alloc; "{}View", message.name)?;
    if names.has(name.as_str()) {
        return Ok(None);
    }
    Ok(Some(name))
}

fn is_viewed(message: &Message) -> bool {
    if message.context.is_some() {
        return false;
    }
    match &message.body {
        Body::Fields(members) if thens::giver_of(members).is_some() => false,
        Body::Fields(members) => !members.is_empty(),
        Body::Choice { .. } | Body::Sum { .. } => true,
        Body::Values { .. } => false,
    }
}

// Whether a message is a select whose tag is elsewhere, and can be read.
fn is_read_select(message: &Message) -> bool {
    !message.is_borrowed && message.context.is_some() && matches!(message.body, Body::Sum { .. })
}

// Whether it is one list of messages, after a length. Its parts are in a `Box`, which has the same encoding: the prover fails at a `Parted`
// whose parts are a `Vec` or a `TlsVecU16`, by a fault of its own.
fn is_list(members: &[Member]) -> bool {
    let [only] = members else {
        return false;
    };
    let is_counted = matches!(only.of.shape, Shape::Variable | Shape::Bounded { .. });
    is_counted && !only.of.is_optional && matches!(only.of.element, Element::Message(_))
}

/// The parts of a struct in a context. One whose fields are all messages in that context has none: the prover fails at a `PartedFor` whose
/// parts are a tuple of such, by a fault of its own. `EncodedFor` of that tuple has the same bytes.
pub fn parts_in_context(members: &[Member]) -> &'static [(&'static str, &'static str)] {
    let has_others = members.iter().any(|member| member.present_for.is_some()
        || !matches!(member.decided, Decided::Outside));
    if has_others { &PARTED } else { &NOT_PARTED }
}

/// Sets the hole `view_name` of a message, and those of what the clauses of its view take; or those of one without a view.
pub fn set_name(
    alloc: Global,
    names: &Names<'_>,
    holes: &mut Holes,
    message: &Message,
) -> Result<(), AllocError> {
    let Some(name) = name_of(alloc, names, message)? else {
        let taken = if is_read_select(message) {
            &OF_SELECT
        } else {
            &NONE
        };
        return holes.set_each(alloc, taken);
    };
    holes.set("view_name", name)?;
    holes.set_each(alloc, &USES)
}

/// Sets the hole `view` of a struct with these fields, if it has a view.
pub fn set(
    alloc: Global,
    holes: &mut Holes,
    fields: &NestedFields,
    members: &[Member],
) -> Result<(), AllocError> {
    if !holes.has("view_name") {
        return Ok(());
    }
    let (parts, whole) = if is_list(members) {
        (&IN_BOX, "whole.parts().payload()")
    } else {
        (&AS_READ, "whole.parts()")
    };
    holes.set_each(alloc, parts)?;
    holes.set("viewed", fields.listed(alloc, IN_STRUCT)?)?;
    let bytes = fields.nested(alloc, "view.$name$", Join::Bytes, " ")?;
    holes.set("view_bytes", bytes)?;
    holes.set("view_splits", fields.splits(alloc, whole)?)?;
    holes.set_each(alloc, &OF_FIELDS)
}

/// Sets the holes `viewed`, `view_bytes` and `view_splits` of a case with these fields.
pub fn set_of_case(
    alloc: Global,
    holes: &mut Holes,
    fields: &NestedFields,
) -> Result<(), AllocError> {
    holes.set("viewed", fields.listed(alloc, IN_VARIANT)?)?;
    let bytes = fields.nested(alloc, "a$at$", Join::Bytes, " ")?;
    holes.set("view_bytes", bytes)?;
    let whole = holes.filled(alloc, "Encoded::<$types$>::from_proved(parts)")?;
    holes.set("view_splits", fields.splits(alloc, whole.as_str())?)
}

/// Sets the hole `view` of an enum with these cases, by texts with a line for each, if it has a view.
pub fn set_cases(
    alloc: Global,
    holes: &mut Holes,
    parts: &[VariantForm],
    texts: &[Lines],
) -> Result<(), AllocError> {
    if !holes.has("view_name") {
        return Ok(());
    }
    lines::set(alloc, holes, parts, texts)?;
    holes.set_each(alloc, &OF_CASES)
}

const IN_STRUCT: &str = "    /// `$declared$`
$comment$    pub $name$: Encoded<'a, $type$>,
";

const IN_VARIANT: &str = "        /// `$declared$`
$comment$        $name$: Encoded<'a, $type$>,
";

// A name that is bound, and the lines that take apart what it names.
#[derive(Drop)]
struct Bound {
    name: String,
    lines: String,
}

/// The lines that take `whole` apart, the encoding of a tuple of these fields: each tuple after the one that it is in.
pub fn splits(
    alloc: Global,
    fields: &[String],
    nesting: &Nesting,
    whole: &str,
) -> Result<String, AllocError> {
    let fields = of_fields(alloc, fields)?;
    let parts = grouped(alloc, &fields, nesting.parts.as_slice(), "part")?;
    let groups = grouped(alloc, &parts, nesting.counts.as_slice(), "parts")?;
    match groups.as_slice() {
        [only] => {
            let name = only.name.as_str();
            format!(in alloc; "        let {name} = {whole};\n")
        }
        all => split(alloc, all, whole),
    }
}

fn of_fields(alloc: Global, fields: &[String]) -> Result<Vec<Bound>, AllocError> {
    let mut all = Vec::new(alloc);
    for field in fields {
        all.push(Bound {
            name: field.clone()?,
            lines: String::new(alloc),
        })?;
    }
    Ok(all)
}

// One for each group; `sizes` has the size of each. One alone in its group stays unchanged. A
// larger group is numbered among the three that a tuple has.
fn grouped(
    alloc: Global,
    inner: &[Bound],
    sizes: &[usize],
    word: &str,
) -> Result<Vec<Bound>, AllocError> {
    let mut groups = Vec::new(alloc);
    let mut left = inner;
    for (at, size) in sizes.iter().enumerate() {
        let Some((group, others)) = left.split_at_checked(*size) else {
            break;
        };
        left = others;
        let place = at % 3;
        groups.push(Bound::of(alloc, group, format!(in alloc; "{word}_{place}")?)?)?;
    }
    Ok(groups)
}

impl Bound {
    fn of(alloc: Global, group: &[Bound], name: String) -> Result<Bound, AllocError> {
        if let [only] = group {
            return Ok(Bound {
                name: only.name.clone()?,
                lines: only.lines.clone()?,
            });
        }
        let lines = split(alloc, group, name.as_str())?;
        Ok(Bound { name, lines })
    }
}

// The line that splits a tuple into these, and the lines of each.
fn split(alloc: Global, group: &[Bound], tuple: &str) -> Result<String, AllocError> {
    let mut names = Vec::new(alloc);
    let mut lines = String::new(alloc);
    for part in group {
        names.push(part.name.as_str())?;
        lines.push_str(part.lines.as_str())?;
    }
    let names = names.as_slice().join(alloc, ", ")?;
    format!(in alloc; "        let ({names}) = {tuple}.split();\n{lines}")
}
