//! The definitions of a crate: a file for each message, and their list.

use crate::forms::Form;
use crate::types::Names;
use crate::{breaks, contexts, imports};
use std::alloc::{AllocError, Global};
use tlsgen_model::plan::Plan;

/// The list of the files of definitions.
pub fn list(alloc: Global, plan: &Plan) -> Result<String, AllocError> {
    let mut modules = Vec::new(alloc);
    for message in &plan.messages {
        modules.push((message.module.as_str(), message.name.as_str()))?;
    }
    modules.sort()?;
    let mut out = String::new(alloc);
    for (_, name) in &modules {
        writeln!(out, "pub mod {name}")?;
    }
    Ok(out)
}

static HEAD: &str = "-- $name$: what it stands for, its format and its law.
";

static DECLARED: &str = "use Rattle.$crate$.specs.declared.$module$.$name$.{$name$}
$variants_use$
";

/// What a message stands for, its format and its law.
pub fn file(alloc: Global, names: &Names<'_>, form: &Form<'_>) -> Result<String, AllocError> {
    let mut body = form.holes.filled(alloc, form.kind.templates().specs)?;
    body.push_str(form.held.specs.as_str())?;
    let mut out = form.holes.filled(alloc, HEAD)?;
    imports::push_definitions(alloc, &mut out, body.as_str())?;
    push_cited(&mut out, names, form.uses.cited.as_slice())?;
    push_selected(&mut out, names, form.uses.selected.as_slice())?;
    push_held(alloc, &mut out, names, form.uses.held.as_slice())?;
    form.holes.push(alloc, &mut out, DECLARED)?;
    breaks::push_definitions(alloc, &mut out, body.as_str())?;
    Ok(out)
}

// Adds the lines for the messages in it.
fn push_cited(out: &mut String, names: &Names<'_>, cited: &[&str]) -> Result<(), AllocError> {
    for name in cited {
        if let Some(of) = names.module(name) {
            let home = names.other_crate(name).unwrap_or(names.own);
            let end = if names.is_in_context(name) {
                "_for"
            } else {
                ""
            };
            writeln!(
                out,
                "use Rattle.{home}.specs.{name}.{{{of}_plain, {of}_format{end}, {of}_meets{end}}}"
            )?;
        }
    }
    Ok(())
}

// Adds the lines for the enums whose numbers decide the message's parts.
fn push_selected(out: &mut String, names: &Names<'_>, selected: &[&str]) -> Result<(), AllocError> {
    for name in selected {
        if let Some(of) = names.module(name) {
            let home = names.other_crate(name).unwrap_or(names.own);
            writeln!(out, "use Rattle.{home}.specs.{name}.{{{of}_selected}}")?;
        }
    }
    Ok(())
}

// Adds the lines for the tags in the messages that hold them.
fn push_held(
    alloc: Global,
    out: &mut String,
    names: &Names<'_>,
    held: &[(&str, &str)],
) -> Result<(), AllocError> {
    for (holder, tag) in held {
        let home = names.other_crate(holder).unwrap_or(names.own);
        let definition = contexts::held(alloc, names, holder, tag)?;
        writeln!(out, "use Rattle.{home}.specs.{holder}.{{{definition}}}")?;
    }
    Ok(())
}
