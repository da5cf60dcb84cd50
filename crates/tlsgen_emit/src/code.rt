//! The code of a crate: its root, its other names of types, and a module for each message.

use crate::docs::doc;
use crate::forms::Form;
use crate::template::Holes;
use crate::types::{Names, Words};
use crate::{breaks, imports, views};
use std::alloc::{AllocError, Global};
use std::collections::BTreeSet;
use tlsgen_model::plan::{Alias, Plan};

static ROOT: &str = "//! Messages, written by `tlsgen`.\n";

static ALIAS: &str = "
$doc$pub type $name$ = $rust$;
";

static ENDING: &str = "
$doc$pub type $name$ = InnerPlaintext<$rust$>;
";

/// The root: its modules, what they have by name, and what the other crates have, after what the text says of itself.
pub fn root<'a>(
    alloc: Global,
    names: &Names<'a>,
    heading: &str,
    plan: &'a Plan,
) -> Result<String, AllocError> {
    let uses = uses_by_path(alloc, names, plan)?;
    let mut out = String::new(alloc);
    if heading.is_empty() {
        out.push_str(ROOT)?;
    } else {
        writeln!(out, "//! {heading}. Written by `tlsgen`.")?;
    }
    out.push_str("#![tactic(auto)]\n\n")?;
    for (path, is_module, _) in &uses {
        if *is_module {
            writeln!(out, "pub mod {path};")?;
        }
    }
    out.push_str("\n")?;
    for (_, _, line) in &uses {
        out.push_str(line.as_str())?;
    }
    Ok(out)
}

// What the modules and the other crates have by name: the path of each, whether it is a module, and its line.
fn uses_by_path<'a>(
    alloc: Global,
    names: &Names<'a>,
    plan: &'a Plan,
) -> Result<Vec<(&'a str, bool, String)>, AllocError> {
    let mut uses = Vec::new(alloc);
    for message in &plan.messages {
        let view = views::name_of(alloc, names, message)?;
        let types = types_in(alloc, message.name.as_str(), view.as_ref())?;
        push_use(alloc, &mut uses, message.module.as_str(), true, types)?;
    }
    push_use(alloc, &mut uses, "names", true, aliases_of(alloc, plan)?)?;
    for (home, other) in names.crates.iter().enumerate() {
        push_use(
            alloc,
            &mut uses,
            other.as_str(),
            false,
            types_of(alloc, plan, home)?,
        )?;
    }
    uses.sort()?;
    Ok(uses)
}

// What the module of a message has by name: the message, and its view if there is one.
fn types_in<'b>(
    alloc: Global,
    name: &'b str,
    view: Option<&'b String>,
) -> Result<Vec<&'b str>, AllocError> {
    let mut types = vec![in alloc; name]?;
    if let Some(view) = view {
        types.push(view.as_str())?;
    }
    Ok(types)
}

// Adds what a module or a crate has by name, if it has anything.
fn push_use<'a>(
    alloc: Global,
    uses: &mut Vec<(&'a str, bool, String)>,
    path: &'a str,
    is_module: bool,
    mut names: Vec<&str>,
) -> Result<(), AllocError> {
    if names.is_empty() {
        return Ok(());
    }
    names.sort()?;
    let mut line = String::from_str(alloc, "pub ")?;
    imports::push_rust_use(alloc, &mut line, path, names.as_slice())?;
    uses.push((path, is_module, line))?;
    Ok(())
}

fn aliases_of(alloc: Global, plan: &Plan) -> Result<Vec<&str>, AllocError> {
    let mut names = Vec::new(alloc);
    for alias in &plan.aliases {
        names.push(alias.name.as_str())?;
    }
    Ok(names)
}

// The types that another crate has.
fn types_of(alloc: Global, plan: &Plan, home: usize) -> Result<Vec<&str>, AllocError> {
    let mut names = Vec::new(alloc);
    for other in &plan.others {
        if other.home == home {
            names.push(other.name.as_str())?;
        }
    }
    Ok(names)
}

/// The module of other names of types.
pub fn aliases<'a>(alloc: Global, names: &Names<'a>, plan: &'a Plan) -> Result<String, AllocError> {
    let mut body = String::new(alloc);
    let mut named = BTreeSet::new(alloc);
    for alias in &plan.aliases {
        let words = names.words(alloc, &alias.of)?;
        add_message(&mut named, names, &words)?;
        push_alias(alloc, &mut body, alias, words.texts)?;
    }
    let mut messages = Vec::new(alloc);
    for name in named {
        messages.push(name)?;
    }
    let cases = ["InnerPlaintext"];
    let uses = imports::code(alloc, names, body.as_str(), messages.as_slice(), &cases)?;
    format!(in alloc; "//! Other names of types.\n{uses}{body}")
}

fn push_alias(
    alloc: Global,
    out: &mut String,
    alias: &Alias,
    mut holes: Holes,
) -> Result<(), AllocError> {
    holes.set("doc", doc(alloc, alias.doc.as_str())?)?;
    holes.set_all(alloc, &[("name", alias.name.as_str())])?;
    holes.push(alloc, out, if alias.ends { ENDING } else { ALIAS })
}

// Adds the message that a type has in it, or its other name in another crate. This crate's other names are in the same
// module.
fn add_message<'a>(
    messages: &mut BTreeSet<&'a str>,
    names: &Names<'_>,
    words: &Words<'a>,
) -> Result<(), AllocError> {
    let Some(named) = words.named else {
        return Ok(());
    };
    let is_elsewhere = words.cited == Some(named) || names.other_crate(named).is_some();
    if is_elsewhere {
        messages.insert(named)?;
    }
    Ok(())
}

/// The module of a message.
pub fn module(alloc: Global, names: &Names<'_>, form: &Form<'_>) -> Result<String, AllocError> {
    let body = body(alloc, form)?;
    let mut out = form.holes.filled(alloc, "//! [`$name$`].\n")?;
    imports::push_clauses(alloc, &mut out, body.as_str())?;
    form.holes
        .push(alloc, &mut out, form.kind.templates().ghost_uses)?;
    out.push_str(form.held.uses.as_str())?;
    let types = form.uses.types.as_slice();
    let uses = imports::code(alloc, names, body.as_str(), types, form.cases.as_slice())?;
    write!(out, "\n{uses}\n")?;
    breaks::push_code(alloc, &mut out, body.as_str())?;
    Ok(out)
}

// The code, its decoders and what validates it if it has any, what it holds, and the law.
fn body(alloc: Global, form: &Form<'_>) -> Result<String, AllocError> {
    let templates = form.kind.templates();
    let mut body = String::new(alloc);
    form.holes.push(alloc, &mut body, templates.code)?;
    if !form.is_borrowed {
        form.holes.push(alloc, &mut body, templates.decoders)?;
        form.holes.push(alloc, &mut body, templates.validator)?;
    }
    body.push_str(form.held.code.as_str())?;
    form.holes.push(alloc, &mut body, templates.law)?;
    Ok(body)
}
