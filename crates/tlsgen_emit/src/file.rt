//! The files that are written.
ghost use Rattle.std.specs.Prelude.{◌≡◌, ◌++◌, IfOk, OnOk};
ghost use Rattle.std.specs.List.{flat_map};
ghost use Rattle.tlsgen_emit.specs.Paths.{first_paths, paths_in, paths_of, paths_of_aliases, paths_of_message};

use crate::forms::Form;
use crate::types::Names;
use crate::{code, proofs, specs};
use std::alloc::{AllocError, Global};
use tlsgen_model::emitted::Written;
use tlsgen_model::plan::{Message, Plan};

/// All files of the crate `own`, over these other crates: its root, its other names of types, a module and a file
/// of definitions for each message, the answers of enums, and the lists of definitions and lemmas. The heading is what
/// its text says of itself, or nothing.
pub fn files_of(
    alloc: Global,
    own: &str,
    crates: &[String],
    heading: &str,
    plan: &Plan,
) -> Result<Vec<Written>, AllocError>
    ensures { IfOk result (λ files. paths_in files.items ≡ paths_of plan.now) }
{
    let names = Names::of(alloc, own, crates, plan)?;
    let mut files = Vec::new(alloc);
    push_first(alloc, &mut files, &names, heading, plan)?;
    push_messages(alloc, &mut files, &names, plan.messages.as_slice())?;
    files.push(Written::new(alloc, "specs/Lib.antt", specs::list(alloc, plan)?)?)?;
    files.push(Written::new(alloc, "proofs/Lib.antt", String::new(alloc))?)?;
    Ok(files)
}

// Adds the root, and the other names of types.
fn push_first<'a>(
    alloc: Global,
    files: &mut Vec<Written>,
    names: &Names<'a>,
    heading: &str,
    plan: &'a Plan,
) -> Result<(), AllocError>
    ensures { OnOk result (paths_in files.new.items
        ≡ paths_in files.old.items ++ first_paths plan.now) }
{
    let root = code::root(alloc, names, heading, plan)?;
    files.push(Written::new(alloc, "src/lib.rt", root)?)?;
    push_aliases(alloc, files, names, plan)?;
    Ok(())
}

// Adds the other names of types, if there are any.
#[tactic(auto, using(crate::proofs::Aliases::no_aliases))]
fn push_aliases<'a>(
    alloc: Global,
    files: &mut Vec<Written>,
    names: &Names<'a>,
    plan: &'a Plan,
) -> Result<(), AllocError>
    ensures { OnOk result (paths_in files.new.items
        ≡ paths_in files.old.items ++ paths_of_aliases plan.now.aliases.items) }
{
    if plan.aliases.is_empty() {
        return Ok(());
    }
    let aliases = code::aliases(alloc, names, plan)?;
    files.push(Written::new(alloc, "src/names.rt", aliases)?)?;
    Ok(())
}

// Adds the files of each message.
fn push_messages<'a>(
    alloc: Global,
    files: &mut Vec<Written>,
    names: &Names<'a>,
    messages: &'a [Message],
) -> Result<(), AllocError>
    ensures { OnOk result (paths_in files.new.items
        ≡ paths_in files.old.items ++ flat_map paths_of_message messages.now) }
{
    for message in messages {
        push_files(alloc, files, names, message)?;
    }
    Ok(())
}

// Adds the files of a message.
fn push_files<'a>(
    alloc: Global,
    files: &mut Vec<Written>,
    names: &Names<'a>,
    message: &'a Message,
) -> Result<(), AllocError>
    ensures { OnOk result (paths_in files.new.items
        ≡ paths_in files.old.items ++ paths_of_message message.now) }
{
    let form = Form::of(alloc, names, message)?;
    let code = code::module(alloc, names, &form)?;
    files.push(Written::code(alloc, message, code)?)?;
    let definitions = specs::file(alloc, names, &form)?;
    files.push(Written::definitions(alloc, message, definitions)?)?;
    proofs::push_files(alloc, files, message, &form)
}
