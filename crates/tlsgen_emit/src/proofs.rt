//! The answers of a crate: five files for each enum that isn't open, two if it is borrowed.
ghost use Rattle.std.specs.Prelude.{◌≡◌, ◌++◌, ◌∷◌, [], OnOk};
ghost use Rattle.tlsgen_model.specs.Answered.{function_of, trait_of};
ghost use Rattle.tlsgen_model.specs.Paths.{answers_path};
ghost use Rattle.tlsgen_emit.specs.Forms.{has_answers};
ghost use Rattle.tlsgen_emit.specs.Paths.{answers_if, paths_in};

use crate::forms::{Form, MessageKind};
use crate::templates::{choices_answers, values};
use crate::{breaks, imports};
use std::alloc::{AllocError, Global};
use tlsgen_model::emitted::{Answered, Written};
use tlsgen_model::plan::Message;

/// Adds a message's answers.
pub fn push_files(
    alloc: Global,
    files: &mut Vec<Written>,
    message: &Message,
    form: &Form<'_>,
) -> Result<(), AllocError>
    ensures { OnOk result (paths_in files.new.items
        ≡ paths_in files.old.items ++ answers_if (has_answers form.now.kind) message.now) }
{
    if !form.kind.has_answers() {
        return Ok(());
    }
    push_answers(alloc, files, message, form, Answered::Writes)?;
    push_answers(alloc, files, message, form, Answered::Appends)?;
    if message.is_borrowed {
        return Ok(());
    }
    push_answers(alloc, files, message, form, Answered::Reads)?;
    push_answers(alloc, files, message, form, Answered::Splits)?;
    push_answers(alloc, files, message, form, Answered::Validates)?;
    Ok(())
}

// Adds the answers of one function.
fn push_answers(
    alloc: Global,
    files: &mut Vec<Written>,
    message: &Message,
    form: &Form<'_>,
    function: Answered,
) -> Result<(), AllocError>
    ensures { OnOk result (paths_in files.new.items ≡ paths_in files.old.items
        ++ answers_path message.now (trait_of function) (function_of function) ∷ []) }
{
    let text = text(alloc, form, function)?;
    files.push(Written::answers(alloc, message, function, text)?)?;
    Ok(())
}

// The answers of one function, with their imports.
fn text(alloc: Global, form: &Form<'_>, function: Answered) -> Result<String, AllocError> {
    let cited = match form.kind {
        MessageKind::Values => values::CITED,
        _ => choices_answers::CITED,
    };
    let answers = answers(alloc, form, function)?;
    let mut out = String::new(alloc);
    imports::push_answers(alloc, &mut out, answers.as_str())?;
    for template in [cited, "use Rattle.$crate$.proofs.$module$.$name$"] {
        form.holes.push(alloc, &mut out, template)?;
    }
    let of_trait = function.of_trait();
    let called = function.function();
    writeln!(out, "{of_trait}.{called}.Goals as goal")?;
    breaks::push_definitions(alloc, &mut out, answers.as_str())?;
    Ok(out)
}

fn answers(alloc: Global, form: &Form<'_>, function: Answered) -> Result<String, AllocError> {
    let lines = match (form.kind, function) {
        (MessageKind::Values, Answered::Writes) => &values::WRITES,
        (MessageKind::Values, Answered::Appends) => &values::APPENDS,
        (MessageKind::Values, Answered::Reads) => &values::READS,
        (MessageKind::Values, Answered::Splits) => &values::SPLITS,
        (MessageKind::Values, Answered::Validates) => &values::VALIDATES,
        (_, Answered::Writes) => &choices_answers::WRITES,
        (_, Answered::Appends) => &choices_answers::APPENDS,
        (_, Answered::Reads) => &choices_answers::READS,
        (_, Answered::Splits) => &choices_answers::SPLITS,
        (_, Answered::Validates) => &choices_answers::VALIDATES,
    };
    lines.filled(alloc, &form.holes, form.parts.as_slice())
}
