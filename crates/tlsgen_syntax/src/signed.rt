//! What is signed, as a struct of its own, and types in place.
//!
//! `struct { LogID id; digitally-signed struct { uint64 timestamp; }; } Receipt;` says what `struct { uint64 timestamp; }
//! ReceiptTBS; struct { LogID id; DigitallySigned signature; } Receipt;` does (RFC 5246, section 4.7).
ghost use Rattle.std.specs.Prelude.{◌≡◌, ◌∷◌, [], List, IfOk, OnOk, codes, string_bytes};
ghost use Rattle.tlsgen_syntax.specs.Apart.{apart_signs, apart_struct_then, apart_then, apart_type_then, before_then, sent_part_then, signature_name_then, signed_struct_then, type_word};
ghost use Rattle.tlsgen_syntax.specs.Signs.{Sign, each_then, field_then, file_signs, item_then, mark, part_then, struct_then, word};

use crate::in_place::{definition, field_of, type_name};
use crate::source::{Definition, InPlace, Signed, Source, SourcePart, SourceStruct, StructKind};
use crate::syntax::{Field, File, Item, Name, Part, Remark, Struct, Vector};
use crate::token::Mark;
use crate::values::enumeration;
use std::alloc::{AllocError, Global};

/// The definitions of a text, with what is signed and the types in place before the struct that has them.
///
/// What is signed has the name of that struct with `TBS`, *to be signed*, appended. The signature
/// is a field of type `DigitallySigned`, called `signature` if it has no name. A type in place is
/// named after the struct and its field.
#[tactic(auto, using(crate::proofs::Gathered::gathered_each))]
pub fn set_apart(alloc: Global, source: Source) -> Result<File, AllocError>
    ensures says { IfOk result (λ file. file_signs file ≡ apart_signs source) }
    ensures notes { IfOk result (λ file. file.notes.items ≡ []) }
{
    let mut items = Vec::new(alloc);
    for definition in source.definitions {
        push_definition(alloc, &mut items, definition)?;
    }
    Ok(File {
        items,
        notes: Vec::new(alloc),
    })
}

#[tactic(auto, using(crate::proofs::Gathered::gathered_each))]
fn push_definition(
    alloc: Global,
    items: &mut Vec<Item>,
    definition: Definition,
) -> Result<(), AllocError>
    ensures { OnOk result ((rest : List Sign) → each_then item_then items.new.items rest ≡
        each_then item_then items.old.items (apart_then definition rest)) }
{
    match definition {
        Definition::Enum(one) => {
            items.push(Item::Enum(enumeration(alloc, one.numbers, one.name)?))?;
        }
        Definition::Struct(one) => push_struct(alloc, items, one)?,
        Definition::Alias(field) => items.push(Item::Alias(field))?,
    }
    Ok(())
}

#[tactic(auto, using(crate::proofs::Gathered::gathered_each))]
fn push_struct(alloc: Global, items: &mut Vec<Item>, one: SourceStruct) -> Result<(), AllocError>
    ensures { OnOk result ((rest : List Sign) → each_then item_then items.new.items rest ≡
        each_then item_then items.old.items (apart_struct_then one rest)) }
{
    let SourceStruct { kind, parts, name } = one;
    let mut sent = Vec::new(alloc);
    for part in parts {
        sent.push(sent_part(alloc, items, &name, part)?)?;
    }
    items.push(Item::Struct(Struct {
        is_borrowed: matches!(kind, StructKind::Borrowed),
        parts: sent,
        name,
    }))?;
    Ok(())
}

// What is sent of a part. What is signed and a type in place are pushed to the items.
#[tactic(auto, using(crate::proofs::Gathered::gathered_each))]
fn sent_part(
    alloc: Global,
    items: &mut Vec<Item>,
    outer: &Name,
    part: SourcePart,
) -> Result<Part, AllocError>
    ensures sent { IfOk result (λ sent. (rest : List Sign) → part_then sent rest ≡
        sent_part_then outer.now part rest) }
    ensures before { OnOk result ((rest : List Sign) → each_then item_then items.new.items rest ≡
        each_then item_then items.old.items (before_then outer.now part rest)) }
{
    match part {
        SourcePart::Sent(part) => Ok(part),
        SourcePart::Signed(signed) => {
            let signature = signature(alloc, &signed)?;
            items.push(Item::Struct(to_be_signed(alloc, outer, signed)?))?;
            Ok(Part::Field(signature))
        }
        SourcePart::InPlace(one) => Ok(Part::Field(named_field(alloc, items, outer, one)?)),
    }
}

// The field whose type is in place. The type is pushed to the items.
#[tactic(auto, using(crate::proofs::Gathered::gathered_each))]
fn named_field(
    alloc: Global,
    items: &mut Vec<Item>,
    outer: &Name,
    one: InPlace,
) -> Result<Field, AllocError>
    ensures sent { IfOk result (λ field. (rest : List Sign) → field_then field rest ≡
        sent_part_then outer.now (SourcePart.InPlace one) rest) }
    ensures before { OnOk result ((rest : List Sign) → each_then item_then items.new.items rest ≡
        each_then item_then items.old.items (before_then outer.now (SourcePart.InPlace one) rest)) }
{
    let InPlace { of, name, vector } = one;
    let of_type = type_name(alloc, outer, &name)?;
    items.push(definition(alloc, of, of_type.clone()?)?)?;
    Ok(field_of(of_type, name, vector))
}

// `DigitallySigned signature;`
fn signature(alloc: Global, signed: &Signed) -> Result<Field, AllocError>
    ensures { IfOk result (λ field. (rest : List Sign) → field_then field rest ≡
        word (codes "DigitallySigned") ∷ signature_name_then signed.now.name (mark Mark.Semicolon ∷ rest)) }
{
    let of = name_at(alloc, signed, "DigitallySigned")?;
    let name = match &signed.name {
        Some(name) => name.clone()?,
        None => name_at(alloc, signed, "signature")?,
    };
    Ok(Field {
        is_optional: false,
        of,
        name,
        is_named: true,
        vector: Vector::One,
        constant: None,
    })
}

// A name that the text leaves out, where what is signed begins.
fn name_at(alloc: Global, signed: &Signed, text: &str) -> Result<Name, AllocError>
    ensures { IfOk result (λ name. string_bytes name.text ≡ text.now) }
{
    Ok(Name {
        text: String::from_str(alloc, text)?,
        place: signed.place,
        remark: Remark::none(alloc),
    })
}

// `struct { parts } OuterTBS;`
fn to_be_signed(alloc: Global, outer: &Name, signed: Signed) -> Result<Struct, AllocError>
    ensures { IfOk result (λ one. (rest : List Sign) → struct_then one rest ≡
        signed_struct_then outer.now signed rest) }
{
    let mut text = String::from_str(alloc, outer.text.as_str())?;
    text.push_str("TBS")?;
    Ok(Struct {
        is_borrowed: false,
        parts: signed.parts,
        name: Name {
            text,
            place: signed.place,
            remark: Remark {
                section: outer.remark.section.clone()?,
                text: String::new(alloc),
            },
        },
    })
}
