//! The members of structs and of cases.
ghost use Rattle.std.specs.Prelude.{◌≡◌, Bool, IfOk};
ghost use Rattle.std.proofs.Props.{props};
ghost use Rattle.tlsgen_model.specs.Types.{IsType, can_be};
ghost use Rattle.tlsgen_model.specs.declared.plan.Shape.{Shape as AShape};

use crate::reject::rejected;
use std::alloc::{AllocError, Global};
use tlsgen_model::lists::FieldList;
use tlsgen_model::plan::{Before, Decided, Element, Member, Type};
use tlsgen_syntax::rejection::{Place, Trouble};

/// A member, and the place of its field in the file.
#[derive(Drop)]
pub struct ResolvedMember {
    pub member: Member,
    pub place: Place,
    ghost typed: { IsType member.of } by { Prim.hlevel props },
}

/// Appends a member. Rejects it if one before it has its name.
pub fn push_member(
    alloc: Global,
    fields: &mut FieldList,
    resolved: ResolvedMember,
) -> Result<(), Trouble> {
    let place = resolved.place;
    match fields.push(resolved.member)? {
        None => Ok(()),
        Some(member) => Err(rejected(
            alloc,
            place,
            member.name.as_str(),
            "a name that no field before it has, in Rust and with the fields that stand before a select",
        )),
    }
}

/// Another member that is the same.
pub fn copy(resolved: &ResolvedMember) -> Result<ResolvedMember, AllocError> {
    Ok(ResolvedMember {
        member: Member {
            name: resolved.member.name.clone()?,
            of: copy_type(&resolved.member.of)?,
            decided: copy_decided(&resolved.member.decided)?,
            present_for: copy_numbers(&resolved.member.present_for)?,
            declared: resolved.member.declared.clone()?,
            comment: resolved.member.comment.clone()?,
        },
        place: resolved.place,
    })
}

/// Another that says the same.
pub fn copy_decided(decided: &Decided) -> Result<Decided, AllocError> {
    match decided {
        Decided::Alone => Ok(Decided::Alone),
        Decided::Outside => Ok(Decided::Outside),
        Decided::Before(before) => Ok(Decided::Before(Before {
            member: before.member.clone()?,
            tag: before.tag.clone()?,
        })),
    }
}

fn copy_numbers(numbers: &Option<Vec<u64>>) -> Result<Option<Vec<u64>>, AllocError> {
    match numbers {
        Some(numbers) => Ok(Some(numbers.clone()?)),
        None => Ok(None),
    }
}

/// Another type that is the same.
pub fn copy_type(of: &Type) -> Result<Type, AllocError>
    ensures { IfOk result (λ copy. IsType of.now → IsType copy) }
{
    Ok(Type {
        shape: of.shape,
        is_optional: of.is_optional,
        element: copy_element(&of.element)?,
    })
}

fn copy_element(element: &Element) -> Result<Element, AllocError>
    ensures { IfOk result (λ copy. (o : Bool) (s : AShape) → can_be copy o s ≡ can_be element.now o s) }
{
    match element {
        Element::Integer(width) => Ok(Element::Integer(*width)),
        Element::Opaque => Ok(Element::Opaque),
        Element::Text => Ok(Element::Text),
        Element::Message(name) => Ok(Element::Message(name.clone()?)),
        Element::Alias(name) => Ok(Element::Alias(name.clone()?)),
    }
}
