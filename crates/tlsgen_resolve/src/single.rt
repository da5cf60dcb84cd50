//! Tags with one case alone: a constant, and the case's fields in the struct itself.
use crate::cases::{Labelled, tag_of};
use crate::constants::fixed_tag;
use crate::members::{ResolvedMember, copy};
use crate::naming::underscored;
use crate::resolver::Resolver;
use crate::segment::{
    ResolvedPiece, ResolvedSelect, check_segment, nearest_select, rejected_counting,
};
use crate::sequence::IndexedField;
use crate::types::declared;
use std::alloc::Global;
use tlsgen_model::names::field_name;
use tlsgen_model::plan::{Decided, Element, Member, Shape, Type};
use tlsgen_syntax::rejection::Trouble;
use tlsgen_syntax::syntax::{Field, Name, Number};

impl<'a> Resolver<'a> {
    /// Puts a tag with one case, as a constant, before the fields between it and its select, and those of the case.
    pub fn prepend_fixed(
        &mut self,
        tag: IndexedField<'a>,
        case: &Labelled<'a>,
        segment: &[ResolvedPiece<'a>],
        tail: &mut Vec<ResolvedPiece<'a>>,
    ) -> Result<(), Trouble> {
        let of = tag_of(self.alloc, self.scope, tag.field)?;
        if let Some(nearest) = nearest_select(segment) {
            check_segment(self.alloc, segment, tag.index, &nearest.cases)?;
        }
        for piece in segment {
            match piece {
                ResolvedPiece::Member(member) => tail.push(ResolvedPiece::Member(copy(member)?))?,
                ResolvedPiece::Select(select) => self.prepend_case(select, tail)?,
                ResolvedPiece::Length(length) => return Err(rejected_counting(self.alloc, length)),
            }
        }
        let number = Number {
            value: case.number,
            place: case.place,
        };
        let fixed = fixed_tag(self.alloc, tag.field, of, number)?;
        let member = fixed_member(self.alloc, tag.field, fixed.type_name.clone()?)?;
        self.make_fixed(fixed)?;
        tail.push(ResolvedPiece::Member(member))?;
        Ok(())
    }

    // Puts the fields of a select's only case before those that follow it.
    fn prepend_case(
        &mut self,
        select: &ResolvedSelect<'a>,
        tail: &mut Vec<ResolvedPiece<'a>>,
    ) -> Result<(), Trouble> {
        for case in &select.cases {
            for field in case.fields.iter().rev() {
                let mut member = self.member_of(field)?;
                if let Some(name) = name_of_only(select, field, case.fields.len()) {
                    let words = underscored(self.alloc, name.text.as_str())?;
                    member.member.name = field_name(self.alloc, words.as_str())?;
                }
                tail.push(ResolvedPiece::Member(member))?;
            }
        }
        Ok(())
    }
}

// The name that a select gives its field, where that is alone and has no name of its own.
fn name_of_only<'a>(select: &ResolvedSelect<'a>, field: &Field, count: usize) -> Option<&'a Name> {
    if count == 1 && !field.is_named {
        select.given.of_field
    } else {
        None
    }
}

fn fixed_member(alloc: Global, tag: &Field, of: String) -> Result<ResolvedMember, Trouble> {
    let words = underscored(alloc, tag.name.text.as_str())?;
    Ok(ResolvedMember {
        member: Member {
            name: field_name(alloc, words.as_str())?,
            of: Type {
                shape: Shape::One,
                is_optional: false,
                element: Element::Message(of),
            },
            decided: Decided::Alone,
            present_for: None,
            declared: declared(alloc, tag)?,
            comment: tag.name.remark.text.clone()?,
        },
        place: tag.name.place,
    })
}
