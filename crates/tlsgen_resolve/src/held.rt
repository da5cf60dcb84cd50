//! Parts that a tag in an earlier field decides, and the messages that have to hold it.
use crate::contexts::{OuterTag, context_of_type};
use crate::holders::{find_holders, giver_of};
use crate::known::Holding;
use crate::members::ResolvedMember;
use crate::naming::{type_name, underscored};
use crate::output::is_same;
use crate::reject::rejected;
use crate::resolver::Resolver;
use crate::segment::ResolvedPiece;
use crate::sequence::{IndexedField, Piece, Sequence};
use std::alloc::{AllocError, Global};
use tlsgen_model::names::field_name;
use tlsgen_model::plan::{Before, Decided, Element, Holder};
use tlsgen_syntax::rejection::{Place, Trouble};
use tlsgen_syntax::syntax::{Field, Name};

/// What became of a struct's field that is a tag of selects.
#[derive(Drop)]
pub struct PlacedTag {
    /// The field's place in the text.
    pub place: Place,
    pub part: TagPart,
}

#[derive(Drop)]
pub enum TagPart {
    /// With its cases it is all of the struct.
    Whole,
    /// With its cases it is a member of the struct, by the member's name and that of its type.
    Member(String, String),
    /// It always has one value.
    Fixed,
}

/// The name in Rust of the member that a field becomes.
pub fn member_name(alloc: Global, field: &Field) -> Result<String, AllocError> {
    let words = underscored(alloc, field.name.text.as_str())?;
    field_name(alloc, words.as_str())
}

/// What became of a tag whose message is this member's type.
pub fn part_of(member: &ResolvedMember) -> Result<TagPart, AllocError> {
    let name = member.member.name.clone()?;
    match &member.member.of.element {
        Element::Message(of) => Ok(TagPart::Member(name, of.clone()?)),
        _ => Ok(TagPart::Fixed),
    }
}

impl<'a> Resolver<'a> {
    /// Records that an earlier field decides parts by a tag. That field, and each struct from it to the tag, holds the tag then.
    pub fn decided_by(
        &mut self,
        sequence: &Sequence<'a>,
        giver: &'a Field,
        tag: &OuterTag<'a>,
    ) -> Result<Decided, Trouble> {
        let of = tag.key(self.alloc)?;
        if !tag.is_field(sequence.name, giver) {
            self.hold(giver, tag, &of)?;
        }
        Ok(Decided::Before(Before {
            member: member_name(self.alloc, giver)?,
            tag: of,
        }))
    }

    /// The earlier field that decides this one, if one does; recorded as by [`decided_by`](Resolver::decided_by).
    pub fn decided_before(
        &mut self,
        sequence: &Sequence<'a>,
        at: IndexedField<'a>,
    ) -> Result<Option<Decided>, Trouble> {
        let Some(tag) = context_of_type(&self.known, at.field.of.text.as_str()) else {
            return Ok(None);
        };
        match giver_of(self.alloc, &mut self.known, sequence, at.index, &tag)? {
            Some(giver) => Ok(Some(self.decided_by(sequence, giver.field, &tag)?)),
            None => Ok(None),
        }
    }

    /// Keeps what became of a struct's field that is a tag of selects.
    pub fn place_tag(
        &mut self,
        sequence: &Sequence<'a>,
        tag: &Field,
        part: TagPart,
    ) -> Result<(), AllocError> {
        let placed = PlacedTag {
            place: tag.name.place,
            part,
        };
        if let Some(own) = self.placed.get_mut(sequence.name) {
            own.push(placed)?;
            return Ok(());
        }
        let name = String::from_str(self.alloc, sequence.name)?;
        let mut own = Vec::new(self.alloc);
        own.push(placed)?;
        self.placed.insert(name, own)?;
        Ok(())
    }

    // Has each struct from that of a field to the tag hold it. `of`: the tag's type.
    fn hold(&mut self, giver: &'a Field, tag: &OuterTag<'a>, of: &String) -> Result<(), Trouble> {
        let label = tag.label(self.alloc)?;
        find_holders(
            self.alloc,
            &mut self.known,
            &[Piece::Field(giver)],
            tag,
            &label,
        )?;
        let mut field = giver;
        for _ in 0..=self.known.len() {
            let Some(holding) = self.known.holding(&label, field) else {
                break;
            };
            if self.known.is_kept(&label, holding.name) {
                return Ok(());
            }
            self.push_holder(field, &holding, tag, of)?;
            self.known.set_kept(&label, holding.name)?;
            if tag.is_field(holding.name, holding.field) {
                return Ok(());
            }
            field = holding.field;
        }
        Err(self.rejected_name(
            &giver.of,
            "a struct with one field alone that is the tag, or a struct that has it",
        ))
    }

    // Keeps that a struct holds a tag. `field`: one of its type.
    fn push_holder(
        &mut self,
        field: &Field,
        holding: &Holding<'a>,
        tag: &OuterTag<'a>,
        of: &String,
    ) -> Result<(), Trouble> {
        let name = type_name(self.alloc, holding.name)?;
        if self.out.home_of(&name) != Some(self.out.home) {
            if self.out.holder(&name, of).is_some() {
                return Ok(());
            }
            return Err(self.rejected_name(
                &field.of,
                "a struct of this text, or one whose own text has parts that its tag decides",
            ));
        }
        let member = self.holding_member(holding, of, tag)?;
        self.keep_holder(tag.name, name, of, member)
    }

    // Keeps that a message holds a tag. Rejects another of this type that it holds.
    fn keep_holder(
        &mut self,
        at: &Name,
        name: String,
        of: &String,
        member: Option<String>,
    ) -> Result<(), Trouble> {
        match self.out.holder(&name, of) {
            Some(kept) if kept.member == member => return Ok(()),
            Some(_) => {
                return Err(self.rejected_name(
                    at,
                    "one tag of its type in a struct, where it decides parts of other structs",
                ));
            }
            None => {}
        }
        self.out.push_holder(Holder {
            name,
            tag: of.clone()?,
            member,
        })?;
        Ok(())
    }

    // The member of a struct that is a tag or holds it; none if its cases are on the tag.
    fn holding_member(
        &mut self,
        holding: &Holding<'a>,
        of: &String,
        tag: &OuterTag<'a>,
    ) -> Result<Option<String>, Trouble> {
        if !tag.is_field(holding.name, holding.field) {
            return Ok(Some(member_name(self.alloc, holding.field)?));
        }
        match self.placed_tag(holding) {
            None => Ok(Some(member_name(self.alloc, holding.field)?)),
            Some(TagPart::Whole) => Ok(None),
            Some(TagPart::Member(member, part)) => {
                let (member, name) = (member.clone()?, part.clone()?);
                self.keep_holder(tag.name, name, of, None)?;
                Ok(Some(member))
            }
            Some(TagPart::Fixed) => Err(self.rejected_name(
                &holding.field.name,
                "a tag of several cases, where it decides parts of other structs",
            )),
        }
    }

    fn placed_tag(&self, holding: &Holding<'a>) -> Option<&TagPart> {
        for placed in self.placed.get(holding.name)? {
            if is_same(placed.place, holding.field.name.place) {
                return Some(&placed.part);
            }
        }
        None
    }

    /// Rejects members that more than one field before them decides, and one that isn't a member itself.
    pub fn check_givers(
        &self,
        sequence: &Sequence<'a>,
        tail: &[ResolvedPiece<'a>],
    ) -> Result<(), Trouble> {
        let mut giver = None;
        for piece in tail {
            if let ResolvedPiece::Member(member) = piece {
                giver = self.one_giver(sequence, giver, member)?;
            }
        }
        match giver {
            Some(name) if !has_member(tail, name) => {
                Err(rejected(
                    self.alloc,
                    sequence.place,
                    sequence.name,
                    "a struct whose field with the tag of others is above no select on another tag",
                ))
            }
            _ => Ok(()),
        }
    }

    fn one_giver<'b>(
        &self,
        sequence: &Sequence<'a>,
        giver: Option<&'b String>,
        member: &'b ResolvedMember,
    ) -> Result<Option<&'b String>, Trouble> {
        let Decided::Before(before) = &member.member.decided else {
            return Ok(giver);
        };
        let name = &before.member;
        if sequence.context.is_some() || giver.is_some_and(|other| *other != *name) {
            return Err(rejected(
                self.alloc,
                member.place,
                member.member.name.as_str(),
                "tags of one field alone that decide parts, in a struct that is in no context itself",
            ));
        }
        Ok(Some(name))
    }
}

fn has_member(tail: &[ResolvedPiece<'_>], name: &String) -> bool {
    tail.iter().any(|piece| match piece {
        ResolvedPiece::Member(member) => member.member.name == *name,
        _ => false,
    })
}
