//! The messages of a struct: a tag and its selects become one member, a message of its own.
ghost use Rattle.std.specs.Prelude.{IfOk};
ghost use Rattle.tlsgen_model.specs.Writable.{IsWritable};

use crate::borrowed::has_references;
use crate::constants::{Fixed, fixed_body, fixed_of};
use crate::ending::ending_of;
use crate::held::{TagPart, part_of};
use crate::holders::{Site, site_of};
use crate::members::push_member;
use crate::naming::type_name;
use crate::padding::{check_padding, push_padding};
use crate::reject::rejected;
use crate::resolver::Resolver;
use crate::segment::{
    ResolvedPiece, is_on, names_given, only_case, rejected_counting, rejected_crossing,
};
use crate::sequence::{IndexedField, Piece, Sequence, sequence_of};
use std::alloc::Global;
use tlsgen_model::lists::FieldList;
use tlsgen_model::names::module_name;
use tlsgen_model::plan::Body;
use tlsgen_syntax::rejection::Trouble;
use tlsgen_syntax::syntax::{Field, Part, Select, Struct};

impl<'a> Resolver<'a> {
    /// Makes the messages of a struct, and keeps its pieces for the structs that have it.
    pub fn resolve_struct(&mut self, structure: &'a Struct) -> Result<(), Trouble> {
        let sequence = sequence_of(self.alloc, self.scope, &mut self.known, structure)?;
        self.check_borrowed(&sequence)?;
        self.make_constants(structure)?;
        self.check_borrowed_context(&sequence)?;
        check_padding(self.alloc, &sequence)?;
        match ending_of(self.scope, structure) {
            Some(ending) => self.make_ending(structure, ending)?,
            None if sequence.is_filling => {}
            None => self.make_messages(&sequence)?,
        }
        self.known.push(self.alloc, sequence)?;
        Ok(())
    }

    // Makes the messages of a struct, each after those that it contains, from the last piece to the first.
    fn make_messages(&mut self, sequence: &Sequence<'a>) -> Result<(), Trouble> {
        let mut tail = Vec::new(self.alloc);
        for (index, piece) in sequence.pieces.iter().enumerate().rev() {
            if self.prepend(sequence, index, piece, &mut tail)? {
                return Ok(());
            }
        }
        self.check_givers(sequence, &tail)?;
        let body = struct_body(self.alloc, sequence, tail)?;
        self.check_runs(sequence, &body)?;
        let mut message = self.defined_message(sequence.name, sequence.remark, body)?;
        push_padding(self.alloc, &mut message.doc, sequence)?;
        message.is_borrowed = has_references(sequence, &message.body);
        if let Some(tag) = &sequence.context {
            message.context = Some(tag.context(self.alloc)?);
        }
        self.push(sequence.place, message)
    }

    // Resolves a piece, and puts it before those that follow it: `tail` is in reverse. Returns whether that completes the struct.
    fn prepend(
        &mut self,
        sequence: &Sequence<'a>,
        index: usize,
        piece: &Piece<'a>,
        tail: &mut Vec<ResolvedPiece<'a>>,
    ) -> Result<bool, Trouble> {
        match piece {
            Piece::Select(select) => self.prepend_select(sequence, index, select, tail),
            Piece::Length(length) => {
                tail.push(ResolvedPiece::Length(length))?;
                Ok(false)
            }
            Piece::Counted(length, field) => {
                let member = self.counted_member_of(length, field)?;
                tail.push(ResolvedPiece::Member(member))?;
                Ok(false)
            }
            Piece::Field(field) => self.prepend_field(
                sequence,
                IndexedField { index, field },
                tail,
            ),
        }
    }

    fn prepend_select(
        &mut self,
        sequence: &Sequence<'a>,
        index: usize,
        select: &'a Select,
        tail: &mut Vec<ResolvedPiece<'a>>,
    ) -> Result<bool, Trouble> {
        match site_of(self.alloc, self.scope, &mut self.known, sequence, index)? {
            Site::Here => {
                let select = self.resolve_select(sequence, select, index)?;
                tail.push(ResolvedPiece::Select(select))?;
                Ok(false)
            }
            Site::Before(giver) => { self.prepend_sum(sequence, select, Some(giver.field), tail) }
            Site::Elsewhere => self.prepend_sum(sequence, select, None, tail),
        }
    }

    // If the field is a tag, every piece between it and its last select moves into the select's cases. A struct that is
    // a tag and its cases alone is complete then.
    fn prepend_field(
        &mut self,
        sequence: &Sequence<'a>,
        at: IndexedField<'a>,
        tail: &mut Vec<ResolvedPiece<'a>>,
    ) -> Result<bool, Trouble> {
        let Some(last) = tail.iter().position(|piece| is_on(piece, at.index)) else {
            let mut member = self.member_of(at.field)?;
            if let Some(decided) = self.decided_before(sequence, at)? {
                member.member.decided = decided;
            }
            tail.push(ResolvedPiece::Member(member))?;
            return Ok(false);
        };
        let segment = tail.split_off(last)?;
        self.out
            .tags
            .push(type_name(self.alloc, at.field.of.text.as_str())?)?;
        if let Some(case) = only_case(&segment) {
            self.prepend_fixed(at, case, &segment, tail)?;
            self.place_tag(sequence, at.field, TagPart::Fixed)?;
            return Ok(false);
        }
        let given = names_given(self.alloc, &segment)?;
        if at.index == 0 && last == 0 && given.of_type.is_none() {
            self.make_whole(sequence, at, &segment)?;
            self.place_tag(sequence, at.field, TagPart::Whole)?;
            return Ok(true);
        }
        let member = self.make_part(sequence, at, &segment, given)?;
        let part = part_of(&member)?;
        self.place_tag(sequence, at.field, part)?;
        tail.push(ResolvedPiece::Member(member))?;
        Ok(false)
    }

    // Makes the types of a struct's constants, unless they are there.
    fn make_constants(&mut self, structure: &Struct) -> Result<(), Trouble> {
        for part in &structure.parts {
            match part {
                Part::Field(field) => self.make_constant(field)?,
                Part::Select(select) => self.make_case_constants(select)?,
            }
        }
        Ok(())
    }

    fn make_case_constants(&mut self, select: &Select) -> Result<(), Trouble> {
        for case in &select.cases {
            self.make_field_constants(&case.fields)?;
        }
        Ok(())
    }

    fn make_field_constants(&mut self, fields: &[Field]) -> Result<(), Trouble> {
        for field in fields {
            self.make_constant(field)?;
        }
        Ok(())
    }

    fn make_constant(&mut self, field: &Field) -> Result<(), Trouble> {
        let Some(constant) = &field.constant else {
            return Ok(());
        };
        let fixed = fixed_of(self.alloc, self.scope, field, constant)?;
        self.make_fixed(fixed)
    }

    /// Makes the type of a constant, unless it is there.
    pub fn make_fixed(&mut self, fixed: Fixed) -> Result<(), Trouble> {
        if fixed.is_own || self.out.has_constant(&fixed.type_name) {
            return Ok(());
        }
        let place = fixed.number.place;
        let module = module_name(self.alloc, fixed.type_name.as_str())?;
        let is_others = self.out.is_before(&module) && !self.out.is_constant(&fixed.type_name);
        if is_others || self.is_taken_here(&module) {
            return Err(rejected(
                self.alloc,
                place,
                fixed.label.as_str(),
                "a constant whose type's name, that of the field's type and of the value, no type has",
            ));
        }
        let body = fixed_body(self.alloc, &fixed)?;
        self.out.keep_constant(&fixed.type_name)?;
        let name = fixed.type_name;
        let doc = format!(in self.alloc; "`{name}`.")?;
        let message = self.message(name, doc, body)?;
        self.push(place, message)
    }
}

// A struct of pieces that are given from the last to the first.
fn struct_body(
    alloc: Global,
    sequence: &Sequence<'_>,
    mut tail: Vec<ResolvedPiece<'_>>,
) -> Result<Body, Trouble>
    ensures { IfOk result IsWritable }
{
    let mut list = FieldList::new(alloc);
    tail.reverse();
    for piece in tail {
        match piece {
            ResolvedPiece::Member(member) => push_member(alloc, &mut list, member)?,
            ResolvedPiece::Select(select) => return Err(rejected_crossing(alloc, select.place)),
            ResolvedPiece::Length(length) => return Err(rejected_counting(alloc, length)),
        }
    }
    match list.into_body() {
        Some(body) => Ok(body),
        None => Err(rejected(
            alloc,
            sequence.place,
            sequence.name,
            "at most 27 fields in a struct: make a struct of some of them",
        )),
    }
}
