//! Selects whose tag is elsewhere: a message in the context of the tag.
ghost use Rattle.std.specs.Prelude.{IfOk};
ghost use Rattle.tlsgen_model.specs.Writable.{IsWritable};

use crate::cases::{Labelled, cases_of, tag_of};
use crate::checks::check_letters;
use crate::contexts::{OuterTag, outer_tag};
use crate::given::given_to;
use crate::items::{integer_width, is_single};
use crate::known::sequence_named;
use crate::members::{ResolvedMember, push_member};
use crate::naming::{push_comment, section_doc, type_name, underscored};
use crate::padding::push_padding;
use crate::reject::rejected;
use crate::resolver::Resolver;
use crate::segment::{ResolvedPiece, ResolvedSelect, rejected_counting, rejected_crossing};
use crate::sequence::{IndexedField, Piece, Sequence};
use tlsgen_model::lists::{CaseList, FieldList};
use tlsgen_model::names::field_name;
use tlsgen_model::plan::{Body, Decided, Element, Member, Shape, Type};
use tlsgen_syntax::rejection::{Place, Trouble};
use tlsgen_syntax::syntax::{Field, Name, Select};

impl<'a> Resolver<'a> {
    /// Rejects a borrowed struct in a context.
    pub fn check_borrowed_context(&self, sequence: &Sequence<'_>) -> Result<(), Trouble> {
        if sequence.is_borrowed && sequence.context.is_some() {
            return Err(rejected(
                self.alloc,
                sequence.place,
                sequence.name,
                "no borrowed struct in the context of a tag elsewhere",
            ));
        }
        Ok(())
    }

    /// Makes the message of a select whose tag is elsewhere, or in the field `giver` before it, and puts the member of it
    /// before those that follow. Returns whether that is all of the struct.
    pub fn prepend_sum(
        &mut self,
        sequence: &Sequence<'a>,
        select: &'a Select,
        giver: Option<&'a Field>,
        tail: &mut Vec<ResolvedPiece<'a>>,
    ) -> Result<bool, Trouble> {
        let tag = outer_tag(self.alloc, self.scope, select)?;
        self.check_home(&tag)?;
        let decided = match giver {
            Some(giver) => self.decided_by(sequence, giver, &tag)?,
            None => Decided::Outside,
        };
        let is_all = giver.is_none() && sequence.pieces.len() == 1;
        if !is_all {
            if let Some(member) = self.present_member(sequence, &tag, select, &decided)? {
                tail.push(ResolvedPiece::Member(member))?;
                return Ok(false);
            }
        }
        let given = given_to(self.scope, sequence.name, select);
        let name = if is_all {
            type_name(self.alloc, sequence.name)?
        } else {
            self.sum_name(sequence, given.of_type, &tag)?
        };
        let body = self.sum_body(&tag, select, name.as_str())?;
        self.push_sum(sequence, is_all, &tag, name.clone()?, body)?;
        if !is_all {
            let own = given.of_field.unwrap_or(tag.name);
            let member = self.sum_member(own, select.place, &tag, name, decided)?;
            tail.push(ResolvedPiece::Member(member))?;
        }
        Ok(is_all)
    }

    // Rejects an enum of another crate as a context, unless it is one there.
    fn check_home(&self, tag: &OuterTag<'a>) -> Result<(), Trouble> {
        let Element::Message(name) = tag.element(self.alloc)? else {
            return Ok(());
        };
        let home = self.out.home_of(&name);
        if home == Some(self.out.home) || self.out.is_context(home, &name) {
            return Ok(());
        }
        Err(self.rejected_name(
            tag.name,
            "a tag whose enum this text defines, or has selects on from elsewhere in its own",
        ))
    }

    // The name of the select, or that of the tag's type with `Data`.
    fn sum_name(
        &self,
        sequence: &Sequence<'a>,
        given: Option<&Name>,
        tag: &OuterTag<'a>,
    ) -> Result<String, Trouble> {
        let base = match tag.element(self.alloc)? {
            Element::Message(name) => name,
            _ => type_name(self.alloc, tag.name.text.as_str())?,
        };
        match given {
            Some(name) => self.free_name(name),
            None => self.derived_name(sequence.name, base.as_str(), tag.name),
        }
    }

    fn sum_body(
        &mut self,
        tag: &OuterTag<'a>,
        select: &'a Select,
        name: &str,
    ) -> Result<Body, Trouble>
        ensures { IfOk result IsWritable }
    {
        let cases = cases_of(self.alloc, tag.tag, select, &mut self.budget)?;
        let mut list = CaseList::new(self.alloc, tag.tag.width);
        for case in &cases {
            let mut fields = FieldList::new(self.alloc);
            self.push_fields(case.fields, &mut fields)?;
            self.push_case(case, fields.into_members(), false, name, &mut list)?;
        }
        list.into_sum(None).ok_or(Trouble::Inconsistent)
    }

    /// What comes after each number of a tag and a length, which it fills.
    pub fn counted_body(
        &mut self,
        sequence: &Sequence<'a>,
        tag: IndexedField<'a>,
        select: &ResolvedSelect<'a>,
        length: &'a Field,
        name: &str,
    ) -> Result<Body, Trouble>
        ensures { IfOk result IsWritable }
    {
        if select.tag != tag.index {
            return Err(rejected_crossing(self.alloc, select.place));
        }
        if sequence.is_borrowed {
            return Err(rejected_counting(self.alloc, length));
        }
        let of = tag_of(self.alloc, self.scope, tag.field)?;
        if of.width.bytes > 2 {
            return Err(self.rejected_name(
                &tag.field.of,
                "a tag of 1 or 2 bytes before a length that counts the rest",
            ));
        }
        let mut list = CaseList::new(self.alloc, of.width);
        for case in &select.cases {
            let mut fields = FieldList::new(self.alloc);
            let fills = self.push_counted(length, case, &mut fields)?;
            self.push_case(case, fields.into_members(), fills, name, &mut list)?;
        }
        let width = integer_width(length.of.text.as_str());
        list.into_sum(width)
            .ok_or_else(|| rejected_counting(self.alloc, length))
    }

    // Appends the fields of a case that fill a length. Returns whether they are bytes that do so alone.
    fn push_counted(
        &mut self,
        length: &'a Field,
        case: &Labelled<'a>,
        fields: &mut FieldList,
    ) -> Result<bool, Trouble> {
        let Some(filling) = self.filling_of(case.fields) else {
            self.push_fields(case.fields, fields)?;
            return Ok(false);
        };
        let member = self.filling_member(length, filling)?;
        push_member(self.alloc, fields, member)?;
        Ok(true)
    }

    // The bytes that a case is, if it is one field of a struct of these alone.
    fn filling_of(&self, fields: &[Field]) -> Option<&'a Field> {
        let [field] = fields else {
            return None;
        };
        if !is_single(field) {
            return None;
        }
        let one = sequence_named(&self.known, field.of.text.as_str())?;
        match one.pieces.first() {
            Some(Piece::Field(inner)) if one.is_filling => Some(*inner),
            _ => None,
        }
    }

    // The message of a select, which is all of its struct or not.
    fn push_sum(
        &mut self,
        sequence: &Sequence<'a>,
        is_all: bool,
        tag: &OuterTag<'a>,
        name: String,
        body: Body,
    ) -> Result<(), Trouble>
        requires { IsWritable body }
    {
        let of = sequence.name;
        let by = tag.name.text.as_str();
        let section = section_doc(self.alloc, sequence.remark)?;
        let mut doc = format!(in self.alloc;
            "`select ({by})` of `{of}`{section}: its bytes don't have the tag."
        )?;
        if is_all {
            push_comment(&mut doc, sequence.remark)?;
            push_padding(self.alloc, &mut doc, sequence)?;
        }
        let mut message = self.message(name, doc, body)?;
        message.context = Some(tag.context(self.alloc)?);
        self.push(tag.name.place, message)
    }

    // The member of a select, by its name.
    fn sum_member(
        &self,
        own: &Name,
        place: Place,
        tag: &OuterTag<'a>,
        name: String,
        decided: Decided,
    ) -> Result<ResolvedMember, Trouble> {
        check_letters(self.alloc, own)?;
        let words = underscored(self.alloc, own.text.as_str())?;
        let by = tag.name.text.as_str();
        Ok(ResolvedMember {
            member: Member {
                name: field_name(self.alloc, words.as_str())?,
                of: Type {
                    shape: Shape::One,
                    is_optional: false,
                    element: Element::Message(name),
                },
                decided,
                present_for: None,
                declared: format!(in self.alloc; "select ({by});")?,
                comment: own.remark.text.clone()?,
            },
            place,
        })
    }
}
