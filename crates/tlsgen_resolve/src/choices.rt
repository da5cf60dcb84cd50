//! The message of a tag and its selects: one case for each number, with all fields after the tag.
ghost use Rattle.std.specs.Prelude.{IfOk};
ghost use Rattle.tlsgen_model.specs.Writable.{HaveNames, HaveTypes, IsWritable};

use crate::borrowed::has_references;
use crate::cases::{Labelled, cases_of, find_case, tag_of};
use crate::checks::{TOO_GREAT, check_letters};
use crate::given::{Given, given_to};
use crate::held::member_name;
use crate::members::{ResolvedMember, copy, push_member};
use crate::naming::{choice_doc, push_comment, type_name, underscored};
use crate::padding::push_padding;
use crate::reject::rejected;
use crate::resolver::Resolver;
use crate::segment::{
    ResolvedPiece, ResolvedSelect, check_segment, counted_select, nearest_select, rejected_counting,
};
use crate::sequence::{IndexedField, Sequence, tag_of_select};
use crate::types::declared;
use tlsgen_model::lists::{CaseList, FieldList, Unfit};
use tlsgen_model::names::{constant_name, field_name, module_name, variant_name};
use tlsgen_model::plan::{Body, CaseTag, Decided, Element, Member, Message, Shape, Type, Variant};
use tlsgen_syntax::rejection::Trouble;
use tlsgen_syntax::syntax::{Field, Name, Select};

impl<'a> Resolver<'a> {
    /// A select at a position of a struct, with its tag.
    pub fn resolve_select(
        &mut self,
        sequence: &Sequence<'a>,
        select: &'a Select,
        index: usize,
    ) -> Result<ResolvedSelect<'a>, Trouble> {
        let tag = tag_of_select(self.alloc, sequence, select, index)?;
        let of = tag_of(self.alloc, self.scope, tag.field)?;
        let cases = cases_of(self.alloc, of, select, &mut self.budget)?;
        Ok(ResolvedSelect {
            tag: tag.index,
            cases,
            given: given_to(self.scope, sequence.name, select),
            place: select.place,
        })
    }

    /// Makes the message of a struct that is a tag and its cases.
    pub fn make_whole(
        &mut self,
        sequence: &Sequence<'a>,
        tag: IndexedField<'a>,
        segment: &[ResolvedPiece<'a>],
    ) -> Result<(), Trouble> {
        let name = type_name(self.alloc, sequence.name)?;
        let body = self.choice_body(sequence, tag, segment, sequence.name)?;
        let mut doc = choice_doc(self.alloc, tag.field, sequence)?;
        push_comment(&mut doc, sequence.remark)?;
        push_padding(self.alloc, &mut doc, sequence)?;
        self.push_choice(sequence, tag.field, name, doc, body)
    }

    /// Makes the message of a tag and its cases, which are a part of a struct. Returns the member of it.
    pub fn make_part(
        &mut self,
        sequence: &Sequence<'a>,
        tag: IndexedField<'a>,
        segment: &[ResolvedPiece<'a>],
        given: Given<'a>,
    ) -> Result<ResolvedMember, Trouble> {
        let name = self.choice_name(sequence.name, tag.field, given.of_type)?;
        let body = self.choice_body(sequence, tag, segment, name.as_str())?;
        let member = self.choice_member(tag.field, given.of_field, name.clone()?)?;
        let doc = choice_doc(self.alloc, tag.field, sequence)?;
        self.push_choice(sequence, tag.field, name, doc, body)?;
        Ok(member)
    }

    // A tag with all that is in its cases.
    fn choice_body(
        &mut self,
        sequence: &Sequence<'a>,
        tag: IndexedField<'a>,
        segment: &[ResolvedPiece<'a>],
        name: &str,
    ) -> Result<Body, Trouble>
        ensures { IfOk result IsWritable }
    {
        if let Some((select, length)) = counted_select(segment) {
            return self.counted_body(sequence, tag, select, length, name);
        }
        let of = tag_of(self.alloc, self.scope, tag.field)?;
        let mut list = CaseList::new(self.alloc, of.width);
        if let Some(nearest) = nearest_select(segment) {
            let cases = &nearest.cases;
            check_segment(self.alloc, segment, tag.index, cases)?;
            for case in cases {
                let fields = self.case_fields(segment, case)?;
                self.push_case(case, fields, false, name, &mut list)?;
            }
        }
        Ok(list.into_body())
    }

    /// Appends a case of these fields. `fills`: they are bytes that fill what a length counts.
    pub fn push_case(
        &self,
        case: &Labelled<'_>,
        fields: Vec<Member>,
        fills: bool,
        name: &str,
        list: &mut CaseList,
    ) -> Result<(), Trouble>
        requires names { HaveNames fields.items }
        requires types { HaveTypes fields.items }
    {
        let label = case.name.as_str();
        let words = underscored(self.alloc, label)?;
        let variant = Variant {
            label: case.name.clone()?,
            name: variant_name(self.alloc, words.as_str(), name)?,
            constant: constant_name(self.alloc, words.as_str())?,
            tag: case.number,
            fills,
            fields,
        };
        match list.push(variant)? {
            None => Ok(()),
            Some(unfit) => Err(rejected(self.alloc, case.place, label, expected(unfit))),
        }
    }

    // The message of a tag and its cases, by its name and doc comment.
    fn push_choice(
        &mut self,
        sequence: &Sequence<'_>,
        tag: &'a Field,
        name: String,
        doc: String,
        body: Body,
    ) -> Result<(), Trouble>
        requires { IsWritable body }
    {
        self.check_runs(sequence, &body)?;
        let message = Message {
            module: module_name(self.alloc, name.as_str())?,
            home: self.out.home,
            is_borrowed: has_references(sequence, &body),
            doc,
            context: None,
            tag: Some(self.tag_of_cases(tag)?),
            name,
            body,
        };
        self.push(tag.name.place, message)
    }

    // The tag in front of a message's cases.
    fn tag_of_cases(&self, field: &'a Field) -> Result<CaseTag, Trouble> {
        check_letters(self.alloc, &field.name)?;
        let name = member_name(self.alloc, field)?;
        let tag = tag_of(self.alloc, self.scope, field)?;
        let Some(one) = tag.of else {
            return Ok(CaseTag {
                name,
                of: None,
                is_open: false,
            });
        };
        Ok(CaseTag {
            name,
            of: Some(type_name(self.alloc, one.name.text.as_str())?),
            is_open: one.is_open,
        })
    }

    // The member is called as its tag, or by the name that the select gives it.
    fn choice_member(
        &self,
        tag: &Field,
        given: Option<&Name>,
        name: String,
    ) -> Result<ResolvedMember, Trouble> {
        let own = given.unwrap_or(&tag.name);
        check_letters(self.alloc, own)?;
        let words = underscored(self.alloc, own.text.as_str())?;
        let mut declared = declared(self.alloc, tag)?;
        let of_tag = tag.name.text.as_str();
        write!(declared, " select ({of_tag});")?;
        Ok(ResolvedMember {
            member: Member {
                name: field_name(self.alloc, words.as_str())?,
                of: Type {
                    shape: Shape::One,
                    is_optional: false,
                    element: Element::Message(name),
                },
                decided: Decided::Alone,
                present_for: None,
                declared,
                comment: tag.name.remark.text.clone()?,
            },
            place: tag.name.place,
        })
    }

    // What follows a tag in a case, from the first to the last.
    fn case_fields(
        &mut self,
        segment: &[ResolvedPiece<'a>],
        case: &Labelled<'a>,
    ) -> Result<Vec<Member>, Trouble>
        ensures names { IfOk result (λ fields. HaveNames fields.items) }
        ensures types { IfOk result (λ fields. HaveTypes fields.items) }
    {
        let mut list = FieldList::new(self.alloc);
        for piece in segment.iter().rev() {
            match piece {
                ResolvedPiece::Member(member) => self.push_copy(member, &mut list)?,
                ResolvedPiece::Select(select) => self.push_own(select, case.number, &mut list)?,
                ResolvedPiece::Length(length) => return Err(rejected_counting(self.alloc, length)),
            }
        }
        Ok(list.into_members())
    }

    // Appends a member that other cases have too.
    fn push_copy(&mut self, member: &ResolvedMember, list: &mut FieldList) -> Result<(), Trouble> {
        let name = member.member.name.as_str();
        self.budget.take(self.alloc, member.place, name)?;
        self.push_of_case(copy(member)?, list)
    }

    // Appends a member of a case. Rejects one in the context of a tag elsewhere.
    fn push_of_case(&self, member: ResolvedMember, list: &mut FieldList) -> Result<(), Trouble> {
        if !matches!(member.member.decided, Decided::Alone) {
            return Err(rejected(
                self.alloc,
                member.place,
                member.member.name.as_str(),
                "no field of a case, or between a tag and its select, in the context of a tag elsewhere",
            ));
        }
        push_member(self.alloc, list, member)
    }

    // Appends the fields that a select has for a number.
    fn push_own(
        &mut self,
        select: &ResolvedSelect<'a>,
        number: u64,
        list: &mut FieldList,
    ) -> Result<(), Trouble> {
        let Some(case) = find_case(&select.cases, number) else {
            return Ok(());
        };
        self.push_fields(case.fields, list)
    }

    /// Appends the fields of a case.
    pub fn push_fields(&mut self, fields: &[Field], list: &mut FieldList) -> Result<(), Trouble> {
        for field in fields {
            let member = self.member_of(field)?;
            self.push_of_case(member, list)?;
        }
        Ok(())
    }
}

// What a case that isn't appended should be.
fn expected(unfit: Unfit) -> &'static str {
    match unfit {
        Unfit::TooGreat => TOO_GREAT,
        Unfit::SameNumber => "a label that no case above has",
        Unfit::SameName => "a label whose words aren't those of one above",
        Unfit::ManyFields => {
            "at most 18 fields in a case, with those between a tag and its select: make a struct of some of them"
        }
    }
}
