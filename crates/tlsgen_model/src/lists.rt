//! Lists in which each name and each number comes once.
ghost use Rattle.std.specs.Prelude.{◌≡◌, [], ◌≤◌, ◌<◌, ◌^◌, ◌↔◌, IfOk, IfSome, IsSome, IsTrue, length};
ghost use Rattle.std.specs.List.{All};
ghost use Rattle.std.proofs.Props.{props};
ghost use Rattle.tlsgen_model.specs.Taking.{AppendsUnless, TakesCase, TakesValue, has_member_named, has_value_named, has_value_numbered, has_variant_named, has_variant_tagged};
ghost use Rattle.tlsgen_model.specs.Types.{IsType};
ghost use Rattle.tlsgen_model.specs.Width.{is_length};
ghost use Rattle.tlsgen_model.specs.Writable.{HaveNames, HaveNumbers, HaveTags, HaveTypes, HaveValueNames, HaveVariantNames, IsCase, IsWritable};
ghost use Rattle.tlsgen_model.specs.declared.plan.Body.TheVariants as bodies;

use crate::plan::{Body, Member, Value, Variant};
use crate::width::Width;
use std::alloc::{AllocError, Global};

// The most fields of a struct.
const MAX_FIELDS: usize = 27;

// The most fields of a case.
const MAX_CASE_FIELDS: usize = 18;

fn may_be_length(length: Option<usize>) -> bool
    ensures { IsTrue result ↔ IsTrue (is_length length) }
{
    match length {
        None => true,
        Some(width) => 0 < width && width <= 4,
    }
}

/// Why a value or a case isn't appended.
#[derive(Clone, Copy, PartialEq)]
pub enum Unfit {
    /// Its number has more bytes than the others.
    TooGreat,
    /// Another has its number.
    SameNumber,
    /// Another has its name.
    SameName,
    /// A case has more than 18 fields.
    ManyFields,
}

/// Fields in order, each with a type that it may have. No two have the same name.
#[derive(Drop)]
pub struct FieldList {
    members: Vec<Member>,
    ghost differ: { HaveNames members.items } by { Prim.hlevel props },
    ghost typed: { HaveTypes members.items } by { Prim.hlevel props },
}

impl FieldList {
    #[tactic(auto, using(crate::proofs::Keys::names_none))]
    pub fn new(alloc: Global) -> FieldList
        ensures { result.members.items ≡ [] }
    {
        FieldList {
            members: Vec::new(alloc),
        }
    }

    /// Whether a field has this name.
    pub fn has_name(&self, name: &String) -> bool
        ensures { result ≡ has_member_named name.now self.now.members.items }
    {
        self.members.iter().any(|member| *name == member.name)
    }

    /// Appends a field, or gives it back if another has its name.
    #[tactic(auto, using(crate::proofs::Keys::names_push, crate::proofs::Fits::types_push))]
    pub fn push(&mut self, member: Member) -> Result<Option<Member>, AllocError>
        requires { IsType member.of }
        ensures { IfOk result (AppendsUnless (has_member_named member.name self.old.members.items)
            self.old.members.items self.new.members.items member) }
    {
        if self.has_name(&member.name) {
            return Ok(Some(member));
        }
        self.members.push(member)?;
        Ok(None)
    }

    /// The fields of a case.
    pub fn into_members(self) -> Vec<Member>
        ensures members { result ≡ self.members }
        ensures names { HaveNames result.items }
        ensures types { HaveTypes result.items }
    {
        self.members
    }

    /// A struct of these fields, if they are 27 at most.
    pub fn into_body(self) -> Option<Body>
        ensures body { IfSome result (λ body. body ≡ bodies.Fields self.members) }
        ensures none { result ≡ None → length self.members.items ≤ 27 → ⊥ }
        ensures writable { IfSome result IsWritable }
    {
        if self.members.len() > MAX_FIELDS {
            return None;
        }
        Some(Body::Fields(self.members))
    }
}

/// Values of an enum. No two have the same name or number, and each number fits the width.
#[derive(Drop)]
pub struct ValueList {
    pub width: Width,
    values: Vec<Value>,
    ghost named: { HaveValueNames values.items } by { Prim.hlevel props },
    ghost differ: { HaveNumbers values.items } by { Prim.hlevel props },
    ghost fit: { All (λ value. value.number < 256 ^ width.bytes) values.items } by { Prim.hlevel props },
}

impl ValueList {
    #[tactic(auto, using(crate::proofs::Keys::numbers_none, crate::proofs::Keys::value_names_none))]
    pub fn new(alloc: Global, width: Width) -> ValueList
        ensures values { result.values.items ≡ [] }
        ensures width { result.width.bytes ≡ width.bytes }
    {
        ValueList {
            width,
            values: Vec::new(alloc),
        }
    }

    /// How many values there are so far.
    pub fn len(&self) -> usize
        ensures { result ≡ length self.now.values.items }
    {
        self.values.len()
    }

    /// Whether a value has this name.
    pub fn has_name(&self, name: &String) -> bool
        ensures { result ≡ has_value_named name.now self.now.values.items }
    {
        self.values.iter().any(|value| *name == value.name)
    }

    /// Whether a value has this number.
    pub fn has_number(&self, number: u64) -> bool
        ensures { result ≡ has_value_numbered number self.now.values.items }
    {
        self.values.iter().any(|value| number == value.number)
    }

    /// Appends a value, or says why it isn't.
    #[tactic(auto, using(crate::proofs::Keys::numbers_push, crate::proofs::Keys::value_names_push, crate::proofs::Fits::values_fit_push))]
    pub fn push(&mut self, value: Value) -> Result<Option<Unfit>, AllocError>
        ensures taken { IfOk result
            (TakesValue self.old.width.bytes self.old.values.items self.new.values.items value) }
        ensures width { self.new.width ≡ self.old.width }
    {
        if self.has_name(&value.name) {
            return Ok(Some(Unfit::SameName));
        }
        if !self.width.holds(value.number) {
            return Ok(Some(Unfit::TooGreat));
        }
        if self.has_number(value.number) {
            return Ok(Some(Unfit::SameNumber));
        }
        self.values.push(value)?;
        Ok(None)
    }

    pub fn into_body(self, is_open: bool) -> Body
        ensures body { result ≡ bodies.Values self.width.bytes is_open self.values }
        ensures writable { IsWritable result }
    {
        Body::Values {
            width: self.width.bytes,
            is_open,
            values: self.values,
        }
    }
}

/// Cases of a tag, each with at most 18 fields. No two have the same name or number, and each number fits the width.
#[derive(Drop)]
pub struct CaseList {
    pub width: Width,
    variants: Vec<Variant>,
    ghost named: { HaveVariantNames variants.items } by { Prim.hlevel props },
    ghost differ: { HaveTags variants.items } by { Prim.hlevel props },
    ghost fit: { All (IsCase width.bytes) variants.items } by { Prim.hlevel props },
}

impl CaseList {
    #[tactic(auto, using(crate::proofs::Keys::tags_none, crate::proofs::Keys::variant_names_none))]
    pub fn new(alloc: Global, width: Width) -> CaseList
        ensures variants { result.variants.items ≡ [] }
        ensures width { result.width.bytes ≡ width.bytes }
    {
        CaseList {
            width,
            variants: Vec::new(alloc),
        }
    }

    /// Whether a case has this name.
    pub fn has_name(&self, name: &String) -> bool
        ensures { result ≡ has_variant_named name.now self.now.variants.items }
    {
        self.variants.iter().any(|variant| *name == variant.name)
    }

    /// Whether a case has this number.
    pub fn has_tag(&self, tag: u64) -> bool
        ensures { result ≡ has_variant_tagged tag self.now.variants.items }
    {
        self.variants.iter().any(|variant| tag == variant.tag)
    }

    /// Appends a case, or says why it isn't.
    #[tactic(auto, using(crate::proofs::Keys::tags_push, crate::proofs::Keys::variant_names_push, crate::proofs::Fits::cases_fit_push))]
    pub fn push(&mut self, variant: Variant) -> Result<Option<Unfit>, AllocError>
        requires names { HaveNames variant.fields.items }
        requires types { HaveTypes variant.fields.items }
        ensures taken { IfOk result
            (TakesCase self.old.width.bytes self.old.variants.items self.new.variants.items variant) }
        ensures width { self.new.width ≡ self.old.width }
    {
        if variant.fields.len() > MAX_CASE_FIELDS {
            return Ok(Some(Unfit::ManyFields));
        }
        if !self.width.holds(variant.tag) {
            return Ok(Some(Unfit::TooGreat));
        }
        if self.has_tag(variant.tag) {
            return Ok(Some(Unfit::SameNumber));
        }
        if self.has_name(&variant.name) {
            return Ok(Some(Unfit::SameName));
        }
        self.variants.push(variant)?;
        Ok(None)
    }

    pub fn into_body(self) -> Body
        ensures body { result ≡ bodies.Choice self.width.bytes self.variants }
        ensures writable { IsWritable result }
    {
        Body::Choice {
            width: self.width.bytes,
            variants: self.variants,
        }
    }

    /// What comes after the tag and a length, or, without a length, where the tag is the message's context. `None`: a length
    /// has 1 to 4 bytes.
    pub fn into_sum(self, length: Option<usize>) -> Option<Body>
        ensures some { IsSome result ↔ IsTrue (is_length length) }
        ensures body { IfSome result (λ body. body
            ≡ bodies.Sum self.width.bytes length self.variants) }
        ensures writable { IfSome result IsWritable }
    {
        if !may_be_length(length) {
            return None;
        }
        Some(Body::Sum {
            width: self.width.bytes,
            length,
            variants: self.variants,
        })
    }
}
