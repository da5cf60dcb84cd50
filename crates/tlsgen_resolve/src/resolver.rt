//! What is known while files are resolved, and what is made of them.
ghost use Rattle.std.specs.Prelude.{IfOk};
ghost use Rattle.tlsgen_model.specs.Types.{IsType};
ghost use Rattle.tlsgen_model.specs.Writable.{IsWritable};

use crate::checks::{check_letters, type_module};
use crate::counted::counted_type;
use crate::definitions::Definitions;
use crate::held::{PlacedTag, member_name};
use crate::items::MAX_ITEMS;
use crate::known::{Known, needs_outer_tag, sequence_named};
use crate::members::ResolvedMember;
use crate::naming::{definition_doc, type_name};
use crate::output::Output;
use crate::reject::{Budget, rejected};
use crate::scope::Scope;
use crate::sequence::Sequence;
use crate::types::{declared, type_of};
use std::alloc::{AllocError, Global};
use std::collections::{BTreeMap, BTreeSet};
use std::mem::replace;
use tlsgen_model::names::module_name;
use tlsgen_model::plan::{Body, Decided, Member, Message, Type};
use tlsgen_syntax::rejection::{Place, Trouble};
use tlsgen_syntax::syntax::{Field, File, Name, Remark};

/// Resolves files, one crate after another, and in each the items after those that they contain.
#[derive(Drop)]
pub struct Resolver<'a> {
    pub alloc: Global,
    /// The files so far: those of other crates, and the one that is resolved now.
    pub scope: Scope<'a>,
    // The modules of the items of the file that is resolved now.
    modules: BTreeSet<String>,
    /// The structs that are resolved.
    pub known: Known<'a>,
    /// Where the tags of selects are in the messages, by the structs that have them.
    pub placed: BTreeMap<String, Vec<PlacedTag>>,
    pub out: Output,
    pub budget: Budget,
}

impl<'a> Resolver<'a> {
    /// `most`: how many fields and cases may be made in all.
    pub fn new(
        alloc: Global,
        definitions: &Definitions,
        scope: Scope<'a>,
        most: usize,
    ) -> Result<Resolver<'a>, AllocError> {
        Ok(Resolver {
            alloc,
            scope,
            modules: BTreeSet::new(alloc),
            known: Known::new(alloc),
            placed: BTreeMap::new(alloc),
            out: Output::new(alloc, scope.files.len(), definitions.hidden(alloc)?),
            budget: Budget::new(most),
        })
    }

    /// Goes on to the last of these files.
    pub fn enter(&mut self, scope: Scope<'a>, home: usize) -> Result<(), AllocError> {
        self.scope = scope;
        let modules = replace(&mut self.modules, BTreeSet::new(self.alloc));
        self.out.enter(home, modules)
    }

    /// Keeps the modules of a file's items. Rejects a name that can't be written, and one that is given twice.
    pub fn add_modules(&mut self, file: &File) -> Result<(), Trouble> {
        for item in &file.items {
            self.add_module(item.name())?;
        }
        Ok(())
    }

    fn add_module(&mut self, name: &Name) -> Result<(), Trouble> {
        if self.scope.count() > MAX_ITEMS {
            return Err(self.rejected_name(name, "at most 100000 definitions"));
        }
        let module = type_module(self.alloc, name)?;
        if self.modules.contains(&module) {
            return Err(self.rejected_name(
                name,
                "a name that no definition above has, and whose words aren't those of one above",
            ));
        }
        self.modules.insert(module)?;
        Ok(())
    }

    /// Whether an item or a message has this module.
    pub fn is_taken(&self, module: &String) -> bool {
        self.is_taken_here(module) || self.out.is_before(module)
    }

    /// Whether an item or a message of the crate that is resolved now has this module.
    pub fn is_taken_here(&self, module: &String) -> bool {
        self.modules.contains(module) || self.out.has_module(module)
    }

    /// The error for a rejected name.
    pub fn rejected_name(&self, name: &Name, expected: &'static str) -> Trouble {
        rejected(self.alloc, name.place, name.text.as_str(), expected)
    }

    /// The member of a field.
    pub fn member_of(&mut self, field: &Field) -> Result<ResolvedMember, Trouble> {
        self.check_member(field)?;
        let of = type_of(self.alloc, self.scope, field)?;
        self.typed_member(field, of)
    }

    /// The member of bytes that fill what a length counts.
    pub fn filling_member(
        &mut self,
        length: &Field,
        field: &Field,
    ) -> Result<ResolvedMember, Trouble> {
        let of = counted_type(self.alloc, self.scope, length, field)?;
        self.typed_member(field, of)
    }

    /// The member of a number and of the field that it counts.
    pub fn counted_member_of(
        &mut self,
        length: &Field,
        field: &Field,
    ) -> Result<ResolvedMember, Trouble> {
        self.check_member(field)?;
        let of = counted_type(self.alloc, self.scope, length, field)?;
        self.typed_member(field, of)
    }

    fn check_member(&mut self, field: &Field) -> Result<(), Trouble> {
        let name = &field.name;
        self.budget
            .take(self.alloc, name.place, name.text.as_str())?;
        check_letters(self.alloc, name)?;
        self.check_context(field)
    }

    // Rejects a type that fills a length, or that is in a context, where it can't be.
    fn check_context(&self, field: &Field) -> Result<(), Trouble> {
        let Some(sequence) = sequence_named(&self.known, field.of.text.as_str()) else {
            return Ok(());
        };
        match self.misplaced(sequence, field)? {
            Some(expected) => Err(self.rejected_name(&field.of, expected)),
            None => Ok(()),
        }
    }

    // What should be in place of a field of a struct's type.
    fn misplaced(
        &self,
        sequence: &Sequence<'a>,
        field: &Field,
    ) -> Result<Option<&'static str>, AllocError> {
        if sequence.is_filling {
            return Ok(Some(
                "no struct that fills what is left, but as all of a case whose length counts the rest",
            ));
        }
        if let Some(padding) = &sequence.padding {
            return Ok(Some(padding.instead()));
        }
        if sequence.context.is_none() {
            return Ok(None);
        }
        if self.is_elsewhere(sequence.name)? {
            return Ok(Some("no type of another crate that is in the context of a tag elsewhere"));
        }
        if field.is_optional {
            return Ok(Some("no option of what is in the context of a tag elsewhere"));
        }
        Ok(None)
    }

    // Whether another crate has the message of this struct.
    fn is_elsewhere(&self, name: &str) -> Result<bool, AllocError> {
        let home = self.out.home_of(&type_name(self.alloc, name)?);
        Ok(home != Some(self.out.home))
    }

    fn typed_member(&self, field: &Field, of: Type) -> Result<ResolvedMember, Trouble>
        requires { IsType of }
    {
        let decided = if needs_outer_tag(&self.known, field.of.text.as_str()) {
            Decided::Outside
        } else {
            Decided::Alone
        };
        Ok(ResolvedMember {
            member: Member {
                name: member_name(self.alloc, field)?,
                of,
                decided,
                present_for: None,
                declared: declared(self.alloc, field)?,
                comment: field.name.remark.text.clone()?,
            },
            place: field.name.place,
        })
    }

    /// The message of a definition, by its name in the text, without references.
    pub fn defined_message(
        &self,
        name: &str,
        remark: &Remark,
        body: Body,
    ) -> Result<Message, AllocError>
        requires { IsWritable body }
        ensures { IfOk result (λ message. IsWritable message.body) }
    {
        let doc = definition_doc(self.alloc, name, remark)?;
        self.message(type_name(self.alloc, name)?, doc, body)
    }

    /// A message of the crate that is resolved now, by its name in Rust, without references.
    pub fn message(&self, name: String, doc: String, body: Body) -> Result<Message, AllocError>
        requires { IsWritable body }
        ensures { IfOk result (λ message. IsWritable message.body) }
    {
        Ok(Message {
            module: module_name(self.alloc, name.as_str())?,
            home: self.out.home,
            is_borrowed: false,
            doc,
            context: None,
            tag: None,
            name,
            body,
        })
    }

    /// Appends a message. Rejects it if another has its module.
    pub fn push(&mut self, place: Place, message: Message) -> Result<(), Trouble>
        requires { IsWritable message.body }
    {
        self.out.push(place, message)
    }
}
