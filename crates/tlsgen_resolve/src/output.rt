//! What is made of the files.
ghost use Rattle.std.specs.Prelude.{IfOk};
ghost use Rattle.tlsgen_model.specs.Writable.{AreWritable, HaveModules, IsWritable};

use crate::others::others_of;
use crate::reject::rejected;
use std::alloc::{AllocError, Global};
use std::collections::{BTreeMap, BTreeSet};
use std::mem::replace;
use tlsgen_model::messages::Messages;
use tlsgen_model::plan::{Alias, Context, Element, Holder, Message, Other, Plan};
use tlsgen_syntax::rejection::{Place, Trouble};

/// The messages and aliases that are made, and what is kept while they are.
#[derive(Drop)]
pub struct Output {
    alloc: Global,
    /// The messages of the crate that is resolved now.
    messages: Messages,
    /// Those of the crates before it.
    before: Vec<Message>,
    // Each message by its name, the last one that has it.
    made: BTreeMap<String, Made>,
    // The modules of its messages.
    modules: BTreeSet<String>,
    // Those of the crates before it, also of their other items.
    modules_before: BTreeSet<String>,
    pub aliases: Vec<Alias>,
    // The messages that hold a tag, of all crates, and the positions of each among them by its name.
    holders: Vec<Holder>,
    holders_by_name: BTreeMap<String, Vec<usize>>,
    // The enums that are the context of a message, and the crates that have such messages.
    contexts: BTreeMap<String, Vec<usize>>,
    /// The types of tags, which are no members of their own, of the crate that is resolved now.
    pub tags: Vec<String>,
    /// The types of constants, and the crates that have each.
    constants: BTreeMap<String, Vec<usize>>,
    /// The enums that aren't written.
    unwritten: Vec<String>,
    /// The placeholders for definitions whose names another crate has too.
    hidden: Vec<String>,
    count: usize,
    /// The crate that is resolved now, by the position of its file.
    pub home: usize,
}

// What is known of a message by its name.
#[derive(Clone, Copy)]
struct Made {
    home: usize,
    is_borrowed: bool,
}

impl Output {
    /// The empty output for `count` crates. `hidden` has the placeholders for definitions whose
    /// names another crate has too.
    pub fn new(alloc: Global, count: usize, hidden: Vec<String>) -> Output {
        Output {
            alloc,
            messages: Messages::new(alloc),
            before: Vec::new(alloc),
            made: BTreeMap::new(alloc),
            modules: BTreeSet::new(alloc),
            modules_before: BTreeSet::new(alloc),
            aliases: Vec::new(alloc),
            holders: Vec::new(alloc),
            holders_by_name: BTreeMap::new(alloc),
            contexts: BTreeMap::new(alloc),
            tags: Vec::new(alloc),
            constants: BTreeMap::new(alloc),
            unwritten: Vec::new(alloc),
            hidden,
            count,
            home: 0,
        }
    }

    /// Goes on to another crate. `modules`: those of the items of the one before.
    pub fn enter(&mut self, home: usize, modules: BTreeSet<String>) -> Result<(), AllocError> {
        let done = replace(&mut self.messages, Messages::new(self.alloc));
        for message in done.into_messages_but(self.home, &BTreeSet::new(self.alloc)) {
            self.before.push(message)?;
        }
        for module in replace(&mut self.modules, BTreeSet::new(self.alloc)) {
            self.modules_before.insert(module)?;
        }
        for module in modules {
            self.modules_before.insert(module)?;
        }
        self.tags = Vec::new(self.alloc);
        self.home = home;
        Ok(())
    }

    /// The messages so far of the crate that is resolved now.
    pub fn messages(&self) -> &[Message] {
        self.messages.as_slice()
    }

    /// Those of the crates before it.
    pub fn before(&self) -> &[Message] {
        &self.before
    }

    /// The names of enums that aren't written.
    pub fn unwritten(&self) -> &[String] {
        &self.unwritten
    }

    /// What stands for definitions of other crates that the last one can't name, if that is resolved now.
    pub fn hidden(&self) -> &[String] {
        if self.home.saturating_add(1) == self.count {
            &self.hidden
        } else {
            &[]
        }
    }

    /// Which crate has the message of this name.
    pub fn home_of(&self, name: &String) -> Option<usize> {
        self.made.get(name).map(|made| made.home)
    }

    /// Whether a message of a crate is in the context of the enum of this name.
    pub fn is_context(&self, home: Option<usize>, name: &String) -> bool {
        match (home, self.contexts.get(name)) {
            (Some(home), Some(homes)) => homes.contains(&home),
            _ => false,
        }
    }

    // Keeps that a message of the crate that is resolved now is in the context of an enum, if it is.
    fn keep_context(&mut self, message: &Message) -> Result<(), AllocError> {
        if let Some(
            Context {
                of: Element::Message(name),
                ..
            },
        ) = &message.context
        {
            keep_at(self.alloc, &mut self.contexts, name, message.home)?;
        }
        Ok(())
    }

    /// Whether the type of a constant is there: in the crate that is resolved now, or in one other alone.
    pub fn has_constant(&self, name: &String) -> bool {
        match self.constants.get(name) {
            Some(homes) => homes.len() == 1 || homes.last() == Some(&self.home),
            None => false,
        }
    }

    /// Whether a crate has the type of a constant.
    pub fn is_constant(&self, name: &String) -> bool {
        self.constants.contains_key(name)
    }

    /// Keeps that the crate that is resolved now has the type of a constant.
    pub fn keep_constant(&mut self, name: &String) -> Result<(), AllocError> {
        keep_at(self.alloc, &mut self.constants, name, self.home)
    }

    /// The messages that hold a tag, of all crates.
    pub fn holders(&self) -> &[Holder] {
        &self.holders
    }

    /// How the message of this name holds a tag of this type.
    pub fn holder(&self, name: &String, tag: &String) -> Option<&Holder> {
        for at in self.holders_by_name.get(name)? {
            let holder = self.holders.get(*at)?;
            if holder.tag == *tag {
                return Some(holder);
            }
        }
        None
    }

    /// Keeps that a message holds a tag.
    pub fn push_holder(&mut self, holder: Holder) -> Result<(), AllocError> {
        let at = self.holders.len();
        keep_at(self.alloc, &mut self.holders_by_name, &holder.name, at)?;
        self.holders.push(holder)?;
        Ok(())
    }

    /// Whether a message of the crate that is resolved now has this module.
    pub fn has_module(&self, name: &String) -> bool {
        self.modules.contains(name)
    }

    /// Whether a crate before it has this module.
    pub fn is_before(&self, module: &String) -> bool {
        self.modules_before.contains(module)
    }

    /// Whether the message of this name has references to its fields.
    pub fn is_borrowed(&self, name: &String) -> bool {
        self.made.get(name).is_some_and(|made| made.is_borrowed)
    }

    /// Appends a message. Rejects it if another has its module.
    pub fn push(&mut self, place: Place, message: Message) -> Result<(), Trouble>
        requires { IsWritable message.body }
    {
        let made = Made {
            home: message.home,
            is_borrowed: message.is_borrowed,
        };
        let name = message.name.clone()?;
        let module = message.module.clone()?;
        self.keep_context(&message)?;
        match self.messages.push(message)? {
            None => {
                self.made.insert(name, made)?;
                self.modules.insert(module)?;
                Ok(())
            }
            Some(message) => Err(rejected(
                self.alloc,
                place,
                message.name.as_str(),
                "a name that no type has",
            )),
        }
    }

    /// Leaves enums of these names out of what is written.
    pub fn leave_out(&mut self, names: Vec<String>) -> Result<(), AllocError> {
        for name in names {
            self.unwritten.push(name)?;
        }
        Ok(())
    }

    /// The plan of the crate that was resolved last.
    pub fn into_plan(self, alloc: Global) -> Result<Plan, AllocError>
        ensures writable { IfOk result (λ plan. AreWritable plan.messages.items) }
        ensures differ { IfOk result (λ plan. HaveModules plan.messages.items) }
    {
        let others = others_of(alloc, &self)?;
        let home = self.home;
        let mut aliases = self.aliases;
        aliases.retain(|alias| alias.home == home);
        let mut unwritten = BTreeSet::new(alloc);
        for name in self.unwritten {
            unwritten.insert(name)?;
        }
        let messages = self.messages.into_messages_but(home, &unwritten);
        let names = names_of(alloc, &messages)?;
        let mut holders = self.holders;
        holders.retain(|holder| names.contains(&holder.name));
        Ok(Plan {
            aliases,
            messages,
            others,
            holders,
        })
    }
}

fn names_of(alloc: Global, messages: &[Message]) -> Result<BTreeSet<String>, AllocError> {
    let mut names = BTreeSet::new(alloc);
    for message in messages {
        names.insert(message.name.clone()?)?;
    }
    Ok(names)
}

// Adds a position to those of a name.
fn keep_at(
    alloc: Global,
    places: &mut BTreeMap<String, Vec<usize>>,
    name: &String,
    at: usize,
) -> Result<(), AllocError> {
    if let Some(own) = places.get_mut(name) {
        own.push(at)?;
        return Ok(());
    }
    places.insert(name.clone()?, vec![in alloc; at]?)?;
    Ok(())
}

/// Whether both are one place of a text.
pub fn is_same(one: Place, other: Place) -> bool {
    one.line == other.line && one.column == other.column
}
