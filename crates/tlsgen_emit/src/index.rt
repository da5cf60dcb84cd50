//! The messages of a plan and what other crates have, found by their names.

use std::alloc::{AllocError, Global};
use std::collections::{BTreeMap, BTreeSet};
use tlsgen_model::plan::{Body, Context, Decided, Element, Holder, Member, Message, Other, Plan};

/// What a plan has, by name. Of two with one name it is the first.
#[derive(Drop)]
pub struct Index<'a> {
    pub messages: BTreeMap<&'a str, &'a Message>,
    /// What other crates have.
    pub others: BTreeMap<&'a str, &'a Other>,
    /// The tags of other messages that a message holds.
    pub holders: BTreeMap<&'a str, Vec<&'a Holder>>,
    /// The types of tags that decide parts of messages: each is the context of one, or a field before the parts is it or
    /// holds it.
    pub deciding: BTreeSet<&'a str>,
}

impl<'a> Index<'a> {
    pub fn of(alloc: Global, plan: &'a Plan) -> Result<Index<'a>, AllocError> {
        let mut index = Index {
            messages: BTreeMap::new(alloc),
            others: BTreeMap::new(alloc),
            holders: BTreeMap::new(alloc),
            deciding: BTreeSet::new(alloc),
        };
        for message in &plan.messages {
            index.add_message(message)?;
        }
        for other in &plan.others {
            index.add_other(other)?;
        }
        for holder in &plan.holders {
            index.add_holder(alloc, holder)?;
        }
        Ok(index)
    }

    fn add_message(&mut self, message: &'a Message) -> Result<(), AllocError> {
        let name = message.name.as_str();
        if !self.messages.contains_key(name) {
            self.messages.insert(name, message)?;
        }
        match (&message.context, &message.body) {
            (
                Some(
                    Context {
                        of: Element::Message(of),
                        ..
                    },
                ),
                _,
            ) => self.add_deciding(of.as_str()),
            (_, Body::Fields(members)) => self.add_members(members),
            _ => Ok(()),
        }
    }

    fn add_members(&mut self, members: &'a [Member]) -> Result<(), AllocError> {
        for member in members {
            if let Decided::Before(before) = &member.decided {
                self.add_deciding(before.tag.as_str())?;
            }
        }
        Ok(())
    }

    fn add_deciding(&mut self, name: &'a str) -> Result<(), AllocError> {
        self.deciding.insert(name)?;
        Ok(())
    }

    fn add_other(&mut self, other: &'a Other) -> Result<(), AllocError> {
        let name = other.name.as_str();
        if !self.others.contains_key(name) {
            self.others.insert(name, other)?;
        }
        Ok(())
    }

    fn add_holder(&mut self, alloc: Global, holder: &'a Holder) -> Result<(), AllocError> {
        let name = holder.name.as_str();
        if let Some(all) = self.holders.get_mut(name) {
            all.push(holder)?;
            return Ok(());
        }
        self.holders.insert(name, vec![in alloc; holder]?)?;
        Ok(())
    }
}
