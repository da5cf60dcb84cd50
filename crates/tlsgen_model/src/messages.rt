//! Messages that can all be written.
ghost use Rattle.std.specs.Prelude.{◌≡◌, [], IfOk};
ghost use Rattle.std.specs.List.{filter};
ghost use Rattle.std.proofs.Props.{props};
ghost use Rattle.tlsgen_model.specs.Taking.{AppendsUnless, Covers, Covers-prop, has_message_in, stays};
ghost use Rattle.tlsgen_model.specs.Writable.{AreWritable, AreWritable-prop, HaveModules, IsWritable};

use crate::plan::Message;
use std::alloc::{AllocError, Global};
use std::collections::BTreeSet;

/// Messages that can all be written. Each has a module of its own.
#[derive(Drop)]
pub struct Messages {
    messages: Vec<Message>,
    /// Their modules, and maybe one that isn't.
    modules: BTreeSet<String>,
    ghost writable: { AreWritable messages.items } by { AreWritable-prop messages.items },
    ghost differ: { HaveModules messages.items } by { Prim.hlevel props },
    ghost covers: { Covers modules messages.items } by { Covers-prop modules messages.items },
}

impl Messages {
    #[tactic(auto, using(crate::proofs::Keys::modules_none, crate::proofs::Covered::covers_none))]
    pub fn new(alloc: Global) -> Messages
        ensures { result.messages.items ≡ [] }
    {
        Messages {
            messages: Vec::new(alloc),
            modules: BTreeSet::new(alloc),
        }
    }

    pub fn as_slice(&self) -> &[Message]
        ensures { result.now ≡ self.now.messages.items }
    {
        &self.messages
    }

    /// Whether a message has this module.
    pub fn has_module(&self, name: &String) -> bool
        ensures { result ≡ has_message_in name.now self.now.messages.items }
    {
        self.modules.contains(name) && self.messages.iter().any(|other| *name == other.module)
    }

    /// Appends a message, or gives it back if another has its module.
    #[tactic(auto, using(crate::proofs::Fits::writable_push, crate::proofs::Keys::modules_push))]
    pub fn push(&mut self, message: Message) -> Result<Option<Message>, AllocError>
        requires { IsWritable message.body }
        ensures { IfOk result (AppendsUnless (has_message_in message.module self.old.messages.items)
            self.old.messages.items self.new.messages.items message) }
    {
        if self.has_module(&message.module) {
            return Ok(Some(message));
        }
        self.modules.insert(message.module.clone()?)?;
        self.messages.push(message)?;
        Ok(None)
    }

    /// The messages of a crate, except those that have one of these names.
    #[tactic(auto, using(crate::proofs::Kept::kept_all, crate::proofs::Kept::kept_modules))]
    pub fn into_messages_but(self, home: usize, names: &BTreeSet<String>) -> Vec<Message>
        ensures kept { result.items ≡ filter (stays home names.now) self.messages.items }
        ensures writable { AreWritable result.items }
        ensures differ { HaveModules result.items }
    {
        let mut messages = self.messages;
        messages.retain(|message| message.home == home && !names.contains(&message.name));
        messages
    }
}
