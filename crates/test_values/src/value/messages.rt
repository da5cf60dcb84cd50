//! The messages of `tls_codec_vectors`.
use super::{Value, push_list};
use std::alloc::{AllocError, Global};
use tls_codec_vectors::{Leaf, Log, Step};

impl Value for Leaf {
    fn show(&self, alloc: Global, out: &mut String) -> Result<(), AllocError> {
        out.push_str("leaf ")?;
        self.code.show(alloc, out)?;
        out.push(' ')?;
        self.name.show(alloc, out)
    }
}

impl Value for Step {
    fn show(&self, alloc: Global, out: &mut String) -> Result<(), AllocError> {
        match self {
            Step::Ping => out.push_str("ping"),
            Step::Note(text) => {
                out.push_str("note ")?;
                text.show(alloc, out)
            }
            Step::Jump(to) => {
                out.push_str("jump ")?;
                to.show(alloc, out)
            }
        }
    }
}

impl Value for Log {
    fn show(&self, alloc: Global, out: &mut String) -> Result<(), AllocError> {
        out.push_str("log ")?;
        self.id.show(alloc, out)?;
        out.push(' ')?;
        push_list(alloc, out, self.leaves.as_slice())?;
        match &self.last {
            None => Ok(()),
            Some(last) => {
                out.push(' ')?;
                last.show(alloc, out)
            }
        }
    }
}
