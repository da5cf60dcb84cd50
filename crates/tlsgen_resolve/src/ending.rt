//! Bytes that end at their type, and zeros to the end of what is read (RFC 8446, section 5.2):
//! `opaque content[TLSPlaintext.length]; ContentType type; uint8 zeros[length_of_padding];`. The struct is another name of
//! `InnerPlaintext<ContentType>`.
use crate::cases::find_tag;
use crate::naming::{definition_doc, type_name};
use crate::notes::{is_sized_by_name, said_of};
use crate::resolver::Resolver;
use crate::scope::Scope;
use crate::types::{declared, type_of};
use tlsgen_model::plan::Alias;
use tlsgen_syntax::rejection::Trouble;
use tlsgen_syntax::syntax::{Field, Part, Said, Struct};

/// The three fields of such a struct.
#[derive(Clone, Copy)]
pub struct Ending<'a> {
    pub content: &'a Field,
    pub kind: &'a Field,
    pub zeros: &'a Field,
}

/// The fields of a struct, if a note says that the second one ends the first.
pub fn ending_of<'a>(scope: Scope<'_>, one: &'a Struct) -> Option<Ending<'a>> {
    let [Part::Field(content), Part::Field(kind), Part::Field(zeros)] = one.parts.as_slice() else {
        return None;
    };
    let is_named = match said_of(scope, &one.name, &kind.name) {
        Some(Said::Ends(name)) => name.text == content.name.text,
        _ => false,
    };
    if is_named && !one.is_borrowed && is_sized_by_name(content) && is_sized_by_name(zeros) {
        Some(Ending {
            content,
            kind,
            zeros,
        })
    } else {
        None
    }
}

impl<'a> Resolver<'a> {
    /// Makes another name of `InnerPlaintext` for such a struct. Rejects a type of more than one byte.
    pub fn make_ending(&mut self, one: &Struct, ending: Ending<'a>) -> Result<(), Trouble> {
        let kind = ending.kind;
        match find_tag(self.alloc, self.scope, kind)? {
            Some(tag) if tag.width.bytes == 1 => {}
            _ => {
                return Err(self.rejected_name(
                    &kind.of,
                    "a type of one byte, an enum or uint8: it is the last byte that isn't zero",
                ));
            }
        }
        let mut doc = definition_doc(self.alloc, one.name.text.as_str(), &one.name.remark)?;
        let kind_line = declared(self.alloc, kind)?;
        let zeros_line = declared(self.alloc, ending.zeros)?;
        write!(
            doc,
            "\n\nIts content ends at `{kind_line}`, the last byte that isn't zero. Zeros go to the end, `{zeros_line}`: all bytes are read."
        )?;
        self.out.aliases.push(Alias {
            name: type_name(self.alloc, one.name.text.as_str())?,
            of: type_of(self.alloc, self.scope, kind)?,
            ends: true,
            home: self.out.home,
            doc,
        })?;
        Ok(())
    }
}
