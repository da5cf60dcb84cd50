//! Texts with a line for each value or case of a message.

use crate::template::Holes;
use crate::variant_forms::VariantForm;
use std::alloc::{AllocError, Global};

/// Templates of such a text. The message fills the parts before all lines and after them.
pub struct Lines {
    /// The hole that the text is for.
    pub hole: &'static str,
    pub before: &'static str,
    /// The line of a value or of a case.
    pub each: &'static str,
    /// That of a case without fields, if it is another.
    pub bare: Option<&'static str>,
    /// That of a case of one field, if it is another.
    pub one: Option<&'static str>,
    pub after: &'static str,
    /// The whole text if there is only one value or case and it has no fields: then there is
    /// nothing to distinguish.
    pub alone: Option<&'static str>,
}

impl Lines {
    /// The text for these values or cases of a message.
    pub fn filled(
        &self,
        alloc: Global,
        of_message: &Holes,
        parts: &[VariantForm],
    ) -> Result<String, AllocError> {
        if let (Some(alone), [only]) = (self.alone, parts)
            && only.fields == 0
        {
            return only.holes.filled(alloc, alone);
        }
        let mut out = of_message.filled(alloc, self.before)?;
        for part in parts {
            let line = match part.fields {
                0 => self.bare,
                1 => self.one,
                _ => None,
            };
            part.holes.push(alloc, &mut out, line.unwrap_or(self.each))?;
        }
        of_message.push(alloc, &mut out, self.after)?;
        Ok(out)
    }
}

/// Sets the holes of these texts.
pub fn set(
    alloc: Global,
    of_message: &mut Holes,
    parts: &[VariantForm],
    texts: &[Lines],
) -> Result<(), AllocError> {
    for lines in texts {
        let text = lines.filled(alloc, of_message, parts)?;
        of_message.set(lines.hole, text)?;
    }
    Ok(())
}
