//! Which types fields may have, also those of structs that are no messages of their own.
use crate::counted::{counted_type, length_before};
use crate::ending::ending_of;
use crate::items::{find_struct, is_single};
use crate::notes::{filling_field, is_padding};
use crate::resolver::Resolver;
use crate::sequence::{Piece, Sequence};
use crate::types::type_of;
use tlsgen_syntax::rejection::Trouble;
use tlsgen_syntax::syntax::{Field, File, Item, Part, Select, Struct};

impl<'a> Resolver<'a> {
    /// Rejects a field whose type can't be written.
    pub fn check_types(&self, file: &File) -> Result<(), Trouble> {
        for item in &file.items {
            match item {
                Item::Enum(_) => {}
                Item::Alias(field) => self.check_type(field, false)?,
                Item::Struct(one) => self.check_parts(one)?,
            }
        }
        Ok(())
    }

    // A field that fills what is left has the type of the length that counts it.
    fn check_parts(&self, one: &Struct) -> Result<(), Trouble> {
        if filling_field(self.scope, one).is_some() && !one.is_borrowed
            || ending_of(self.scope, one).is_some()
        {
            return Ok(());
        }
        for (at, part) in one.parts.iter().enumerate() {
            match part {
                Part::Field(field) if is_padding(self.scope, one, field) => {}
                Part::Field(field) => self.check_part(one, at, field)?,
                Part::Select(select) => self.check_cases(select, one.is_borrowed)?,
            }
        }
        Ok(())
    }

    // `check_borrowed` rejects a borrowed struct in one that isn't.
    fn check_part(&self, one: &Struct, at: usize, field: &Field) -> Result<(), Trouble> {
        let Some(length) = length_before(one, at) else {
            return self.check_type(field, true);
        };
        counted_type(self.alloc, self.scope, length, field)?;
        if self.names_borrowed(field) {
            return Err(self.rejected_borrowed(field));
        }
        Ok(())
    }

    fn check_cases(&self, select: &Select, is_borrowed: bool) -> Result<(), Trouble> {
        for case in &select.cases {
            self.check_fields(&case.fields, is_borrowed)?;
        }
        Ok(())
    }

    fn check_fields(&self, fields: &[Field], is_borrowed: bool) -> Result<(), Trouble> {
        for field in fields {
            self.check_type(field, is_borrowed)?;
        }
        Ok(())
    }

    // Also rejects a borrowed struct, unless the field is a single one and is where a borrowed
    // struct may be.
    fn check_type(&self, field: &Field, is_borrowed: bool) -> Result<(), Trouble> {
        type_of(self.alloc, self.scope, field)?;
        if self.names_borrowed(field) && !(is_borrowed && is_single(field)) {
            return Err(self.rejected_borrowed(field));
        }
        Ok(())
    }

    /// Rejects a borrowed struct as a field of a struct that isn't borrowed.
    pub fn check_borrowed(&self, sequence: &Sequence<'_>) -> Result<(), Trouble> {
        if sequence.is_borrowed {
            return Ok(());
        }
        for piece in &sequence.pieces {
            match piece {
                Piece::Field(field) | Piece::Counted(_, field) if self.names_borrowed(field) => {
                    return Err(self.rejected_borrowed(field));
                }
                Piece::Field(_) | Piece::Counted(..) | Piece::Length(_) => {}
                Piece::Select(select) => self.check_cases(select, false)?,
            }
        }
        Ok(())
    }

    fn rejected_borrowed(&self, field: &Field) -> Trouble {
        self.rejected_name(
            &field.of,
            "a type that has its parts: a borrowed struct is only written, and is a field of borrowed structs alone, in no vector and no option",
        )
    }

    fn names_borrowed(&self, field: &Field) -> bool {
        find_struct(self.scope, field.of.text.as_str()).is_some_and(|one| one.is_borrowed)
    }
}
