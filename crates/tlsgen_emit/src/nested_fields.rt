//! Fields in a row, as tuples that nest.

use crate::fields::{Field, listed};
use crate::imports::is_between_words;
use crate::joining::{FORMATS, Join, LAWS, Rows, TREES, grouped};
use crate::nesting::Nesting;
use crate::owners::Owner;
use crate::template::Holes;
use crate::templates::keys::{WITH_KEY, WITHOUT_KEY};
use crate::types::{Names, parenthesized};
use crate::uses::Uses;
use crate::{contexts, present, views};
use std::alloc::{AllocError, Global};
use tlsgen_model::borrowed::runs_of;
use tlsgen_model::plan::{Holder, Member};

/// The fields of a struct or of a variant.
#[derive(Drop)]
pub struct NestedFields {
    owner: Owner,
    is_borrowed: bool,
    fields: Vec<Field>,
    nesting: Nesting,
}

// What a slice decoder binds beside the bytes that are left, and how that is taken apart: at once, or in steps of its own.
static AT_ONCE: [(&str, &str); 2] = [("split", "$pattern$"), ("apart", "")];

static IN_STEPS: [(&str, &str); 2] = [("split", "parts"), ("apart", "$lets$")];

impl NestedFields {
    /// The fields of a struct or of a case in three groups at most, or those of a variant in two.
    pub fn of<'a>(
        alloc: Global,
        names: &Names<'a>,
        owner: Owner,
        is_borrowed: bool,
        members: &'a [Member],
        uses: &mut Uses<'a>,
    ) -> Result<NestedFields, AllocError> {
        let mut fields = Vec::new(alloc);
        for member in members {
            let mut words = names.words(alloc, &member.of)?;
            uses.add(&words)?;
            if let Some(numbers) = &member.present_for {
                words = present::words_of(alloc, names, uses, words, &member.decided, numbers)?;
            }
            contexts::set_of_field(alloc, names, &mut words.texts, uses, &member.decided)?;
            let at = fields.len();
            let is_copied = names.is_copied(&member.of);
            fields.push(Field::of(alloc, owner, is_borrowed, at, member, words, is_copied)?)?;
        }
        let nesting = nesting_of(alloc, owner, fields.as_slice())?;
        Ok(NestedFields {
            owner,
            is_borrowed,
            fields,
            nesting,
        })
    }

    /// Sets the holes `fields`, `first`, `stated`, `comment`, `declared`, `borrowed`, `borrowed_types`, `pattern`, `lets`, `types`,
    /// `path`, `split`, `apart`, `alike`, `gap`, `plain`, `format` and `law`.
    pub fn set(&self, alloc: Global, holes: &mut Holes) -> Result<(), AllocError> {
        self.set_lists(alloc, holes)?;
        self.set_first(alloc, holes)?;
        self.set_tuples(alloc, holes)?;
        self.set_definitions(alloc, holes)?;
        holes.set("alike", self.alike(alloc)?)?;
        holes.set("borrowed", self.borrowed(alloc)?)?;
        let groups = self.borrowed_groups(alloc, &TYPES)?;
        holes.set(
            "borrowed_types",
            Join::Tuple.joined(alloc, groups.as_slice(), " ")?,
        )
    }

    /// Sets the holes `keyed_part` and `keyed_name` of each field: its type and its name if it has one of these tags.
    pub fn set_keys(&mut self, alloc: Global, holders: &[&Holder]) -> Result<(), AllocError> {
        for field in self.fields.iter_mut() {
            let name = field.holes.filled(alloc, "$name$")?;
            let is_kept = holders.iter().any(|one| one
                .member
                .as_ref()
                .is_some_and(|member| *member == name));
            let texts = if is_kept { &WITH_KEY } else { &WITHOUT_KEY };
            field.holes.set_each(alloc, texts)?;
        }
        Ok(())
    }

    /// Sets the holes `giver_own` and `giver_rust`: a reference to the first field, and what that refers to.
    pub fn set_giver(&self, alloc: Global, holes: &mut Holes) -> Result<(), AllocError> {
        let Some(giver) = self.fields.first() else {
            return Ok(());
        };
        let own = if giver.is_borrowed {
            "&self.$name$"
        } else {
            "$own$"
        };
        holes.set("giver_own", giver.holes.filled(alloc, own)?)?;
        holes.set("giver_rust", giver.holes.filled(alloc, "$rust$")?)
    }

    // The fields one after another.
    fn set_lists(&self, alloc: Global, holes: &mut Holes) -> Result<(), AllocError> {
        let lists = [
            ("fields", "$name$", ", "),
            ("declared", self.owner.declared(), ""),
        ];
        for (word, template, between) in lists {
            holes.set(
                word,
                listed(alloc, self.fields.as_slice(), template, between)?,
            )?;
        }
        Ok(())
    }

    fn set_first(&self, alloc: Global, holes: &mut Holes) -> Result<(), AllocError> {
        if let Some(first) = self.fields.first() {
            let texts = [
                ("first", "$name$"),
                ("stated", "$declared$"),
                ("comment", "$comment$"),
            ];
            for (word, template) in texts {
                holes.set(word, first.holes.filled(alloc, template)?)?;
            }
        }
        Ok(())
    }

    // The type of the tuple, also as a path, as `VLBytes` or `<(u8, u16)>`, and its pattern.
    fn set_tuples(&self, alloc: Global, holes: &mut Holes) -> Result<(), AllocError> {
        for (word, template) in [("pattern", "$bound$"), ("types", "$part$")] {
            holes.set(word, self.nested(alloc, template, Join::Tuple, " ")?)?;
        }
        holes.set("lets", self.let_statements(alloc, "parts")?)?;
        let types = holes.filled(alloc, "$types$")?;
        holes.set("path", path(alloc, types)?)?;
        let split = if self.has_late_array() {
            &IN_STEPS
        } else {
            &AT_ONCE
        };
        holes.set_each(alloc, split)
    }

    // Whether an array comes after a field that is moved: the borrow checker doesn't cover that
    // within a pattern.
    fn has_late_array(&self) -> bool {
        let mut is_moved = false;
        for field in &self.fields {
            if field.is_array && is_moved {
                return true;
            }
            is_moved = is_moved || field.is_moved;
        }
        false
    }

    /// The lines that take the fields of a tuple. If some groups are tuples, they take one group
    /// after another: the borrow checker takes no array out of a nested tuple if another part of
    /// that is moved.
    pub fn let_statements(&self, alloc: Global, tuple: &str) -> Result<String, AllocError> {
        let parts = self.parts(alloc, "$bound$", Join::Tuple)?;
        let counts = self.nesting.counts.as_slice();
        let groups = grouped(alloc, parts.as_slice(), counts, Join::Tuple)?;
        let mut names = Vec::new(alloc);
        let mut lines = String::new(alloc);
        for (at, (group, size)) in groups.iter().zip(&self.nesting.groups).enumerate() {
            if *size > 1 {
                names.push(format!(in alloc; "parts_{at}")?)?;
                writeln!(lines, "        let {group} = parts_{at};")?;
            } else {
                names.push(group.clone()?)?;
            }
        }
        let all = Join::Tuple.joined(alloc, names.as_slice(), " ")?;
        format!(in alloc; "        let {all} = {tuple};\n{lines}")
    }

    // What the fields stand for, their format and its law. Each part has its own line in a struct of more
    // than three fields.
    fn set_definitions(&self, alloc: Global, holes: &mut Holes) -> Result<(), AllocError> {
        let has_lines = self.owner.is_struct() && self.fields.len() > 3;
        let gap = if has_lines { "\n    " } else { " " };
        holes.set_all(alloc, &[("gap", gap)])?;
        let texts = [
            ("plain", "$tree_of$", &TREES),
            ("format", "$format$", &FORMATS),
            ("law", "$law$", &LAWS),
        ];
        for (word, template, rows) in texts {
            holes.set(word, self.defined(alloc, template, rows, gap)?)?;
        }
        Ok(())
    }

    /// One definition for all fields. A struct or a case of one field is that field, and what a variant has is a part of more.
    pub fn defined(
        &self,
        alloc: Global,
        template: &str,
        rows: &'static Rows,
        gap: &str,
    ) -> Result<String, AllocError> {
        let join = Join::Words(rows);
        let text = match (self.owner, self.fields.as_slice()) {
            (Owner::Variant, _) => self.nested(alloc, template, join, gap)?,
            (_, [only]) => only.text(alloc, template)?,
            _ => self.nested(alloc, template, join, gap)?,
        };
        if self.owner.is_struct() {
            Ok(text)
        } else {
            parenthesized(alloc, text)
        }
    }

    /// One text for all fields, by a text for each.
    pub fn nested(
        &self,
        alloc: Global,
        template: &str,
        join: Join,
        gap: &str,
    ) -> Result<String, AllocError> {
        let parts = self.parts(alloc, template, join)?;
        let counts = self.nesting.counts.as_slice();
        let groups = grouped(alloc, parts.as_slice(), counts, join)?;
        join.joined(alloc, groups.as_slice(), gap)
    }

    /// A text for each field, one after another.
    pub fn listed(&self, alloc: Global, template: &str) -> Result<String, AllocError> {
        listed(alloc, self.fields.as_slice(), template, "")
    }

    /// The lines that take `whole` apart, the encoding of the tuple.
    pub fn splits(&self, alloc: Global, whole: &str) -> Result<String, AllocError> {
        let names = self.each(alloc, "$name$")?;
        views::splits(alloc, names.as_slice(), &self.nesting, whole)
    }

    // A text for each part.
    fn parts(&self, alloc: Global, template: &str, join: Join) -> Result<Vec<String>, AllocError> {
        let texts = self.each(alloc, template)?;
        grouped(alloc, texts.as_slice(), self.nesting.parts.as_slice(), join)
    }

    // A text for each field.
    fn each(&self, alloc: Global, template: &str) -> Result<Vec<String>, AllocError> {
        let mut texts = Vec::new(alloc);
        for field in &self.fields {
            texts.push(field.text(alloc, template)?)?;
        }
        Ok(texts)
    }

    // That the fields of two values are equal, such as `(a && (b && c))`.
    fn alike(&self, alloc: Global) -> Result<String, AllocError> {
        let Some((last, others)) = self.fields.split_last() else {
            return String::from_str(alloc, "true");
        };
        let mut out = listed(alloc, others, "($alike$\n        && ", "")?;
        last.holes.push(alloc, &mut out, "$alike$")?;
        for _ in others {
            out.push_str(")")?;
        }
        Ok(out)
    }

    // The borrowed groups, such as `(ByRef2(&self.a, &self.b), ByRef(&self.c))`. The only field of
    // a struct is borrowed itself.
    fn borrowed(&self, alloc: Global) -> Result<String, AllocError> {
        match (self.owner, self.fields.as_slice()) {
            (Owner::Struct, [only]) if self.is_borrowed && !only.is_borrowed => {
                only.holes.filled(alloc, "ByRef(self.$name$)")
            }
            (Owner::Struct | Owner::StructInContext | Owner::AfterTags, [only]) => {
                only.holes.filled(alloc, "self.$name$")
            }
            (Owner::StructInContext | Owner::AfterTags, _) => {
                self.nested(alloc, "$lend$", Join::Tuple, " ")
            }
            (Owner::Struct, _) => {
                let lending = if self.is_borrowed {
                    &OF_BORROWED
                } else {
                    &OF_SELF
                };
                let borrowed = self.listed_groups(alloc, lending)?;
                format!(in alloc; "({borrowed})")
            }
            (Owner::Variant, _) => self.listed_groups(alloc, &MATCHED),
            (Owner::Case, _) => {
                let groups = self.borrowed_groups(alloc, &MATCHED)?;
                Join::Tuple.joined(alloc, groups.as_slice(), " ")
            }
        }
    }

    fn listed_groups(&self, alloc: Global, lending: &Lending) -> Result<String, AllocError> {
        self.borrowed_groups(alloc, lending)?
            .as_slice()
            .join(alloc, ", ")
    }

    fn borrowed_groups(&self, alloc: Global, lending: &Lending) -> Result<Vec<String>, AllocError> {
        let mut groups = Vec::new(alloc);
        let mut left = self.fields.as_slice();
        for size in &self.nesting.groups {
            let Some((group, others)) = left.split_at_checked(*size) else {
                break;
            };
            left = others;
            groups.push(lending.borrowed(alloc, group)?)?;
        }
        Ok(groups)
    }
}

// How fields are borrowed: each by this template, in brackets.
struct Lending {
    template: &'static str,
    open: &'static str,
    close: &'static str,
}

static OF_SELF: Lending = Lending {
    template: "&self.$name$",
    open: "(",
    close: ")",
};

static OF_BORROWED: Lending = Lending {
    template: "self.$name$",
    open: "(",
    close: ")",
};

static MATCHED: Lending = Lending {
    template: "$name$",
    open: "(",
    close: ")",
};

// The type of what is borrowed.
static TYPES: Lending = Lending {
    template: "$type$",
    open: "<'a, ",
    close: ">",
};

impl Lending {
    // A group as it is borrowed. One field is borrowed by `ByRef`, unless it is borrowed itself.
    fn borrowed(&self, alloc: Global, group: &[Field]) -> Result<String, AllocError> {
        let (open, close) = (self.open, self.close);
        let texts = listed(alloc, group, self.template, ", ")?;
        match group {
            [only] if only.is_borrowed => Ok(texts),
            [_] => format!(in alloc; "ByRef{open}{texts}{close}"),
            _ => {
                let size = group.len();
                format!(in alloc; "ByRef{size}{open}{texts}{close}")
            }
        }
    }
}

// How the fields nest: by what is borrowed, or in as few groups as there may be.
fn nesting_of(alloc: Global, owner: Owner, fields: &[Field]) -> Result<Nesting, AllocError> {
    let mut are_borrowed = Vec::new(alloc);
    for field in fields {
        are_borrowed.push(field.is_borrowed)?;
    }
    if are_borrowed.contains(&true) {
        return Nesting::of_groups(alloc, runs_of(alloc, &are_borrowed)?);
    }
    Nesting::of(alloc, fields.len(), owner.most())
}

// A type in front of `::`.
fn path(alloc: Global, of: String) -> Result<String, AllocError> {
    if of.contains(is_between_words) {
        format!(in alloc; "<{of}>")
    } else {
        Ok(of)
    }
}
