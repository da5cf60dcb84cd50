//! The names of all crates' definitions, and which definition a name means.
use crate::naming::type_name;
use std::alloc::{AllocError, Global};
use std::collections::BTreeMap;
use tlsgen_model::names::module_name;
use tlsgen_syntax::syntax::{File, Item};

// A definition's names.
#[derive(Drop)]
struct Spelled {
    file: usize,
    /// As its text has it.
    text: String,
    /// What stands for it where another crate has its name, so that no two have one name.
    hidden: Option<String>,
}

/// The names of all definitions. A name is the same without its dots: `ASN1Cert` is `ASN.1Cert`.
#[derive(Drop)]
pub struct Definitions {
    by_name: BTreeMap<String, Vec<Spelled>>,
    /// The files that define a type of this name in Rust.
    homes: BTreeMap<String, Vec<usize>>,
    /// What stands for hidden enums, by their names in small letters.
    small: BTreeMap<String, Vec<Spelled>>,
}

/// What a name means in a file.
#[derive(Clone, Copy)]
pub enum Meaning<'a> {
    /// Nothing that a file defines.
    Nothing,
    /// The definition that is called so from now on.
    One(&'a String),
    /// A definition of each of several crates.
    Several,
}

impl Definitions {
    pub fn new(alloc: Global, files: &[File]) -> Result<Definitions, AllocError> {
        let mut definitions = Definitions {
            by_name: BTreeMap::new(alloc),
            homes: BTreeMap::new(alloc),
            small: BTreeMap::new(alloc),
        };
        for (at, file) in files.iter().enumerate() {
            for item in &file.items {
                definitions.add_home(alloc, at, item)?;
            }
        }
        for (at, file) in files.iter().enumerate() {
            let is_last = at.saturating_add(1) == files.len();
            for item in &file.items {
                definitions.add(alloc, at, is_last, item)?;
            }
        }
        Ok(definitions)
    }

    fn add_home(&mut self, alloc: Global, file: usize, item: &Item) -> Result<(), AllocError> {
        let name = type_name(alloc, item.name().text.as_str())?;
        if let Some(homes) = self.homes.get_mut(&name) {
            if homes.last() != Some(&file) {
                homes.push(file)?;
            }
            return Ok(());
        }
        self.homes.insert(name, vec![in alloc; file]?)?;
        Ok(())
    }

    // Whether another crate has the name in Rust of an item.
    fn is_shared(&self, alloc: Global, item: &Item) -> Result<bool, AllocError> {
        let name = type_name(alloc, item.name().text.as_str())?;
        Ok(self.homes.get(&name).is_some_and(|homes| homes.len() > 1))
    }

    fn add(
        &mut self,
        alloc: Global,
        file: usize,
        is_last: bool,
        item: &Item,
    ) -> Result<(), AllocError> {
        let text = &item.name().text;
        let hidden = if !is_last && self.is_shared(alloc, item)? {
            Some(self.unused(alloc, text.as_str(), file)?)
        } else {
            None
        };
        if let Some(hidden) = &hidden {
            if matches!(item, Item::Enum(_)) {
                let small = module_name(alloc, text.as_str())?;
                let spelled = Spelled {
                    file,
                    text: text.clone()?,
                    hidden: Some(hidden.clone()?),
                };
                push(alloc, &mut self.small, small, spelled)?;
            }
        }
        let spelled = Spelled {
            file,
            text: text.clone()?,
            hidden,
        };
        push(
            alloc,
            &mut self.by_name,
            without_dots(alloc, text.as_str())?,
            spelled,
        )
    }

    // A name that no type has, for one of a crate.
    fn unused(&self, alloc: Global, text: &str, file: usize) -> Result<String, AllocError> {
        let own = type_name(alloc, text)?;
        let own = own.as_str();
        let mut name = format!(in alloc; "{own}Of{file}")?;
        for _ in 0..self.homes.len() {
            if !self.homes.contains_key(&name) {
                break;
            }
            name.push_str("x")?;
        }
        Ok(name)
    }

    /// What a name means in a file: its own definition, or else that of the one crate before it that has one.
    pub fn meaning(
        &self,
        alloc: Global,
        file: usize,
        name: &str,
    ) -> Result<Meaning<'_>, AllocError> {
        let key = without_dots(alloc, name)?;
        Ok(meaning_among(self.by_name.get(&key), file))
    }

    /// What stands for a definition of a file that has this name, if another crate has it too.
    pub fn hidden_name(
        &self,
        alloc: Global,
        file: usize,
        text: &String,
    ) -> Result<Option<&String>, AllocError> {
        let Some(all) = self.by_name.get(&without_dots(alloc, text.as_str())?) else {
            return Ok(None);
        };
        match all.iter().find(|one| one.file == file && one.text == *text) {
            Some(own) => Ok(own.hidden.as_ref()),
            None => Ok(None),
        }
    }

    /// What stands for a hidden enum of a file, by its name in small letters.
    pub fn hidden_enum(&self, file: usize, small: &str) -> Option<&String> {
        let all = self.small.get(small)?;
        let own = all.iter().find(|one| one.file == file)?;
        own.hidden.as_ref()
    }

    /// The crates before a file that define a name.
    pub fn homes_before(
        &self,
        alloc: Global,
        file: usize,
        name: &str,
    ) -> Result<Vec<usize>, AllocError> {
        let mut homes = Vec::new(alloc);
        if let Some(all) = self.by_name.get(&without_dots(alloc, name)?) {
            for one in all.iter().filter(|one| one.file < file) {
                homes.push(one.file)?;
            }
        }
        Ok(homes)
    }

    /// The names in Rust of what stands for hidden definitions.
    pub fn hidden(&self, alloc: Global) -> Result<Vec<String>, AllocError> {
        let mut names = Vec::new(alloc);
        for all in self.by_name.values() {
            for one in all {
                if let Some(hidden) = &one.hidden {
                    names.push(hidden.clone()?)?;
                }
            }
        }
        Ok(names)
    }
}

fn push(
    alloc: Global,
    names: &mut BTreeMap<String, Vec<Spelled>>,
    name: String,
    spelled: Spelled,
) -> Result<(), AllocError> {
    if let Some(all) = names.get_mut(&name) {
        all.push(spelled)?;
        return Ok(());
    }
    let mut all = Vec::new(alloc);
    all.push(spelled)?;
    names.insert(name, all)?;
    Ok(())
}

fn meaning_among(all: Option<&Vec<Spelled>>, file: usize) -> Meaning<'_> {
    let Some(all) = all else {
        return Meaning::Nothing;
    };
    if let Some(own) = all.iter().find(|one| one.file == file) {
        return Meaning::One(name_of(own));
    }
    let mut before = all.iter().filter(|one| one.file < file);
    match (before.next(), before.next()) {
        (None, _) => Meaning::Nothing,
        (Some(one), None) => Meaning::One(name_of(one)),
        (Some(_), Some(_)) => Meaning::Several,
    }
}

fn name_of(one: &Spelled) -> &String {
    match &one.hidden {
        Some(hidden) => hidden,
        None => &one.text,
    }
}

fn without_dots(alloc: Global, text: &str) -> Result<String, AllocError> {
    text.chars().filter(|c| *c != '.').collect(alloc)
}
