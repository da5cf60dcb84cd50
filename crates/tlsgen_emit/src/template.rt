//! Templates: texts with holes.
ghost use Rattle.std.specs.Prelude.{[], ◌++◌, ◌==◌, ◌∷◌, ◌≡◌, IfOk, OnOk, map, string_bytes};
ghost use Rattle.std.specs.List.{slice_split};
ghost use Rattle.tlsgen_emit.specs.Templates.{filled, piece_of, text_of};

use std::alloc::{AllocError, Global};

/// What stands for the holes of templates.
///
/// A hole is a word between two dollar signs, as in `pub struct $name$ {`.
#[derive(Drop)]
pub struct Holes {
    pub all: Vec<Hole>,
}

/// A word, and what stands for its hole.
#[derive(Drop)]
pub struct Hole {
    pub word: &'static str,
    pub text: String,
}

impl Holes {
    pub fn new(alloc: Global) -> Holes
        ensures { result.all.items ≡ [] }
    {
        Holes {
            all: Vec::new(alloc),
        }
    }

    /// Sets what stands for a hole. Of two texts for one word the first counts.
    pub fn set(&mut self, word: &'static str, text: String) -> Result<(), AllocError>
        ensures { OnOk result
            (self.new.all.items ≡ self.old.all.items ++ record { word = word.entry; text = text } ∷ []) }
    {
        self.all.push(Hole { word, text })?;
        Ok(())
    }

    /// Sets what stands for holes, as [`set`](Holes::set) does.
    pub fn set_all(
        &mut self,
        alloc: Global,
        texts: &[(&'static str, &str)],
    ) -> Result<(), AllocError> {
        for (word, text) in texts {
            self.set(word, String::from_str(alloc, text)?)?;
        }
        Ok(())
    }

    /// Sets the texts of these templates for holes, each filled by the holes before it.
    pub fn set_each(
        &mut self,
        alloc: Global,
        templates: &[(&'static str, &str)],
    ) -> Result<(), AllocError> {
        for (word, template) in templates {
            self.set(word, self.filled(alloc, template)?)?;
        }
        Ok(())
    }

    /// Sets a number for a hole.
    pub fn set_number(
        &mut self,
        alloc: Global,
        word: &'static str,
        number: u64,
    ) -> Result<(), AllocError> {
        self.set(word, format!(in alloc; "{number}")?)
    }

    /// Sets those of `other` that aren't set here.
    pub fn set_as(&mut self, other: &Holes) -> Result<(), AllocError> {
        for hole in &other.all {
            if !self.has(hole.word) {
                self.set(hole.word, hole.text.clone()?)?;
            }
        }
        Ok(())
    }

    /// Whether something stands for a hole.
    pub fn has(&self, word: &str) -> bool {
        self.all.iter().any(|hole| hole.word == word)
    }

    /// The text of a template.
    pub fn filled(&self, alloc: Global, template: &str) -> Result<String, AllocError>
        ensures { IfOk result (λ text. string_bytes text ≡ filled self.now.all.items template.now) }
    {
        let mut out = String::new(alloc);
        self.push(alloc, &mut out, template)?;
        Ok(out)
    }

    /// Adds the text of a template, with each hole filled. A hole without a text stays unchanged.
    pub fn push(&self, alloc: Global, out: &mut String, template: &str) -> Result<(), AllocError>
        ensures { OnOk result (string_bytes out.new
            ≡ string_bytes out.old ++ filled self.now.all.items template.now) }
    {
        let pieces = pieces(alloc, template)?;
        let mut is_hole = false;
        for piece in &pieces {
            self.push_piece(out, is_hole, piece)?;
            is_hole = !is_hole;
        }
        Ok(())
    }

    // Adds what is between two dollar signs, or what stands for it.
    fn push_piece(&self, out: &mut String, is_hole: bool, piece: &str) -> Result<(), AllocError>
        ensures { OnOk result (string_bytes out.new
            ≡ string_bytes out.old ++ piece_of self.now.all.items is_hole piece.now) }
    {
        if is_hole {
            self.push_hole(out, piece)
        } else {
            out.push_str(piece)
        }
    }

    // Adds what stands for a hole.
    fn push_hole(&self, out: &mut String, word: &str) -> Result<(), AllocError>
        ensures { OnOk result (string_bytes out.new
            ≡ string_bytes out.old ++ text_of self.now.all.items word.now) }
    {
        for hole in &self.all {
            if hole.word == word {
                return out.push_str(hole.text.as_str());
            }
        }
        write!(out, "${word}$")
    }
}

// What is between dollar signs: by turns text, and the word of a hole.
fn pieces(alloc: Global, template: &str) -> Result<Vec<&str>, AllocError>
    ensures { IfOk result (λ pieces. map (λ piece. piece.now) pieces.items
        ≡ slice_split (λ b. b == 36) template.now) }
{
    template.split('$').collect(alloc)
}
