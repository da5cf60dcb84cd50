//! How texts become one.

use crate::types::parenthesized;
use std::alloc::{AllocError, Global};

#[derive(Clone, Copy)]
pub enum Join {
    /// `(a, b)`, and `a` alone.
    Tuple,
    /// `(a ++ (b ++ c))`, and `a` alone.
    Bytes,
    /// `pair_format a b`.
    Words(&'static Rows),
}

/// The words of definitions for no part, one, two and three parts in a row.
pub struct Rows {
    none: &'static str,
    one: &'static str,
    pair: &'static str,
    triple: &'static str,
}

pub static TREES: Rows = Rows {
    none: "Empty",
    one: "Join",
    pair: "pair_tree",
    triple: "triple_tree",
};

pub static FORMATS: Rows = Rows {
    none: "nothing_format",
    one: "fields_format",
    pair: "pair_format",
    triple: "triple_format",
};

pub static LAWS: Rows = Rows {
    none: "nothing_meets",
    one: "fields_meets",
    pair: "pair_meets",
    triple: "triple_meets",
};

impl Join {
    /// One text for all. Words have `gap` before each part.
    pub fn joined(self, alloc: Global, texts: &[String], gap: &str) -> Result<String, AllocError> {
        match (self, texts) {
            (Join::Tuple | Join::Bytes, [only]) => only.clone(),
            (Join::Tuple, _) => {
                let inside = texts.join(alloc, ", ")?;
                format!(in alloc; "({inside})")
            }
            (Join::Bytes, [first, second, third]) => {
                format!(in alloc; "({first}{gap}++ ({second}{gap}++ {third}))")
            }
            (Join::Bytes, _) => {
                let inside = texts.join(alloc, format!(in alloc; "{gap}++ ")?.as_str())?;
                format!(in alloc; "({inside})")
            }
            (Join::Words(rows), _) => rows.joined(alloc, texts, gap),
        }
    }
}

impl Rows {
    fn joined(&self, alloc: Global, parts: &[String], gap: &str) -> Result<String, AllocError> {
        let word = match parts {
            [] => self.none,
            [_] => self.one,
            [_, _] => self.pair,
            _ => self.triple,
        };
        let mut out = String::from_str(alloc, word)?;
        for part in parts {
            out.push_str(gap)?;
            out.push_str(parenthesized(alloc, part.clone()?)?.as_str())?;
        }
        if let [_] = parts {
            out.push_str(" ")?;
            out.push_str(self.none)?;
        }
        Ok(out)
    }
}

/// One text for each group: `sizes` has the number of texts of each group. A text alone in its
/// group stays unchanged.
pub fn grouped(
    alloc: Global,
    texts: &[String],
    sizes: &[usize],
    join: Join,
) -> Result<Vec<String>, AllocError> {
    let mut groups = Vec::new(alloc);
    let mut left = texts;
    for size in sizes {
        let Some((group, others)) = left.split_at_checked(*size) else {
            break;
        };
        left = others;
        groups.push(match group {
            [only] => only.clone()?,
            _ => join.joined(alloc, group, " ")?,
        })?;
    }
    Ok(groups)
}
