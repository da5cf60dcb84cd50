//! How fields in a row nest as tuples.

use std::alloc::{AllocError, Global};

/// Groups of fields: three, say, of four, four and three.
///
/// A tuple has at most three parts, so more fields are nested in groups. Each group is borrowed as
/// one, `ByRef2` to `ByRef9`. A group of more than three fields is a tuple of smaller groups.
#[derive(Drop)]
pub struct Nesting {
    /// How many fields each group has: 4, 4, 3.
    pub groups: Vec<usize>,
    /// How many fields each of their parts has: 2, 2, 2, 2, 1, 1, 1.
    pub parts: Vec<usize>,
    /// How many parts each has: 2, 2, 3.
    pub counts: Vec<usize>,
}

impl Nesting {
    /// Nests `fields` fields in at most `most` groups.
    pub fn of(alloc: Global, fields: usize, most: usize) -> Result<Nesting, AllocError> {
        Nesting::of_groups(alloc, shares(alloc, fields, most)?)
    }

    /// Groups with these numbers of fields.
    pub fn of_groups(alloc: Global, groups: Vec<usize>) -> Result<Nesting, AllocError> {
        let mut parts = Vec::new(alloc);
        let mut counts = Vec::new(alloc);
        for group in &groups {
            let own = shares(alloc, *group, 3)?;
            counts.push(own.len())?;
            for part in own {
                parts.push(part)?;
            }
        }
        Ok(Nesting {
            groups,
            parts,
            counts,
        })
    }
}

impl Nesting {
    /// Where a field is: which of the groups, which of the parts of its group, and which of the fields of its part, each
    /// with how many there are.
    pub fn places(&self, at: usize) -> [(usize, usize); 3] {
        let (part, in_part) = place(self.parts.as_slice(), at);
        let (group, in_group) = place(self.counts.as_slice(), part);
        [(group, self.groups.len()), in_group, in_part]
    }
}

// Which of the shares has the one at `at`, and which of how many it is there.
fn place(shares: &[usize], at: usize) -> (usize, (usize, usize)) {
    let mut first = 0usize;
    for (i, share) in shares.iter().enumerate() {
        let next = first.saturating_add(*share);
        if at < next {
            return (i, (at.saturating_sub(first), *share));
        }
        first = next;
    }
    (0, (0, 1))
}

// The number of fields of each part, for at most `most` parts. The first parts have one more if the
// fields can't be split evenly.
fn shares(alloc: Global, fields: usize, most: usize) -> Result<Vec<usize>, AllocError> {
    let count = count_of_parts(fields, most);
    let mut shares = Vec::new(alloc);
    for done in 0..count {
        let behind = count - 1 - done;
        shares.push(fields.saturating_add(behind) / count)?;
    }
    Ok(shares)
}

// Each field is a part where there are few; else parts have three where that needs no more of them.
fn count_of_parts(fields: usize, most: usize) -> usize {
    if fields <= most {
        fields
    } else {
        fields.div_ceil(3).max(2).min(most)
    }
}
