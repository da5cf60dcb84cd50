//! The order in which a file's items are settled: each after all that it contains.
use crate::reject::rejected;
use crate::scope::Scope;
use std::alloc::{AllocError, Global};
use tlsgen_syntax::rejection::Trouble;
use tlsgen_syntax::syntax::{Field, File, Item, Part, Select, Struct};

/// The positions of the items in the last file, each after those of all that it contains. Rejects an item that contains
/// itself, also in a vector or an option: its format would be no finite text. Items of other files come before all.
///
/// It is the order of going over the items from the first to the last, again and again, and settling each whose parts are
/// settled.
pub fn order_of(alloc: Global, scope: Scope<'_>, file: &File) -> Result<Vec<usize>, Trouble> {
    let needs = needs_of(alloc, scope, file)?;
    let rounds = Rounds::of(alloc, &needs)?;
    match rounds.left.iter().position(|left| *left > 0) {
        None => Ok(rounds.order(alloc)?),
        Some(first) => Err(rejected_circle(alloc, file, &needs, &rounds.left, first)),
    }
}

// In which round each item is settled.
#[derive(Drop)]
struct Rounds {
    round: Vec<usize>,
    /// How many of its parts aren't settled.
    left: Vec<usize>,
}

impl Rounds {
    fn of(alloc: Global, needs: &[Vec<usize>]) -> Result<Rounds, AllocError> {
        let users = users_of(alloc, needs)?;
        let mut rounds = Rounds {
            round: vec![in alloc; 0; needs.len()]?,
            left: Vec::new(alloc),
        };
        let mut ready = Vec::new(alloc);
        for (at, parts) in needs.iter().enumerate() {
            rounds.left.push(parts.len())?;
            if parts.is_empty() {
                ready.push(at)?;
            }
        }
        for _ in 0..needs.len() {
            let Some(at) = ready.pop() else {
                break;
            };
            rounds.settle(at, &users, &mut ready)?;
        }
        Ok(rounds)
    }

    // Settles an item, and appends those for which it was the last part.
    fn settle(
        &mut self,
        at: usize,
        users: &[Vec<usize>],
        ready: &mut Vec<usize>,
    ) -> Result<(), AllocError> {
        let Some(users) = users.get(at) else {
            return Ok(());
        };
        let round = self.round.get(at).copied().unwrap_or(0);
        for user in users {
            self.put_off_to(
                *user,
                if *user < at {
                    round.saturating_add(1)
                } else {
                    round
                },
            );
            if self.settle_part(*user) {
                ready.push(*user)?;
            }
        }
        Ok(())
    }

    fn put_off_to(&mut self, at: usize, least: usize) {
        if let Some(round) = self.round.get_mut(at) {
            *round = (*round).max(least);
        }
    }

    // A part of an item is settled. Returns whether it was the last one.
    fn settle_part(&mut self, at: usize) -> bool {
        match self.left.get_mut(at) {
            Some(left) => {
                *left = left.saturating_sub(1);
                *left == 0
            }
            None => false,
        }
    }

    fn order(&self, alloc: Global) -> Result<Vec<usize>, AllocError> {
        let mut rows = Vec::new(alloc);
        for (at, round) in self.round.iter().enumerate() {
            rows.push((*round, at))?;
        }
        rows.sort()?;
        let mut order = Vec::new(alloc);
        for (_, at) in &rows {
            order.push(*at)?;
        }
        Ok(order)
    }
}

// For each item, the items that contain it.
fn users_of(alloc: Global, needs: &[Vec<usize>]) -> Result<Vec<Vec<usize>>, AllocError> {
    let mut users = Vec::new(alloc);
    for _ in needs {
        users.push(Vec::new(alloc))?;
    }
    for (at, parts) in needs.iter().enumerate() {
        for part in parts {
            push_user(&mut users, *part, at)?;
        }
    }
    Ok(users)
}

fn push_user(users: &mut [Vec<usize>], part: usize, user: usize) -> Result<(), AllocError> {
    if let Some(own) = users.get_mut(part) {
        own.push(user)?;
    }
    Ok(())
}

fn is_settled(left: &[usize], at: usize) -> bool {
    left.get(at).copied().unwrap_or(0) == 0
}

fn rejected_circle(
    alloc: Global,
    file: &File,
    needs: &[Vec<usize>],
    left: &[usize],
    first: usize,
) -> Trouble {
    let at = on_a_circle(needs, left, first);
    match file.items.get(at) {
        Some(item) => {
            let name = item.name();
            rejected(
                alloc,
                name.place,
                name.text.as_str(),
                "a type that doesn't contain itself",
            )
        }
        None => Trouble::Inconsistent,
    }
}

// Goes from an item that isn't settled to one in it that isn't, as often as there are items.
fn on_a_circle(needs: &[Vec<usize>], left: &[usize], first: usize) -> usize {
    let mut at = first;
    for _ in 0..needs.len() {
        at = next_unsettled(needs, left, at);
    }
    at
}

fn next_unsettled(needs: &[Vec<usize>], left: &[usize], at: usize) -> usize {
    match needs.get(at) {
        Some(parts) => parts
            .iter()
            .copied()
            .find(|part| !is_settled(left, *part))
            .unwrap_or(at),
        None => at,
    }
}

fn needs_of(alloc: Global, scope: Scope<'_>, file: &File) -> Result<Vec<Vec<usize>>, AllocError> {
    let mut needs = Vec::new(alloc);
    for item in &file.items {
        let parts = item_needs(alloc, scope, item)?;
        needs.push(parts)?;
    }
    Ok(needs)
}

fn item_needs(alloc: Global, scope: Scope<'_>, item: &Item) -> Result<Vec<usize>, AllocError> {
    let mut needs = Vec::new(alloc);
    match item {
        Item::Enum(_) => {}
        Item::Alias(field) => add_needs_of(scope, &mut needs, field)?,
        Item::Struct(one) => add_needs_of_parts(scope, &mut needs, one)?,
    }
    Ok(needs)
}

fn add_needs_of_parts(
    scope: Scope<'_>,
    needs: &mut Vec<usize>,
    one: &Struct,
) -> Result<(), AllocError> {
    for part in &one.parts {
        match part {
            Part::Field(field) => add_needs_of(scope, needs, field)?,
            Part::Select(select) => add_needs_of_cases(scope, needs, select)?,
        }
    }
    Ok(())
}

fn add_needs_of_cases(
    scope: Scope<'_>,
    needs: &mut Vec<usize>,
    select: &Select,
) -> Result<(), AllocError> {
    for case in &select.cases {
        add_needs_of_fields(scope, needs, &case.fields)?;
    }
    Ok(())
}

fn add_needs_of_fields(
    scope: Scope<'_>,
    needs: &mut Vec<usize>,
    fields: &[Field],
) -> Result<(), AllocError> {
    for field in fields {
        add_needs_of(scope, needs, field)?;
    }
    Ok(())
}

fn add_needs_of(scope: Scope<'_>, needs: &mut Vec<usize>, field: &Field) -> Result<(), AllocError> {
    if let Some(at) = scope.position(field.of.text.as_str()) {
        needs.push(at)?;
    }
    Ok(())
}
