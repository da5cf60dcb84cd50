//! Line breaks: where a long line of what is written is broken.

use std::alloc::{AllocError, Global};

// How many columns a line of definitions or answers has at most, and a clause.
const COLUMNS: usize = 140;

const CLAUSE_COLUMNS: usize = 100;

// What is the cost of a break that isn't taken, and of one in the first half of a line.
const NEVER: usize = 1000;

const EARLY: usize = 100;

// Words that stay with the one after them.
static BEFORE_ITS_OPERAND: [&str; 7] = ["→", "≡", "&&", "||", "as", "{", "ghost"];

// Words that no line begins with.
static NOT_FIRST: [&str; 6] = ["as", "=", ":", "in", "}", "};"];

// Operators, and what a break before each costs.
static LOOSE: [(&str, usize); 4] = [("→", 0), ("≡", 1), ("&&", 2), ("||", 2)];

/// Adds the text of definitions or of answers, with its long lines broken.
pub fn push_definitions(alloc: Global, out: &mut String, text: &str) -> Result<(), AllocError> {
    for line in text.lines() {
        push_line(alloc, out, line, COLUMNS)?;
    }
    Ok(())
}

/// Adds the text of a module, with its long clauses broken. Its code is left to `rt fmt`.
pub fn push_code(alloc: Global, out: &mut String, text: &str) -> Result<(), AllocError> {
    for line in text.lines() {
        if is_of_clause(line) {
            push_line(alloc, out, line, CLAUSE_COLUMNS)?;
        } else {
            writeln!(out, "{line}")?;
        }
    }
    Ok(())
}

// Whether a line belongs to a clause, or to the meaning of a trait's member. A line of a comment never does.
fn is_of_clause(line: &str) -> bool {
    let text = line.trim_start();
    let begins = text.starts_with("ghost ") || text.starts_with("ensures ");
    !text.starts_with("//") && (begins || text.contains('≡') || text.contains('⟦'))
}

// A word of a line, up to the next blank.
#[derive(Drop)]
struct Word<'a> {
    text: &'a str,
    columns: usize,
    /// What a break before it costs: less where it parts what is bound less.
    cost: usize,
}

// Adds a line. A line with more than `columns` columns becomes several: all but the first are
// indented further.
fn push_line(
    alloc: Global,
    out: &mut String,
    line: &str,
    columns: usize,
) -> Result<(), AllocError> {
    let text = line.trim_start();
    let indent = line.len().saturating_sub(text.len());
    let words = words_of(alloc, text)?;
    push_lines(out, indent, columns, words.as_slice())
}

fn push_lines(
    out: &mut String,
    indent: usize,
    columns: usize,
    words: &[Word<'_>],
) -> Result<(), AllocError> {
    let mut blanks = indent;
    let mut next = 0usize;
    for i in 0..words.len() {
        if i == next {
            let count = words_in_line(&words[i..], columns.saturating_sub(blanks));
            push_words(out, blanks, &words[i..], count)?;
            next = i.saturating_add(count);
            blanks = indent.saturating_add(4);
        }
    }
    Ok(())
}

// Adds a line of the first `count` of these words.
fn push_words(
    out: &mut String,
    blanks: usize,
    words: &[Word<'_>],
    count: usize,
) -> Result<(), AllocError> {
    push_blanks(out, blanks)?;
    for (i, word) in words.iter().enumerate() {
        if i == count {
            break;
        }
        if i > 0 {
            out.push_str(" ")?;
        }
        out.push_str(word.text)?;
    }
    out.push_str("\n")
}

fn push_blanks(out: &mut String, count: usize) -> Result<(), AllocError> {
    for _ in 0..count {
        out.push_str(" ")?;
    }
    Ok(())
}

// The number of words that a line of `columns` columns takes: all of them, or those before the last
// of the cheapest breaks.
fn words_in_line(words: &[Word<'_>], columns: usize) -> usize {
    let mut count = words.len();
    let mut least = NEVER;
    let mut column = 0usize;
    for (i, word) in words.iter().enumerate() {
        let is_early = column < columns / 2 && !word.text.starts_with('⟦');
        let early = if is_early { EARLY } else { 0 };
        let cost = word.cost.saturating_add(early);
        if i > 0 && cost <= least && cost < NEVER {
            least = cost;
            count = i;
        }
        column = column.saturating_add(word.columns).saturating_add(1);
        if column > columns.saturating_add(1) {
            return count;
        }
    }
    words.len()
}

fn words_of(alloc: Global, text: &str) -> Result<Vec<Word<'_>>, AllocError> {
    let mut words = Vec::new(alloc);
    let mut depth = 0;
    let mut is_bound = false;
    for text in text.split(' ') {
        words.push(Word {
            text,
            columns: text.chars().count(),
            cost: if is_bound {
                NEVER
            } else {
                cost_of(depth, text)
            },
        })?;
        depth = depth_after(depth, text);
        is_bound = binds_next(text);
    }
    Ok(words)
}

// Whether a word is on the line of the next one.
fn binds_next(word: &str) -> bool {
    BEFORE_ITS_OPERAND.contains(&word)
}

// The cost of a break before a word inside `depth` brackets.
fn cost_of(depth: usize, word: &str) -> usize {
    if NOT_FIRST.contains(&word) {
        return NEVER;
    }
    depth.saturating_mul(4).saturating_add(looseness(word))
}

// 0 for the operator that binds least.
fn looseness(word: &str) -> usize {
    for (operator, cost) in &LOOSE {
        if *operator == word {
            return *cost;
        }
    }
    3
}

// The number of brackets around the word after this one.
fn depth_after(before: usize, word: &str) -> usize {
    let mut depth = before;
    for c in word.chars() {
        match c {
            '(' | '[' | '<' | '⟦' => depth = depth.saturating_add(1),
            ')' | ']' | '>' | '⟧' => depth = depth.saturating_sub(1),
            _ => {}
        }
    }
    depth
}
