//! The templates of each kind of message: its code, its definitions, and the answers of its impls; and those of types.

pub mod choices;
pub mod choices_answers;
pub mod contents;
pub mod holds;
pub mod keys;
pub mod opens;
pub mod selectors;
pub mod structs;
pub mod structs_in_context;
pub mod structs_on_tags;
pub mod sums;
pub mod tags;
pub mod types;
pub mod values;
pub mod views;
pub mod wholes;

use crate::lines::Lines;

/// The templates of a kind of message.
#[derive(Clone, Copy)]
pub struct Templates {
    /// What the clauses of the module bring in.
    pub ghost_uses: &'static str,
    /// The type and its encoders, and the decoders of all.
    pub code: &'static str,
    /// The decoders of one that isn't borrowed, where a borrowed one has none.
    pub decoders: &'static str,
    /// The code that distinguishes its bytes from others, for one that isn't borrowed.
    pub validator: &'static str,
    pub law: &'static str,
    /// What it stands for, its format and its law.
    pub specs: &'static str,
    /// What has a line for each value or case.
    pub texts: &'static [Lines],
}
