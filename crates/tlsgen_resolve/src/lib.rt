//! From what a file of the presentation language says to what is written for it.
//!
//! - [`planning`]: [`plan_of`](planning::plan_of), the plan of a file, or where and why it is rejected.
//!
//! The steps, in the order that a file goes through them:
//! - names: `definitions`, `items`, `scope`, `meanings` (which definition a name means), `notes` and `others` (what the notes and other
//!   crates give), `order` (each item after all that it contains);
//! - types: `types`, `type_checks`, `naming` (their names in Rust), `checks` (which names and numbers can be written);
//! - structs: `structs`, `sequence`, `pieces`, `segment`, `members`, with what only some have: `counted`, `constants`, `ending`,
//!   `padding`, `borrowed`;
//! - selects: `choices`, `single`, `sums`, `present`, `cases`, and where their tag is: `contexts`, `given`, `held`, `holders`, `known`;
//! - `resolver` and `output`: what is known on the way, and what is made; `reject`: how a text is rejected.
#![tactic(auto)]

mod borrowed;
mod cases;
mod checks;
mod choices;
mod constants;
mod contexts;
mod counted;
mod definitions;
mod ending;
mod given;
mod held;
mod holders;
mod items;
mod known;
mod meanings;
mod members;
mod naming;
mod notes;
mod order;
mod others;
mod output;
mod padding;
mod pieces;
pub mod planning;
mod present;
mod reject;
mod resolver;
mod scope;
mod segment;
mod sequence;
mod single;
mod structs;
mod sums;
mod type_checks;
mod types;

pub use planning::plan_of;
