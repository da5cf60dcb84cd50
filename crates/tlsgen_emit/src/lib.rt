//! The files that are written for a plan: code, definitions and answers.
//!
//! - [`file`]: [`files_of`](file::files_of), all files of a crate, each of them a [`Written`](tlsgen_model::emitted::Written).
//! - `code`, `specs` and `proofs`: the texts of `src/`, `specs/` and the answers, by `templates`; `imports`: which
//!   lines of imports a text needs, by the `vocabulary`; `docs`: doc comments; `breaks`: where long lines are broken.
//! - `forms`: a message as what stands for the holes of its templates; `template` and `lines` fill these. `variant_forms`: its values
//!   or cases; `contents`: what cases are made of; `tags`: the tag in front of them; `sums`: cases that nest. `contexts`: what
//!   decides its parts; `thens`: fields on tags before them; `holds` and `keys`: tags of others in it; `wholes`: a borrowed struct of
//!   another's fields; `views`: a struct's encoding by its fields. `uses`: the names that it brings in.
//! - `types`: what stands for a type of the plan; `index`: messages by their names. `nested_fields`, `fields`, `owners`, `nesting` and
//!   `joining`: fields in a row, as tuples that nest.
#![tactic(auto)]

mod breaks;
mod code;
mod contents;
mod contexts;
mod docs;
mod fields;
pub mod file;
mod forms;
mod holds;
mod imports;
mod index;
mod joining;
mod keys;
mod lines;
mod nested_fields;
mod nesting;
mod owners;
mod present;
mod proofs;
mod specs;
mod sums;
mod tags;
mod template;
mod templates;
mod thens;
mod types;
mod uses;
mod variant_forms;
mod views;
mod vocabulary;
mod wholes;
