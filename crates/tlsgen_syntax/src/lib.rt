//! The presentation language of TLS (RFC 8446, section 3) with `<V>` and `optional<T>` of RFC 9420, section 2.1, as
//! text: what a file of it says, and why a text is no such file.
//!
//! - [`source`]: [`Source`](source::Source), what a text says as it is written.
//! - [`syntax`]: [`File`](syntax::File), what a text says with what is signed and types in place apart.
//! - [`rejection`]: [`Rejection`](rejection::Rejection), where and why a text is rejected.
//! - [`token`]: [`Token`](token::Token), a word, a number or a mark of a text.
//! - [`lexer`]: [`lex`](lexer::lex), the tokens of a text.
//! - [`parser`]: [`parse`](parser::parse), what a text says.
//! - [`signed`]: [`set_apart`](signed::set_apart), a struct for what is signed, and definitions of types in place.
//! - [`noted`]: [`apply`](noted::apply), a text with its notes.
//! - [`print`]: [`print`](print::print), a text in one layout.
#![tactic(auto)]

mod around;
mod comments;
mod cursor;
mod in_place;
pub mod lexer;
pub mod noted;
mod opening;
pub mod parser;
pub mod print;
mod registry;
pub mod rejection;
mod remarks;
pub mod signed;
pub mod source;
pub mod syntax;
pub mod token;
mod tokens;
mod values;
