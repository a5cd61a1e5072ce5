//! The words of a call: which command they are, and what it asks for.
//!
//! ```text
//! tuples OUT DRAWING...
//! build DESIGNSPACE OUT [--filter F]...
//! ```
//!
//! `clap` reads the words. A DRAWING is a path, `@`, and 1 to 8 coordinates with commas between. An F is the name of a
//! filter, and where a colon follows, the text that configures it.
#![tactic(auto)]

mod command;
mod filtered;
mod located;
mod parsing;
mod subcommands;
#[cfg(test)]
mod tests;

pub use command::{Build, Command, Tuples};
pub use filtered::FilterWord;
pub use located::Located;
pub use parsing::parse;
