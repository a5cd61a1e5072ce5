//! From a path to the tree of its file: the one way in which sources are read. A step that reads files
//! carries the clauses `Reads` of `specs/Stops.antt`, with its own definition over the files in
//! `Answers`; `tree_at` and `meant_at` of `specs/Trees.antt` are what such definitions are made of.
#![tactic(auto)]

mod file;
mod stop;
#[cfg(test)]
mod tests;

pub use file::{in_file, read_file, read_tree, read_tree_if_there};
pub use stop::ReadStop;
