//! The rules of a designspace document as a font has them: substitutions by the numbers of its glyphs, and the boxes of
//! the design space in which the same rules hold (Designspace, "rules").
#![tactic(auto)]

mod boxes;
mod laws;
mod numbers;
mod substitutions;
#[cfg(test)]
mod tests;

pub use laws::names_law;
pub use substitutions::{Substitutions, substitutions_of};
