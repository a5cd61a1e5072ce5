//! The project of a font: what is built, made of the sources that a designspace document names.
//!
//! [`project`] reads the sources and goes through the steps behind the reading, each a module with its definition in
//! `specs/`: what a step refuses is said there as a function of what the steps before it gave, and `specs/Fonts.antt`
//! puts them together in the order in which faults are told.
#![tactic(auto)]

mod codes;
mod columns;
mod components;
mod deltas;
mod drawn;
mod faults;
mod filtering;
mod flat;
mod joining;
mod laws;
mod masters;
mod naming;
mod numbers;
mod outlined;
mod presence;
mod resolving;
mod ruled;
mod shapes;
mod sizes;
mod steps;
#[cfg(test)]
mod tests;
mod units;

pub use font_model::Project;
pub use laws::one_answer;
pub use source_files::ReadStop;
pub use steps::project;
