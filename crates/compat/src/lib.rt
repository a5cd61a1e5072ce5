//! Whether the drawings of a glyph fit one another, and what a glyph draws through its components.
#![tactic(auto)]

mod compared;
mod cycle;
mod flat;
mod laws;
mod names;
mod order;
mod outlines;
mod refusal;

pub use compared::{Difference, compare, same_bases};
pub use laws::{flattened_law, refusal_law};
pub use outlines::flatten;

#[cfg(test)]
mod tests;
