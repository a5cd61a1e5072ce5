//! The deltas of the support model, and the values that they give back: at each master's location, rounded, the
//! master's own.
#![tactic(auto)]

mod glyph;
mod laws;
mod model;
mod number;
mod scalars;
mod sums;
#[cfg(test)]
mod tests;
mod values;

pub use glyph::solve_glyph;
pub use laws::{masters_law, rows_law};
pub use model::{DeltaStop, GlyphModel, GlyphTuple};
pub use number::solve;
pub use scalars::{ScalarTable, table};
pub use values::{advance_at, model_at};
