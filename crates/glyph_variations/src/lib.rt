//! The tuple variations of a glyph, from its model: what they are, and that they draw the model.
#![tactic(auto)]

mod deltas;
mod laws;
#[cfg(test)]
mod tests;
mod tuples;

pub use laws::{drawing_law, variations_law};
pub use tuples::{GlyphVariations, variations};
