//! The points that a tuple variation of a glyph names (OpenType 1.9, "gvar"): on each contour the least set
//! from which all deltas are inferred, and the phantom points that move.
#![tactic(auto)]

mod laws;
mod named;
#[cfg(test)]
mod tests;

pub use laws::explicit_law;
pub use named::explicit_points;
