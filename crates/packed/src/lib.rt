//! Packed point numbers and packed deltas, as glyph variation data hold them (OpenType 1.9, "Font
//! variations common table formats": packed point numbers, packed deltas). What such bytes mean is defined in
//! `variation_rules`; here they are written, in maximal runs.
#![tactic(auto)]

mod deltas;
mod laws;
mod points;
#[cfg(test)]
mod tests;

pub use deltas::pack_deltas;
pub use laws::spelling_law;
pub use points::pack_points;
