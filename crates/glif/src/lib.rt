//! Drawings of glyphs, and their reading from GLIF, the glyph format of UFO 3.
#![tactic(auto)]

mod code;
mod component;
mod contour;
mod glyph;
mod held;
mod laws;
mod limits;
mod numbers;
mod outline;
mod part;
mod plain;
mod point;
mod shape;

pub use glyph::{read, read_text};
pub use laws::limits_law;
pub use limits::{coordinate_outside, within};
pub use plain::printing_law;
pub use shape::{Component, Drawing, Outline, Point};

#[cfg(test)]
mod tests;
