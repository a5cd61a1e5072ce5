//! The outlines of a font: table `glyf` with the contours of each glyph, and table `loca` with the offsets of the
//! glyphs in it. They follow OpenType 1.9, the chapters "glyf" and "loca".
#![tactic(auto)]

mod extent;
mod laws;
mod offsets;
mod outlines;
mod simple;
#[cfg(test)]
mod slow_reader;
#[cfg(test)]
mod tests;

pub use extent::Bounds;
pub use laws::bounds_law;
pub use outlines::{GlyfLoca, tables};
