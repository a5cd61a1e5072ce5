//! What a font is built from: its design space, its glyphs in glyph order, and the model of each glyph over the masters.
//!
//! [`Project`] is what `font_project` makes of the sources and `font_build` makes the font of. `specs/` says which font
//! it stands for, and what holds of each that can be built.
#![tactic(auto)]

mod parts;

pub use parts::Project;
