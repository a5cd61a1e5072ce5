//! Glyph variation data: the tuple variations of a glyph as bytes. It follows OpenType 1.9, the
//! chapters "gvar" and "Font variations common table formats" (tuple variation stores).
#![tactic(auto)]

#[cfg(test)]
mod conditions;
mod glyph;
#[cfg(test)]
mod glyph_tests;
mod glyphs;
mod header;
mod laws;
mod part;
#[cfg(test)]
mod table_tests;
mod tuple;

pub use glyph::glyph_data;
pub use glyphs::table;
pub use laws::spelling_law;
pub use tuple::Tuple;
