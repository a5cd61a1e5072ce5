//! The tables of a font that have a fixed list of fields, or one record a glyph: `head`, `hhea`, `hmtx`, `maxp`, `OS/2`
//! and `post`. They follow OpenType 1.9, the chapters of these names.
#![tactic(auto)]

mod facts;
mod font_header;
mod glyph_names;
mod glyphs;
mod horizontal;
mod measures;
#[cfg(test)]
mod slow_reader;
mod style;
#[cfg(test)]
mod tests;
mod values;

pub use facts::Facts;
pub use font_header::{head, maxp};
pub use glyph_names::post;
pub use horizontal::{hhea, hmtx};
pub use style::os2;
