//! Everything that a font is built from: a designspace document and its UFO folders, read in a stated order, so that of
//! several faults the first is told.
//!
//! [`read`] reads the document, finds the order of its sources, reads the default source whole and then the others. Each
//! of these has its module, and its definition in `specs/`; `specs/Sources.antt` puts them together, in the order of
//! reading. `specs/Limits.antt` says what holds of all that is read, whatever the sources are.
#![tactic(auto)]

mod default_source;
mod document;
mod family;
mod found;
mod glyph_order;
mod made;
mod naming;
mod reading;
#[cfg(test)]
mod tests;

pub use found::{FontSources, SourceGlyphs};
pub use reading::read;
pub use source_files::ReadStop;
