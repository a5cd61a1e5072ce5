//! The table `HVAR`: how the advance of each glyph moves over the design space. It follows OpenType 1.9, the chapters
//! "HVAR" and "Font variations common table formats".
#![tactic(auto)]

mod advances;
#[cfg(test)]
mod tests;

pub use advances::table;
