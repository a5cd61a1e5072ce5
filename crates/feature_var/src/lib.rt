//! The table `GSUB`: which glyph stands in place of another, and where in the design space. It follows OpenType 1.9, the
//! chapters "GSUB" and "OpenType Layout common table formats".
#![tactic(auto)]

mod conditions;
mod lookups;
mod single;
mod table;
#[cfg(test)]
mod tests;
mod variations;

pub use table::gsub;
