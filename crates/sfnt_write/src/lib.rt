//! The font file that tables make: the table directory with their checksums and offsets, and each table filled up to
//! a multiple of 4 bytes. It follows OpenType 1.9, the chapter "Organization of an OpenType font".
#![tactic(auto)]

mod directory;
mod font;
mod laws;
mod table;
#[cfg(test)]
mod tests;

pub use font::assemble;
pub use laws::{head_law, tables_law};
pub use table::Table;
