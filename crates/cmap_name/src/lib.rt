//! The two tables of a font that lead from text to it: `cmap` with the glyphs of characters, and `name` with the
//! font's names. It follows OpenType 1.9, the chapters "cmap" and "name".
#![tactic(auto)]

mod characters;
mod format_12;
mod format_4;
mod groups;
mod names;
#[cfg(test)]
mod tests;
mod utf16;

pub use characters::cmap;
pub use names::name;
