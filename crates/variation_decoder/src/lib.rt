//! A plain reader of glyph variation data (OpenType 1.9, "gvar"), kept simple and slow: the tuple variations
//! that bytes mean, exactly where they mean some. What bytes mean is not said here but in
//! `variation_rules`; the proofs show that reading finds just that, and so that bytes have one meaning at
//! most. Tests compare with it, and that one meaning is what the writer's contract rests on.
#![tactic(auto)]

mod fields;
mod header;
mod packed;
mod reader;
mod refusal;
#[cfg(test)]
mod tests;

pub use reader::{read_tuples, reading_law};
