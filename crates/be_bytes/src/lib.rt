//! Big-endian fields, as all tables of a font have them (OpenType, "Data types"), and the sum of 32-bit
//! words that a font's checksums are made of. Its definitions say how the fields and records of every table are read.
#![tactic(auto)]

mod field;
mod fields;
mod sum;
#[cfg(test)]
mod tests;

pub use field::{Field, put_fields};
pub use fields::{put_bytes, put_i16, put_i32, put_i64, put_u8, put_u16, put_u32};
pub use sum::sum32;
