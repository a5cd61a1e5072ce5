//! What glyph variation data mean: the scalar of a region at a location, packed point numbers and
//! packed deltas, tuple variations, inferred deltas, and the outline that they draw over a default
//! drawing. It follows OpenType 1.9, the chapters "Font variations overview" and "gvar", and says what
//! the bytes mean, not how they are written.
//!
//! Beside the definitions, which stand in `specs/`, is a plain reader, kept simple and slow, that
//! tests compare with.
#![tactic(auto)]

mod drawing;
#[cfg(test)]
mod drawing_tests;
mod filling;
mod inferred;
mod region;
mod runs;
mod scalars;
mod tuple;

pub use drawing::{DrawnGlyph, DrawnPoint, draw, drawing_law};
pub use filling::filled;
pub use inferred::{Reference, inferred_delta};
pub use region::Triple;
pub use runs::{DeltaClass, PointClass};
pub use scalars::scalar;
pub use tuple::TupleVariation;
