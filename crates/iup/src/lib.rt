//! Inferred points of a contour (OpenType 1.9, "gvar", "Inferred deltas for un-referenced point
//! numbers"): between which points the deltas of the others are inferred exactly, and from which sets of
//! points all deltas of the contour are. Nothing here takes memory.
#![tactic(auto)]

mod arcs;
mod between;
mod laws;
mod sets;
#[cfg(test)]
mod tests;

pub use arcs::{arc_holds, horizontal, vertical};
pub use laws::{bound_law, fill_law};
pub use sets::infers;
