//! The axes of a font: table `fvar` with the axes and the named instances, and table `avar` with the maps from
//! normalised user values to normalised design values. It follows OpenType 1.9, the chapters "fvar" and "avar".
#![tactic(auto)]

mod axes;
mod records;
mod segment_maps;
#[cfg(test)]
mod tests;

pub use axes::fvar;
pub use records::{AxisRecord, InstanceRecord};
pub use segment_maps::avar;
