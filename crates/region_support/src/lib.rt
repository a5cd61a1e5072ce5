//! The support model of a design space: the region of each master, and how much it counts at a location.
#![tactic(auto)]

mod cut;
mod first;
mod influence;
mod key;
mod laws;
mod sorting;
mod support;
#[cfg(test)]
mod tests;

use arrayvec::ArrayVec;
use fixpoint::Fix;
pub use influence::scalar;
pub use laws::{keys_law, order_law, regions_law};
pub use sorting::{ModelStop, in_order, order};
pub use support::boxes;
pub use variation_rules::Triple;

/// A point of the design space: one normalised coordinate an axis (F2DOT14), in the font's order of axes, at
/// most eight.
pub type Location = ArrayVec<Fix<14>, 8>;

/// The region of a master: one triple an axis, in the font's order of axes, at most eight.
pub type Support = ArrayVec<Triple, 8>;
