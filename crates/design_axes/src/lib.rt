//! The axes of a design space, as the element `axes` of a Designspace document tells them (Designspace, "axes" and
//! "axis"): the tag, the names and the map of each, or the first fault.
//!
//! Beside them stand the small readers that the rest of the document needs as well: the children of an element by
//! their name, and texts of limited length.
#![tactic(auto)]

mod axes;
mod axis;
mod elements;
mod identity;
mod label;
mod mapping;
mod spots;
mod texts;

pub use axes::read_axes;
pub use axis::Axis;
pub use elements::{first_named, named};
pub use texts::short_name;

#[cfg(test)]
mod tests;
