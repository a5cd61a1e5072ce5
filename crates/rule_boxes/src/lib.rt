//! When a substitution rule holds at a location (Designspace, "rules": "condition", "conditionset" and "rule"), and the
//! boxes of the design space in which the same rules hold (OpenType, "FeatureVariations table").
//!
//! A condition bounds one axis from both sides. A set holds where all its conditions do, and a rule where one of its
//! sets does; so an empty set always holds, and a rule without sets never does.
#![tactic(auto)]

mod area;
mod cell;
mod cells_of;
mod condition;
mod grid;
mod laws;
mod merge;
mod overlay;
#[cfg(test)]
mod tests;

pub use cell::{Cell, RuleStop};
pub use cells_of::cells;
pub use condition::{Condition, Sets, holds};
pub use laws::{disjoint_law, never_law, substitution_law};
