//! Where a value of an axis lies: its normalised coordinate (OpenType, "Coordinate scales and
//! normalization"), and the map of an axis from user to design values (Designspace, "axis" and "map"),
//! which a font holds as the pairs of table `avar`.
#![tactic(auto)]

mod axis_map;
mod coordinate;
mod follow;
mod laws;
mod pairs;
mod span;
mod stop;
#[cfg(test)]
mod tests;

pub use axis_map::{AxisMap, avar_at, avar_pairs, backward, forward};
pub use coordinate::normalise;
pub use laws::{mapping_law, nodes_law, pairs_law, segments_law};
pub use span::Span;
pub use stop::MapStop;
