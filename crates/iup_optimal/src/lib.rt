//! The least set of points from which all deltas of a contour are inferred (OpenType 1.9, "gvar",
//! "Inferred deltas for un-referenced point numbers"), with the rows that show that no smaller set
//! does.
//!
//! The contour is rolled out: a set that infers the deltas is a way of arcs once round it. The ways
//! round from a pivot, and from each point with an arc that passes over the pivot, are all that need
//! to be looked at: every other way round has one of as many arcs that begins there. From each of these
//! starts two rows are made, of the least numbers of arcs to each place of the round and from it to the
//! end: where the two add up to the length of the shortest way, the place lies on one. So the rows tell
//! the first point of the answer too, and one row more, back to that point, tells the others.
#![tactic(auto)]

mod answer;
mod bits;
mod pairs;
mod rounds;
mod row;
mod search;
mod side;
mod sight;
mod starts;
mod table;
#[cfg(test)]
mod tests;
mod view;
mod way;

pub use answer::Least;
pub use row::Row;
pub use search::{least, least_points};
