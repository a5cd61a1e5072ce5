use crate::row::Row;
use basics::Seq;

/// The least set of a contour, with what shows that no smaller one infers its deltas.
#[derive(Drop)]
pub struct Least {
    /// The points of the set, rising.
    pub points: Seq<u32>,
    /// The point whose starts have rows: it is 0.
    pub pivot: u32,
    /// One row for each start of the pivot, rising: the pivot itself and each point from which some arc
    /// passes strictly over it. Each set that infers the deltas is a way round of as many arcs as the
    /// last bound of some row, at least.
    pub rows: Seq<Row>,
}
