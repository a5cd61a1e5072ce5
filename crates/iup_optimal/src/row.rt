ghost use Rattle.std.specs.Prelude.{◌≡◌, ℕ, ◌+◌, ◌-◌, ◌<◌, ◌≤◌, IfOk, length};
ghost use Rattle.iup.specs.Bounds.{IsLeastRow};
ghost use Rattle.iup_optimal.specs.Rows.{IsLeastWay, IsRowVia, IsRowBack};
ghost use Rattle.iup_optimal.specs.Steps.{Steps, count};

use crate::table::Table;
use basics::{NoMemory, Seq};
use std::alloc::Global;

/// What bounds the number of arcs of the ways round a contour that pass one start.
#[derive(Drop)]
pub struct Row {
    /// The point from which the arcs are counted.
    pub start: u32,
    /// The least number of arcs from the start to each place of the round, the start itself first; one
    /// more than the contour has points.
    pub bounds: Seq<u32>,
}

// The least numbers of arcs from a place to each one of the round from it on. Each arc of the round is
// looked at once.
pub fn row_from(alloc: Global, table: &Table<'_>, start: usize) -> Result<Vec<u32>, NoMemory>
    requires { start < count table.now }
    ensures { IfOk result (λ row. IsLeastRow table.now.points.now table.now.deltas.now start row.items) }
{
    let mut row = Vec::with_capacity(alloc, table.len() + 1)?;
    // The arcs of one point hold.
    for place in 0..table.len() + 1 {
        row.push(place as u32)?;
    }
    for from in 0..table.len() {
        shorten(&mut row, table, start, from);
    }
    Ok(row)
}

// The ways that go on from one more place by one arc.
fn shorten(row: &mut [u32], table: &Table<'_>, start: usize, from: usize)
    requires start { start < count table.now }
    requires from { from < count table.now }
    requires row { IsRowVia (Steps table.now) start (count table.now) from row.old }
    ensures row { IsRowVia (Steps table.now) start (count table.now) (from + 1) row.new }
{
    let through = row[from] + 1;
    let mut low = from + 1;
    while let Some(end) = table.next_end(start + from, start + low) {
        let to = end - start;
        if row.len() <= to {
            return;
        }
        if through < row[to] {
            row[to] = through;
        }
        low = to + 1;
    }
}

// The least numbers of arcs to an end, which is one round or more on, from it and from each place of the
// round before it, the nearest first. Each arc of the round is looked at once.
pub fn row_back(alloc: Global, table: &Table<'_>, end: usize) -> Result<Vec<u32>, NoMemory>
    requires low { count table.now ≤ end }
    requires high { end < count table.now + count table.now }
    ensures row { IfOk result (λ row. IsRowBack (Steps table.now) end row.items) }
    ensures size { IfOk result (λ row. length row.items ≡ count table.now + 1) }
{
    let mut row = Vec::with_capacity(alloc, table.len() + 1)?;
    row.push(0)?;
    for back in 1..table.len() + 1 {
        let fewest = fewest_back(table, end, &row, back);
        row.push(fewest)?;
    }
    Ok(row)
}

// The least number of arcs from one more place.
fn fewest_back(table: &Table<'_>, end: usize, row: &[u32], back: usize) -> u32
    requires low { count table.now ≤ end }
    requires high { end < count table.now + count table.now }
    requires row { IsRowBack (Steps table.now) end row.now }
    requires back { length row.now ≡ back }
    requires some { 0 < back }
    requires within { back ≤ count table.now }
    ensures fewest { IsLeastWay (Steps table.now) (end - back) end result }
    ensures small { result ≤ back }
{
    let from = end - back;
    // The arc of one point holds.
    let mut fewest = row[back - 1] + 1;
    let mut low = from + 2;
    while let Some(to) = table.next_end(from, low) {
        if end < to {
            return fewest;
        }
        fewest = fewest.min(row[end - to] + 1);
        low = to + 1;
    }
    fewest
}
