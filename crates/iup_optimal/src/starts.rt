ghost use Rattle.std.specs.Prelude.{◌≡◌, ℕ, ◌+◌, ◌<◌, ◌≤◌, ◌↔◌, All, IsTrue, IfOk, length};
ghost use Rattle.iup.specs.Bounds.{IsStartPoint};
ghost use Rattle.iup_optimal.specs.Rows.{AreRowsTo};
ghost use Rattle.iup_optimal.specs.Steps.{count};
ghost use Rattle.iup_optimal.specs.declared.row.Row.{Row};

use crate::row::{Row, row_from};
use crate::table::Table;
use basics::{NoMemory, Seq};
use std::alloc::Global;

/// Whether a point is the pivot, or some arc from it passes strictly over the pivot.
pub fn is_start(table: &Table<'_>, pivot: usize, point: usize) -> bool
    requires pivot { pivot < count table.now }
    requires point { point < count table.now }
    ensures { IsTrue result ↔ IsStartPoint table.now.points.now table.now.deltas.now pivot point }
{
    if point == pivot {
        return true;
    }
    let over = if point < pivot {
        pivot
    } else {
        pivot + table.len()
    };
    table.next_end(point, over + 1).is_some()
}

/// The rows of all starts, rising.
pub fn rows_of_starts(alloc: Global, table: &Table<'_>, pivot: usize) -> Result<Vec<Row>, NoMemory>
    requires { pivot < count table.now }
    ensures { IfOk result (λ rows. AreRowsTo table.now.points.now table.now.deltas.now pivot (count table.now) rows.items) }
{
    let mut rows = Vec::new(alloc);
    for point in 0..table.len() {
        if is_start(table, pivot, point) {
            let bounds = row_from(alloc, table, point)?;
            rows.push(Row {
                start: point as u32,
                bounds: Seq::from_vec(bounds),
            })?;
        }
    }
    Ok(rows)
}

/// A point over which no arc passes, if there is one, and else the first: where the starts are fewest the
/// least work is left. The choice changes the time alone.
pub fn best_pivot(table: &Table<'_>) -> usize
    ensures { result < count table.now }
{
    let count = table.len();
    // How far the arcs from the places before lead.
    let mut farthest = 0;
    for place in 0..count + count {
        if count <= place && farthest <= place {
            return place - count;
        }
        farthest = farthest_from(table, place, farthest.max(place));
    }
    0
}

// How far the arcs from a place lead, or those so far.
fn farthest_from(table: &Table<'_>, place: usize, so_far: usize) -> usize
    requires rounds { place < count table.now + count table.now }
    requires ahead { place ≤ so_far }
    requires within { so_far ≤ place + count table.now }
    ensures { result ≤ place + count table.now }
{
    let mut farthest = so_far;
    while let Some(end) = table.next_end(place, farthest + 1) {
        farthest = end;
    }
    farthest
}
