ghost use Rattle.std.specs.Prelude.{◌≡◌, ◌<◌, ◌⊎◌, IfOk};
ghost use Rattle.iup_optimal.specs.Steps.{Steps, count};
ghost use Rattle.iup_optimal.specs.Rounds.{AreRounds, AreBest, Precedes};

use crate::row::{row_back, row_from};
use crate::starts::is_start;
use crate::table::Table;
use basics::NoMemory;
use std::alloc::Global;

/// The shortest ways round a contour.
#[derive(Clone, Copy)]
pub struct Rounds {
    /// How many arcs they have.
    pub size: u32,
    /// The first point that one of them passes.
    pub first: usize,
}

/// The shortest ways round the contour. Each of them begins at the pivot, or passes over it by an arc from
/// some start, so those of the starts are all that is looked at.
pub fn shortest_rounds(alloc: Global, table: &Table<'_>, pivot: usize) -> Result<Rounds, NoMemory>
    requires { pivot < count table.now }
    ensures { IfOk result (AreBest (Steps table.now) (count table.now)) }
{
    let mut best = rounds_from(alloc, table, pivot)?;
    for point in 0..table.len() {
        if point != pivot && is_start(table, pivot, point) {
            best = shorter(best, rounds_from(alloc, table, point)?);
        }
    }
    Ok(best)
}

// Those with fewer arcs, or else with the earlier point.
fn shorter(one: Rounds, other: Rounds) -> Rounds
    ensures either { (result ≡ one) ⊎ (result ≡ other) }
    ensures one { Precedes result one }
    ensures other { Precedes result other }
{
    if other.size < one.size {
        other
    } else if one.size < other.size || one.first <= other.first {
        one
    } else {
        other
    }
}

// The shortest ways round from one place: a place lies on one of them where the least numbers of arcs to it
// and from it add up to their number.
fn rounds_from(alloc: Global, table: &Table<'_>, start: usize) -> Result<Rounds, NoMemory>
    requires { start < count table.now }
    ensures { IfOk result (AreRounds (Steps table.now) (count table.now) start) }
{
    let count = table.len();
    let row = row_from(alloc, table, start)?;
    let left = row_back(alloc, table, start + count)?;
    let size = row[count];
    // The places of the next round, whose points come before the start.
    for place in count - start..count {
        if row[place] + left[count - place] == size {
            return Ok(Rounds {
                size,
                first: start + place - count,
            });
        }
    }
    Ok(Rounds { size, first: start })
}
