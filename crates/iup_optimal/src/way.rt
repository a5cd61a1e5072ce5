ghost use Rattle.std.specs.Prelude.{◌≡◌, ℕ, ◌+◌, ◌<◌, ◌≤◌, All, IfOk, length};
ghost use Rattle.variation_rules.specs.InferredDelta.{still};
ghost use Rattle.iup.specs.Arcs.{IsLeastSet};
ghost use Rattle.iup_optimal.specs.Rows.{IsRowBack};
ghost use Rattle.iup_optimal.specs.Rounds.{AreBest};
ghost use Rattle.iup_optimal.specs.Steps.{Steps, count};
ghost use Rattle.iup_optimal.specs.Ways.{IsNext, Walks};

use crate::rounds::Rounds;
use crate::row::row_back;
use crate::table::Table;
use basics::NoMemory;
use std::alloc::Global;

/// The least set of a contour, where its shortest ways round are known.
pub fn least_set(alloc: Global, table: &Table<'_>, rounds: Rounds) -> Result<Vec<u32>, NoMemory>
    requires moves { All (λ delta. delta ≡ still) table.now.deltas.now → ⊥ }
    requires best { AreBest (Steps table.now) (count table.now) rounds }
    ensures set { IfOk result (λ set. IsLeastSet table.now.points.now table.now.deltas.now set.items) }
    ensures size { IfOk result (λ set. length set.items ≡ rounds.size) }
{
    let left = row_back(alloc, table, rounds.first + table.len())?;
    walk(alloc, table, rounds.first, &left)
}

// The points of the fewest arcs round from the first member, each as near as it can be.
fn walk(alloc: Global, table: &Table<'_>, first: usize, left: &[u32]) -> Result<Vec<u32>, NoMemory>
    requires first { first < count table.now }
    requires left { IsRowBack (Steps table.now) (first + count table.now) left.now }
    requires size { length left.now ≡ count table.now + 1 }
    ensures { IfOk result (λ points. Walks (Steps table.now) left.now (first + count table.now) first points.items) }
{
    let end = first + table.len();
    let mut points = Vec::new(alloc);
    let mut at = first;
    while at < end {
        points.push(at as u32)?;
        at = next_member(table, left, end, at);
    }
    Ok(points)
}

// The nearest place from which the rest of the way is one arc shorter.
fn next_member(table: &Table<'_>, left: &[u32], end: usize, at: usize) -> usize
    requires low { count table.now ≤ end }
    requires high { end < count table.now + count table.now }
    requires before { at < end }
    requires within { end ≤ at + count table.now }
    requires left { IsRowBack (Steps table.now) end left.now }
    requires size { length left.now ≡ count table.now + 1 }
    ensures { IsNext (Steps table.now) left.now end at result }
{
    for to in at + 1..end {
        if left[end - to] + 1 == left[end - at] && table.reaches(at, to) {
            return to;
        }
    }
    end
}
