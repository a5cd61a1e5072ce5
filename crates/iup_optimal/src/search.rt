ghost use Rattle.std.specs.Prelude.{◌≡◌, ◌<◌, All, IfOk, length, ◌∷◌, []};
ghost use Rattle.variation_rules.specs.InferredDelta.{still};
ghost use Rattle.iup.specs.Arcs.{IsContour, IsLeastSet};
ghost use Rattle.iup_optimal.specs.LeastSets.{IsLeast};
ghost use Rattle.iup_optimal.specs.Steps.{Steps, count};
ghost use Rattle.iup_optimal.specs.Ways.{IsFewest};

use crate::answer::Least;
use crate::pairs::{first_pair, pair_of_zero};
use crate::rounds::shortest_rounds;
use crate::starts::{best_pivot, rows_of_starts};
use crate::table::Table;
use crate::way::least_set;
use basics::{NoMemory, Seq};
use fixpoint::Pair;
use iup::{arc_holds, infers};
use std::alloc::Global;

// The point whose starts have rows.
const PIVOT: u32 = 0;

/// The least set of points from which all deltas of a contour are inferred: of the sets with the fewest
/// points the one whose rising list is first in lexicographic order. `points` are those of the default
/// drawing and `deltas` theirs, equally many, 1 to 1024, all numbers of 16 bits. Where all deltas are
/// zero the answer has no point and no row. It takes memory for the arcs, one bit for each two points,
/// and for the rows, each of which has one number a point.
pub fn least(alloc: Global, points: &[Pair], deltas: &[Pair]) -> Result<Least, NoMemory>
    requires { IsContour points.now deltas.now }
    ensures { IfOk result (IsLeast points.now deltas.now) }
{
    if infers(points, deltas, &[]) {
        return Ok(Least {
            points: Seq::new(alloc),
            pivot: PIVOT,
            rows: Seq::new(alloc),
        });
    }
    let table = Table::new(alloc, points, deltas)?;
    let rows = rows_of_starts(alloc, &table, PIVOT as usize)?;
    let set = set_of_arcs(alloc, &table)?;
    Ok(Least {
        points: Seq::from_vec(set),
        pivot: PIVOT,
        rows: Seq::from_vec(rows),
    })
}

/// The points of [`least`] alone. No row is made but those that the set needs: none for a set of one point
/// or two, and for a contour that has a point over which no arc passes three.
pub fn least_points(alloc: Global, points: &[Pair], deltas: &[Pair]) -> Result<Seq<u32>, NoMemory>
    requires { IsContour points.now deltas.now }
    ensures { IfOk result (IsLeastSet points.now deltas.now) }
{
    if infers(points, deltas, &[]) {
        return Ok(Seq::new(alloc));
    }
    if arc_holds(points, deltas, 0, points.len()) {
        let mut set = Vec::new(alloc);
        set.push(0)?;
        return Ok(Seq::from_vec(set));
    }
    if let Some(second) = pair_of_zero(points, deltas) {
        return Ok(Seq::from_vec(pair(alloc, 0, second)?));
    }
    let table = Table::new(alloc, points, deltas)?;
    Ok(Seq::from_vec(set_of_arcs(alloc, &table)?))
}

// The least set by the arcs. One point spans the whole round where all deltas are equal: the first does
// then. Sets of two are looked for next, and greater ones as shortest ways round.
fn set_of_arcs(alloc: Global, table: &Table<'_>) -> Result<Vec<u32>, NoMemory>
    requires moves { All (λ delta. delta ≡ still) table.now.deltas.now → ⊥ }
    ensures set { IfOk result (λ set. IsLeastSet table.now.points.now table.now.deltas.now set.items) }
    ensures size { IfOk result (λ set. IsFewest (Steps table.now) (count table.now) (length set.items)) }
{
    if table.reaches(0, table.len()) {
        let mut set = Vec::new(alloc);
        set.push(0)?;
        return Ok(set);
    }
    if let Some((first, second)) = first_pair(table) {
        return pair(alloc, first, second);
    }
    let rounds = shortest_rounds(alloc, table, best_pivot(table))?;
    least_set(alloc, table, rounds)
}

// A set of two points.
fn pair(alloc: Global, first: usize, second: usize) -> Result<Vec<u32>, NoMemory>
    requires first { first < 1024 }
    requires second { second < 1024 }
    ensures { IfOk result (λ set. set.items ≡ first ∷ second ∷ []) }
{
    let mut set = Vec::new(alloc);
    set.push(first as u32)?;
    set.push(second as u32)?;
    Ok(set)
}
