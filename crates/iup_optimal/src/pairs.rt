ghost use Rattle.std.specs.Prelude.{◌≡◌, ℕ, ◌+◌, ◌<◌, ◌≤◌, length};
ghost use Rattle.std.specs.Option.{MatchOption};
ghost use Rattle.iup.specs.Arcs.{IsContour};
ghost use Rattle.iup.specs.Bounds.{Reaches};
ghost use Rattle.iup_optimal.specs.Pairs.{IsPair, IsNearestPair, IsFirstPair};
ghost use Rattle.iup_optimal.specs.Steps.{Steps, count};

use crate::table::Table;
use crate::view::View;
use fixpoint::Pair;
use iup::arc_holds;

/// The nearest point that makes a set of two with the first point of a contour. It needs no table, and
/// stops where no longer arc holds.
pub fn pair_of_zero(points: &[Pair], deltas: &[Pair]) -> Option<usize>
    requires { IsContour points.now deltas.now }
    ensures { MatchOption result ((v : ℕ) → IsPair (Reaches points.now deltas.now) (length points.now) 0 v → ⊥) (IsNearestPair (Reaches points.now deltas.now) (length points.now) 0) }
{
    let mut view = View::new(points, deltas, 0);
    for second in 1..points.len() {
        if view.is_closed() {
            return None;
        }
        if view.pass(points, deltas, second)
            && arc_holds(points, deltas, second, points.len() - second)
        {
            return Some(second);
        }
    }
    None
}

/// The first set of two points from which all deltas are inferred.
pub fn first_pair(table: &Table<'_>) -> Option<(usize, usize)>
    ensures { MatchOption result ((w v : ℕ) → IsPair (Steps table.now) (count table.now) w v → ⊥) (λ pair. IsFirstPair (Steps table.now) (count table.now) pair.0 pair.1) }
{
    for first in 0..table.len() {
        if let Some(second) = pair_of(table, first) {
            return Some((first, second));
        }
    }
    None
}

// The nearest point that makes a set of two with a point before it.
fn pair_of(table: &Table<'_>, first: usize) -> Option<usize>
    requires { first < count table.now }
    ensures { MatchOption result ((v : ℕ) → IsPair (Steps table.now) (count table.now) first v → ⊥) (IsNearestPair (Steps table.now) (count table.now) first) }
{
    let mut low = first + 1;
    while let Some(second) = table.next_end(first, low) {
        if table.len() <= second {
            return None;
        }
        if table.reaches(second, first + table.len()) {
            return Some(second);
        }
        low = second + 1;
    }
    None
}
