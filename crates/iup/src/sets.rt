ghost use Rattle.std.specs.Prelude.{◌≡◌, ℕ, ◌+◌, ◌*◌, ◌<◌, ◌≤◌, ◌↔◌, IsTrue, All, length};
ghost use Rattle.variation_rules.specs.InferredDelta.{still};
ghost use Rattle.iup.specs.Arcs.{IsContour, Infers, Links, RisesFrom, Spans};

use crate::arcs::arc_holds;
use fixpoint::Pair;

// No movement.
const STILL: Pair = Pair { x: 0, y: 0 };

/// Whether all deltas of a contour are inferred from the points of a set: each member and the next one,
/// round the contour, span an arc that holds; a single member spans the whole round. From the empty set
/// exactly where all deltas are zero. `points` and `deltas` are as for [`arc_holds`]; `set` rises and
/// is below their number. It takes no memory.
pub fn infers(points: &[Pair], deltas: &[Pair], set: &[u32]) -> bool
    requires contour { IsContour points.now deltas.now }
    requires set { RisesFrom 0 (length points.now) set.now }
    ensures { IsTrue result ↔ Infers points.now deltas.now set.now }
{
    match set {
        [] => nothing_moves(deltas),
        [first, rest @ ..] => are_linked(points, deltas, *first as usize, rest),
    }
}

fn nothing_moves(deltas: &[Pair]) -> bool
    ensures { IsTrue result ↔ All (λ delta. delta ≡ still) deltas.now }
{
    deltas.iter().all(|delta| *delta == STILL)
}

// Whether a member and those after it span arcs, up to the member's own place one round on.
fn are_linked(points: &[Pair], deltas: &[Pair], first: usize, members: &[u32]) -> bool
    requires contour { IsContour points.now deltas.now }
    requires first { first < length points.now }
    requires members { RisesFrom (first + 1) (length points.now) members.now }
    ensures { IsTrue result ↔ Links points.now deltas.now first members.now (first + length points.now) }
{
    let end = first + points.len();
    let mut from = first;
    for next in members {
        let to = *next as usize;
        if !spans(points, deltas, from, to) {
            return false;
        }
        from = to;
    }
    spans(points, deltas, from, end)
}

// Whether the arc from one place of the rolled-out contour to another holds.
fn spans(points: &[Pair], deltas: &[Pair], from: usize, to: usize) -> bool
    requires contour { IsContour points.now deltas.now }
    requires from { from < length points.now }
    requires ahead { from < to }
    requires within { to ≤ from + length points.now }
    ensures { IsTrue result ↔ Spans points.now deltas.now from to }
{
    arc_holds(points, deltas, from, to - from)
}
