ghost use Rattle.std.specs.Prelude.{◌≡◌, ◌+◌, ◌<◌, ◌≤◌, ◌++◌, ◌↔◌, [], length, map, All, IfOk, OnOk};
ghost use Rattle.fixpoint.specs.declared.plane.Pair.{Pair};
ghost use Rattle.variation_rules.specs.InferredDelta.{still};
ghost use Rattle.variation_rules.specs.PackedPoints.{RisesWithin};
ghost use Rattle.explicit_points.specs.ExplicitPoints.{IsGlyph, IsOutline, AreExplicit, AreLeastSets, is_still, moving_from};

use basics::{NoMemory, Seq};
use fixpoint::Pair;
use iup_optimal::least_points;
use std::alloc::Global;

/// The points that a tuple variation of a glyph names: on each contour the least set of points from which all
/// its deltas are inferred, and after them the phantom points that move. `lengths` are the numbers of points
/// of the contours, `points` the outline's points in the default drawing, at most 4,000, and `deltas` those of
/// all points, the four phantom points after the outline's, all of 16 bits. They rise; there is none exactly
/// where nothing moves.
pub fn explicit_points(
    alloc: Global,
    lengths: &[u16],
    points: &[Pair],
    deltas: &[Pair],
) -> Result<Seq<u16>, NoMemory>
    requires { IsGlyph lengths.now points.now deltas.now }
    ensures are { IfOk result (AreExplicit lengths.now points.now deltas.now) }
    ensures rise { IfOk result (RisesWithin 0 (length deltas.now)) }
    ensures none { IfOk result (λ named. (named ≡ []) ↔ All (λ delta. delta ≡ still) deltas.now) }
{
    let (outline, phantom) = deltas.split_at(points.len());
    let mut named = least_sets(alloc, lengths, points, outline)?;
    push_moving(&mut named, points.len(), phantom)?;
    Ok(Seq::from_vec(named))
}

/// The least sets of the contours.
fn least_sets(
    alloc: Global,
    lengths: &[u16],
    points: &[Pair],
    deltas: &[Pair],
) -> Result<Vec<u16>, NoMemory>
    requires { IsOutline lengths.now points.now deltas.now }
    ensures { IfOk result (λ named. AreLeastSets 0 lengths.now points.now deltas.now named.items) }
{
    let mut named = Vec::new(alloc);
    let mut start = 0;
    let mut points = points;
    let mut deltas = deltas;
    for length in lengths {
        let (own, after) = points.split_at(usize::from(*length));
        let (moves, moves_after) = deltas.split_at(usize::from(*length));
        let set = least_points(alloc, own, moves)?;
        push_contour(&mut named, start, set.as_slice())?;
        start += usize::from(*length);
        points = after;
        deltas = moves_after;
    }
    Ok(named)
}

/// Adds the points of a contour that begins at a number.
fn push_contour(named: &mut Vec<u16>, start: usize, set: &[u32]) -> Result<(), NoMemory>
    requires start { start ≤ 4000 }
    requires set { All (λ point. point < 1024) set.now }
    ensures { OnOk result (named.new.items ≡ named.old.items ++ map (λ point. start + point) set.now) }
{
    for point in set {
        named.push((start + *point as usize) as u16)?;
    }
    Ok(())
}

/// Whether the point doesn't move.
fn is_still(delta: &Pair) -> bool
    ensures { result ≡ is_still delta.now }
{
    delta.x == 0 && delta.y == 0
}

/// Adds the points that move, the first of which has a number.
fn push_moving(named: &mut Vec<u16>, start: usize, deltas: &[Pair]) -> Result<(), NoMemory>
    requires { start + length deltas.now < 65536 }
    ensures { OnOk result (named.new.items ≡ named.old.items ++ moving_from start deltas.now) }
{
    for index in 0..deltas.len() {
        if !is_still(&deltas[index]) {
            named.push((start + index) as u16)?;
        }
    }
    Ok(())
}
