ghost use Rattle.std.specs.Prelude.{◌≡◌, ℕ, ℤ, ◌+◌, ◌*◌, ◌%◌, ◌<◌, ◌≤◌, length, All, None, MatchOption, IfOk, IfSome, List, sum};
ghost use Rattle.variation_rules.specs.DrawnOutline.{named_delta, FillsContours};
ghost use Rattle.variation_rules.specs.InferredDelta.{Between, FillsContour, around};
ghost use Rattle.variation_rules.specs.FontUnits.{IsFWord, AreFWords, IsReference};
ghost use Rattle.variation_rules.specs.PointDelta.{AreMovedFWords, IsInferred, IsDeltaAt, IsBefore, IsAfter, given_at};
ghost use Rattle.fixpoint.specs.declared.plane.Pair.{Pair};

use crate::inferred::{Reference, inferred_delta};
use crate::tuple::TupleVariation;
use basics::NoMemory;
use fixpoint::Pair;
use std::alloc::Global;

// No movement.
pub const STILL: Pair = Pair { x: 0, y: 0 };

/// A point and its delta.
#[derive(Clone, Copy)]
struct Moved {
    point: Pair,
    delta: Pair,
}

/// A point of a contour that is given a delta: its place on the cycle of the contour, counted on
/// round it, and the delta.
#[derive(Clone, Copy)]
struct Neighbour {
    place: usize,
    delta: Pair,
}

impl Moved {
    // The point as a reference in x.
    fn horizontal(self) -> Reference
        requires { AreMovedFWords self }
        ensures value { result ≡ record { at = self.point.x; delta = self.delta.x } }
        ensures within { IsReference result }
    {
        Reference {
            at: i64::from(self.point.x),
            delta: i64::from(self.delta.x),
        }
    }

    // The point as a reference in y.
    fn vertical(self) -> Reference
        requires { AreMovedFWords self }
        ensures value { result ≡ record { at = self.point.y; delta = self.delta.y } }
        ensures within { IsReference result }
    {
        Reference {
            at: i64::from(self.point.y),
            delta: i64::from(self.delta.y),
        }
    }
}

// The delta that a tuple names for a point.
pub fn named(tuple: &TupleVariation, point: usize) -> Option<Pair>
    ensures { result ≡ named_delta tuple.now.points tuple.now.deltas point }
{
    let points = tuple.points.as_slice();
    let deltas = tuple.deltas.as_slice();
    for k in 0..points.len().min(deltas.len()) {
        if usize::from(points[k]) == point {
            return Some(deltas[k]);
        }
    }
    None
}

// The last point before that at `i`, on the cycle, that is given a delta.
fn named_before(given: &[Option<Pair>], i: usize) -> Option<Neighbour>
    requires { i < length given.now }
    ensures { MatchOption result ((x : ℕ) → i ≤ x → x < i + length given.now → given_at given.now (x % length given.now) ≡ None) (IsBefore given.now i) }
{
    let n = given.len();
    for back in 0..n {
        let place = i + n - 1 - back;
        if let Some(delta) = given[place % n] {
            return Some(Neighbour { place, delta });
        }
    }
    None
}

// The first point after it that is.
fn named_after(given: &[Option<Pair>], i: usize) -> Option<Neighbour>
    requires { i < length given.now }
    ensures { MatchOption result ((x : ℕ) → i + length given.now < x → x ≤ i + 2 * length given.now → given_at given.now (x % length given.now) ≡ None) (IsAfter given.now i) }
{
    let n = given.len();
    for on in 0..n {
        let place = i + n + 1 + on;
        if let Some(delta) = given[place % n] {
            return Some(Neighbour { place, delta });
        }
    }
    None
}

// The delta that a point has between two that move, if both its numbers are whole.
fn inferred_pair(first: Moved, second: Moved, point: Pair) -> Option<Pair>
    requires first { AreMovedFWords first }
    requires second { AreMovedFWords second }
    requires point { AreFWords point }
    ensures value { MatchOption result ((delta : Pair) → IsInferred first second point delta → ⊥) (IsInferred first second point) }
    ensures within { IfSome result AreFWords }
{
    let x = inferred_number(first.horizontal(), second.horizontal(), point.x)?;
    let y = inferred_number(first.vertical(), second.vertical(), point.y)?;
    Some(Pair { x, y })
}

// One of them.
fn inferred_number(first: Reference, second: Reference, at: i32) -> Option<i32>
    requires first { IsReference first }
    requires second { IsReference second }
    requires at { IsFWord at }
    ensures value { MatchOption result ((d : ℤ) → Between first.at first.delta second.at second.delta at d → ⊥) (Between first.at first.delta second.at second.delta at) }
    ensures within { IfSome result IsFWord }
{
    match inferred_delta(first, second, i64::from(at)) {
        Some(delta) => Some(delta as i32),
        None => None,
    }
}

// A neighbour on the contour's cycle as a point that moves.
fn moved_at(points: &[Pair], neighbour: Neighbour) -> Moved
    requires { 0 < length points.now }
    ensures { result ≡ record { point = around points.now neighbour.place; delta = neighbour.delta } }
{
    Moved {
        point: points[neighbour.place % points.len()],
        delta: neighbour.delta,
    }
}

// The delta of one point of a contour, where some points are given one.
fn delta_at(points: &[Pair], given: &[Option<Pair>], i: usize) -> Option<Pair>
    requires i { i < length points.now }
    requires same { length given.now ≡ length points.now }
    requires points { All AreFWords points.now }
    requires given { All (λ delta. IfSome delta AreFWords) given.now }
    ensures value { MatchOption result ((delta : Pair) → IsDeltaAt points.now (given_at given.now) i delta → ⊥) (IsDeltaAt points.now (given_at given.now) i) }
    ensures within { IfSome result AreFWords }
{
    if let Some(own) = given[i] {
        return Some(own);
    }
    let Some(first) = named_before(given, i) else {
        return Some(STILL);
    };
    let Some(second) = named_after(given, i) else {
        return Some(STILL);
    };
    inferred_pair(moved_at(points, first), moved_at(points, second), points[i])
}

// The deltas of all points of a contour, where some are given one.
fn contour_deltas(
    alloc: Global,
    points: &[Pair],
    given: &[Option<Pair>],
) -> Result<Option<Vec<Pair>>, NoMemory>
    requires same { length given.now ≡ length points.now }
    requires points { All AreFWords points.now }
    requires given { All (λ delta. IfSome delta AreFWords) given.now }
    ensures value { IfOk result (λ answer. MatchOption answer ((deltas : List Pair) → FillsContour points.now (given_at given.now) deltas → ⊥) (λ deltas. FillsContour points.now (given_at given.now) deltas.items)) }
    ensures within { IfOk result (λ answer. IfSome answer (λ deltas. All AreFWords deltas.items)) }
{
    let mut deltas = Vec::with_capacity(alloc, points.len())?;
    for i in 0..points.len() {
        match delta_at(points, given, i) {
            Some(delta) => deltas.push(delta)?,
            None => return Ok(None),
        }
    }
    Ok(Some(deltas))
}

// What a tuple gives to each of so many points.
fn given_deltas(
    alloc: Global,
    tuple: &TupleVariation,
    count: usize,
) -> Result<Vec<Option<Pair>>, NoMemory>
    requires { All AreFWords tuple.now.deltas }
    ensures count { IfOk result (λ given. length given.items ≡ count) }
    ensures each { IfOk result (λ given. (i : ℕ) → i < count → given_at given.items i ≡ named_delta tuple.now.points tuple.now.deltas i) }
    ensures within { IfOk result (λ given. All (λ delta. IfSome delta AreFWords) given.items) }
{
    let mut given = Vec::with_capacity(alloc, count)?;
    for point in 0..count {
        given.push(named(tuple, point))?;
    }
    Ok(given)
}

/// The deltas of all outline points in one tuple, inferred on the default drawing where the tuple
/// names none (OpenType, "Inferred deltas for un-referenced point numbers"). `lengths` are the numbers
/// of points of the contours and `points` the outline's points in the default drawing; all numbers fit
/// 16 bits. `None` where some inferred delta is no whole number, and so no list of deltas fills the
/// contours.
pub fn filled(
    alloc: Global,
    lengths: &[u16],
    points: &[Pair],
    tuple: &TupleVariation,
) -> Result<Option<Vec<Pair>>, NoMemory>
    requires whole { sum lengths.now ≡ length points.now }
    requires points { All AreFWords points.now }
    requires deltas { All AreFWords tuple.now.deltas }
    ensures value { IfOk result (λ answer. MatchOption answer ((deltas : List Pair) → FillsContours lengths.now points.now (named_delta tuple.now.points tuple.now.deltas) deltas → ⊥) (λ deltas. FillsContours lengths.now points.now (named_delta tuple.now.points tuple.now.deltas) deltas.items)) }
    ensures within { IfOk result (λ answer. IfSome answer (λ deltas. All AreFWords deltas.items)) }
{
    let given = given_deltas(alloc, tuple, points.len())?;
    let mut deltas = Vec::with_capacity(alloc, points.len())?;
    let mut start = 0;
    for length in lengths {
        let end = start + usize::from(*length);
        match contour_deltas(alloc, &points[start..end], &given[start..end])? {
            Some(contour) => deltas.extend_from_slice(&contour)?,
            None => return Ok(None),
        }
        start = end;
    }
    Ok(Some(deltas))
}
