ghost use Rattle.std.specs.Prelude.{◌≡◌, ℤ, pos, ◌<◌, ◌^◌, ◌≤ℤ◌, ◌*ℤ◌, All, IfOk, IfSome, List, MatchOption, length, slice_index_or, sum, unwrap_or};
ghost use Rattle.fixpoint.specs.declared.plane.Pair.{Pair};
ghost use Rattle.variation_rules.specs.DrawnGlyph.{DrawOnce, FillOnce, IsDrawn};
ghost use Rattle.variation_rules.specs.DrawnOutline.{Fills, drawn, drawn_advance, named_delta};
ghost use Rattle.variation_rules.specs.FontUnits.{AreFWords, IsFWord, IsWithin};
ghost use Rattle.variation_rules.specs.InferredDelta.{still};
ghost use Rattle.variation_rules.specs.Scalar.{scalar_of};
ghost use Rattle.variation_rules.specs.declared.tuple.TupleVariation.{TupleVariation};

use crate::filling::{STILL, filled, named};
use crate::scalars::scalar;
use crate::tuple::TupleVariation;
use basics::{NoMemory, Seq};
use fixpoint::{Fix, Pair};
use std::alloc::Global;

/// An outline point at a location, in 65536ths of a font unit.
#[derive(Clone, Copy, Debug, PartialEq, Eq)]
pub struct DrawnPoint {
    /// The horizontal coordinate.
    pub x: i64,
    /// The vertical coordinate.
    pub y: i64,
}

/// What the tuple variations of a glyph draw at a location, in 65536ths of a font unit.
#[derive(Drop)]
pub struct DrawnGlyph {
    /// The outline points, in the order of the default drawing.
    pub points: Seq<DrawnPoint>,
    /// The advance, which the second phantom point moves.
    pub advance: i64,
}

// A number of font units.
fn unmoved(units: i32) -> i64
    ensures value { result ≡ pos 65536 *ℤ units }
    ensures within { IsWithin 140737488355328 result }
{
    65536 * i64::from(units)
}

// A weight's part of a delta.
fn part(weight: Fix<16>, delta: i32) -> i64
    requires low { pos 0 ≤ℤ weight }
    requires high { weight ≤ℤ pos 65536 }
    requires delta { IsFWord delta }
    ensures value { result ≡ weight *ℤ delta }
    ensures within { IsWithin 2147483648 result }
{
    weight.wide() * i64::from(delta)
}

// The delta that a tuple names for a point, or no movement.
fn named_or_still(tuple: &TupleVariation, point: usize) -> Pair
    requires { All AreFWords tuple.now.deltas }
    ensures value { result ≡ unwrap_or (named_delta tuple.now.points tuple.now.deltas point) still }
    ensures within { AreFWords result }
{
    named(tuple, point).unwrap_or(STILL)
}

// How one tuple moves the point at `i`, with the deltas that fill it.
fn movement_in(tuple: &TupleVariation, fill: &[Pair], at: &[Fix<14>], i: usize) -> DrawnPoint
    requires i { i < length fill.now }
    requires fill { All AreFWords fill.now }
    ensures x { result.x ≡ scalar_of 16 tuple.now.region at.now *ℤ (slice_index_or fill.now i still).x }
    ensures y { result.y ≡ scalar_of 16 tuple.now.region at.now *ℤ (slice_index_or fill.now i still).y }
    ensures within_x { IsWithin 2147483648 result.x }
    ensures within_y { IsWithin 2147483648 result.y }
{
    let weight = scalar::<16>(tuple.region.as_slice(), at);
    DrawnPoint {
        x: part(weight, fill[i].x),
        y: part(weight, fill[i].y),
    }
}

// Where all tuples move it.
fn moved_point(
    points: &[Pair],
    tuples: &[TupleVariation],
    fills: &[Seq<Pair>],
    at: &[Fix<14>],
    i: usize,
) -> DrawnPoint
    requires i { i < length points.now }
    requires same { length fills.now ≡ length tuples.now }
    requires counts { All (λ (fill : List Pair). length fill ≡ length points.now) fills.now }
    requires within { All (λ (fill : List Pair). All AreFWords fill) fills.now }
    requires few { length tuples.now < 2 ^ 16 }
    ensures x { result.x ≡ drawn (λ (point : Pair). point.x) points.now at.now tuples.now fills.now i }
    ensures y { result.y ≡ drawn (λ (point : Pair). point.y) points.now at.now tuples.now fills.now i }
{
    let mut x = unmoved(points[i].x);
    let mut y = unmoved(points[i].y);
    for k in 0..tuples.len() {
        let moved = movement_in(&tuples[k], fills[k].as_slice(), at, i);
        x += moved.x;
        y += moved.y;
    }
    DrawnPoint { x, y }
}

// How one tuple moves a phantom point in x.
fn phantom_movement_in(tuple: &TupleVariation, at: &[Fix<14>], point: usize) -> i64
    requires { All AreFWords tuple.now.deltas }
    ensures value { result ≡ scalar_of 16 tuple.now.region at.now *ℤ (unwrap_or (named_delta tuple.now.points tuple.now.deltas point) still).x }
    ensures within { IsWithin 2147483648 result }
{
    let weight = scalar::<16>(tuple.region.as_slice(), at);
    part(weight, named_or_still(tuple, point).x)
}

// The advance of a glyph of so many outline points, which its second phantom point moves.
fn moved_advance(
    advance: i32,
    outline_points: usize,
    tuples: &[TupleVariation],
    at: &[Fix<14>],
) -> i64
    requires deltas { All (λ (tuple : TupleVariation). All AreFWords tuple.deltas) tuples.now }
    requires few { length tuples.now < 2 ^ 16 }
    requires outline_points { outline_points < 2 ^ 63 }
    ensures { result ≡ drawn_advance advance outline_points at.now tuples.now }
{
    let mut moved = unmoved(advance);
    for tuple in tuples {
        moved += phantom_movement_in(tuple, at, outline_points + 1);
    }
    moved
}

// The deltas that fill the outline in each tuple, where each has some.
fn all_filled(
    alloc: Global,
    lengths: &[u16],
    points: &[Pair],
    tuples: &[TupleVariation],
) -> Result<Option<Vec<Seq<Pair>>>, NoMemory>
    requires whole { sum lengths.now ≡ length points.now }
    requires points { All AreFWords points.now }
    requires deltas { All (λ (tuple : TupleVariation). All AreFWords tuple.deltas) tuples.now }
    ensures value { IfOk result (λ answer. MatchOption answer ((fills : List (List Pair)) → Fills lengths.now points.now tuples.now fills → ⊥) (λ fills. Fills lengths.now points.now tuples.now fills.items)) }
    ensures same { IfOk result (λ answer. IfSome answer (λ fills. length fills.items ≡ length tuples.now)) }
    ensures counts { IfOk result (λ answer. IfSome answer (λ fills. All (λ (fill : List Pair). length fill ≡ length points.now) fills.items)) }
    ensures within { IfOk result (λ answer. IfSome answer (λ fills. All (λ (fill : List Pair). All AreFWords fill) fills.items)) }
{
    let mut fills = Vec::with_capacity(alloc, tuples.len())?;
    for tuple in tuples {
        match filled(alloc, lengths, points, tuple)? {
            Some(deltas) => fills.push(Seq::from_vec(deltas))?,
            None => return Ok(None),
        }
    }
    Ok(Some(fills))
}

/// What tuple variations draw over a glyph's default drawing at a location (OpenType, "gvar"): each
/// outline point where the default has it plus, for each tuple, its delta times the scalar of the tuple's
/// region, and the advance likewise by the second phantom point. `lengths` are the numbers of points
/// of the contours, and `points` and `advance` the default drawing in font units; points and deltas fit
/// 16 bits, and there are fewer than 65,536 tuples. `None` where some inferred delta is no whole number.
pub fn draw(
    alloc: Global,
    lengths: &[u16],
    points: &[Pair],
    advance: i32,
    tuples: &Seq<TupleVariation>,
    at: &[Fix<14>],
) -> Result<Option<DrawnGlyph>, NoMemory>
    requires whole { sum lengths.now ≡ length points.now }
    requires points { All AreFWords points.now }
    requires deltas { All (λ (tuple : TupleVariation). All AreFWords tuple.deltas) tuples.now }
    requires few { length tuples.now < 2 ^ 16 }
    ensures { IfOk result (λ answer. MatchOption answer ((fills : List (List Pair)) → Fills lengths.now points.now tuples.now fills → ⊥) (IsDrawn lengths.now points.now advance tuples.now at.now)) }
{
    let tuples = tuples.as_slice();
    let fills = match all_filled(alloc, lengths, points, tuples)? {
        Some(fills) => fills,
        None => return Ok(None),
    };
    let mut drawn = Vec::with_capacity(alloc, points.len())?;
    for i in 0..points.len() {
        drawn.push(moved_point(points, tuples, &fills, at, i))?;
    }
    Ok(Some(DrawnGlyph {
        points: Seq::from_vec(drawn),
        advance: moved_advance(advance, points.len(), tuples, at),
    }))
}

/// The law that the tuple variations of a glyph have one drawing at most at a location, since at most
/// one list of deltas fills the outline in each tuple.
pub fn drawing_law()
    ensures fills { FillOnce }
    ensures drawn { DrawOnce }
{}
