ghost use Rattle.std.specs.Prelude.{◌≡◌, ℤ, pos, ◌≤◌, ◌-ℤ◌, ◌*ℤ◌, All, length, map, slice_index_or};
ghost use Rattle.fixpoint.specs.Rounding.{round_down};
ghost use Rattle.variation_rules.specs.FontUnits.{AreFWords, IsFWord, IsWithin};
ghost use Rattle.variation_rules.specs.InferredDelta.{still};
ghost use Rattle.delta_solve.specs.Deltas.{dot};
ghost use Rattle.delta_solve.specs.GlyphModels.{IsTupleWithin, delta_advance, delta_x, delta_y};
ghost use Rattle.delta_solve.specs.Tables.{IsScalar};

use crate::model::GlyphTuple;
use fixpoint::{Pair, divide_down};

/// A number for each coordinate of a point.
#[derive(Clone, Copy)]
pub(crate) struct Wide {
    pub(crate) x: i64,
    pub(crate) y: i64,
}

// A scalar's part of a delta.
fn part(scalar: i32, delta: i32) -> i64
    requires scalar { IsScalar scalar }
    requires delta { IsFWord delta }
    ensures value { result ≡ scalar *ℤ delta }
    ensures within { IsWithin 2147483648 result }
{
    i64::from(scalar) * i64::from(delta)
}

/// What deltas give by these scalars.
pub(crate) fn dot(scalars: &[i32], deltas: &[i32]) -> i64
    requires few { length scalars.now ≤ 128 }
    requires scalars { All IsScalar scalars.now }
    requires deltas { All IsFWord deltas.now }
    ensures value { result ≡ dot scalars.now deltas.now }
    ensures within { IsWithin 274877906944 result }
{
    let mut sum: i64 = 0;
    for k in 0..scalars.len().min(deltas.len()) {
        let moved = part(scalars[k], deltas[k]);
        sum += moved;
    }
    sum
}

// The tuple's delta of a point, none past the last.
fn delta_of(tuple: &GlyphTuple, point: usize) -> Pair
    requires { IsTupleWithin tuple.now }
    ensures value { result ≡ slice_index_or tuple.now.deltas point still }
    ensures within { AreFWords result }
{
    match tuple.deltas.as_slice().get(point) {
        Some(delta) => *delta,
        None => Pair { x: 0, y: 0 },
    }
}

// A scalar's part of the tuple's delta of a point.
fn parts(scalar: i32, tuple: &GlyphTuple, point: usize) -> Wide
    requires scalar { IsScalar scalar }
    requires tuple { IsTupleWithin tuple.now }
    ensures x { result.x ≡ scalar *ℤ delta_x point tuple.now }
    ensures y { result.y ≡ scalar *ℤ delta_y point tuple.now }
    ensures within_x { IsWithin 2147483648 result.x }
    ensures within_y { IsWithin 2147483648 result.y }
{
    let delta = delta_of(tuple, point);
    Wide {
        x: part(scalar, delta.x),
        y: part(scalar, delta.y),
    }
}

/// What the tuples' deltas of a point give by these scalars.
pub(crate) fn point_dot(scalars: &[i32], tuples: &[GlyphTuple], point: usize) -> Wide
    requires few { length scalars.now ≤ 128 }
    requires scalars { All IsScalar scalars.now }
    requires tuples { All IsTupleWithin tuples.now }
    ensures x { result.x ≡ dot scalars.now (map (delta_x point) tuples.now) }
    ensures y { result.y ≡ dot scalars.now (map (delta_y point) tuples.now) }
    ensures within_x { IsWithin 274877906944 result.x }
    ensures within_y { IsWithin 274877906944 result.y }
{
    let mut x: i64 = 0;
    let mut y: i64 = 0;
    for k in 0..scalars.len().min(tuples.len()) {
        let moved = parts(scalars[k], &tuples[k], point);
        x += moved.x;
        y += moved.y;
    }
    Wide { x, y }
}

/// What the tuples' deltas of the advance give by these scalars.
pub(crate) fn advance_dot(scalars: &[i32], tuples: &[GlyphTuple]) -> i64
    requires few { length scalars.now ≤ 128 }
    requires scalars { All IsScalar scalars.now }
    requires tuples { All IsTupleWithin tuples.now }
    ensures value { result ≡ dot scalars.now (map delta_advance tuples.now) }
    ensures within { IsWithin 274877906944 result }
{
    let mut sum: i64 = 0;
    for k in 0..scalars.len().min(tuples.len()) {
        let moved = part(scalars[k], tuples[k].advance);
        sum += moved;
    }
    sum
}

/// What a master's value leaves to its own delta, where the earlier ones give so much of it.
pub(crate) fn left_of(value: i32, given: i64) -> i64
    requires { IsWithin 274877906944 given }
    ensures { result ≡ round_down ((pos 65536 *ℤ value) -ℤ given) 65536 }
{
    let left = 65536 * i64::from(value) - given;
    divide_down(left, 65536)
}
