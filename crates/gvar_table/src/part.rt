ghost use Rattle.std.specs.Prelude.{◌≡◌, ◌<◌, ◌≤◌, ◌+◌, ◌*◌, ℤ, length, map, IfOk, All};
ghost use Rattle.fixpoint.specs.declared.plane.Pair.{Pair};
ghost use Rattle.variation_rules.specs.PackedDeltas.{PacksDeltas};
ghost use Rattle.variation_rules.specs.PackedPoints.{PacksPoints, RisesWithin};
ghost use Rattle.gvar_table.specs.Layout.{IsWrittenPart};
ghost use Rattle.gvar_table.specs.Tuples.{ArePointDeltas, IsDelta, variation_of};

use crate::tuple::Tuple;
use basics::NoMemory;
use be_bytes::{put_bytes, put_u8};
use fixpoint::Pair;
use packed::{pack_deltas, pack_points};
use std::alloc::{AllocError, Global};

/// The count byte of a list of points that names all of them.
const ALL_POINTS: u8 = 0;

/// The packed part of a tuple of a glyph that has so many points: the points, the x deltas and the y deltas.
pub(crate) fn pack_part(alloc: Global, count: u16, tuple: &Tuple) -> Result<Vec<u8>, NoMemory>
    requires few { count ≤ 4004 }
    requires moves { ArePointDeltas count tuple.now.points tuple.now.deltas }
    ensures { IfOk result (λ part. IsWrittenPart count part.items (variation_of tuple.now)) }
{
    let deltas = tuple.deltas.as_slice();
    let mut part = points_bytes(alloc, count, tuple.points.as_slice())?;
    let x_bytes = x_bytes(alloc, deltas)?;
    put_bytes(&mut part, &x_bytes)?;
    let y_bytes = y_bytes(alloc, deltas)?;
    put_bytes(&mut part, &y_bytes)?;
    Ok(part)
}

/// The points, packed: a single 0 where they are all that the glyph has.
fn points_bytes(alloc: Global, count: u16, points: &[u16]) -> Result<Vec<u8>, NoMemory>
    requires few { count ≤ 4004 }
    requires some { 0 < length points.now }
    requires rise { RisesWithin 0 count points.now }
    ensures packed { IfOk result (λ bytes. PacksPoints count bytes.items points.now) }
    ensures short { IfOk result (λ bytes. length bytes.items ≤ 2 + 3 * length points.now) }
{
    if points.len() < usize::from(count) {
        return pack_points(alloc, points);
    }
    let mut bytes = Vec::new(alloc);
    put_u8(&mut bytes, ALL_POINTS)?;
    Ok(bytes)
}

/// The x deltas, packed.
fn x_bytes(alloc: Global, deltas: &[Pair]) -> Result<Vec<u8>, NoMemory>
    requires { All IsDelta deltas.now }
    ensures packed { IfOk result (λ bytes. PacksDeltas bytes.items (map (λ (delta : Pair). delta.x) deltas.now)) }
    ensures short { IfOk result (λ bytes. length bytes.items ≤ 3 * length deltas.now) }
{
    let xs = xs_of(alloc, deltas)?;
    pack_deltas(alloc, &xs)
}

/// The y deltas, packed.
fn y_bytes(alloc: Global, deltas: &[Pair]) -> Result<Vec<u8>, NoMemory>
    requires { All IsDelta deltas.now }
    ensures packed { IfOk result (λ bytes. PacksDeltas bytes.items (map (λ (delta : Pair). delta.y) deltas.now)) }
    ensures short { IfOk result (λ bytes. length bytes.items ≤ 3 * length deltas.now) }
{
    let ys = ys_of(alloc, deltas)?;
    pack_deltas(alloc, &ys)
}

/// The x numbers of the deltas.
fn xs_of(alloc: Global, deltas: &[Pair]) -> Result<Vec<i32>, AllocError>
    ensures { IfOk result (λ xs. xs.items ≡ map (λ (delta : Pair). delta.x) deltas.now) }
{
    deltas.iter().map(|delta| delta.x).collect(alloc)
}

/// The y numbers of the deltas.
fn ys_of(alloc: Global, deltas: &[Pair]) -> Result<Vec<i32>, AllocError>
    ensures { IfOk result (λ ys. ys.items ≡ map (λ (delta : Pair). delta.y) deltas.now) }
{
    deltas.iter().map(|delta| delta.y).collect(alloc)
}
