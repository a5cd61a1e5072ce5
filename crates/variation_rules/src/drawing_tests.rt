ghost use Rattle.std.specs.Prelude.{◌≡◌, All, IfOk, length};
ghost use Rattle.variation_rules.specs.FontUnits.{AreFWords, IsFWord, IsReference};
ghost use Rattle.variation_rules.specs.declared.tuple.TupleVariation.{TupleVariation};

use crate::{DrawnPoint, Reference, Triple, TupleVariation, draw, filled, inferred_delta, scalar};
use basics::{NoMemory, Seq};
use fixpoint::{Fix, Pair};
use std::alloc::Global;
use std::test::Fail;

fn triple((start, peak, end): (i32, i32, i32)) -> Triple {
    Triple {
        start: Fix::from_raw(start),
        peak: Fix::from_raw(peak),
        end: Fix::from_raw(end),
    }
}

fn pair(x: i16, y: i16) -> Pair
    ensures { AreFWords result }
{
    Pair {
        x: i32::from(x),
        y: i32::from(y),
    }
}

fn units(z: i16) -> i64
    ensures { IsFWord result }
{
    i64::from(z)
}

fn reference(at: i16, delta: i16) -> Reference
    ensures { IsReference result }
{
    Reference {
        at: units(at),
        delta: units(delta),
    }
}

// One axis from the default to its end, with these deltas.
fn tuple(alloc: Global, points: &[u16], deltas: &[Pair]) -> Result<TupleVariation, NoMemory>
    requires { All AreFWords deltas.now }
    ensures { IfOk result (λ tuple. All AreFWords tuple.deltas) }
{
    let region = Vec::from_slice(alloc, &[triple((0, 16384, 16384))])?;
    let points = Vec::from_slice(alloc, points)?;
    let deltas = Vec::from_slice(alloc, deltas)?;
    Ok(TupleVariation {
        region: Seq::from_vec(region),
        points: Seq::from_vec(points),
        deltas: Seq::from_vec(deltas),
    })
}

fn one_tuple(
    alloc: Global,
    points: &[u16],
    deltas: &[Pair],
) -> Result<Seq<TupleVariation>, NoMemory>
    requires { All AreFWords deltas.now }
    ensures deltas { IfOk result (λ tuples. All (λ (tuple : TupleVariation). All AreFWords tuple.deltas) tuples) }
    ensures one { IfOk result (λ tuples. length tuples ≡ 1) }
{
    let mut tuples = Seq::new(alloc);
    tuples.push(tuple(alloc, points, deltas)?)?;
    Ok(tuples)
}

fn drawn(x: i16, y: i16) -> DrawnPoint {
    DrawnPoint {
        x: 65536 * i64::from(x),
        y: 65536 * i64::from(y),
    }
}

#[test]
fn scalars_by_hand(rt: HostRuntime) {
    let free = (0, 0, 0);
    for (first, at, second, also, want) in [
        // At the default, on the way to the peak, at it and beyond the end.
        ((0, 16384, 16384), 0, free, 0, 0),
        ((0, 16384, 16384), 8192, free, 0, 32768),
        ((0, 16384, 16384), 16384, free, 0, 65536),
        ((0, 16384, 16384), -8192, free, 0, 0),
        // An intermediate region, on both sides of its peak, and at its ends.
        ((4096, 8192, 16384), 4096, free, 0, 0),
        ((4096, 8192, 16384), 5120, free, 0, 16384),
        ((4096, 8192, 16384), 12288, free, 0, 32768),
        ((4096, 8192, 16384), 16384, free, 0, 0),
        // Below the default.
        ((-16384, -16384, 0), -4096, free, 0, 16384),
        // Axes that don't count: no peak, no order, and both sides of the default.
        ((-16384, 0, 16384), 5000, free, 0, 65536),
        ((9000, 8192, 16384), 100, free, 0, 65536),
        ((0, 8192, 8000), 100, free, 0, 65536),
        ((-8192, 8192, 16384), -8192, free, 0, 65536),
        // Two axes: two thirds are 43,691 parts, and half of these 21,846, since the tie goes up.
        ((0, 3, 3), 2, free, 0, 43691),
        ((0, 3, 3), 2, (0, 2, 2), 1, 21846),
        ((0, 3, 3), 2, (0, 2, 2), 0, 0),
    ] {
        let region = [triple(first), triple(second)];
        let location = [Fix::from_raw(at), Fix::from_raw(also)];
        assert_eq!(rt; scalar::<16>(&region, &location).raw(), want, "at {at}");
    }
    let region = [triple((0, 3, 3)), triple((0, 2, 2))];
    assert_eq!(rt;
        scalar::<14>(&region, &[Fix::from_raw(2), Fix::from_raw(1)]).raw(),
        5462
    );
}

#[test]
fn inferred_deltas_by_hand(rt: HostRuntime) {
    for (first, second, at, want) in [
        // Below, at, between and above two references.
        ((100, 10), (200, 30), 50, Some(10)),
        ((100, 10), (200, 30), 100, Some(10)),
        ((100, 10), (200, 30), 150, Some(20)),
        ((100, 10), (200, 30), 105, Some(11)),
        ((100, 10), (200, 30), 101, None),
        ((100, 10), (200, 30), 200, Some(30)),
        ((100, 10), (200, 30), 250, Some(30)),
        // The references in the other order, and deltas that fall.
        ((200, 30), (100, 10), 50, Some(10)),
        ((200, 30), (100, 10), 150, Some(20)),
        ((200, 30), (100, 10), 250, Some(30)),
        ((0, 6), (3, 0), 1, Some(4)),
        ((0, 0), (3, -6), 1, Some(-2)),
        ((0, 0), (3, -7), 1, None),
        // At one coordinate, with one delta and with two.
        ((100, 10), (100, 10), 500, Some(10)),
        ((100, 10), (100, 20), 100, Some(0)),
        // The greatest numbers.
        ((-32768, -32768), (32767, 32767), -1, Some(-1)),
    ] {
        let found = inferred_delta(
            reference(first.0, first.1),
            reference(second.0, second.1),
            units(at),
        );
        assert_eq!(rt; found, want, "at {at}");
    }
}

#[test]
fn a_triangle_moves(rt: HostRuntime) -> Result<(), Fail> {
    let alloc = rt.alloc();
    let points = [pair(100, 0), pair(200, 0), pair(100, 100)];
    let right = pair(50, 0);
    let deltas = [
        right,
        right,
        right,
        pair(0, 0),
        pair(30, 0),
        pair(0, 0),
        pair(0, 0),
    ];
    let tuples = one_tuple(alloc, &[0, 1, 2, 3, 4, 5, 6], &deltas)?;

    let half = draw(alloc, &[3], &points, 600, &tuples, &[Fix::from_raw(8192)])?.ok_or("half")?;
    let want = [drawn(125, 0), drawn(225, 0), drawn(125, 100)];
    assert_eq!(rt; half.points.as_slice(), want.as_slice());
    assert_eq!(rt; half.advance, 615 * 65536);

    let whole = draw(alloc, &[3], &points, 600, &tuples, &[Fix::from_raw(16384)])?.ok_or("whole")?;
    let want = [drawn(150, 0), drawn(250, 0), drawn(150, 100)];
    assert_eq!(rt; whole.points.as_slice(), want.as_slice());
    assert_eq!(rt; whole.advance, 630 * 65536);
    Ok(())
}

// Of a square two corners are named and the others inferred; a triangle after it has no named point, and
// the phantom points aren't inferred.
#[test]
fn a_square_follows_two_corners(rt: HostRuntime) -> Result<(), Fail> {
    let alloc = rt.alloc();
    let points = [
        pair(0, 0),
        pair(100, 0),
        pair(100, 100),
        pair(0, 100),
        pair(5, 5),
        pair(9, 5),
        pair(5, 9),
    ];
    let tuples = one_tuple(alloc, &[0, 2], &[pair(10, 20), pair(30, 40)])?;
    let end = draw(
        alloc,
        &[4, 3],
        &points,
        600,
        &tuples,
        &[Fix::from_raw(16384)],
    )?
    .ok_or("end")?;
    let corners = [
        drawn(10, 20),
        drawn(130, 20),
        drawn(130, 140),
        drawn(10, 140),
        drawn(5, 5),
        drawn(9, 5),
        drawn(5, 9),
    ];
    assert_eq!(rt; end.points.as_slice(), corners.as_slice());
    assert_eq!(rt; end.advance, 600 * 65536);

    // The second contour's points are named by their numbers in the outline.
    let after = tuple(alloc, &[5], &[pair(7, -1)])?;
    let found = filled(alloc, &[4, 3], &points, &after)?.ok_or("filled")?;
    let still = pair(0, 0);
    let all = pair(7, -1);
    assert_eq!(rt;
        found.as_slice(),
        [still, still, still, still, all, all, all].as_slice()
    );
    Ok(())
}

#[test]
fn a_third_is_no_delta(rt: HostRuntime) -> Result<(), Fail> {
    let alloc = rt.alloc();
    let points = [pair(0, 0), pair(3, 0), pair(1, 0)];
    let tuples = one_tuple(alloc, &[0, 1], &[pair(0, 0), pair(1, 0)])?;
    assert_eq!(rt;
        draw(alloc, &[3], &points, 600, &tuples, &[Fix::from_raw(0)])?.is_none(),
        true
    );
    let thirds = tuple(alloc, &[0, 1], &[pair(0, 0), pair(3, 0)])?;
    let found = filled(alloc, &[3], &points, &thirds)?.ok_or("filled")?;
    assert_eq!(rt;
        found.as_slice(),
        [pair(0, 0), pair(3, 0), pair(1, 0)].as_slice()
    );
    Ok(())
}
