ghost use Rattle.std.specs.Prelude.{◌≡◌, ◌<◌, ◌≤◌, All, IfOk, length};
ghost use Rattle.variation_rules.specs.FontUnits.{AreFWords};
ghost use Rattle.delta_solve.specs.GlyphModels.{IsTupleWithin};
ghost use Rattle.delta_solve.specs.declared.model.GlyphTuple.{GlyphTuple};
ghost use Rattle.glyph_variations.specs.Conditions.{AreGlyphTuples, point_count};

use crate::tuples::{GlyphVariations, variations};
use arrayvec::ArrayVec;
use basics::{NoMemory, Seq};
use delta_solve::{GlyphModel, GlyphTuple};
use fixpoint::{Fix, Pair};
use gvar_table::Tuple;
use region_support::Support;
use std::alloc::Global;
use std::process::Abort;
use variation_rules::Triple;

// The region of one axis.
fn support(start: i32, peak: i32, end: i32) -> Support {
    let mut support = ArrayVec::new();
    support.push(Triple {
        start: Fix::from_raw(start),
        peak: Fix::from_raw(peak),
        end: Fix::from_raw(end),
    });
    support
}

// Two numbers of 16 bits.
fn pair(at: (i16, i16)) -> Pair
    ensures { AreFWords result }
{
    Pair {
        x: i32::from(at.0),
        y: i32::from(at.1),
    }
}

type At = (i16, i16);

// The advance's delta and those of four points.
type Line = (i16, At, At, At, At);

fn tuple(alloc: Global, line: Line) -> Result<GlyphTuple, NoMemory>
    ensures four { IfOk result (λ tuple. length tuple.deltas ≡ 4) }
    ensures within { IfOk result IsTupleWithin }
{
    let mut deltas = Vec::new(alloc);
    deltas.push(pair(line.1))?;
    deltas.push(pair(line.2))?;
    deltas.push(pair(line.3))?;
    deltas.push(pair(line.4))?;
    Ok(GlyphTuple {
        deltas: Seq::from_vec(deltas),
        advance: i32::from(line.0),
    })
}

fn tuples(alloc: Global, lines: &[Line]) -> Result<Seq<GlyphTuple>, NoMemory>
    requires some { 0 < length lines.now }
    requires few { length lines.now ≤ 128 }
    ensures are { IfOk result AreGlyphTuples }
    ensures count { IfOk result (λ tuples. point_count tuples ≡ 4) }
{
    let mut tuples = Vec::new(alloc);
    for line in lines {
        tuples.push(tuple(alloc, *line)?)?;
    }
    Ok(Seq::from_vec(tuples))
}

// The variations of a glyph with one contour of four points.
fn found(
    alloc: Global,
    lines: &[Line],
    regions: &[(i32, i32, i32)],
) -> Result<GlyphVariations, NoMemory>
    requires some { 0 < length lines.now }
    requires few { length lines.now ≤ 128 }
{
    let mut supports = Vec::new(alloc);
    for (start, peak, end) in regions {
        supports.push(support(*start, *peak, *end))?;
    }
    let model = GlyphModel {
        lengths: Seq::from_vec(Vec::from_slice(alloc, &[4])?),
        on: Seq::from_vec(Vec::from_slice(alloc, &[true, true, true, true])?),
        tuples: tuples(alloc, lines)?,
    };
    variations(alloc, &model, &Seq::from_vec(supports))
}

// A tuple has this region, names these points, and moves them so.
fn check(rt: &impl Abort, tuple: &Tuple, region: (i32, i32, i32), points: &[u16], deltas: &[Pair]) {
    let (start, peak, end) = region;
    assert_eq!(rt;
        tuple.support.as_slice(),
        support(start, peak, end).as_slice()
    );
    assert_eq!(rt; tuple.points.as_slice(), points);
    assert_eq!(rt; tuple.deltas.as_slice(), deltas);
}

// A square. The second master moves its right side and the advance, the third nothing, the fourth the advance alone,
// and the last all points alike.
#[test]
fn square(rt: HostRuntime) {
    let still = (0, 0);
    let lines = [
        (500, (0, 0), (100, 0), (100, 100), (0, 100)),
        (50, still, (50, 0), (50, 0), still),
        (0, still, still, still, still),
        (-1, still, still, still, still),
        (0, (7, -3), (7, -3), (7, -3), (7, -3)),
    ];
    let regions = [
        (0, 0, 0),
        (0, 4096, 16384),
        (4096, 16384, 16384),
        (-16384, -16384, 0),
        (-8192, -4096, 0),
    ];
    let Ok(found) = found(rt.alloc(), &lines, &regions) else {
        assert!(rt; false, "no memory");
        return;
    };
    assert_eq!(rt; (found.explicit, found.points), (3, 12));
    let tuples = found.tuples.as_slice();
    assert_eq!(rt; tuples.len(), 3);
    let wider = [pair(still), pair((50, 0)), pair((50, 0))];
    check(&rt, &tuples[0], (0, 4096, 16384), &[0, 1, 5], &wider);
    let narrower = [pair((-1, 0))];
    check(&rt, &tuples[1], (-16384, -16384, 0), &[5], &narrower);
    let moved = [pair((7, -3))];
    check(&rt, &tuples[2], (-8192, -4096, 0), &[0], &moved);
}
