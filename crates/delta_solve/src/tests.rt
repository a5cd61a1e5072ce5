ghost use Rattle.std.specs.Prelude.{◌≡◌, ◌≤◌, true, [], ◌∷◌, All, IfOk, length};
ghost use Rattle.glif.specs.Limits.{IsPointWithin, IsWithinLimits};
ghost use Rattle.delta_solve.specs.GlyphModels.{AreAlike};
ghost use Rattle.glif.specs.Shapes.{contour_kinds};

use crate::{DeltaStop, GlyphModel, advance_at, model_at, solve, solve_glyph, table};
use arrayvec::ArrayVec;
use basics::{NoMemory, Seq};
use fixpoint::{Fix, Pair};
use glif::{Outline, Point};
use region_support::{Location, Support};
use std::alloc::Global;
use variation_rules::Triple;

type Ends = (i32, i32, i32);

const NONE: Ends = (0, 0, 0);

fn axis((start, peak, end): Ends) -> Triple {
    Triple {
        start: Fix::from_raw(start),
        peak: Fix::from_raw(peak),
        end: Fix::from_raw(end),
    }
}

// A location of two axes.
fn location(x: i32, y: i32) -> Location {
    let mut location = ArrayVec::new();
    location.push(Fix::from_raw(x));
    location.push(Fix::from_raw(y));
    location
}

// Masters in their order: the location of each, and its region.
fn masters(
    alloc: Global,
    rows: &[(i32, i32, Ends, Ends)],
) -> Result<(Seq<Support>, Seq<Location>), NoMemory>
    ensures supports { IfOk result (λ masters. length masters.0 ≡ length rows.now) }
    ensures locations { IfOk result (λ masters. length masters.1 ≡ length rows.now) }
{
    let mut supports = Vec::new(alloc);
    let mut locations = Vec::new(alloc);
    for (x, y, across, up) in rows {
        let mut support = ArrayVec::new();
        support.push(axis(*across));
        support.push(axis(*up));
        supports.push(support)?;
        locations.push(location(*x, *y))?;
    }
    Ok((Seq::from_vec(supports), Seq::from_vec(locations)))
}

const SQUARE: [(i32, i32, Ends, Ends); 4] = [
    (0, 0, NONE, NONE),
    (16384, 0, (0, 16384, 16384), NONE),
    (0, 16384, NONE, (0, 16384, 16384)),
    (8192, 16384, (0, 8192, 16384), (0, 16384, 16384)),
];

const CORNERS: [(i32, i32, Ends, Ends); 4] = [
    (0, 0, NONE, NONE),
    (16384, 0, (0, 16384, 16384), NONE),
    (0, 16384, NONE, (0, 16384, 16384)),
    (16384, 16384, (0, 16384, 16384), (0, 16384, 16384)),
];

const LINE: [(i32, i32, Ends, Ends); 3] = [
    (0, 0, NONE, NONE),
    (8192, 0, (0, 8192, 16384), NONE),
    (16384, 0, (8192, 16384, 16384), NONE),
];

// The deltas of these values, one a master.
fn deltas(
    alloc: Global,
    rows: &[(i32, i32, Ends, Ends)],
    values: &[i32],
) -> Result<Seq<i32>, DeltaStop>
    requires one_each { length values.now ≡ length rows.now }
    requires few { length rows.now ≤ 128 }
{
    let (supports, locations) = masters(alloc, rows)?;
    let table = table(alloc, &supports, &locations)?;
    let values = Seq::from_vec(Vec::from_slice(alloc, values)?);
    solve(alloc, &values, &table)
}

// A tie goes down, and the next master's delta is what the rounded ones leave.
#[test]
fn numbers(rt: HostRuntime) {
    let alloc = rt.alloc();
    let found = deltas(alloc, &SQUARE, &[0, 1, 0, 1]).map(|deltas| deltas.into_vec());
    assert_eq!(rt;
        found.unwrap_or(Vec::new(alloc)).as_slice(),
        [0, 1, 0, 0].as_slice()
    );
    let found = deltas(alloc, &SQUARE, &[0, 1, 0, 0]).map(|deltas| deltas.into_vec());
    assert_eq!(rt;
        found.unwrap_or(Vec::new(alloc)).as_slice(),
        [0, 1, 0, -1].as_slice()
    );
    let found = deltas(alloc, &LINE, &[10, 30, 20]).map(|deltas| deltas.into_vec());
    assert_eq!(rt;
        found.unwrap_or(Vec::new(alloc)).as_slice(),
        [10, 20, 10].as_slice()
    );

    // 16383 - (16383 - 32767 - 32767)
    let stop = deltas(alloc, &CORNERS, &[16383, -16384, -16384, 16383]).err();
    assert_eq!(rt;
        stop,
        Some(DeltaStop::DeltaRange {
            master: 3,
            point: 0,
            y: false,
            value: 65534
        })
    );
}

// A point within limits, on the curve.
fn point(at: (i32, i32)) -> Point
    ensures within { IsPointWithin result }
    ensures on { result.on ≡ true }
{
    Point {
        x: at.0.clamp(-16384, 16383),
        y: at.1.clamp(-16384, 16383),
        on: true,
    }
}

type Line = (i32, (i32, i32), (i32, i32));

// An advance and one contour of two points.
fn drawing(alloc: Global, line: Line) -> Result<Outline, NoMemory>
    ensures within { IfOk result IsWithinLimits }
    ensures kinds { IfOk result (λ outline. contour_kinds outline ≡ (true ∷ true ∷ []) ∷ []) }
{
    let (advance, start, end) = line;
    let mut points = Vec::new(alloc);
    points.push(point(start))?;
    points.push(point(end))?;
    let mut contours = Vec::new(alloc);
    contours.push(Seq::from_vec(points))?;
    Ok(Outline {
        advance: advance.clamp(0, 16383),
        contours: Seq::from_vec(contours),
    })
}

fn drawings(alloc: Global, lines: &[Line]) -> Result<Seq<Outline>, NoMemory>
    ensures one_each { IfOk result (λ outlines. length outlines ≡ length lines.now) }
    ensures within { IfOk result (All IsWithinLimits) }
    ensures alike { IfOk result AreAlike }
{
    let mut outlines = Vec::new(alloc);
    for line in lines {
        outlines.push(drawing(alloc, *line)?)?;
    }
    Ok(Seq::from_vec(outlines))
}

// What the model has of the first point, the second one and the advance at a location.
fn drawn(
    alloc: Global,
    rows: &[(i32, i32, Ends, Ends)],
    lines: &[Line],
    at: &Location,
) -> Result<(GlyphModel, (i64, i64), (i64, i64), i64), DeltaStop>
    requires one_each { length lines.now ≡ length rows.now }
    requires few { length rows.now ≤ 128 }
{
    let (supports, locations) = masters(alloc, rows)?;
    let table = table(alloc, &supports, &locations)?;
    let outlines = drawings(alloc, lines)?;
    let model = solve_glyph(alloc, &outlines, &table)?;
    let first = model_at(&model, 0, &supports, at);
    let second = model_at(&model, 1, &supports, at);
    let advance = advance_at(&model, &supports, at);
    Ok((model, first, second, advance))
}

// The last master of the square, with both values of the test of numbers in x. The advances leave
// 510 - (500 + 20 / 2 - 20) to the last one.
#[test]
fn glyphs(rt: HostRuntime) {
    let alloc = rt.alloc();
    let lines = [
        (500, (0, 100), (0, -7)),
        (520, (1, 100), (1, -7)),
        (480, (0, 100), (0, -7)),
        (510, (1, 100), (0, -7)),
    ];
    let found = drawn(alloc, &SQUARE, &lines, &location(8192, 16384));
    let Ok((model, first, second, advance)) = found else {
        assert!(rt; false, "no model");
        return;
    };
    assert_eq!(rt; first, (32768, 6553600));
    assert_eq!(rt; second, (-32768, -458752));
    assert_eq!(rt; advance, 33423360);
    assert_eq!(rt; model.lengths.as_slice(), [2].as_slice());
    assert_eq!(rt; model.on.as_slice(), [true, true].as_slice());
    let wanted = [
        (500, (0, 100), (0, -7)),
        (20, (1, 0), (1, 0)),
        (-20, (0, 0), (0, 0)),
        (20, (0, 0), (-1, 0)),
    ];
    assert_eq!(rt; model.tuples.len(), 4);
    for (tuple, (advance, first, second)) in model.tuples.as_slice().iter().zip(&wanted) {
        let deltas = [
            Pair {
                x: first.0,
                y: first.1,
            },
            Pair {
                x: second.0,
                y: second.1,
            },
        ];
        assert_eq!(rt; tuple.deltas.as_slice(), deltas.as_slice());
        assert_eq!(rt; tuple.advance, *advance);
    }
}

// The first delta that doesn't fit is the second point's in y, before any advance.
#[test]
fn too_far(rt: HostRuntime) {
    let alloc = rt.alloc();
    let lines = [
        (0, (0, 0), (0, 16383)),
        (0, (0, 0), (0, -16384)),
        (0, (0, 0), (0, -16384)),
        (0, (0, 0), (0, 16383)),
    ];
    let stop = drawn(alloc, &CORNERS, &lines, &location(0, 0)).err();
    assert_eq!(rt;
        stop,
        Some(DeltaStop::DeltaRange {
            master: 3,
            point: 1,
            y: true,
            value: 65534
        })
    );
}
