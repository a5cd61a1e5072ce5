use crate::{AxisMap, MapStop, Span, avar_at, avar_pairs, backward, forward, normalise};
use basics::{NoMemory, Seq};
use fixpoint::Fix;
use std::alloc::Global;

// The raw number of a whole value.
const ONE: i32 = 65536;

fn span(min: i32, default: i32, max: i32) -> Option<Span> {
    Span::new(
        Fix::from_raw(min),
        Fix::from_raw(default),
        Fix::from_raw(max),
    )
}

// The normalised coordinate by raw numbers.
fn coordinate(limits: (i32, i32, i32), v: i32) -> Option<i32> {
    let span = span(limits.0, limits.1, limits.2)?;
    Some(normalise(&span, Fix::from_raw(v)).raw())
}

fn nodes(alloc: Global, listed: &[(i32, i32)]) -> Result<Seq<(Fix<16>, Fix<16>)>, NoMemory> {
    let mut nodes = Seq::new(alloc);
    for (x, y) in listed {
        nodes.push((Fix::from_raw(*x), Fix::from_raw(*y)))?;
    }
    Ok(nodes)
}

fn map(alloc: Global, user: Span, listed: &[(i32, i32)]) -> Result<AxisMap, MapStop> {
    let nodes = nodes(alloc, listed)?;
    AxisMap::new(alloc, user, nodes)
}

// The fault of a map, if it has one.
fn fault(alloc: Global, limits: (i32, i32, i32), listed: &[(i32, i32)]) -> Option<MapStop> {
    let user = span(limits.0, limits.1, limits.2)?;
    map(alloc, user, listed).err()
}

#[test]
fn normalises(rt: HostRuntime) {
    let axis = (100 * ONE, 400 * ONE, 900 * ONE);
    let rows = [
        (axis, 700 * ONE, 9830),
        (axis, 50 * ONE, -16384),
        (axis, 100 * ONE, -16384),
        (axis, 250 * ONE, -8192),
        (axis, 399 * ONE, -55),
        (axis, 400 * ONE, 0),
        (axis, 401 * ONE, 33),
        (axis, 900 * ONE, 16384),
        (axis, 1000 * ONE, 16384),
        // Ties, on both sides.
        ((0, 0, 32768), 1, 1),
        ((0, 0, 32768), 3, 2),
        ((-32768, 0, 0), -1, 0),
        ((-32768, 0, 0), -3, -1),
        // Sides that are empty.
        ((0, 0, 0), 5, 0),
        ((5, 5, 9), 4, 0),
        ((1, 5, 5), 6, 0),
        // The widest spans.
        ((i32::MIN, 0, i32::MAX), i32::MAX, 16384),
        ((i32::MIN, 0, i32::MAX), i32::MIN, -16384),
        ((i32::MIN, i32::MIN, i32::MAX), 0, 8192),
    ];
    for (limits, v, want) in rows {
        assert_eq!(rt; coordinate(limits, v), Some(want), "{v}");
    }
    assert_eq!(rt; coordinate((1, 0, 2), 0), None);
    assert_eq!(rt; coordinate((0, 2, 1), 0), None);
}

#[test]
fn tells_first_fault(rt: HostRuntime) {
    let alloc = rt.alloc();
    let rows: [((i32, i32, i32), &[(i32, i32)], Option<MapStop>); 19] = [
        ((0, 50, 100), &[], None),
        ((0, 0, 0), &[(-1, 1), (0, 5), (1, 6)], None),
        ((0, 0, 100), &[(0, i32::MIN)], None),
        ((0, 100, 100), &[(50, 10), (100, 20), (150, 30)], None),
        ((0, 50, 100), &[(0, 0), (0, 1)], Some(MapStop::MapOrder(1))),
        ((0, 50, 100), &[(0, 0), (1, 0)], Some(MapStop::MapOrder(1))),
        (
            (0, 50, 100),
            &[(0, 0), (5, 5), (5, 4)],
            Some(MapStop::MapOrder(2)),
        ),
        ((0, 50, i32::MAX), &[(1, 2)], Some(MapStop::MapRange)),
        ((i32::MIN, 0, 100), &[(0, -1)], Some(MapStop::MapRange)),
        // Against a pair that each axis has, and against an earlier node's.
        (
            (0, 0, 1 << 30),
            &[(0, 0), (1, 1 << 29), (2, 1 << 30)],
            Some(MapStop::MapCollapse(1)),
        ),
        (
            (0, 65536, 131072),
            &[(0, 0), (65536, 1), (65537, 1 << 20), (131072, 1048577)],
            Some(MapStop::MapCollapse(2)),
        ),
        (
            (0, 2, 3),
            &[(0, 0), (1 << 20, 1)],
            Some(MapStop::MapCollapse(0)),
        ),
        // At the end of a side that collapsed, and where no node breaks.
        (
            (0, 2, 3),
            &[(0, 0), (1, 1), (3, 2)],
            Some(MapStop::MapCollapse(2)),
        ),
        (
            (0, 2, 3),
            &[(-5, -5), (0, 0), (1, 1), (3, 2)],
            Some(MapStop::MapCollapse(3)),
        ),
        (
            (0, 2, 3),
            &[(-(1 << 20), -1), (0, 0), (1, 1), (1 << 20, 2)],
            Some(MapStop::MapCollapse(4)),
        ),
        // Two faults at once.
        (
            (0, 50, i32::MAX),
            &[(0, 1), (0, 2)],
            Some(MapStop::MapOrder(1)),
        ),
        (
            (0, 0, i32::MAX),
            &[(0, 1), (1, i32::MAX)],
            Some(MapStop::MapRange),
        ),
        (
            (0, 2, 3),
            &[(0, 0), (1 << 20, 1), (1 << 20, 2)],
            Some(MapStop::MapOrder(2)),
        ),
        (
            (0, 50, 100),
            &[(-10, -1), (0, 0), (50, 100), (100, 101)],
            None,
        ),
    ];
    for (limits, listed, want) in rows {
        assert_eq!(rt; fault(alloc, limits, listed), want);
    }
}

// The map of an axis from 100 over 400 to 900.
const WEIGHTS: [(i32, i32); 4] = [
    (100 * ONE, 20 * ONE),
    (400 * ONE, 80 * ONE),
    (700 * ONE, 150 * ONE),
    (900 * ONE, 200 * ONE),
];

// What the three calls answer for one map, by raw numbers.
fn follows(
    alloc: Global,
    limits: (i32, i32, i32),
    listed: &[(i32, i32)],
    v: i32,
) -> Option<(i32, i32)> {
    let user = span(limits.0, limits.1, limits.2)?;
    let map = map(alloc, user, listed).ok()?;
    let copy = map.try_copy(alloc).ok()?;
    let v = Fix::from_raw(v);
    Some((forward(&map, v).raw(), backward(&copy, v).raw()))
}

#[test]
fn follows_nodes(rt: HostRuntime) {
    let alloc = rt.alloc();
    let weight = (100 * ONE, 400 * ONE, 900 * ONE);
    // A map, a value, and what becomes of it forward and backward.
    let rows: [((i32, i32, i32), &[(i32, i32)], i32, (i32, i32)); 20] = [
        (weight, &WEIGHTS, 50 * ONE, (20 * ONE, 250 * ONE)),
        (weight, &WEIGHTS, 80 * ONE, (20 * ONE, 400 * ONE)),
        (weight, &WEIGHTS, 100 * ONE, (20 * ONE, 31831771)),
        (weight, &WEIGHTS, 101 * ONE, (1323827, 32112640)),
        (weight, &WEIGHTS, 150 * ONE, (30 * ONE, 700 * ONE)),
        (weight, &WEIGHTS, 700 * ONE, (150 * ONE, 900 * ONE)),
        (weight, &WEIGHTS, 1000 * ONE, (200 * ONE, 900 * ONE)),
        // Below the first node and above the last one, and ties between.
        ((0, 50, 100), &NARROW, 0, (100, 0)),
        ((0, 50, 100), &NARROW, 19, (119, 0)),
        ((0, 50, 100), &NARROW, 20, (120, 0)),
        ((0, 50, 100), &NARROW, 41, (161, 0)),
        ((0, 50, 100), &NARROW, 61, (171, 0)),
        ((0, 50, 100), &NARROW, 101, (210, 1)),
        ((0, 50, 100), &NARROW, 119, (210, 19)),
        ((0, 50, 100), &NARROW, 121, (210, 21)),
        ((0, 50, 100), &NARROW, 161, (210, 42)),
        ((0, 50, 100), &NARROW, 211, (210, 100)),
        ((-10, 0, 10), &[(-2, -3), (0, 0)], -1, (-1, -1)),
        ((0, 0, 10), &[], 4, (4, 4)),
        ((0, 0, 10), &[], 11, (10, 10)),
    ];
    for (limits, listed, v, want) in rows {
        assert_eq!(rt; follows(alloc, limits, listed, v), Some(want), "{v}");
    }
}

// A map whose lines are steeper and flatter than one.
const NARROW: [(i32, i32); 3] = [(20, 120), (40, 160), (60, 170)];

// The pairs of a map, by raw numbers.
fn pairs(alloc: Global, limits: (i32, i32, i32), listed: &[(i32, i32)]) -> Option<Vec<(i32, i32)>> {
    let user = span(limits.0, limits.1, limits.2)?;
    let map = map(alloc, user, listed).ok()?;
    let pairs = avar_pairs(alloc, &map).ok()?;
    let mut raw = Vec::new(alloc);
    for (from, to) in pairs.as_slice() {
        raw.push((from.raw(), to.raw())).ok()?;
    }
    Some(raw)
}

// Where the pairs of a map lead, by raw numbers.
fn led(alloc: Global, limits: (i32, i32, i32), listed: &[(i32, i32)], v: i32) -> Option<i32> {
    let user = span(limits.0, limits.1, limits.2)?;
    let map = map(alloc, user, listed).ok()?;
    if v < -16384 || 16384 < v {
        return None;
    }
    Some(avar_at(&map, Fix::from_raw(v)).raw())
}

#[test]
fn leads_by_pairs(rt: HostRuntime) {
    let alloc = rt.alloc();
    let weight = (100 * ONE, 400 * ONE, 900 * ONE);
    let narrow = (0, 50, 100);
    let rows: [((i32, i32, i32), &[(i32, i32)], &[(i32, i32)]); 4] = [
        (
            weight,
            &WEIGHTS,
            &[(-16384, -16384), (0, 0), (9830, 9557), (16384, 16384)],
        ),
        (
            narrow,
            &NARROW,
            &[
                (-16384, -16384),
                (-9830, -11343),
                (-3277, -1260),
                (0, 0),
                (3277, 1820),
                (16384, 16384),
            ],
        ),
        // Nodes that do not lie on the axis make none.
        (
            narrow,
            &[(-10, -1), (0, 0), (50, 100), (100, 101)],
            &[(-16384, -16384), (0, 0), (16384, 16384)],
        ),
        (
            (0, 0, 0),
            &[(0, 5)],
            &[(-16384, -16384), (0, 0), (16384, 16384)],
        ),
    ];
    for (limits, listed, want) in rows {
        assert_eq!(rt; pairs(alloc, limits, listed).as_deref(), Some(want));
    }
    let rows: [((i32, i32, i32), &[(i32, i32)], i32, i32); 13] = [
        (weight, &WEIGHTS, -16384, -16384),
        (weight, &WEIGHTS, -8192, -8192),
        (weight, &WEIGHTS, 0, 0),
        (weight, &WEIGHTS, 5000, 4861),
        (weight, &WEIGHTS, 9830, 9557),
        (weight, &WEIGHTS, 9831, 9558),
        (weight, &WEIGHTS, 12000, 11817),
        (weight, &WEIGHTS, 16383, 16383),
        (weight, &WEIGHTS, 16384, 16384),
        (narrow, &NARROW, -9000, -10066),
        (narrow, &NARROW, -3000, -1153),
        (narrow, &NARROW, 3000, 1666),
        (narrow, &NARROW, 16384, 16384),
    ];
    for (limits, listed, v, want) in rows {
        assert_eq!(rt; led(alloc, limits, listed, v), Some(want), "{v}");
    }
}
