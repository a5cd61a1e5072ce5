ghost use Rattle.std.specs.Prelude.{◌≡◌, ℕ, ◌<◌, ◌≤◌, All, IfOk, length, vec_len};
ghost use Rattle.variation_rules.specs.FontUnits.{AreFWords};
ghost use Rattle.iup.specs.Arcs.{IsContour, RisesFrom};

use crate::{Least, least, least_points};
use basics::NoMemory;
use fixpoint::Pair;
use iup::infers;
use std::alloc::Global;
use std::process::Abort;
use std::test::Fail;

// A point and its delta, in x and in y.
type Moved = ((i16, i16), (i16, i16));

fn pair(numbers: (i16, i16)) -> Pair
    ensures { AreFWords result }
{
    Pair {
        x: i32::from(numbers.0),
        y: i32::from(numbers.1),
    }
}

// The points of a contour and their deltas.
fn contour(alloc: Global, moved: &[Moved]) -> Result<(Vec<Pair>, Vec<Pair>), NoMemory>
    requires some { 0 < length moved.now }
    requires few { length moved.now ≤ 1024 }
    ensures { IfOk result (λ contour. IsContour contour.0.items contour.1.items) }
{
    let mut points = Vec::new(alloc);
    let mut deltas = Vec::new(alloc);
    for (point, delta) in moved {
        points.push(pair(*point))?;
        deltas.push(pair(*delta))?;
    }
    Ok((points, deltas))
}

fn least_of(alloc: Global, moved: &[Moved]) -> Result<Option<Least>, NoMemory> {
    if moved.is_empty() || moved.len() > 1024 {
        return Ok(None);
    }
    let (points, deltas) = contour(alloc, moved)?;
    Ok(Some(least(alloc, &points, &deltas)?))
}

// The least set of a contour is this.
fn check_set(rt: &impl Abort, alloc: Global, moved: &[Moved], points: &[u32]) -> Result<(), Fail> {
    let least = least_of(alloc, moved)?.ok_or("no contour")?;
    assert_eq!(rt; least.points.as_slice(), points);
    assert_eq!(rt; least.pivot, 0);
    Ok(())
}

#[test]
fn sets_by_hand(rt: HostRuntime) -> Result<(), Fail> {
    let alloc = rt.alloc();
    let square = [
        ((0, 0), (0, 0)),
        ((100, 0), (50, 0)),
        ((100, 100), (50, 0)),
        ((0, 100), (0, 0)),
    ];
    check_set(&rt, alloc, &square, &[0, 1])?;
    let shifted = [
        ((0, 0), (10, 0)),
        ((100, 0), (10, 0)),
        ((100, 100), (10, 0)),
        ((0, 100), (10, 0)),
    ];
    check_set(&rt, alloc, &shifted, &[0])?;
    let stem = [
        ((0, 0), (5, 0)),
        ((0, 50), (6, 0)),
        ((0, 100), (7, 0)),
        ((200, 50), (0, 0)),
    ];
    check_set(&rt, alloc, &stem, &[0, 1, 2])?;
    // No set of two has the first point.
    let house = [
        ((50, 0), (25, 0)),
        ((100, 0), (50, 0)),
        ((100, 100), (50, 0)),
        ((0, 100), (0, 0)),
        ((0, 0), (0, 0)),
    ];
    check_set(&rt, alloc, &house, &[1, 3])?;
    // An arc of the set holds where a shorter one from the same point doesn't.
    let bent = [
        ((0, 0), (0, 0)),
        ((50, 0), (5, 0)),
        ((200, 0), (10, 0)),
        ((100, 0), (10, 0)),
    ];
    check_set(&rt, alloc, &bent, &[0, 3])?;
    let still = [((0, 0), (0, 0)), ((7, 9), (0, 0))];
    check_set(&rt, alloc, &still, &[])?;
    check_set(&rt, alloc, &[((3, 4), (0, 1))], &[0])?;
    Ok(())
}

// A bowl of a real font: 12 of its 16 points.
#[test]
fn bowl_of_a_font(rt: HostRuntime) -> Result<(), Fail> {
    let bowl = [
        ((523, 38), (32, 250)),
        ((626, 38), (-30, 250)),
        ((794, 139), (-130, 189)),
        ((894, 308), (-190, 89)),
        ((894, 411), (-190, 27)),
        ((894, 514), (-190, -35)),
        ((794, 682), (-130, -135)),
        ((626, 782), (-30, -195)),
        ((523, 782), (32, -195)),
        ((420, 782), (94, -195)),
        ((251, 682), (194, -135)),
        ((150, 514), (255, -35)),
        ((150, 411), (255, 27)),
        ((150, 308), (255, 89)),
        ((251, 139), (194, 189)),
        ((420, 38), (94, 250)),
    ];
    let least = least_of(rt.alloc(), &bowl)?.ok_or("no contour")?;
    assert_eq!(rt; least.points.len(), 12);
    Ok(())
}

// The rows of a contour are these, each with its start.
fn check_rows(
    rt: &impl Abort,
    alloc: Global,
    moved: &[Moved],
    rows: &[(u32, &[u32])],
) -> Result<(), Fail> {
    let least = least_of(alloc, moved)?.ok_or("no contour")?;
    assert_eq!(rt; least.rows.len(), rows.len());
    for (row, (start, bounds)) in least.rows.as_slice().iter().zip(rows) {
        assert_eq!(rt; row.start, *start);
        assert_eq!(rt; row.bounds.as_slice(), *bounds);
    }
    Ok(())
}

#[test]
fn rows_by_hand(rt: HostRuntime) -> Result<(), Fail> {
    let alloc = rt.alloc();
    let square = [
        ((0, 0), (0, 0)),
        ((100, 0), (50, 0)),
        ((100, 100), (50, 0)),
        ((0, 100), (0, 0)),
    ];
    let rows: [(u32, &[u32]); 2] = [(0, &[0, 1, 1, 2, 2]), (3, &[0, 1, 1, 1, 2])];
    check_rows(&rt, alloc, &square, &rows)?;
    check_rows(&rt, alloc, &[((3, 4), (0, 1))], &[(0, &[0, 1])])?;
    // Where all move alike every arc holds, and each point is a start.
    let shifted = [((0, 0), (1, 0)), ((5, 0), (1, 0))];
    let rows: [(u32, &[u32]); 2] = [(0, &[0, 1, 1]), (1, &[0, 1, 1])];
    check_rows(&rt, alloc, &shifted, &rows)?;
    check_rows(&rt, alloc, &[((3, 4), (0, 0))], &[])?;
    Ok(())
}

// The points of a mask.
fn chosen(alloc: Global, count: usize, mask: u32) -> Result<Vec<u32>, NoMemory>
    requires { count ≤ 1024 }
    ensures { IfOk result (λ set. RisesFrom 0 count set.items) }
{
    let mut set = Vec::new(alloc);
    let mut left = mask;
    for i in 0..count {
        if left % 2 == 1 {
            set.push(i as u32)?;
        }
        left /= 2;
    }
    Ok(set)
}

// The first of the smallest sets, looked for among all sets of a small contour.
fn least_of_all(alloc: Global, points: &[Pair], deltas: &[Pair]) -> Result<Vec<u32>, NoMemory>
    requires { IsContour points.now deltas.now }
{
    let mut best = chosen(alloc, points.len(), u32::MAX)?;
    for mask in 0..1024 {
        let set = chosen(alloc, points.len(), mask)?;
        let is_before = set.len() < best.len() || (set.len() == best.len() && set < best);
        if is_before && infers(points, deltas, &set) {
            best = set;
        }
    }
    Ok(best)
}

// Whether both searches agree on a contour of so many points, whose coordinates and deltas are the digits
// of a number: 0, 1 or 2 each.
fn agrees(alloc: Global, count: usize, code: u32) -> Result<bool, NoMemory> {
    let mut moved = Vec::new(alloc);
    let mut left = code;
    for _ in 0..count {
        let at = (left % 3) as i16;
        let delta = (left / 3 % 3) as i16;
        moved.push(((at, 0), (delta, 0)))?;
        left /= 9;
    }
    if moved.is_empty() || moved.len() > 10 {
        return Ok(false);
    }
    let (points, deltas) = contour(alloc, &moved)?;
    let found = least(alloc, &points, &deltas)?;
    let alone = least_points(alloc, &points, &deltas)?;
    let wanted = least_of_all(alloc, &points, &deltas)?;
    Ok(found.points.as_slice() == wanted.as_slice() && alone.as_slice() == wanted.as_slice())
}

// The first contour on which it doesn't.
fn first_wrong(alloc: Global) -> Result<Option<(usize, u32)>, NoMemory> {
    for (count, step, end) in [
        (1, 1, 9),
        (2, 1, 81),
        (3, 1, 729),
        (4, 7, 6561),
        (6, 997, 531_441),
        (9, 3_874_204, 387_420_489),
    ] {
        for number in 0..1000 {
            let code = number * step;
            if code < end && !agrees(alloc, count, code)? {
                return Ok(Some((count, code)));
            }
        }
    }
    Ok(None)
}

#[test]
fn sets_as_of_all(rt: HostRuntime) {
    match first_wrong(rt.alloc()) {
        Ok(wrong) => assert_eq!(rt; wrong, None),
        Err(NoMemory) => assert!(rt; false),
    }
}
