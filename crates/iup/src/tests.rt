ghost use Rattle.std.specs.Prelude.{◌≡◌, ℕ, ◌<◌, ◌≤◌, All, IfOk, length, vec_len};
ghost use Rattle.variation_rules.specs.FontUnits.{AreFWords};
ghost use Rattle.iup.specs.Arcs.{IsContour, RisesFrom};

use crate::{arc_holds, infers};
use basics::{NoMemory, Seq};
use fixpoint::Pair;
use std::alloc::Global;
use variation_rules::{TupleVariation, filled};

// Pairs of 16 bits.
fn pairs(alloc: Global, numbers: &[(i16, i16)]) -> Result<Vec<Pair>, NoMemory>
    ensures within { IfOk result (λ pairs. All AreFWords pairs.items) }
    ensures count { IfOk result (λ pairs. length pairs.items ≡ length numbers.now) }
{
    let mut pairs = Vec::new(alloc);
    for (x, y) in numbers {
        pairs.push(Pair {
            x: i32::from(*x),
            y: i32::from(*y),
        })?;
    }
    Ok(pairs)
}

// The lengths of all arcs from a point that hold.
fn lengths_from(
    alloc: Global,
    points: &[(i16, i16)],
    deltas: &[(i16, i16)],
    i: usize,
) -> Result<Vec<usize>, NoMemory> {
    let mut lengths = Vec::new(alloc);
    let points = pairs(alloc, points)?;
    let deltas = pairs(alloc, deltas)?;
    if points.len() != deltas.len() || points.len() > 1024 || i >= points.len() {
        return Ok(lengths);
    }
    for k in 1..points.len() + 1 {
        if arc_holds(&points, &deltas, i, k) {
            lengths.push(k)?;
        }
    }
    Ok(lengths)
}

#[test]
fn arcs_by_hand(rt: HostRuntime) {
    let alloc = rt.alloc();
    // An arc holds where a shorter one from the same point doesn't.
    let bent = [(0, 0), (50, 0), (200, 0), (100, 0)];
    let rise = [(0, 0), (5, 0), (10, 0), (10, 0)];
    let from_first = lengths_from(alloc, &bent, &rise, 0);
    assert_eq!(rt;
        from_first.unwrap_or(Vec::new(alloc)).as_slice(),
        [1, 3].as_slice()
    );
    // In y alone something is not inferred.
    let slip = [(0, 0), (5, 1), (10, 0), (10, 0)];
    let from_first = lengths_from(alloc, &bent, &slip, 0);
    assert_eq!(rt;
        from_first.unwrap_or(Vec::new(alloc)).as_slice(),
        [1].as_slice()
    );
    // Between equal coordinates with different deltas a point doesn't move; beside equal deltas it does.
    let level = [(7, 0), (9, 0), (7, 0)];
    let apart = lengths_from(alloc, &level, &[(3, 0), (0, 0), (4, 0)], 0);
    assert_eq!(rt;
        apart.unwrap_or(Vec::new(alloc)).as_slice(),
        [1, 2].as_slice()
    );
    let equal = lengths_from(alloc, &level, &[(3, 0), (3, 0), (3, 0)], 1);
    assert_eq!(rt;
        equal.unwrap_or(Vec::new(alloc)).as_slice(),
        [1, 2, 3].as_slice()
    );
}

// The points of a mask.
fn chosen(alloc: Global, count: usize, mask: u32) -> Result<Vec<u32>, NoMemory>
    requires { count ≤ 1024 }
    ensures { IfOk result (λ set. RisesFrom 0 count set.items) }
{
    let mut set = Vec::new(alloc);
    let mut left = mask;
    for i in 0..count {
        if left % 2 == 1 {
            set.push(i as u32)?;
        }
        left /= 2;
    }
    Ok(set)
}

// Whether the plain reader, told the deltas of a set alone, finds all deltas.
fn fills(alloc: Global, points: &[Pair], deltas: &[Pair], set: &[u32]) -> Result<bool, NoMemory>
    requires { IsContour points.now deltas.now }
{
    let mut named = TupleVariation {
        region: Seq::new(alloc),
        points: Seq::new(alloc),
        deltas: Seq::new(alloc),
    };
    for i in 0..deltas.len() {
        if set.contains(&(i as u32)) {
            named.points.push(i as u16)?;
            named.deltas.push(deltas[i])?;
        }
    }
    match filled(alloc, &[points.len() as u16], points, &named)? {
        Some(all) => Ok(all.as_slice() == deltas),
        None => Ok(false),
    }
}

// How many sets of the contour infer the deltas; `None` where `infers` says otherwise than the plain
// reader for some set.
fn inferring_sets(
    alloc: Global,
    points: &[(i16, i16)],
    deltas: &[(i16, i16)],
) -> Result<Option<u32>, NoMemory> {
    let points = pairs(alloc, points)?;
    let deltas = pairs(alloc, deltas)?;
    if points.len() != deltas.len() || points.is_empty() || points.len() > 10 {
        return Ok(None);
    }
    let mut sets = 0;
    for mask in 0..2048 {
        let set = chosen(alloc, points.len(), mask)?;
        let all = infers(&points, &deltas, &set);
        if all != fills(alloc, &points, &deltas, &set)? {
            return Ok(None);
        }
        if all && mask < 1 << points.len() {
            sets += 1;
        }
    }
    Ok(Some(sets))
}

#[test]
fn sets_as_filled(rt: HostRuntime) {
    let alloc = rt.alloc();
    let square = [(0, 0), (100, 0), (100, 100), (0, 100)];
    // Neighbours on both sides move unlike: one of 0 and 3 is named, and one of 1 and 2.
    let wide = inferring_sets(alloc, &square, &[(0, 0), (50, 0), (50, 0), (0, 0)]);
    assert_eq!(rt; wide.unwrap_or(None), Some(9));
    // All move alike: any set but the empty one.
    let shifted = inferring_sets(alloc, &square, &[(10, 0), (10, 0), (10, 0), (10, 0)]);
    assert_eq!(rt; shifted.unwrap_or(None), Some(15));
    // Nothing moves: any set.
    let still = inferring_sets(alloc, &square, &[(0, 0), (0, 0), (0, 0), (0, 0)]);
    assert_eq!(rt; still.unwrap_or(None), Some(16));
    // Three points above one another, none of them inferred.
    let stem = inferring_sets(
        alloc,
        &[(0, 0), (0, 50), (0, 100), (200, 50)],
        &[(5, 0), (6, 0), (7, 0), (0, 0)],
    );
    assert_eq!(rt; stem.unwrap_or(None), Some(2));
    // One point.
    let dot = inferring_sets(alloc, &[(3, 4)], &[(0, 1)]);
    assert_eq!(rt; dot.unwrap_or(None), Some(1));
}
