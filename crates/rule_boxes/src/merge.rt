ghost use Rattle.std.specs.Prelude.{◌≡◌, ◌≤◌, length, position, IfOk};
ghost use Rattle.rule_boxes.specs.Merging.{adjoins, hull, hulls, are_same, are_joint, can_join, joined, has_some, Absorbs, IsMerged};

use crate::area::{Interval, Zone};
use basics::NoMemory;
use std::alloc::Global;

// Whether the second interval begins right after the first one.
fn adjoins(a: Interval, b: Interval) -> bool
    ensures { result ≡ adjoins a b }
{
    i64::from(a.high) + 1 == i64::from(b.low)
}

// From the lower low end to the higher high end.
fn hull(a: Interval, b: Interval) -> Interval
    ensures { result ≡ hull a b }
{
    Interval {
        low: a.low.min(b.low),
        high: a.high.max(b.high),
    }
}

// Widens each interval of the area to reach over the other area's.
fn widen(area: &mut [Interval], other: &[Interval])
    ensures { area.new ≡ hulls area.old other.now }
{
    for axis in 0..area.len().min(other.len()) {
        area[axis] = hull(area[axis], other[axis]);
    }
}

// Whether the areas are equal, on the axes that both have.
fn are_same(area: &[Interval], other: &[Interval]) -> bool
    ensures { result ≡ are_same area.now other.now }
{
    let [a, area @ ..] = area else {
        return true;
    };
    let [b, other @ ..] = other else {
        return true;
    };
    *a == *b && are_same(area, other)
}

// Whether the areas are equal but for one axis, on which they adjoin.
fn are_joint(area: &[Interval], other: &[Interval]) -> bool
    ensures { result ≡ are_joint area.now other.now }
{
    let [a, area @ ..] = area else {
        return false;
    };
    let [b, other @ ..] = other else {
        return false;
    };
    if *a == *b {
        return are_joint(area, other);
    }
    (adjoins(*a, *b) || adjoins(*b, *a)) && are_same(area, other)
}

// Whether the zones are one box together, in which the same rules hold.
fn can_join(a: &Zone, b: &Zone) -> bool
    ensures { result ≡ can_join a.now b.now }
{
    are_joint(&a.area, &b.area) && a.rules == b.rules
}

// The two zones in one.
fn joined(a: &Zone, b: &Zone) -> Zone
    ensures { result ≡ joined a.now b.now }
{
    let mut joined = *a;
    widen(&mut joined.area, &b.area);
    joined
}

// Whether some rule holds in a zone with these flags.
fn has_some(rules: &[bool]) -> bool
    ensures { result ≡ has_some rules.now }
{
    rules.iter().any(|rule| *rule)
}

// Where the first of the zones is that this one can be joined with.
fn partner(zones: &[Zone], zone: &Zone) -> Option<usize>
    ensures { result ≡ position (λ other. can_join other zone.now) zones.now }
{
    zones.iter().position(|other| can_join(other, zone))
}

// Adds a zone to zones of which no two can be joined, and joins it with those with which it can be.
fn absorb(zones: &mut Vec<Zone>, zone: &Zone) -> Result<(), NoMemory>
    ensures { IfOk result (λ _. Absorbs zones.old.items zone.now zones.new.items) }
{
    let mut zone = *zone;
    while let Some(index) = partner(zones, &zone) {
        let other = zones.remove(index);
        zone = joined(&other, &zone);
    }
    zones.push(zone)?;
    Ok(())
}

/// The zones in which some rule holds, joined until no two of them can be.
pub(crate) fn merged(alloc: Global, zones: &[Zone]) -> Result<Vec<Zone>, NoMemory>
    ensures { IfOk result (λ merged. IsMerged zones.now merged.items) }
{
    let mut merged = Vec::new(alloc);
    for zone in zones {
        if has_some(&zone.rules) {
            absorb(&mut merged, zone)?;
        }
    }
    Ok(merged)
}
