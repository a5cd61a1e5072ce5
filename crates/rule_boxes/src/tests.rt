ghost use Rattle.std.specs.Prelude.{◌<◌, IsTrue, All};
ghost use Rattle.rule_boxes.specs.Answers.{HaveAxes};

use crate::{Cell, Condition, RuleStop, Sets, cells, holds};
use arrayvec::ArrayVec;
use basics::{NoMemory, Seq};
use fixpoint::Fix;
use region_support::Location;
use std::alloc::Global;
use std::process::Abort;
use std::test::Fail;

/// An axis, the least coordinate and the greatest.
type Bounds = (u32, i32, i32);

/// The sets of a rule.
type Listed = &'static [&'static [Bounds]];

/// On the first axis from 8192 on, and on the second one up to 0.
const HEAVY: &[Bounds] = &[(0, 8192, 16384)];

const NARROW: &[Bounds] = &[(1, -16384, 0)];

const BOTH: &[Bounds] = &[(0, 8192, 16384), (1, -16384, 0)];

const NEVER: &[Bounds] = &[(0, 16384, -16384)];

/// The sets of a rule, a location, and whether the rule holds there.
const RULES: [(Listed, [i32; 2], bool); 16] = [
    // Both ends belong to a condition.
    (&[HEAVY], [8191, 0], false),
    (&[HEAVY], [8192, 0], true),
    (&[HEAVY], [16384, 0], true),
    (&[NARROW], [0, 0], true),
    (&[NARROW], [0, 1], false),
    (&[&[(0, 5, 5)]], [5, 0], true),
    // All conditions of a set hold, or one set of the rule.
    (&[BOTH], [16384, 1], false),
    (&[BOTH], [16384, 0], true),
    (&[BOTH], [8191, -16384], false),
    (&[HEAVY, NARROW], [16384, 1], true),
    (&[HEAVY, NARROW], [8191, 0], true),
    (&[HEAVY, NARROW], [8191, 1], false),
    // No set, an empty set, and a condition that never holds.
    (&[], [0, 0], false),
    (&[&[]], [0, 0], true),
    (&[NEVER], [16384, 0], false),
    (&[NEVER, &[]], [0, 0], true),
];

/// The rules of a design space of three axes, and how many boxes they need.
const BOXES: [(&[Listed], usize); 17] = [
    // No rule, or none that holds anywhere.
    (&[], 0),
    (&[&[]], 0),
    (&[&[NEVER], &[&[(1, 20000, 30000)]], &[&[(2, -9, -10)]]], 0),
    // The whole space, by an empty set or by a condition that holds everywhere.
    (&[&[&[]]], 1),
    (&[&[], &[&[]], &[]], 1),
    (&[&[&[(1, i32::MIN, i32::MAX)]]], 1),
    // One box of a rule, also where its sets overlap or adjoin.
    (&[&[HEAVY]], 1),
    (&[&[&[(0, 0, 9830)], &[(0, 6554, 16384)]]], 1),
    (&[&[&[(0, 0, 8191)], &[(0, 8192, 16384)]]], 1),
    (&[&[&[(2, 5, 5)], &[(2, 6, 6)], &[(2, 4, 4)]]], 1),
    (&[&[BOTH, NEVER, BOTH]], 1),
    // Boxes that don't adjoin, by one coordinate, or that adjoin with other rules.
    (&[&[&[(0, 0, 8190)], &[(0, 8192, 16384)]]], 2),
    (&[&[&[(0, 0, 8191)]], &[&[(0, 8192, 16384)]]], 2),
    // Two rules that cross, and two that are the same.
    (&[&[HEAVY], &[NARROW]], 3),
    (&[&[BOTH], &[BOTH]], 1),
    // A box in the midst of another rule, and one that three sets make.
    (&[&[&[(0, -9, 9), (1, -9, 9)]], &[&[]]], 5),
    (
        &[&[
            &[(0, 1, 9), (1, 1, 9), (2, 1, 4)],
            &[(0, 1, 4), (1, 1, 9), (2, 5, 9)],
            &[(0, 5, 9), (1, 1, 9), (2, 5, 9)],
        ]],
        1,
    ),
];

/// Rules that cut the first two axes by so many minima, with a set of one rule more, and the product of the grid, if it
/// is too great.
const GRIDS: [(i32, i32, Listed, Option<u64>); 5] = [
    (180, 180, &[NEVER], None),
    (180, 180, &[&[(0, 3001, 3000), (1, -16384, 16384)]], None),
    (180, 180, &[&[(0, -16384, 5000)]], Some(32942)),
    (181, 180, &[], Some(32942)),
    (181, 181, &[], Some(33124)),
];

/// The sets with these conditions.
fn sets(alloc: Global, listed: Listed) -> Result<Sets, NoMemory> {
    let mut sets = Seq::new(alloc);
    for bounds in listed {
        let mut set = Seq::new(alloc);
        for (axis, low, high) in *bounds {
            set.push(Condition {
                axis: *axis,
                low: Fix::from_raw(*low),
                high: Fix::from_raw(*high),
            })?;
        }
        sets.push(set)?;
    }
    Ok(sets)
}

/// Whether each condition of a set, of a rule or of all rules is on one of so many axes.
fn is_set_on(set: &Seq<Condition>, axes: u32) -> bool
    ensures { IsTrue result → All (λ condition. condition.axis < axes) set.now }
{
    set.as_slice().iter().all(|condition| condition.axis < axes)
}

fn is_rule_on(sets: &Sets, axes: u32) -> bool
    ensures { IsTrue result → All (λ set. All (λ condition. condition.axis < axes) set) sets.now }
{
    sets.as_slice().iter().all(|set| is_set_on(set, axes))
}

fn are_on(rules: &Seq<Sets>, axes: u32) -> bool
    ensures { IsTrue result → HaveAxes axes rules.now }
{
    rules.as_slice().iter().all(|sets| is_rule_on(sets, axes))
}

/// The boxes of the rules.
fn boxes_of(
    rt: &impl Abort,
    alloc: Global,
    rules: &Seq<Sets>,
    axes: u32,
) -> Result<Seq<Cell>, RuleStop> {
    assert!(rt; axes <= 8);
    assert!(rt; rules.len() <= 64);
    assert!(rt; are_on(rules, axes));
    cells(alloc, rules, axes)
}

/// The location with these coordinates.
fn location<const N: usize>(rt: &impl Abort, coordinates: &[i32; N]) -> Location {
    let mut at = ArrayVec::new();
    for coordinate in coordinates {
        let pushed = at.try_push(Fix::from_raw(*coordinate));
        assert!(rt; pushed.is_ok());
    }
    at
}

/// Whether the box has the location.
fn has(cell: &Cell, at: &Location) -> bool {
    for (value, (low, high)) in at
        .as_slice()
        .iter()
        .zip(cell.low.as_slice().iter().zip(cell.high.as_slice()))
    {
        if value < low || high < value {
            return false;
        }
    }
    true
}

/// Whether the boxes tell which rules hold at the location: one box has it, with their numbers, or none has it and
/// none holds.
fn tell(
    alloc: Global,
    rules: &Seq<Sets>,
    cells: &Seq<Cell>,
    at: &Location,
) -> Result<bool, NoMemory> {
    let mut wanted: Vec<u32> = Vec::new(alloc);
    for (number, rule) in (0..64).zip(rules.as_slice()) {
        if holds(rule, at) {
            wanted.push(number)?;
        }
    }
    let mut found = false;
    for cell in cells.as_slice() {
        if has(cell, at) {
            if found || cell.rules.as_slice() != wanted.as_slice() {
                return Ok(false);
            }
            found = true;
        }
    }
    Ok(found != wanted.is_empty())
}

/// The coordinates of an axis on both sides of each cut, and its ends.
fn beside_cuts(alloc: Global, rules: &Seq<Sets>, axis: u32) -> Result<Vec<i32>, NoMemory> {
    let mut values = vec![in alloc; -16384, 16384]?;
    for sets in rules.as_slice() {
        for set in sets.as_slice() {
            for condition in set.as_slice() {
                if condition.axis == axis {
                    add_ends(&mut values, condition)?;
                }
            }
        }
    }
    Ok(values)
}

/// Adds the coordinates beside the ends of a condition, as far as they are normalised.
fn add_ends(values: &mut Vec<i32>, condition: &Condition) -> Result<(), NoMemory> {
    let (low, high) = (condition.low.raw(), condition.high.raw());
    for value in [low.saturating_sub(1), low, high, high.saturating_add(1)] {
        if -16384 <= value && value <= 16384 {
            values.push(value)?;
        }
    }
    Ok(())
}

/// Whether the boxes tell at each corner of the grid, and right beside it, which rules hold.
fn all_tell(
    rt: &impl Abort,
    alloc: Global,
    rules: &Seq<Sets>,
    cells: &Seq<Cell>,
) -> Result<bool, NoMemory> {
    let firsts = beside_cuts(alloc, rules, 0)?;
    let seconds = beside_cuts(alloc, rules, 1)?;
    let thirds = beside_cuts(alloc, rules, 2)?;
    for first in &firsts {
        for second in &seconds {
            for third in &thirds {
                let at = location(rt, &[*first, *second, *third]);
                if !tell(alloc, rules, cells, &at)? {
                    return Ok(false);
                }
            }
        }
    }
    Ok(true)
}

/// Adds so many sets, each with another minimum on the axis, 16 to a rule.
fn add_minima(alloc: Global, rules: &mut Seq<Sets>, axis: u32, count: i32) -> Result<(), NoMemory> {
    for rule in 0..12_u8 {
        let mut sets = Seq::new(alloc);
        for step in 0..16_u8 {
            let number = i32::from(rule * 16 + step);
            if number < count {
                let mut set = Seq::new(alloc);
                set.push(Condition {
                    axis,
                    low: Fix::from_raw(number),
                    high: Fix::from_raw(16384),
                })?;
                sets.push(set)?;
            }
        }
        rules.push(sets)?;
    }
    Ok(())
}

#[test]
fn rules(rt: HostRuntime) -> Result<(), Fail> {
    for (listed, coordinates, wanted) in &RULES {
        let rule = sets(rt.alloc(), listed)?;
        let at = location(&rt, coordinates);
        assert_eq!(rt; holds(&rule, &at), *wanted, "{listed:?} at {coordinates:?}");
    }
    Ok(())
}

#[test]
fn boxes(rt: HostRuntime) -> Result<(), Fail> {
    for (listed, count) in &BOXES {
        let mut rules = Seq::new(rt.alloc());
        for rule in *listed {
            rules.push(sets(rt.alloc(), rule)?)?;
        }
        let found = boxes_of(&rt, rt.alloc(), &rules, 3)?;
        assert_eq!(rt; found.len(), *count, "{listed:?}");
        let told = all_tell(&rt, rt.alloc(), &rules, &found)?;
        assert!(rt; told, "{listed:?}");
    }
    Ok(())
}

#[test]
fn grids(rt: HostRuntime) -> Result<(), Fail> {
    for (first, second, more, wanted) in &GRIDS {
        let mut rules = Seq::new(rt.alloc());
        add_minima(rt.alloc(), &mut rules, 0, *first)?;
        add_minima(rt.alloc(), &mut rules, 1, *second)?;
        rules.push(sets(rt.alloc(), more)?)?;
        match boxes_of(&rt, rt.alloc(), &rules, 2) {
            Ok(found) => {
                assert_eq!(rt; None, *wanted);
                for value in [-16384, -1, 0, 5, 89, 178, 179, 16384] {
                    let at = location(&rt, &[value, 89]);
                    let told = tell(rt.alloc(), &rules, &found, &at)?;
                    assert!(rt; told, "{value}");
                }
            }
            Err(stop) => {
                let RuleStop::TooManyCells(product) = stop else {
                    return Err(stop.into());
                };
                assert_eq!(rt; Some(product), *wanted);
            }
        }
    }
    Ok(())
}
