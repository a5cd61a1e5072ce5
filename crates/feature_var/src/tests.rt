//! The bytes of a small table, worked out by hand, and what a plain reader makes of glyphs by larger ones.

ghost use Rattle.std.specs.Prelude.{◌≡◌, ℕ, ◌<◌, ◌≤◌, length, All, IsTrue};
ghost use Rattle.std.specs.List.Sorted.{IsStrictlyIncreasing};
ghost use Rattle.region_support.specs.Regions.{IsNormalised};
ghost use Rattle.feature_var.specs.Meaning as meaning;
ghost use Rattle.feature_var.specs.Meaning.{AreWritable, IsWritableCell};

use crate::gsub;
use crate::single::Pair;
use arrayvec::ArrayVec;
use basics::{NoMemory, Seq};
use fixpoint::Fix;
use region_support::Location;
use rule_boxes::Cell;
use std::alloc::Global;
use std::test::*;

/// A box on two axes, with the numbers of its lists.
struct Bounds {
    low: [i32; 2],
    high: [i32; 2],
    numbers: &'static [u32],
}

/// Boxes, and lists of pairs.
struct Case {
    bounds: &'static [Bounds],
    lists: &'static [&'static [Pair]],
}

/// One box, with a bound on the second axis, and one pair.
const SMALL: Case = Case {
    bounds: &[Bounds {
        low: [-16384, 8192],
        high: [16384, 16384],
        numbers: &[0],
    }],
    lists: &[&[(3, 7)]],
};

const NONE: Case = Case {
    bounds: &[],
    lists: &[&[(3, 7)]],
};

const SMALL_TABLE: [u8; 128] = [
    // Version 1.1, script list at 14, feature list at 34, lookup list at 46, variations at 80.
    0x00, 0x01, 0x00, 0x01, 0x00, 0x0E, 0x00, 0x22, 0x00, 0x2E, 0x00, 0x00, 0x00, 0x50,
    // One script, DFLT, at 8: its default language system at 4, and no others.
    0x00, 0x01, 0x44, 0x46, 0x4C, 0x54, 0x00, 0x08, 0x00, 0x04, 0x00, 0x00,
    // No order of lookups, no required feature, one feature, 0.
    0x00, 0x00, 0xFF, 0xFF, 0x00, 0x01, 0x00, 0x00,
    // One feature, rvrn, at 8: no parameters and no lookups.
    0x00, 0x01, 0x72, 0x76, 0x72, 0x6E, 0x00, 0x08, 0x00, 0x00, 0x00, 0x00,
    // One lookup, at 4: of type 7 without flags, with one subtable at 8.
    0x00, 0x01, 0x00, 0x04, 0x00, 0x07, 0x00, 0x00, 0x00, 0x01, 0x00, 0x08,
    // An extension of type 1, at 8: of format 2, with the coverage at 8 and one glyph, 7; one glyph is covered, 3.
    0x00, 0x01, 0x00, 0x01, 0x00, 0x00, 0x00, 0x08, 0x00, 0x02, 0x00, 0x08, 0x00, 0x01, 0x00, 0x07,
    0x00, 0x01, 0x00, 0x01, 0x00, 0x03,
    // Version 1.0, one record: its conditions at 16, and its features at 30.
    0x00, 0x01, 0x00, 0x00, 0x00, 0x00, 0x00, 0x01, 0x00, 0x00, 0x00, 0x10, 0x00, 0x00, 0x00, 0x1E,
    // One condition, at 6: of format 1, on axis 1, from 0.5 to 1.
    0x00, 0x01, 0x00, 0x00, 0x00, 0x06, 0x00, 0x01, 0x00, 0x01, 0x20, 0x00, 0x40, 0x00,
    // Version 1.0, one feature, 0, at 12: no parameters, and one lookup, 0.
    0x00, 0x01, 0x00, 0x00, 0x00, 0x01, 0x00, 0x00, 0x00, 0x00, 0x00, 0x0C, 0x00, 0x00, 0x00, 0x01,
    0x00, 0x00,
];

const CASES: [Case; 5] = [
    SMALL,
    // Two boxes with a part in common; glyphs with several pairs, and pairs one after another.
    Case {
        bounds: &[
            Bounds {
                low: [8192, -16384],
                high: [16384, 16384],
                numbers: &[0, 1],
            },
            Bounds {
                low: [-16384, -16384],
                high: [16384, 0],
                numbers: &[1],
            },
        ],
        lists: &[&[(5, 3), (3, 7), (3, 9), (1, 2)], &[(7, 8), (3, 4), (2, 2)]],
    },
    // A box that is the whole space, a list without pairs, and one of no box.
    Case {
        bounds: &[Bounds {
            low: [-16384, -16384],
            high: [16384, 16384],
            numbers: &[0, 2],
        }],
        lists: &[&[], &[(3, 4)], &[(9, 1), (0, 65535), (9, 2)]],
    },
    // Bounds on one side, of one coordinate, and of none.
    Case {
        bounds: &[
            Bounds {
                low: [-16384, 0],
                high: [16383, 0],
                numbers: &[1],
            },
            Bounds {
                low: [-16383, 1],
                high: [16384, 16384],
                numbers: &[0],
            },
            Bounds {
                low: [0, -16384],
                high: [-1, 16384],
                numbers: &[0, 1],
            },
            Bounds {
                low: [-16384, -16384],
                high: [16384, -8192],
                numbers: &[],
            },
        ],
        lists: &[&[(1, 2)], &[(2, 3), (1, 3)]],
    },
    // Pairs that go round.
    Case {
        bounds: &[Bounds {
            low: [0, 0],
            high: [16384, 16384],
            numbers: &[0, 1, 2],
        }],
        lists: &[&[(1, 2), (2, 1)], &[(2, 3), (3, 2)], &[(3, 1), (1, 3)]],
    },
];

const COORDINATES: [i32; 9] = [-16384, -16383, -8192, -1, 0, 1, 8192, 16383, 16384];

fn location(coordinates: &[i32; 2]) -> Location {
    let mut at = ArrayVec::new();
    for coordinate in coordinates {
        if at.len() < 8 {
            at.push(Fix::from_raw(*coordinate));
        }
    }
    at
}

fn cells_of(alloc: Global, case: &Case) -> Result<Seq<Cell>, NoMemory> {
    let mut cells = Seq::new(alloc);
    for bounds in case.bounds {
        let mut numbers = Seq::new(alloc);
        for number in bounds.numbers {
            numbers.push(*number)?;
        }
        cells.push(Cell {
            low: location(&bounds.low),
            high: location(&bounds.high),
            rules: numbers,
        })?;
    }
    Ok(cells)
}

fn lists_of(alloc: Global, case: &Case) -> Result<Seq<Seq<Pair>>, NoMemory> {
    let mut lists = Seq::new(alloc);
    for pairs in case.lists {
        let mut list = Seq::new(alloc);
        for pair in *pairs {
            list.push(*pair)?;
        }
        lists.push(list)?;
    }
    Ok(lists)
}

/// What `gsub` asks for.
fn are_writable(cells: &Seq<Cell>, subs: &Seq<Seq<Pair>>) -> bool
    ensures { IsTrue result → AreWritable cells.now subs.now }
{
    let cells = cells.as_slice();
    let subs = subs.as_slice();
    let axes = axes_of(cells);
    axes <= 8
        && cells.len() <= 32768
        && subs.len() <= 64
        && are_small(subs)
        && are_boxes(axes, subs.len(), cells)
}

fn axes_of(cells: &[Cell]) -> usize
    ensures { result ≡ meaning.axes_of cells.now }
{
    match cells {
        [] => 0,
        [cell, ..] => cell.low.len(),
    }
}

fn are_small(subs: &[Seq<Pair>]) -> bool
    ensures { IsTrue result → All (λ pairs. length pairs ≤ 4096) subs.now }
{
    subs.iter().all(|pairs| pairs.len() <= 4096)
}

fn are_boxes(axes: usize, lists: usize, cells: &[Cell]) -> bool
    ensures { IsTrue result → All (IsWritableCell axes lists) cells.now }
{
    cells.iter().all(|cell| is_box(axes, lists, cell))
}

fn is_box(axes: usize, lists: usize, cell: &Cell) -> bool
    ensures { IsTrue result → IsWritableCell axes lists cell.now }
{
    cell.low.len() == axes
        && cell.high.len() == axes
        && are_normalised(cell.low.as_slice())
        && are_normalised(cell.high.as_slice())
        && are_rising(cell.rules.as_slice())
        && are_below(lists, cell.rules.as_slice())
}

fn are_normalised(coordinates: &[Fix<14>]) -> bool
    ensures { IsTrue result → All IsNormalised coordinates.now }
{
    coordinates
        .iter()
        .all(|coordinate| is_normalised(*coordinate))
}

fn is_normalised(coordinate: Fix<14>) -> bool
    ensures { IsTrue result → IsNormalised coordinate }
{
    (-16384..=16384).contains(&coordinate.raw())
}

fn are_rising(numbers: &[u32]) -> bool
    ensures { IsTrue result → IsStrictlyIncreasing numbers.now }
{
    for next in 1..numbers.len() {
        if numbers[next] <= numbers[next - 1] {
            return false;
        }
    }
    true
}

fn are_below(lists: usize, numbers: &[u32]) -> bool
    ensures { IsTrue result → All (λ number. number < lists) numbers.now }
{
    numbers.iter().all(|number| (*number as usize) < lists)
}

/// The table of the boxes and lists.
fn table_of(alloc: Global, case: &Case, last: bool) -> Option<Vec<u8>> {
    let cells = cells_of(alloc, case).ok()?;
    let lists = lists_of(alloc, case).ok()?;
    if !are_writable(&cells, &lists) {
        return None;
    }
    gsub(alloc, &cells, &lists, last).ok()?
}

// ---- a plain reader

/// A field of 16 bits, and one of 32.
fn word(bytes: &[u8], offset: usize) -> Option<usize> {
    let high = *bytes.get(offset)?;
    let low = *bytes.get(offset.checked_add(1)?)?;
    Some(usize::from(high) * 256 + usize::from(low))
}

fn long(bytes: &[u8], offset: usize) -> Option<usize> {
    let high = word(bytes, offset)?;
    let low = word(bytes, offset.checked_add(2)?)?;
    high.checked_mul(65536)?.checked_add(low)
}

/// A coordinate, by its field.
fn coordinate(bytes: &[u8], offset: usize) -> Option<i32> {
    let raw = i32::try_from(word(bytes, offset)?).ok()?;
    if raw < 32768 {
        Some(raw)
    } else {
        raw.checked_sub(65536)
    }
}

/// What begins so many bytes after the start of a table, by an offset that stands there.
fn by_word(bytes: &[u8], start: usize, after: usize) -> Option<usize> {
    start.checked_add(word(bytes, start.checked_add(after)?)?)
}

fn by_long(bytes: &[u8], start: usize, after: usize) -> Option<usize> {
    start.checked_add(long(bytes, start.checked_add(after)?)?)
}

/// Whether the condition holds.
fn condition_holds(bytes: &[u8], condition: usize, at: &[i32; 2]) -> Option<bool> {
    let axis = word(bytes, condition.checked_add(2)?)?;
    let value = *at.as_slice().get(axis)?;
    let low = coordinate(bytes, condition.checked_add(4)?)?;
    let high = coordinate(bytes, condition.checked_add(6)?)?;
    Some(low <= value && value <= high)
}

/// Whether all conditions of the set hold.
fn set_holds(bytes: &[u8], set: usize, at: &[i32; 2]) -> Option<bool> {
    let mut after = 2usize;
    for _ in 0..word(bytes, set)? {
        if !condition_holds(bytes, by_long(bytes, set, after)?, at)? {
            return Some(false);
        }
        after = after.checked_add(4)?;
    }
    Some(true)
}

/// Where the feature begins that counts at the location.
fn feature_at(bytes: &[u8], at: &[i32; 2]) -> Option<usize> {
    let variations = by_long(bytes, 0, 10)?;
    let mut after = 8usize;
    for _ in 0..long(bytes, variations.checked_add(4)?)? {
        if set_holds(bytes, by_long(bytes, variations, after)?, at)? {
            let features = by_long(bytes, variations, after.checked_add(4)?)?;
            return by_long(bytes, features, 8);
        }
        after = after.checked_add(8)?;
    }
    let features = by_word(bytes, 0, 6)?;
    by_word(bytes, features, 6)
}

/// Whether the feature lists the lookup of this number.
fn lists(bytes: &[u8], feature: usize, number: usize) -> Option<bool> {
    let mut own = feature.checked_add(4)?;
    for _ in 0..word(bytes, feature.checked_add(2)?)? {
        if word(bytes, own)? == number {
            return Some(true);
        }
        own = own.checked_add(2)?;
    }
    Some(false)
}

/// What the single substitution makes of the glyph.
fn by_single(bytes: &[u8], single: usize, glyph: usize) -> Option<usize> {
    let coverage = by_word(bytes, single, 2)?;
    let mut covered = coverage.checked_add(4)?;
    let mut by = single.checked_add(6)?;
    for _ in 0..word(bytes, coverage.checked_add(2)?)? {
        if word(bytes, covered)? == glyph {
            return word(bytes, by);
        }
        covered = covered.checked_add(2)?;
        by = by.checked_add(2)?;
    }
    Some(glyph)
}

/// What the table makes of the glyph at the location.
fn by_table(bytes: &[u8], at: &[i32; 2], glyph: u16) -> Option<usize> {
    let feature = feature_at(bytes, at)?;
    let lookups = by_word(bytes, 0, 8)?;
    let mut after = 2usize;
    let mut glyph = usize::from(glyph);
    for number in 0..word(bytes, lookups)? {
        if lists(bytes, feature, number)? {
            let lookup = by_word(bytes, lookups, after)?;
            let extension = by_word(bytes, lookup, 6)?;
            glyph = by_single(bytes, by_long(bytes, extension, 4)?, glyph)?;
        }
        after = after.checked_add(2)?;
    }
    Some(glyph)
}

// ---- what is wanted

/// Whether the box has the location.
fn has_location(bounds: &Bounds, at: &[i32; 2]) -> bool {
    let [first, second] = *at;
    let [first_low, second_low] = bounds.low;
    let [first_high, second_high] = bounds.high;
    first_low <= first && first <= first_high && second_low <= second && second <= second_high
}

/// What the first pair with this glyph makes of it.
fn by_pairs(pairs: &[Pair], glyph: u16) -> u16 {
    for (first, second) in pairs {
        if *first == glyph {
            return *second;
        }
    }
    glyph
}

/// What the lists of the first box that has the location make of the glyph, one after another.
fn by_boxes(case: &Case, at: &[i32; 2], glyph: u16) -> Option<usize> {
    for bounds in case.bounds {
        if has_location(bounds, at) {
            let mut glyph = glyph;
            for number in bounds.numbers {
                glyph = by_pairs(case.lists.get(*number as usize)?, glyph);
            }
            return Some(usize::from(glyph));
        }
    }
    Some(usize::from(glyph))
}

/// Whether the table makes of all of these glyphs what is wanted.
fn is_right(bytes: &[u8], case: &Case, at: &[i32; 2]) -> bool {
    for glyph in 0..12 {
        if by_table(bytes, at, glyph) != by_boxes(case, at, glyph) {
            return false;
        }
    }
    true
}

#[test]
fn table_by_hand(rt: HostRuntime) -> Result<(), Fail> {
    let table = table_of(rt.alloc(), &SMALL, false).expect(&rt, "no table");
    assert_eq!(rt; table.as_slice(), SMALL_TABLE.as_slice());
    Ok(())
}

#[test]
fn last_by_its_tag(rt: HostRuntime) -> Result<(), Fail> {
    let table = table_of(rt.alloc(), &SMALL, true).expect(&rt, "no table");
    let first = SMALL_TABLE.as_slice();
    assert_eq!(rt; table.get(..36), first.get(..36));
    assert_eq!(rt; table.get(36..40), Some(b"rclt".as_slice()));
    assert_eq!(rt; table.get(40..), first.get(40..));
    Ok(())
}

#[test]
fn no_boxes(rt: HostRuntime) -> Result<(), Fail> {
    let cells = cells_of(rt.alloc(), &NONE)?;
    let lists = lists_of(rt.alloc(), &NONE)?;
    assert!(rt; are_writable(&cells, &lists));
    assert!(rt; gsub(rt.alloc(), &cells, &lists, false)?.is_none());
    Ok(())
}

#[test]
fn glyphs_by_table(rt: HostRuntime) -> Result<(), Fail> {
    for case in &CASES {
        let table = table_of(rt.alloc(), case, false).expect(&rt, "no table");
        for first in &COORDINATES {
            for second in &COORDINATES {
                let at = [*first, *second];
                assert!(rt; is_right(table.as_slice(), case, &at), "{first} {second}");
            }
        }
    }
    Ok(())
}
