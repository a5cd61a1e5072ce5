ghost use Rattle.std.specs.Prelude.{◌≡◌, ◌++◌, ◌<◌, ◌≤◌, length, map, take, All, IfOk};
ghost use Rattle.rule_boxes.specs.Answers.{HaveAxes, IsAnswer};
ghost use Rattle.rule_boxes.specs.Merging.{numbers_from, cell_of, cells_of};

use crate::Sets;
use crate::area::{Area, Zone};
use crate::cell::{Cell, RuleStop};
use crate::grid::grid_above;
use crate::merge::merged;
use crate::overlay::overlaid;
use arrayvec::ArrayVec;
use basics::{NoMemory, Seq};
use fixpoint::Fix;
use region_support::Location;
use std::alloc::Global;

// The low ends of the first axes.
fn low_of(area: &Area, axes: usize) -> Location
    requires { axes ≤ 8 }
    ensures { result.items ≡ map (λ interval. interval.low) (take axes area.now) }
{
    let mut low = ArrayVec::new();
    for axis in 0..axes {
        low.push(Fix::from_raw(area[axis].low));
    }
    low
}

// The high ends of the first axes.
fn high_of(area: &Area, axes: usize) -> Location
    requires { axes ≤ 8 }
    ensures { result.items ≡ map (λ interval. interval.high) (take axes area.now) }
{
    let mut high = ArrayVec::new();
    for axis in 0..axes {
        high.push(Fix::from_raw(area[axis].high));
    }
    high
}

// The numbers of the flags that are set.
fn numbers_of(alloc: Global, flags: &[bool; 64]) -> Result<Seq<u32>, NoMemory>
    ensures { IfOk result (λ numbers. numbers ≡ numbers_from 0 flags.now) }
{
    let mut numbers = Seq::new(alloc);
    for number in 0..64 {
        if flags[number] {
            numbers.push(number as u32)?;
        }
    }
    Ok(numbers)
}

// The box of a zone, with its rules.
fn cell_of(alloc: Global, zone: &Zone, axes: usize) -> Result<Cell, NoMemory>
    requires { axes ≤ 8 }
    ensures { IfOk result (λ cell. cell ≡ cell_of axes zone.now) }
{
    let rules = numbers_of(alloc, &zone.rules)?;
    Ok(Cell {
        low: low_of(&zone.area, axes),
        high: high_of(&zone.area, axes),
        rules,
    })
}

// The boxes of the zones.
fn cells_of(alloc: Global, zones: &[Zone], axes: usize) -> Result<Seq<Cell>, NoMemory>
    requires { axes ≤ 8 }
    ensures { IfOk result (λ cells. cells ≡ cells_of axes zones.now) }
{
    let mut cells = Seq::new(alloc);
    for zone in zones {
        cells.push(cell_of(alloc, zone, axes)?)?;
    }
    Ok(cells)
}

/// The boxes of a design space of so many axes in which the same rules hold, at most 32,768: each location at which
/// some rule holds is in one of them, which has the numbers of the rules that hold there, and the other locations are
/// in none. No two boxes with the same rules are equal but for one axis on which they adjoin. The order of the boxes
/// has no meaning.
///
/// Fails where the conditions cut the design space into too many cells. The axes are at most eight, the conditions are
/// on these axes, and the rules are at most 64.
pub fn cells(alloc: Global, rules: &Seq<Sets>, axes: u32) -> Result<Seq<Cell>, RuleStop>
    requires axes { axes ≤ 8 }
    requires rules { length rules.now ≤ 64 }
    requires conditions { HaveAxes axes rules.now }
    ensures { IsAnswer axes rules.now result }
{
    let rules = rules.as_slice();
    if let Some(product) = grid_above(alloc, rules, axes)? {
        return Err(RuleStop::TooManyCells(product));
    }
    let zones = overlaid(alloc, rules, axes as usize)?;
    let merged = merged(alloc, &zones)?;
    Ok(cells_of(alloc, &merged, axes as usize)?)
}
