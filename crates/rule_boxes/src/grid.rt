ghost use Rattle.std.specs.Prelude.{◌≡◌, ◌*◌, ◌++◌, ◌≤◌, pos, ◌+ℤ◌, length, IfOk, count_by};
ghost use Rattle.std.specs.List.{flat_map};
ghost use Rattle.std.specs.Ordering.{int_eq};
ghost use Rattle.rule_boxes.specs.Grid.{conditions_of, turns_at, is_cut, intervals_on, first_above, grid_above, least, steps};
ghost use Rattle.rule_boxes.specs.Marks.{marked_by};

use crate::{Condition, Sets};
use basics::{NoMemory, Seq};
use std::alloc::Global;

// Marks the value, where it is above the least coordinate and none above the greatest.
fn mark(marks: &mut [bool], value: i32)
    requires { length marks.old ≡ steps }
    ensures { marks.new ≡ marked_by (λ other. int_eq other value) least marks.old }
{
    if -16384 < value && value <= 16384 {
        marks[value.abs_diff(-16383) as usize] = true;
    }
}

// Marks the value after this one, likewise.
fn mark_after(marks: &mut [bool], value: i32)
    requires { length marks.old ≡ steps }
    ensures { marks.new ≡ marked_by (λ other. int_eq other (value +ℤ pos 1)) least marks.old }
{
    if value < 16384 {
        mark(marks, value + 1);
    }
}

// Marks where the condition begins to hold or ceases to, if it is on the axis and some value meets it.
fn mark_condition(marks: &mut [bool], condition: &Condition, axis: u32)
    requires { length marks.old ≡ steps }
    ensures { marks.new ≡ marked_by (λ value. turns_at axis value condition.now) least marks.old }
{
    if condition.axis == axis && condition.low.raw() <= condition.high.raw() {
        mark(marks, condition.low.raw());
        mark_after(marks, condition.high.raw());
    }
}

// Marks all cuts of the axis.
fn mark_cuts(marks: &mut [bool], conditions: &[Condition], axis: u32)
    requires { length marks.old ≡ steps }
    ensures { marks.new ≡ marked_by (is_cut conditions.now axis) least marks.old }
{
    for condition in conditions {
        mark_condition(marks, condition, axis);
    }
}

// How many of the marks are set.
fn count_of(marks: &[bool]) -> usize
    ensures { result ≡ count_by (λ mark. mark) marks.now }
{
    marks.iter().filter(|mark| **mark).count()
}

// The number of intervals of an axis.
fn intervals_on(alloc: Global, conditions: &[Condition], axis: u32) -> Result<u64, NoMemory>
    ensures value { IfOk result (λ count. count ≡ intervals_on conditions.now axis) }
    ensures few { IfOk result (λ count. count ≤ 32769) }
{
    let mut marks = vec![in alloc; false; 32768]?;
    mark_cuts(marks.as_mut_slice(), conditions, axis);
    Ok(count_of(marks.as_slice()) as u64 + 1)
}

// A product of two counts.
fn times(a: u64, b: u64) -> u64
    requires a { a ≤ 32768 }
    requires b { b ≤ 32769 }
    ensures { result ≡ a * b }
{
    a * b
}

// The first product of the intervals of the axes, in their order, that is above 32,768.
fn first_above(alloc: Global, conditions: &[Condition], axes: u32) -> Result<Option<u64>, NoMemory>
    ensures { IfOk result (λ found. found ≡ first_above conditions.now 1 0 axes) }
{
    let mut product = 1;
    for axis in 0..axes {
        product = times(product, intervals_on(alloc, conditions, axis)?);
        if 32768 < product {
            return Ok(Some(product));
        }
    }
    Ok(None)
}

// Adds the conditions of a rule's sets.
fn add_conditions(conditions: &mut Vec<Condition>, sets: &[Seq<Condition>]) -> Result<(), NoMemory>
    ensures { IfOk result (λ _. conditions.new.items ≡ conditions.old.items ++ flat_map (λ set. set) sets.now) }
{
    for set in sets {
        conditions.extend_from_slice(set.as_slice())?;
    }
    Ok(())
}

// The conditions of all rules.
fn conditions_of(alloc: Global, rules: &[Sets]) -> Result<Vec<Condition>, NoMemory>
    ensures { IfOk result (λ conditions. conditions.items ≡ conditions_of rules.now) }
{
    let mut conditions = Vec::new(alloc);
    for sets in rules {
        add_conditions(&mut conditions, sets.as_slice())?;
    }
    Ok(conditions)
}

/// The first product of the intervals that the conditions make of the axes, in their order, that is above 32,768.
pub(crate) fn grid_above(alloc: Global, rules: &[Sets], axes: u32) -> Result<Option<u64>, NoMemory>
    ensures { IfOk result (λ found. found ≡ grid_above axes rules.now) }
{
    let conditions = conditions_of(alloc, rules)?;
    first_above(alloc, &conditions, axes)
}
