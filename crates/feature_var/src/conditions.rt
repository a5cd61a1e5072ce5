ghost use Rattle.std.specs.Prelude.{◌≡◌, ℕ, ◌+◌, ◌*◌, ◌<◌, ◌++◌, ◌≤◌, length, All, OnOk};
ghost use Rattle.std.specs.List.{flat_map};
ghost use Rattle.region_support.specs.Regions.{IsNormalised};
ghost use Rattle.feature_var.specs.Layout as rules;
ghost use Rattle.feature_var.specs.Layout.{condition_bytes, condition_offsets, condition_set_bytes, conditions_from, conditions_of, long_bytes};
ghost use Rattle.feature_var.specs.Limits.{IsSmallCell};

use basics::NoMemory;
use be_bytes::Field::{self, Int16, Uint16};
use be_bytes::{put_fields, put_u16, put_u32};
use fixpoint::Fix;
use rule_boxes::Cell;

/// The bytes of a condition.
const CONDITION: u32 = 8;

/// The bytes of a condition set without its conditions and their offsets.
const SET_HEADER: u32 = 2;

/// The bytes of a condition and its offset.
const WITH_OFFSET: u32 = 12;

/// Appends the condition set of a box.
pub(crate) fn put_condition_set(out: &mut Vec<u8>, cell: &Cell) -> Result<(), NoMemory>
    requires { IsSmallCell cell.now }
    ensures { OnOk result (out.new.items ≡ out.old.items ++ condition_set_bytes (conditions_of cell.now)) }
{
    let low = cell.low.as_slice();
    let high = cell.high.as_slice();
    let count = condition_count(low, high);
    put_u16(out, count)?;
    put_condition_offsets(out, u32::from(count))?;
    put_conditions(out, low, high)?;
    Ok(())
}

/// The bytes of the condition set of a box.
pub(crate) fn condition_set_size(cell: &Cell) -> u32
    requires { IsSmallCell cell.now }
    ensures exact { result ≡ rules.condition_set_size (conditions_of cell.now) }
    ensures few { result ≤ 98 }
{
    let count = condition_count(cell.low.as_slice(), cell.high.as_slice());
    SET_HEADER + WITH_OFFSET * u32::from(count)
}

/// How many conditions a box has, by the ends of its axes: one for each axis but the whole ones.
fn condition_count(low: &[Fix<14>], high: &[Fix<14>]) -> u16
    requires few { length low.now ≤ 8 }
    requires same { length high.now ≡ length low.now }
    ensures exact { result ≡ length (conditions_from 0 low.now high.now) }
    ensures few { result ≤ 8 }
{
    let mut count = 0;
    for axis in 0..low.len() {
        if !is_whole(low[axis], high[axis]) {
            count += 1;
        }
    }
    count
}

/// Whether the two are the ends of a whole axis.
fn is_whole(low: Fix<14>, high: Fix<14>) -> bool
    ensures { result ≡ rules.is_whole low high }
{
    low.raw() == -16384 && high.raw() == 16384
}

/// Appends the offsets of so many conditions.
fn put_condition_offsets(out: &mut Vec<u8>, count: u32) -> Result<(), NoMemory>
    requires { count ≤ 8 }
    ensures { OnOk result (out.new.items ≡ out.old.items ++ flat_map long_bytes (condition_offsets count)) }
{
    for number in 0..count {
        put_u32(out, 2 + 4 * count + CONDITION * number)?;
    }
    Ok(())
}

/// Appends the conditions of a box, by the ends of its axes.
fn put_conditions(out: &mut Vec<u8>, low: &[Fix<14>], high: &[Fix<14>]) -> Result<(), NoMemory>
    requires few { length low.now ≤ 8 }
    requires same { length high.now ≡ length low.now }
    requires low { All IsNormalised low.now }
    requires high { All IsNormalised high.now }
    ensures { OnOk result (out.new.items ≡ out.old.items ++ flat_map condition_bytes (conditions_from 0 low.now high.now)) }
{
    for axis in 0..low.len() {
        if !is_whole(low[axis], high[axis]) {
            put_fields(out, &condition_fields(axis as u16, low[axis], high[axis]))?;
        }
    }
    Ok(())
}

/// The fields of a condition.
#[tactic(auto, unfolding(crate::specs::Layout::condition_fields))]
fn condition_fields(axis: u16, low: Fix<14>, high: Fix<14>) -> [Field; 4]
    requires low { IsNormalised low }
    requires high { IsNormalised high }
    ensures { result ≡ rules.condition_fields (record { axis = axis; low = low; high = high }) }
{
    [
        // format, axisIndex
        Uint16(1),
        Uint16(axis),
        // filterRangeMinValue, filterRangeMaxValue
        Int16(low.raw() as i16),
        Int16(high.raw() as i16),
    ]
}
