ghost use Rattle.std.specs.Prelude.{◌≡◌, ℕ, ◌+◌, ◌*◌, ◌<◌, ◌++◌, ◌≤◌, length, All, OnOk};
ghost use Rattle.std.specs.List.{flat_map};
ghost use Rattle.feature_var.specs.Layout as rules;
ghost use Rattle.feature_var.specs.Layout.{alternate_bytes, block_bytes, record_bytes, records_from, variations_bytes, word_bytes};
ghost use Rattle.feature_var.specs.Limits.{IsSmallCell};

use crate::conditions::{condition_set_size, put_condition_set};
use basics::{NoMemory, Seq};
use be_bytes::Field::{self, Uint16, Uint32};
use be_bytes::{put_fields, put_u16};
use rule_boxes::Cell;

/// The bytes before the records.
const HEADER: u32 = 8;

/// The bytes of a record.
const RECORD: u32 = 8;

/// The bytes of what takes the place of a feature, without the lookups that it lists.
const ALTERNATE_HEADER: u32 = 16;

/// The number of the only feature.
const FEATURE: u16 = 0;

/// The bytes of the number of a lookup.
const NUMBER: u32 = 2;

/// Appends the records of boxes, at most 32,768, and what they refer to.
pub(crate) fn put_variations(out: &mut Vec<u8>, cells: &[Cell]) -> Result<(), NoMemory>
    requires few { length cells.now ≤ 32768 }
    requires small { All IsSmallCell cells.now }
    ensures { OnOk result (out.new.items ≡ out.old.items ++ variations_bytes cells.now) }
{
    put_fields(out, &variations_fields(cells.len() as u32))?;
    put_records(out, cells)?;
    put_blocks(out, cells)?;
    Ok(())
}

/// The fields before the records.
#[tactic(auto, unfolding(crate::specs::Layout::variations_fields))]
fn variations_fields(count: u32) -> [Field; 3]
    ensures { result ≡ rules.variations_fields count }
{
    [
        // majorVersion, minorVersion, featureVariationRecordCount
        Uint16(1),
        Uint16(0),
        Uint32(count),
    ]
}

/// Appends the records, whose blocks stand after all of them.
fn put_records(out: &mut Vec<u8>, cells: &[Cell]) -> Result<(), NoMemory>
    requires few { length cells.now ≤ 32768 }
    requires small { All IsSmallCell cells.now }
    ensures { OnOk result (out.new.items ≡ out.old.items ++ flat_map record_bytes (records_from (8 + 8 * length cells.now) cells.now)) }
{
    let mut place = HEADER + RECORD * cells.len() as u32;
    for cell in cells {
        let alternate = place + condition_set_size(cell);
        put_fields(out, &record_fields(place, alternate))?;
        place = alternate + alternate_size(&cell.rules);
    }
    Ok(())
}

/// The fields of a record.
#[tactic(auto, unfolding(crate::specs::Layout::record_fields))]
fn record_fields(conditions: u32, alternate: u32) -> [Field; 2]
    ensures { result ≡ rules.record_fields (conditions, alternate) }
{
    [
        // conditionSetOffset, featureTableSubstitutionOffset
        Uint32(conditions),
        Uint32(alternate),
    ]
}

/// The bytes of what takes the place of a feature, with the lookups of these numbers.
fn alternate_size(numbers: &Seq<u32>) -> u32
    requires { length numbers.now ≤ 64 }
    ensures { result ≡ rules.alternate_size numbers.now }
{
    ALTERNATE_HEADER + NUMBER * numbers.len() as u32
}

/// Appends what the records refer to.
fn put_blocks(out: &mut Vec<u8>, cells: &[Cell]) -> Result<(), NoMemory>
    requires { All IsSmallCell cells.now }
    ensures { OnOk result (out.new.items ≡ out.old.items ++ flat_map block_bytes cells.now) }
{
    for cell in cells {
        put_block(out, cell)?;
    }
    Ok(())
}

/// Appends what a record refers to.
fn put_block(out: &mut Vec<u8>, cell: &Cell) -> Result<(), NoMemory>
    requires { IsSmallCell cell.now }
    ensures { OnOk result (out.new.items ≡ out.old.items ++ block_bytes cell.now) }
{
    put_condition_set(out, cell)?;
    put_alternate(out, cell.rules.as_slice())?;
    Ok(())
}

/// Appends the feature that takes the place of the first one, with the lookups of these numbers.
fn put_alternate(out: &mut Vec<u8>, numbers: &[u32]) -> Result<(), NoMemory>
    requires few { length numbers.now ≤ 64 }
    requires small { All (λ number. number < 64) numbers.now }
    ensures { OnOk result (out.new.items ≡ out.old.items ++ alternate_bytes numbers.now) }
{
    put_fields(out, &alternate_fields(numbers.len() as u16))?;
    put_numbers(out, numbers)?;
    Ok(())
}

/// The fields before the numbers of the lookups.
#[tactic(auto, unfolding(crate::specs::Layout::alternate_fields))]
fn alternate_fields(count: u16) -> [Field; 7]
    ensures { result ≡ rules.alternate_fields count }
{
    [
        // majorVersion, minorVersion, substitutionCount
        Uint16(1),
        Uint16(0),
        Uint16(1),
        // featureIndex, alternateFeatureOffset
        Uint16(FEATURE),
        Uint32(12),
        // featureParamsOffset, lookupIndexCount
        Uint16(0),
        Uint16(count),
    ]
}

/// Appends the numbers of lookups.
fn put_numbers(out: &mut Vec<u8>, numbers: &[u32]) -> Result<(), NoMemory>
    requires { All (λ number. number < 64) numbers.now }
    ensures { OnOk result (out.new.items ≡ out.old.items ++ flat_map word_bytes numbers.now) }
{
    for number in numbers {
        put_u16(out, *number as u16)?;
    }
    Ok(())
}
