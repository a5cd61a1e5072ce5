ghost use Rattle.std.specs.Prelude.{◌≡◌, ℕ, ◌+◌, ◌*◌, ◌^◌, ◌<◌, ◌≤◌, ◌++◌, length, take, All, IfOk, OnOk};
ghost use Rattle.std.specs.List.{flat_map, prefix_len};
ghost use Rattle.variation_rules.specs.Fields.{word};
ghost use Rattle.variation_rules.specs.PackedPoints.{RisesWithin, PacksListedPoints, HoldsDifference, class_of_difference, point_bytes, points_after};
ghost use Rattle.packed.specs.Classes.{same_point_class};
ghost use Rattle.packed.specs.Differences.{AddsDifferences, count_bytes};
ghost use Rattle.packed.specs.FirstRun.{BeginsWithRun};

use basics::NoMemory;
use be_bytes::{put_u8, put_u16};
use std::alloc::Global;
use variation_rules::PointClass;

/// The most differences that a run can hold.
const LONGEST_RUN: usize = 128;

/// The flag of words in a control byte.
const WORDS: u8 = 0x80;

/// The first count that needs two bytes.
const LONG_COUNT: u16 = 0x80;

/// The flag of a count in two bytes.
const TWO_BYTES: u16 = 0x8000;

/// The point numbers, rising, as packed points (OpenType, "Packed point numbers"): their count, in two bytes
/// from 128 on, and the differences in maximal runs of bytes and of words, at most 128 in a run. All points are
/// listed, also where they are all that a glyph has. They take at most two bytes, and three more a point.
pub fn pack_points(alloc: Global, points: &[u16]) -> Result<Vec<u8>, NoMemory>
    requires some { 0 < length points.now }
    requires few { length points.now ≤ 4004 }
    requires rise { RisesWithin 0 (2 ^ 16) points.now }
    ensures packed { IfOk result (λ bytes. (total : ℕ) → RisesWithin 0 total points.now → PacksListedPoints total bytes.items points.now) }
    ensures short { IfOk result (λ bytes. length bytes.items ≤ 2 + 3 * length points.now) }
{
    let differences = differences_of(alloc, points)?;
    let mut bytes = Vec::new(alloc);
    push_count(&mut bytes, points.len() as u16)?;
    push_differences(&mut bytes, &differences)?;
    Ok(bytes)
}

/// The difference of each point from the one before it, of the first from 0.
fn differences_of(alloc: Global, points: &[u16]) -> Result<Vec<u16>, NoMemory>
    requires { RisesWithin 0 (2 ^ 16) points.now }
    ensures { IfOk result (λ differences. points.now ≡ points_after 0 differences.items) }
{
    let mut differences = Vec::new(alloc);
    let mut before = 0;
    let mut rest = points;
    while let [point, after @ ..] = rest {
        differences.push(*point - before)?;
        before = *point;
        rest = after;
    }
    Ok(differences)
}

/// Adds the number of points listed, in one byte where it fits.
fn push_count(bytes: &mut Vec<u8>, count: u16) -> Result<(), NoMemory>
    requires { count < 2 ^ 15 }
    ensures { OnOk result (bytes.new.items ≡ bytes.old.items ++ count_bytes count) }
{
    if count < LONG_COUNT {
        put_u8(bytes, count as u8)
    } else {
        put_u16(bytes, TWO_BYTES + count)
    }
}

/// Adds the differences in maximal runs.
fn push_differences(bytes: &mut Vec<u8>, differences: &[u16]) -> Result<(), NoMemory>
    ensures { OnOk result (AddsDifferences bytes.old.items bytes.new.items differences.now) }
{
    let mut rest = differences;
    while !rest.is_empty() {
        let (class, run, after) = split_run(rest);
        push_run(bytes, class, run)?;
        rest = after;
    }
    Ok(())
}

/// The longest run that the differences begin with, with its class and with the differences after it.
fn split_run(differences: &[u16]) -> (PointClass, &[u16], &[u16])
    requires { 0 < length differences.now }
    ensures { BeginsWithRun class_of_difference 128 result.0 result.1.now result.2.now differences.now }
{
    let class = class_of(differences[0]);
    let (run, after) = differences.split_at(run_len(class, differences));
    (class, run, after)
}

/// How many of the first differences are of this class, up to as many as a run can hold.
fn run_len(class: PointClass, differences: &[u16]) -> usize
    ensures { result ≡ prefix_len (λ difference. same_point_class (class_of_difference difference) class) (take 128 differences.now) }
{
    differences
        .iter()
        .take(LONGEST_RUN)
        .take_while(|&&difference| class_of(difference) == class)
        .count()
}

/// The smallest class that can hold the difference.
fn class_of(difference: u16) -> PointClass
    ensures { result ≡ class_of_difference difference }
{
    if difference < 256 {
        PointClass::Bytes
    } else {
        PointClass::Words
    }
}

/// Adds a run: its control byte and its differences.
fn push_run(bytes: &mut Vec<u8>, class: PointClass, run: &[u16]) -> Result<(), NoMemory>
    requires some { 0 < length run.now }
    requires few { length run.now ≤ 128 }
    requires held { All (HoldsDifference class) run.now }
    ensures { OnOk result (bytes.new.items ≡ bytes.old.items ++ point_bytes class run.now) }
{
    let count = run.len() as u8 - 1;
    match class {
        PointClass::Bytes => {
            put_u8(bytes, count)?;
            push_bytes(bytes, run)?;
        }
        PointClass::Words => {
            put_u8(bytes, WORDS + count)?;
            push_words(bytes, run)?;
        }
    }
    Ok(())
}

/// Adds each difference as one byte.
fn push_bytes(bytes: &mut Vec<u8>, differences: &[u16]) -> Result<(), NoMemory>
    requires { All (λ difference. difference < 2 ^ 8) differences.now }
    ensures { OnOk result (bytes.new.items ≡ bytes.old.items ++ differences.now) }
{
    for &difference in differences {
        put_u8(bytes, difference as u8)?;
    }
    Ok(())
}

/// Adds each difference as one word.
fn push_words(bytes: &mut Vec<u8>, differences: &[u16]) -> Result<(), NoMemory>
    ensures { OnOk result (bytes.new.items ≡ bytes.old.items ++ flat_map word differences.now) }
{
    for &difference in differences {
        put_u16(bytes, difference)?;
    }
    Ok(())
}
