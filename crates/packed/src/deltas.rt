ghost use Rattle.std.specs.Prelude.{◌≡◌, ◌*◌, ◌<◌, ◌≤◌, ◌++◌, length, map, take, All, FitsSigned, IfOk, OnOk};
ghost use Rattle.std.specs.Int.{w8, w16, cast_unsigned};
ghost use Rattle.std.specs.List.{flat_map, prefix_len};
ghost use Rattle.variation_rules.specs.Fields.{signed_word};
ghost use Rattle.variation_rules.specs.PackedDeltas.{PacksDeltas, HoldsDelta, class_of_delta, delta_bytes};
ghost use Rattle.packed.specs.Classes.{same_delta_class};
ghost use Rattle.packed.specs.FirstRun.{BeginsWithRun};

use basics::NoMemory;
use be_bytes::{put_i16, put_u8};
use std::alloc::Global;
use variation_rules::DeltaClass;

/// The most values that a run can hold.
const LONGEST_RUN: usize = 64;

/// The flag of zeros in a control byte.
const ZEROS: u8 = 0x80;

/// The flag of words in a control byte.
const WORDS: u8 = 0x40;

/// The values, each in 16 bits, as packed deltas (OpenType, "Packed deltas") in maximal runs: zeros, other
/// values of one byte, and words, at most 64 in a run. They take at most three bytes a value.
pub fn pack_deltas(alloc: Global, deltas: &[i32]) -> Result<Vec<u8>, NoMemory>
    requires { All (λ delta. FitsSigned w16 delta) deltas.now }
    ensures packed { IfOk result (λ bytes. PacksDeltas bytes.items deltas.now) }
    ensures short { IfOk result (λ bytes. length bytes.items ≤ 3 * length deltas.now) }
{
    let mut bytes = Vec::new(alloc);
    let mut rest = deltas;
    while !rest.is_empty() {
        let (class, run, after) = split_run(rest);
        push_run(&mut bytes, class, run)?;
        rest = after;
    }
    Ok(bytes)
}

/// The longest run that the values begin with, with its class and with the values after it.
fn split_run(values: &[i32]) -> (DeltaClass, &[i32], &[i32])
    requires { 0 < length values.now }
    ensures { BeginsWithRun class_of_delta 64 result.0 result.1.now result.2.now values.now }
{
    let class = class_of(values[0]);
    let (run, after) = values.split_at(run_len(class, values));
    (class, run, after)
}

/// How many of the first values are of this class, up to as many as a run can hold.
fn run_len(class: DeltaClass, values: &[i32]) -> usize
    ensures { result ≡ prefix_len (λ value. same_delta_class (class_of_delta value) class) (take 64 values.now) }
{
    values
        .iter()
        .take(LONGEST_RUN)
        .take_while(|&&value| class_of(value) == class)
        .count()
}

/// The smallest class that can hold the value.
fn class_of(value: i32) -> DeltaClass
    ensures { result ≡ class_of_delta value }
{
    if value == 0 {
        DeltaClass::Zeros
    } else if (-128..=127).contains(&value) {
        DeltaClass::Bytes
    } else {
        DeltaClass::Words
    }
}

/// Adds a run: its control byte and its values.
fn push_run(bytes: &mut Vec<u8>, class: DeltaClass, run: &[i32]) -> Result<(), NoMemory>
    requires some { 0 < length run.now }
    requires few { length run.now ≤ 64 }
    requires held { All (HoldsDelta class) run.now }
    ensures { OnOk result (bytes.new.items ≡ bytes.old.items ++ delta_bytes class run.now) }
{
    let count = run.len() as u8 - 1;
    match class {
        DeltaClass::Zeros => put_u8(bytes, ZEROS + count)?,
        DeltaClass::Bytes => {
            put_u8(bytes, count)?;
            push_bytes(bytes, run)?;
        }
        DeltaClass::Words => {
            put_u8(bytes, WORDS + count)?;
            push_words(bytes, run)?;
        }
    }
    Ok(())
}

/// Adds each value as one signed byte.
fn push_bytes(bytes: &mut Vec<u8>, values: &[i32]) -> Result<(), NoMemory>
    requires { All (FitsSigned w8) values.now }
    ensures { OnOk result (bytes.new.items ≡ bytes.old.items ++ map (cast_unsigned w8) values.now) }
{
    for &value in values {
        put_u8(bytes, (value as i8).cast_unsigned())?;
    }
    Ok(())
}

/// Adds each value as one signed word.
fn push_words(bytes: &mut Vec<u8>, values: &[i32]) -> Result<(), NoMemory>
    requires { All (FitsSigned w16) values.now }
    ensures { OnOk result (bytes.new.items ≡ bytes.old.items ++ flat_map signed_word values.now) }
{
    for &value in values {
        put_i16(bytes, value as i16)?;
    }
    Ok(())
}
