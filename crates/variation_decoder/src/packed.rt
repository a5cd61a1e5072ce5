ghost use Rattle.std.specs.Prelude.{◌≡◌};
ghost use Rattle.variation_decoder.specs.Reading.{Gives, many};
ghost use Rattle.variation_decoder.specs.Deltas.{delta_control, delta_at, delta_run_at, deltas_at};
ghost use Rattle.variation_decoder.specs.Points.{point_control, difference_at, difference_run_at, differences_at, count_at, rising, listed_points_at, points_at};
ghost use Rattle.variation_rules.specs.PackedPoints.{count_from};

use crate::fields::{byte_at, signed_byte_at, signed_word_at, word_at};
use crate::refusal::Refusal;
use basics::Seq;
use std::alloc::Global;
use variation_rules::{DeltaClass, PointClass};

/// The class of a run of deltas and how many values it holds, by its control byte.
fn delta_control(byte: u8) -> Result<(DeltaClass, u8), Refusal>
    ensures { Gives (λ x. x) result (delta_control byte) }
{
    if byte < 0x40 {
        Ok((DeltaClass::Bytes, byte + 1))
    } else if byte < 0x80 {
        Ok((DeltaClass::Words, byte - 0x40 + 1))
    } else if byte < 0xC0 {
        Ok((DeltaClass::Zeros, byte - 0x80 + 1))
    } else {
        Err(Refusal::NoReading)
    }
}

/// One value of a run of deltas, and the bytes after it.
fn delta_at(class: DeltaClass, bytes: &[u8]) -> Result<(i32, &[u8]), Refusal>
    ensures { Gives (λ x. (x.0, x.1.now)) result (delta_at class bytes.now) }
{
    match class {
        DeltaClass::Zeros => Ok((0, bytes)),
        DeltaClass::Bytes => signed_byte_at(bytes),
        DeltaClass::Words => signed_word_at(bytes),
    }
}

/// So many values of one class, and the bytes after them.
fn run_deltas_at(
    alloc: Global,
    class: DeltaClass,
    count: u8,
    bytes: &[u8],
) -> Result<(Seq<i32>, &[u8]), Refusal>
    ensures { Gives (λ x. (x.0, x.1.now)) result (many (delta_at class) count bytes.now) }
{
    let mut values = Seq::new(alloc);
    let mut rest = bytes;
    for _ in 0..count {
        let (value, after) = delta_at(class, rest)?;
        values.push(value)?;
        rest = after;
    }
    Ok((values, rest))
}

/// A run of no more deltas than are wanted, and the bytes after it.
#[tactic(auto, unfolding(crate::specs::Deltas::delta_run_at))]
fn delta_run_at(alloc: Global, wanted: usize, bytes: &[u8]) -> Result<(Seq<i32>, &[u8]), Refusal>
    ensures { Gives (λ x. (x.0, x.1.now)) result (delta_run_at wanted bytes.now) }
{
    let (byte, rest) = byte_at(bytes)?;
    let (class, count) = delta_control(byte)?;
    if wanted < usize::from(count) {
        return Err(Refusal::NoReading);
    }
    let (values, rest) = run_deltas_at(alloc, class, count, rest)?;
    Ok((values, rest))
}

/// Packed deltas, so many values, and the bytes after them (OpenType, "Packed deltas").
pub fn deltas_at(alloc: Global, wanted: usize, bytes: &[u8]) -> Result<(Seq<i32>, &[u8]), Refusal>
    ensures { Gives (λ x. (x.0, x.1.now)) result (deltas_at wanted bytes.now) }
{
    let mut values = Vec::new(alloc);
    let mut rest = bytes;
    while values.len() < wanted {
        let (run, after) = delta_run_at(alloc, wanted - values.len(), rest)?;
        values.extend_from_slice(run.as_slice())?;
        rest = after;
    }
    Ok((Seq::from_vec(values), rest))
}

/// The class of a run of points and how many differences it holds, by its control byte.
fn point_control(byte: u8) -> (PointClass, u8)
    ensures { result ≡ point_control byte }
{
    if byte < 0x80 {
        (PointClass::Bytes, byte + 1)
    } else {
        (PointClass::Words, byte - 0x80 + 1)
    }
}

/// One difference of a run of points, and the bytes after it.
fn difference_at(class: PointClass, bytes: &[u8]) -> Result<(u16, &[u8]), Refusal>
    ensures { Gives (λ x. (x.0, x.1.now)) result (difference_at class bytes.now) }
{
    match class {
        PointClass::Bytes => {
            let (byte, rest) = byte_at(bytes)?;
            Ok((u16::from(byte), rest))
        }
        PointClass::Words => word_at(bytes),
    }
}

/// So many differences of one class, and the bytes after them.
fn run_differences_at(
    alloc: Global,
    class: PointClass,
    count: u8,
    bytes: &[u8],
) -> Result<(Seq<u16>, &[u8]), Refusal>
    ensures { Gives (λ x. (x.0, x.1.now)) result (many (difference_at class) count bytes.now) }
{
    let mut differences = Seq::new(alloc);
    let mut rest = bytes;
    for _ in 0..count {
        let (difference, after) = difference_at(class, rest)?;
        differences.push(difference)?;
        rest = after;
    }
    Ok((differences, rest))
}

/// A run of no more differences than are wanted, and the bytes after it.
#[tactic(auto, unfolding(crate::specs::Points::difference_run_at))]
fn difference_run_at(
    alloc: Global,
    wanted: usize,
    bytes: &[u8],
) -> Result<(Seq<u16>, &[u8]), Refusal>
    ensures { Gives (λ x. (x.0, x.1.now)) result (difference_run_at wanted bytes.now) }
{
    let (byte, rest) = byte_at(bytes)?;
    let (class, count) = point_control(byte);
    if wanted < usize::from(count) {
        return Err(Refusal::NoReading);
    }
    let (differences, rest) = run_differences_at(alloc, class, count, rest)?;
    Ok((differences, rest))
}

/// Runs of so many differences, and the bytes after them.
fn differences_at(alloc: Global, wanted: usize, bytes: &[u8]) -> Result<(Seq<u16>, &[u8]), Refusal>
    ensures { Gives (λ x. (x.0, x.1.now)) result (differences_at wanted bytes.now) }
{
    let mut differences = Vec::new(alloc);
    let mut rest = bytes;
    while differences.len() < wanted {
        let (run, after) = difference_run_at(alloc, wanted - differences.len(), rest)?;
        differences.extend_from_slice(run.as_slice())?;
        rest = after;
    }
    Ok((Seq::from_vec(differences), rest))
}

/// The number of points listed, in one byte or in two, and the bytes after it.
#[tactic(auto, unfolding(crate::specs::Points::count_at))]
fn count_at(bytes: &[u8]) -> Result<(u16, &[u8]), Refusal>
    ensures { Gives (λ x. (x.0, x.1.now)) result (count_at bytes.now) }
{
    let (first, rest) = byte_at(bytes)?;
    if first < 0x80 {
        return Ok((u16::from(first), rest));
    }
    let (second, rest) = byte_at(rest)?;
    Ok((u16::from_be_bytes([first - 0x80, second]), rest))
}

/// The point numbers that the differences lead to, the first counted from 0, if they rise and stay
/// below the total.
fn points_of(alloc: Global, total: u16, differences: &[u16]) -> Result<Seq<u16>, Refusal>
    ensures { Gives (λ x. x) result (rising 0 0 total differences.now) }
{
    let mut points = Seq::new(alloc);
    let mut before = 0;
    let mut low = 0;
    for difference in differences {
        let point = u32::from(before) + u32::from(*difference);
        if point < low || point >= u32::from(total) {
            return Err(Refusal::NoReading);
        }
        before = point as u16;
        low = point + 1;
        points.push(before)?;
    }
    Ok(points)
}

/// Listed points, and the bytes after them.
#[tactic(auto, unfolding(crate::specs::Points::listed_points_at))]
fn listed_points_at(alloc: Global, total: u16, bytes: &[u8]) -> Result<(Seq<u16>, &[u8]), Refusal>
    ensures { Gives (λ x. (x.0, x.1.now)) result (listed_points_at total bytes.now) }
{
    let (count, rest) = count_at(bytes)?;
    if count == 0 {
        return Err(Refusal::NoReading);
    }
    let (differences, rest) = differences_at(alloc, usize::from(count), rest)?;
    let points = points_of(alloc, total, differences.as_slice())?;
    Ok((points, rest))
}

/// The numbers below the total.
fn all_points(alloc: Global, total: u16) -> Result<Seq<u16>, Refusal>
    ensures { Gives (λ x. x) result (Some (count_from total 0)) }
{
    let mut points = Seq::new(alloc);
    for point in 0..total {
        points.push(point)?;
    }
    Ok(points)
}

/// Packed points of a glyph that has so many, and the bytes after them (OpenType, "Packed point
/// numbers").
#[tactic(auto, unfolding(crate::specs::Points::points_at))]
pub fn points_at(alloc: Global, total: u16, bytes: &[u8]) -> Result<(Seq<u16>, &[u8]), Refusal>
    ensures { Gives (λ x. (x.0, x.1.now)) result (points_at total bytes.now) }
{
    let (first, rest) = byte_at(bytes)?;
    if first == 0 {
        let points = all_points(alloc, total)?;
        return Ok((points, rest));
    }
    let (points, rest) = listed_points_at(alloc, total, bytes)?;
    Ok((points, rest))
}
