ghost use Rattle.std.specs.Prelude.{◌≡◌, ◌<◌, List, map};
ghost use Rattle.std.specs.List.{list_all};
ghost use Rattle.variation_decoder.specs.Reading.{Gives};
ghost use Rattle.variation_decoder.specs.Tuples.{is_coordinate, is_tuple, shared_peak, peak_at, region_at, header_at};
ghost use Rattle.variation_rules.specs.TupleVariations.{implied_triple, triples};

use crate::fields::{coordinates_at, word_at};
use crate::refusal::Refusal;
use basics::Seq;
use fixpoint::Fix;
use std::alloc::Global;
use variation_rules::Triple;

/// The bit of a tupleIndex that says that the peak stands in the header.
const EMBEDDED_PEAK: u16 = 0x8000;

/// The bit of a tupleIndex that says that the region is intermediate.
const INTERMEDIATE_REGION: u16 = 0x4000;

/// The bit of a tupleIndex that says that the tuple has points of its own.
const PRIVATE_POINTS: u16 = 0x2000;

/// The bit of a tupleIndex that is reserved.
const RESERVED: u16 = 0x1000;

/// The bits of a tupleIndex that hold the index of a shared peak.
const PEAK_INDEX: u16 = 0x0FFF;

/// What a tuple's header says.
#[derive(Drop)]
pub struct Head {
    /// The number of bytes of the tuple's packed part.
    pub size: u16,
    /// The region, one triple for each axis.
    pub region: Seq<Triple>,
    /// Whether the packed part begins with points of the tuple's own.
    pub private: bool,
}

/// Whether a number is one that F2DOT14 holds.
fn is_coordinate(number: &Fix<14>) -> bool
    ensures { result ≡ is_coordinate number.now }
{
    let raw = number.raw();
    raw >= -0x8000 && raw <= 0x7FFF
}

/// Whether each number is one that F2DOT14 holds.
fn are_coordinates(numbers: &[Fix<14>]) -> bool
    ensures { result ≡ list_all is_coordinate numbers.now }
{
    numbers.iter().all(is_coordinate)
}

/// Whether there is one coordinate for each axis, each one that F2DOT14 holds.
fn is_tuple(axes: u16, coordinates: &[Fix<14>]) -> bool
    ensures { result ≡ is_tuple axes coordinates.now }
{
    coordinates.len() == usize::from(axes) && are_coordinates(coordinates)
}

/// The shared peak of this index, if it has one coordinate for each axis.
#[tactic(auto, unfolding(crate::specs::Tuples::shared_peak))]
fn shared_peak(
    alloc: Global,
    axes: u16,
    peaks: &Seq<Seq<Fix<14>>>,
    index: u16,
) -> Result<Seq<Fix<14>>, Refusal>
    ensures { Gives (λ x. x) result (shared_peak axes peaks.now index) }
{
    match peaks.as_slice().get(usize::from(index)) {
        None => Err(Refusal::NoReading),
        Some(peak) => {
            if !is_tuple(axes, peak.as_slice()) {
                return Err(Refusal::NoReading);
            }
            Ok(Seq::from_vec(Vec::from_slice(alloc, peak.as_slice())?))
        }
    }
}

/// The peak of a header, and the bytes after it.
#[tactic(auto, unfolding(crate::specs::Tuples::peak_at))]
fn peak_at<'a>(
    alloc: Global,
    axes: u16,
    peaks: &Seq<Seq<Fix<14>>>,
    index: u16,
    bytes: &'a [u8],
) -> Result<(Seq<Fix<14>>, &'a [u8]), Refusal>
    ensures { Gives (λ x. (x.0, x.1.now)) result (peak_at axes peaks.now index bytes.now) }
{
    if index & EMBEDDED_PEAK == 0 {
        let peak = shared_peak(alloc, axes, peaks, index & PEAK_INDEX)?;
        return Ok((peak, bytes));
    }
    if index & PEAK_INDEX != 0 {
        return Err(Refusal::NoReading);
    }
    let (peak, rest) = coordinates_at(alloc, axes, bytes)?;
    Ok((peak, rest))
}

/// An axis without an intermediate region: from the default to the peak.
fn implied_triple(peak: Fix<14>) -> Triple
    ensures { result ≡ implied_triple peak }
{
    let default = Fix::from_raw(0);
    Triple {
        start: if peak < default { peak } else { default },
        peak,
        end: if peak < default { default } else { peak },
    }
}

/// The region that reaches on each axis from the default to the peak.
fn implied_region(alloc: Global, peak: &[Fix<14>]) -> Result<Seq<Triple>, Refusal>
    ensures { Gives (λ x. x) result (Some (map implied_triple peak.now)) }
{
    let mut region = Seq::new(alloc);
    for coordinate in peak {
        region.push(implied_triple(*coordinate))?;
    }
    Ok(region)
}

/// The region with these starts, peaks and ends, as far as all three go.
fn intermediate_region(
    alloc: Global,
    starts: &[Fix<14>],
    peaks: &[Fix<14>],
    ends: &[Fix<14>],
) -> Result<Seq<Triple>, Refusal>
    ensures { Gives (λ x. x) result (Some (triples starts.now peaks.now ends.now)) }
{
    let mut region = Seq::new(alloc);
    let mut starts = starts;
    let mut peaks = peaks;
    let mut ends = ends;
    while let [start, later_starts @ ..] = starts {
        let [peak, later_peaks @ ..] = peaks else {
            return Ok(region);
        };
        let [end, later_ends @ ..] = ends else {
            return Ok(region);
        };
        region.push(Triple {
            start: *start,
            peak: *peak,
            end: *end,
        })?;
        starts = later_starts;
        peaks = later_peaks;
        ends = later_ends;
    }
    Ok(region)
}

/// The region of a header, and the bytes after it.
#[tactic(auto, unfolding(crate::specs::Tuples::region_at))]
fn region_at<'a>(
    alloc: Global,
    axes: u16,
    intermediate: bool,
    peak: &[Fix<14>],
    bytes: &'a [u8],
) -> Result<(Seq<Triple>, &'a [u8]), Refusal>
    ensures { Gives (λ x. (x.0, x.1.now)) result (region_at axes intermediate peak.now bytes.now) }
{
    if !intermediate {
        let region = implied_region(alloc, peak)?;
        return Ok((region, bytes));
    }
    let (starts, rest) = coordinates_at(alloc, axes, bytes)?;
    let (ends, rest) = coordinates_at(alloc, axes, rest)?;
    let region = intermediate_region(alloc, starts.as_slice(), peak, ends.as_slice())?;
    Ok((region, rest))
}

/// A tuple's header, and the bytes after it (OpenType, "Tuple variation store").
#[tactic(auto, unfolding(crate::specs::Tuples::header_at))]
pub fn header_at<'a>(
    alloc: Global,
    axes: u16,
    peaks: &Seq<Seq<Fix<14>>>,
    bytes: &'a [u8],
) -> Result<(Head, &'a [u8]), Refusal>
    ensures { Gives (λ x. (x.0, x.1.now)) result (header_at axes peaks.now bytes.now) }
{
    let (size, rest) = word_at(bytes)?;
    let (index, rest) = word_at(rest)?;
    if index & RESERVED != 0 {
        return Err(Refusal::NoReading);
    }
    let (peak, rest) = peak_at(alloc, axes, peaks, index, rest)?;
    let intermediate = index & INTERMEDIATE_REGION != 0;
    let (region, rest) = region_at(alloc, axes, intermediate, peak.as_slice(), rest)?;
    let private = index & PRIVATE_POINTS != 0;
    Ok((
        Head {
            size,
            region,
            private,
        },
        rest,
    ))
}
