ghost use Rattle.std.specs.Prelude.{◌≡◌, ◌≤◌, length, sum_by, slice_get, All, IfOk};
ghost use Rattle.glif.specs.Limits.{IsWithinLimits};
ghost use Rattle.source_files.specs.Stops.{Answers, NeverFails};
ghost use Rattle.font_project.specs.Outlining.{AreOutlinesWithin};
ghost use Rattle.font_project.specs.Sizes as rules;

use crate::faults::fault_of;
use crate::outlined::OutlinedSource;
use basics::Kind;
use glif::Outline;
use source_files::ReadStop;
use std::alloc::Global;

/// The most points that all outlines together may have, of each its own and four more counted.
const MANY: u64 = 16_777_216;

/// An outline's points, and four more.
fn outline_size(outline: &Outline) -> u64
    requires { sum_by length outline.now.contours ≤ 4000 }
    ensures { result ≡ rules.outline_size outline.now }
{
    let contours = outline.contours.as_slice();
    let mut size = 4;
    for contour in contours {
        size += contour.len() as u64;
    }
    size
}

/// A sum that isn't too much.
fn size_or(alloc: Global, sum: u64) -> Result<u64, ReadStop>
    requires { sum ≤ 16781220 }
    ensures answers { Answers (λ sum. sum) result (rules.size_or sum) }
    ensures never { NeverFails result }
    ensures few { IfOk result (λ sum. sum ≤ 16777216) }
{
    if sum <= MANY {
        Ok(sum)
    } else {
        Err(ReadStop::Refused(fault_of(alloc, "", Kind::TooMuch, "", 0, sum as i64)?))
    }
}

/// The sum with the outlines of one source, none of which makes it too much.
#[tactic(auto, unfolding(crate::specs::Sizes::with_outlines))]
fn with_outlines(alloc: Global, sum: u64, outlines: &[Outline]) -> Result<u64, ReadStop>
    requires few { sum ≤ 16777216 }
    requires within { All IsWithinLimits outlines.now }
    ensures answers { Answers (λ sum. sum) result (rules.with_outlines sum outlines.now) }
    ensures never { NeverFails result }
    ensures few { IfOk result (λ sum. sum ≤ 16777216) }
{
    let mut sum = sum;
    for outline in outlines {
        sum = size_or(alloc, sum + outline_size(outline))?;
    }
    Ok(sum)
}

/// The sum with the source of this number.
fn with_source(
    alloc: Global,
    sum: u64,
    sources: &[OutlinedSource],
    number: usize,
) -> Result<u64, ReadStop>
    requires few { sum ≤ 16777216 }
    requires within { All AreOutlinesWithin sources.now }
    ensures answers { Answers (λ sum. sum) result (rules.with_source sum (slice_get sources.now number)) }
    ensures never { NeverFails result }
    ensures few { IfOk result (λ sum. sum ≤ 16777216) }
{
    match sources.get(number) {
        Some(source) => with_outlines(alloc, sum, source.outlines.as_slice()),
        None => Ok(sum),
    }
}

/// The sum over the sources of these numbers.
fn size_of(alloc: Global, sources: &[OutlinedSource], numbers: &[usize]) -> Result<u64, ReadStop>
    requires { All AreOutlinesWithin sources.now }
    ensures answers { Answers (λ sum. sum) result (rules.size_of sources.now numbers.now) }
    ensures never { NeverFails result }
{
    let mut sum = 0;
    for number in numbers {
        sum = with_source(alloc, sum, sources, *number)?;
    }
    Ok(sum)
}

/// Tests that the outlines of the sources of these numbers are few enough.
pub(crate) fn are_few(
    alloc: Global,
    sources: &[OutlinedSource],
    numbers: &[usize],
) -> Result<(), ReadStop>
    requires { All AreOutlinesWithin sources.now }
    ensures answers { Answers (λ done. done) result (rules.are_few sources.now numbers.now) }
    ensures never { NeverFails result }
{
    size_of(alloc, sources, numbers)?;
    Ok(())
}
