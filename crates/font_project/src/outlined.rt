ghost use Rattle.std.specs.Prelude.{◌≡◌, IfOk, slice_get};
ghost use Rattle.source_files.specs.Stops.{Answers, NeverFails};
ghost use Rattle.font_project.specs.Outlining as rules;

use crate::faults::fault_in;
use crate::flat::{Flat, FlatSource};
use basics::{Name, NoMemory, Seq};
use glif::Outline;
use source_files::ReadStop;
use std::alloc::Global;

/// A source of which every glyph has an outline, with its components drawn into it.
#[derive(Drop)]
pub(crate) struct OutlinedSource {
    /// Its UFO folder.
    pub(crate) folder: Name,
    /// The outline of each glyph, in glyph order.
    pub(crate) outlines: Seq<Outline>,
}

/// Refuses the fault of the source in this folder.
fn flat_or(alloc: Global, folder: &Name, flat: &Flat) -> Result<(), ReadStop>
    ensures answers { Answers (λ done. done) result (rules.flat_or folder.now flat.now) }
    ensures never { NeverFails result }
{
    match flat {
        Flat::Outlines(_) => Ok(()),
        Flat::Refused(spot) => Err(ReadStop::Refused(fault_in(alloc, folder, spot)?)),
    }
}

/// The same of the source of this number.
fn is_flat(alloc: Global, sources: &[FlatSource], number: usize) -> Result<(), ReadStop>
    ensures answers { Answers (λ done. done) result (rules.is_flat (slice_get sources.now number)) }
    ensures never { NeverFails result }
{
    match sources.get(number) {
        Some(source) => flat_or(alloc, &source.folder, &source.flat),
        None => Ok(()),
    }
}

/// Tests that the sources of these numbers have outlines within limits.
pub(crate) fn are_flat(
    alloc: Global,
    sources: &[FlatSource],
    numbers: &[usize],
) -> Result<(), ReadStop>
    ensures answers { Answers (λ done. done) result (rules.are_flat sources.now numbers.now) }
    ensures never { NeverFails result }
{
    for number in numbers {
        is_flat(alloc, sources, *number)?;
    }
    Ok(())
}

/// The outlines that flattening gave, none where it refused.
fn outlines_in(alloc: Global, flat: Flat) -> Seq<Outline>
    ensures { result ≡ rules.outlines_in flat }
{
    match flat {
        Flat::Outlines(outlines) => outlines,
        Flat::Refused(_) => Seq::new(alloc),
    }
}

/// The sources with their outlines.
pub(crate) fn outlined_sources(
    alloc: Global,
    sources: Seq<FlatSource>,
) -> Result<Seq<OutlinedSource>, NoMemory>
    ensures { IfOk result (λ outlined. outlined ≡ rules.outlined_sources sources) }
{
    let mut outlined = Seq::new(alloc);
    for source in sources.into_vec() {
        let FlatSource { folder, flat } = source;
        let outlines = outlines_in(alloc, flat);
        outlined.push(OutlinedSource { folder, outlines })?;
    }
    Ok(outlined)
}
