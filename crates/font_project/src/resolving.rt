ghost use Rattle.std.specs.Prelude.{◌≡◌, slice_get};
ghost use Rattle.source_files.specs.Stops.{Answers, NeverFails};
ghost use Rattle.font_project.specs.Resolving as rules;

use crate::faults::fault_in;
use crate::flat::{Flat, FlatSource};
use basics::{Kind, Name};
use source_files::ReadStop;
use std::alloc::Global;

/// Whether it is a fault of where components lead.
fn is_unresolved(kind: Kind) -> bool
    ensures { result ≡ rules.is_unresolved kind }
{
    match kind {
        Kind::DanglingComponent | Kind::ComponentCycle => true,
        _ => false,
    }
}

/// Refuses the fault of the source in this folder, where it is one of where components lead.
fn resolved_or(alloc: Global, folder: &Name, flat: &Flat) -> Result<(), ReadStop>
    ensures answers { Answers (λ done. done) result (rules.resolved_or folder.now flat.now) }
    ensures never { NeverFails result }
{
    match flat {
        Flat::Outlines(_) => Ok(()),
        Flat::Refused(spot) => {
            if is_unresolved(spot.kind) {
                Err(ReadStop::Refused(fault_in(alloc, folder, spot)?))
            } else {
                Ok(())
            }
        }
    }
}

/// The same of the source of this number.
fn is_resolved(alloc: Global, sources: &[FlatSource], number: usize) -> Result<(), ReadStop>
    ensures answers { Answers (λ done. done) result (rules.is_resolved (slice_get sources.now number)) }
    ensures never { NeverFails result }
{
    match sources.get(number) {
        Some(source) => resolved_or(alloc, &source.folder, &source.flat),
        None => Ok(()),
    }
}

/// Tests, for the sources of these numbers, that components name glyphs and lead to no glyph again.
pub(crate) fn are_resolved(
    alloc: Global,
    sources: &[FlatSource],
    numbers: &[usize],
) -> Result<(), ReadStop>
    ensures answers { Answers (λ done. done) result (rules.are_resolved sources.now numbers.now) }
    ensures never { NeverFails result }
{
    for number in numbers {
        is_resolved(alloc, sources, *number)?;
    }
    Ok(())
}
