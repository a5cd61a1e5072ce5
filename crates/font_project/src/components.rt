ghost use Rattle.std.specs.Prelude.{◌≡◌, IfOk};
ghost use Rattle.source_files.specs.Stops.{Answers, NeverFails};
ghost use Rattle.font_project.specs.Components as rules;

use crate::drawn::DrawnSource;
use basics::{Fault, Name, NoMemory, Spot};
use compat::{Difference, same_bases};
use glif::Drawing;
use source_files::ReadStop;
use std::alloc::Global;

/// The fault of a glyph of the source in this folder, whose components differ from the default's.
fn component_fault(
    alloc: Global,
    folder: &Name,
    name: &Name,
    difference: &Difference,
) -> Result<Fault, NoMemory>
    ensures { IfOk result (λ fault. fault ≡ rules.component_fault folder.now name.now difference.now) }
{
    Ok(Fault {
        path: folder.try_copy(alloc)?,
        spot: Spot {
            kind: difference.kind,
            item: name.try_copy(alloc)?,
            at: difference.point,
            also: 0,
            first: difference.first,
            second: difference.second,
        },
    })
}

/// Tests that a drawing has the bases of the default's.
fn same_bases_or(
    alloc: Global,
    folder: &Name,
    name: &Name,
    first: &Drawing,
    second: &Drawing,
) -> Result<(), ReadStop>
    ensures answers { Answers (λ done. done) result (rules.same_bases_or folder.now name.now (rules.bases_differ (Some first.now) (Some second.now))) }
    ensures never { NeverFails result }
{
    match same_bases(first, second) {
        None => Ok(()),
        Some(difference) => {
            Err(ReadStop::Refused(component_fault(alloc, folder, name, &difference)?))
        }
    }
}

/// Tests that a source's glyph of this number and name has the bases of the default's.
fn has_bases(
    alloc: Global,
    default: &DrawnSource,
    glyph: usize,
    name: &Name,
    source: &DrawnSource,
) -> Result<(), ReadStop>
    ensures answers { Answers (λ done. done) result (rules.has_bases default.now glyph name.now 0 source.now) }
    ensures never { NeverFails result }
{
    match (
        default.drawings.as_slice().get(glyph),
        source.drawings.as_slice().get(glyph),
    ) {
        (Some(first), Some(second)) => same_bases_or(alloc, &source.folder, name, first, second),
        _ => Ok(()),
    }
}

/// Tests it of all sources, in the document's order.
#[tactic(auto, unfolding(crate::specs::Components::has_bases_in_each))]
fn has_bases_in_each(
    alloc: Global,
    default: &DrawnSource,
    sources: &[DrawnSource],
    glyph: usize,
    name: &Name,
) -> Result<(), ReadStop>
    ensures answers { Answers (λ done. done) result (rules.has_bases_in_each default.now sources.now glyph name.now) }
    ensures never { NeverFails result }
{
    for source in sources {
        has_bases(alloc, default, glyph, name, source)?;
    }
    Ok(())
}

/// Tests that the glyphs of these names have the components of the default's in all sources, glyph by glyph.
pub(crate) fn have_bases(
    alloc: Global,
    names: &[Name],
    default: &DrawnSource,
    sources: &[DrawnSource],
) -> Result<(), ReadStop>
    ensures answers { Answers (λ done. done) result (rules.have_bases names.now default.now sources.now) }
    ensures never { NeverFails result }
{
    for (glyph, name) in names.iter().enumerate() {
        has_bases_in_each(alloc, default, sources, glyph, name)?;
    }
    Ok(())
}
