ghost use Rattle.std.specs.Prelude.{◌≡◌, IfOk};
ghost use Rattle.source_files.specs.Stops.{Answers, NeverFails};
ghost use Rattle.font_project.specs.Shapes as rules;

use crate::outlined::OutlinedSource;
use basics::{Fault, Name, NoMemory, Spot};
use compat::{Difference, compare};
use glif::Outline;
use source_files::ReadStop;
use std::alloc::Global;

/// The fault of a glyph of the source in this folder, whose outline differs from the default's.
fn shape_fault(
    alloc: Global,
    folder: &Name,
    name: &Name,
    difference: &Difference,
) -> Result<Fault, NoMemory>
    ensures { IfOk result (λ fault. fault ≡ rules.shape_fault folder.now name.now difference.now) }
{
    Ok(Fault {
        path: folder.try_copy(alloc)?,
        spot: Spot {
            kind: difference.kind,
            item: name.try_copy(alloc)?,
            at: difference.contour,
            also: difference.point,
            first: difference.first,
            second: difference.second,
        },
    })
}

/// Tests that an outline has the shape of the default's.
fn same_shape_or(
    alloc: Global,
    folder: &Name,
    name: &Name,
    first: &Outline,
    second: &Outline,
) -> Result<(), ReadStop>
    ensures answers { Answers (λ done. done) result (rules.same_shape_or folder.now name.now (rules.shapes_differ (Some first.now) (Some second.now))) }
    ensures never { NeverFails result }
{
    match compare(first, second) {
        None => Ok(()),
        Some(difference) => {
            Err(ReadStop::Refused(shape_fault(alloc, folder, name, &difference)?))
        }
    }
}

/// Tests that a source's glyph of this number and name has the shape of the default's.
fn has_shape(
    alloc: Global,
    default: &OutlinedSource,
    glyph: usize,
    name: &Name,
    source: &OutlinedSource,
) -> Result<(), ReadStop>
    ensures answers { Answers (λ done. done) result (rules.has_shape default.now glyph name.now 0 source.now) }
    ensures never { NeverFails result }
{
    match (
        default.outlines.as_slice().get(glyph),
        source.outlines.as_slice().get(glyph),
    ) {
        (Some(first), Some(second)) => same_shape_or(alloc, &source.folder, name, first, second),
        _ => Ok(()),
    }
}

/// Tests it of all sources, in the document's order.
#[tactic(auto, unfolding(crate::specs::Shapes::has_shape_in_each))]
fn has_shape_in_each(
    alloc: Global,
    default: &OutlinedSource,
    sources: &[OutlinedSource],
    glyph: usize,
    name: &Name,
) -> Result<(), ReadStop>
    ensures answers { Answers (λ done. done) result (rules.has_shape_in_each default.now sources.now glyph name.now) }
    ensures never { NeverFails result }
{
    for source in sources {
        has_shape(alloc, default, glyph, name, source)?;
    }
    Ok(())
}

/// Tests that the glyphs of these names have the shape of the default's in all sources, glyph by glyph.
pub(crate) fn have_shapes(
    alloc: Global,
    names: &[Name],
    default: &OutlinedSource,
    sources: &[OutlinedSource],
) -> Result<(), ReadStop>
    ensures answers { Answers (λ done. done) result (rules.have_shapes names.now default.now sources.now) }
    ensures never { NeverFails result }
{
    for (glyph, name) in names.iter().enumerate() {
        has_shape_in_each(alloc, default, sources, glyph, name)?;
    }
    Ok(())
}
