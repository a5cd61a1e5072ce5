ghost use Rattle.std.specs.Prelude.{◌≡◌, IfOk};
ghost use Rattle.source_files.specs.Stops.{Answers, NeverFails};
ghost use Rattle.font_project.specs.Presence as rules;

use crate::faults::fault_of;
use basics::{Kind, Name};
use font_sources::SourceGlyphs;
use source_files::ReadStop;
use std::alloc::Global;

/// Tests that a source has the glyph of this number, which has this name.
fn is_there(alloc: Global, glyph: usize, name: &Name, source: &SourceGlyphs) -> Result<(), ReadStop>
    ensures answers { Answers (λ done. done) result (rules.is_there glyph name.now 0 source.now) }
    ensures never { NeverFails result }
{
    match source.glyphs.as_slice().get(glyph) {
        Some(None) => Err(ReadStop::Refused(fault_of(
            alloc,
            source.folder.as_str(),
            Kind::GlyphMissing,
            name.as_str(),
            0,
            0,
        )?)),
        _ => Ok(()),
    }
}

/// Tests that all sources have it, in the document's order.
#[tactic(auto, unfolding(crate::specs::Presence::is_in_each))]
fn is_in_each(
    alloc: Global,
    glyph: usize,
    name: &Name,
    sources: &[SourceGlyphs],
) -> Result<(), ReadStop>
    ensures answers { Answers (λ done. done) result (rules.is_in_each sources.now glyph name.now) }
    ensures never { NeverFails result }
{
    for source in sources {
        is_there(alloc, glyph, name, source)?;
    }
    Ok(())
}

/// Tests that all sources have the glyphs of these names, glyph by glyph.
pub(crate) fn are_there(
    alloc: Global,
    names: &[Name],
    sources: &[SourceGlyphs],
) -> Result<(), ReadStop>
    ensures answers { Answers (λ done. done) result (rules.are_there sources.now names.now) }
    ensures never { NeverFails result }
{
    for (glyph, name) in names.iter().enumerate() {
        is_in_each(alloc, glyph, name, sources)?;
    }
    Ok(())
}
