ghost use Rattle.std.specs.Prelude.{option_map, IfOk};
ghost use Rattle.source_files.specs.Stops.{Answers, Reads};
ghost use Rattle.ufo_source.specs.Glyphs.{glyph_named, glyph_or, wanted_glyphs};
ghost use Rattle.ufo_source.specs.Limits.{AreGlyphsOf, HasName, IsGlyphWithin, IsOfEntry};
ghost use Rattle.ufo_source.specs.Paths.{IsIn};

use crate::glyphs::read_glyph;
use crate::index::Index;
use basics::{Name, Seq};
use glif::Drawing;
use outside::Sources;
use source_files::ReadStop;
use std::alloc::Global;

/// Reads the glyph of an entry, if there is one.
fn read_found<S: Sources>(
    alloc: Global,
    sources: &mut S,
    folder: &str,
    layer: &str,
    found: Option<&(Name, Name)>,
) -> Result<Option<Drawing>, ReadStop>
    ensures exact { Reads (S.state sources.old) (S.state sources.new) (IsIn folder.now) (Answers (λ drawing. drawing) result (glyph_or (S.state sources.old).files folder.now layer.now (option_map (λ entry. entry.now) found.entry))) result }
    ensures within { IfOk result IsGlyphWithin }
    ensures named { IfOk result (IsOfEntry (option_map (λ entry. entry.now) found.entry)) }
{
    match found {
        Some(entry) => Ok(Some(read_glyph(alloc, sources, folder, layer, entry)?)),
        None => Ok(None),
    }
}

/// Reads the glyph of this name, if the layer has it.
#[tactic(auto, unfolding(crate::specs::Glyphs::glyph_named))]
fn read_named<S: Sources>(
    alloc: Global,
    sources: &mut S,
    folder: &str,
    layer: &str,
    index: &Index<'_, Name>,
    name: &Name,
) -> Result<Option<Drawing>, ReadStop>
    ensures exact { Reads (S.state sources.old) (S.state sources.new) (IsIn folder.now) (Answers (λ drawing. drawing) result (glyph_named (S.state sources.old).files folder.now layer.now index.now name.now)) result }
    ensures within { IfOk result IsGlyphWithin }
    ensures named { IfOk result (HasName name.now) }
{
    let found = index.get(name.as_str());
    read_found(alloc, sources, folder, layer, found)
}

/// Reads the glyphs of these names, in their order, None where the layer lacks one.
pub(crate) fn read_wanted<S: Sources>(
    alloc: Global,
    sources: &mut S,
    folder: &str,
    layer: &str,
    index: &Index<'_, Name>,
    names: &[Name],
) -> Result<Seq<Option<Drawing>>, ReadStop>
    ensures exact { Reads (S.state sources.old) (S.state sources.new) (IsIn folder.now) (Answers (λ drawings. drawings) result (wanted_glyphs (S.state sources.old).files folder.now layer.now index.now names.now)) result }
    ensures all { IfOk result (AreGlyphsOf names.now) }
{
    let mut drawings = Seq::new(alloc);
    for name in names {
        let drawing = read_named(alloc, sources, folder, layer, index, name)?;
        drawings.push(drawing)?;
    }
    Ok(drawings)
}
