ghost use Rattle.std.specs.Prelude.{◌≡◌, map, IfOk};
ghost use Rattle.basics.specs.Reading.{Gives};
ghost use Rattle.source_files.specs.Stops.{Answers, NeverFails, Reads};
ghost use Rattle.source_files.specs.Trees as trees;
ghost use Rattle.ufo_source.specs.Contents.{contents_path};
ghost use Rattle.ufo_source.specs.Glyphs as rules;
ghost use Rattle.ufo_source.specs.Glyphs.{all_glyphs, drawing_at, glyph_at, new_codes, with_glyph};
ghost use Rattle.ufo_source.specs.Limits.{AddsGlyph, AreAllGlyphs, IsDrawingWithin};
ghost use Rattle.ufo_source.specs.Paths as paths;
ghost use Rattle.ufo_source.specs.Paths.{IsIn, path_in};

use crate::contents::contents_name;
use crate::paths::{check_file_name, in_folder, path_in};
use crate::taken::Glyphs;
use basics::{Kind, Name, Seq, Stop, stop_at};
use glif::Drawing;
use outside::Sources;
use source_files::{ReadStop, in_file, read_file};
use std::alloc::Global;

/// Reads the drawing of the GLIF at `path`.
#[tactic(auto, using(source_files::proofs::InFile::answers_in_file), unfolding(crate::specs::Glyphs::drawing_at))]
fn read_at<S: Sources>(alloc: Global, sources: &mut S, path: &str) -> Result<Drawing, ReadStop>
    ensures exact { Reads (S.state sources.old) (S.state sources.new) (λ named. named ≡ path.now) (Answers (λ drawing. drawing) result (drawing_at (S.state sources.old).files path.now)) result }
    ensures within { IfOk result IsDrawingWithin }
{
    let text = read_file(alloc, sources, path)?;
    in_file(alloc, path, glif::read_text(alloc, text.as_slice()))
}

/// Reads the drawing of the GLIF of this name in the folder.
fn read_drawing<S: Sources>(
    alloc: Global,
    sources: &mut S,
    folder: &str,
    name: &str,
) -> Result<Drawing, ReadStop>
    ensures exact { Reads (S.state sources.old) (S.state sources.new) (IsIn folder.now) (Answers (λ drawing. drawing) result (drawing_at (S.state sources.old).files (path_in folder.now name.now))) result }
    ensures within { IfOk result IsDrawingWithin }
{
    let path = path_in(alloc, folder, name)?;
    read_at(alloc, sources, path.as_str())
}

/// Tests the name of a glyph's file, as the answer for the list of the layer's glyphs.
#[tactic(auto, using(source_files::proofs::InFile::answers_in_file))]
fn check_file(alloc: Global, folder: &str, layer: &str, file: &str) -> Result<(), ReadStop>
    ensures answers { Answers (λ _. tt) result (trees.in_file (contents_path folder.now layer.now) (paths.file_name file.now)) }
    ensures never { NeverFails result }
{
    let name = contents_name(alloc, layer)?;
    in_folder(alloc, folder, name.as_str(), check_file_name(alloc, file))
}

/// Reads the glyph of an entry of the layer's contents, which names it, whatever the file calls it.
#[tactic(auto, using(crate::proofs::Drawings::renamed), unfolding(crate::specs::Glyphs::glyph_at))]
pub(crate) fn read_glyph<S: Sources>(
    alloc: Global,
    sources: &mut S,
    folder: &str,
    layer: &str,
    entry: &(Name, Name),
) -> Result<Drawing, ReadStop>
    ensures exact { Reads (S.state sources.old) (S.state sources.new) (IsIn folder.now) (Answers (λ drawing. drawing) result (glyph_at (S.state sources.old).files folder.now layer.now entry.now)) result }
    ensures within { IfOk result IsDrawingWithin }
    ensures named { IfOk result (λ drawing. drawing.name ≡ entry.now.0) }
{
    check_file(alloc, folder, layer, entry.1.as_str())?;
    let file = path_in(alloc, layer, entry.1.as_str())?;
    let drawing = read_drawing(alloc, sources, folder, file.as_str())?;
    let name = entry.0.try_copy(alloc)?;
    Ok(Drawing { name, ..drawing })
}

/// Tests that no earlier glyph has one of the drawing's code points.
fn check_codes(alloc: Global, glyphs: &Glyphs, drawing: &Drawing) -> Result<(), Stop>
    ensures { Gives (λ _. tt) result (new_codes glyphs.now drawing.now) }
{
    match glyphs.first_taken(drawing.codes.as_slice()) {
        None => Ok(()),
        Some(code) => {
            let name = drawing.name.as_str();
            Err(stop_at(alloc, Kind::DuplicateCode, name, 0, i64::from(code)))
        }
    }
}

/// The same, as the answer for the UFO folder.
#[tactic(auto, using(source_files::proofs::InFile::answers_in_file))]
fn check_new(
    alloc: Global,
    folder: &str,
    glyphs: &Glyphs,
    drawing: &Drawing,
) -> Result<(), ReadStop>
    ensures answers { Answers (λ _. tt) result (trees.in_file folder.now (new_codes glyphs.now drawing.now)) }
    ensures never { NeverFails result }
{
    in_file(alloc, folder, check_codes(alloc, glyphs, drawing))
}

/// Reads one more glyph of the font.
#[tactic(auto, unfolding(crate::specs::Glyphs::with_glyph))]
fn with_glyph<S: Sources>(
    alloc: Global,
    sources: &mut S,
    folder: &str,
    layer: &str,
    glyphs: Glyphs,
    entry: &(Name, Name),
) -> Result<Glyphs, ReadStop>
    ensures exact { Reads (S.state sources.old) (S.state sources.new) (IsIn folder.now) (Answers (λ glyphs. glyphs) result (rules.with_glyph (S.state sources.old).files folder.now layer.now glyphs entry.now)) result }
    ensures adds { IfOk result (AddsGlyph entry.now.0 glyphs) }
{
    let drawing = read_glyph(alloc, sources, folder, layer, entry)?;
    check_new(alloc, folder, &glyphs, &drawing)?;
    Ok(glyphs.with(drawing)?)
}

/// Reads the glyphs of these entries, in their order, of which no two may have one code point.
pub(crate) fn read_glyphs<S: Sources>(
    alloc: Global,
    sources: &mut S,
    folder: &str,
    layer: &str,
    entries: &[(Name, Name)],
) -> Result<Seq<Option<Drawing>>, ReadStop>
    ensures exact { Reads (S.state sources.old) (S.state sources.new) (IsIn folder.now) (Answers (λ glyphs. glyphs) result (all_glyphs (S.state sources.old).files folder.now layer.now entries.now)) result }
    ensures all { IfOk result (AreAllGlyphs (map (λ entry. entry.0) entries.now)) }
{
    let mut glyphs = Glyphs::new(alloc);
    for entry in entries {
        glyphs = with_glyph(alloc, sources, folder, layer, glyphs, entry)?;
    }
    Ok(glyphs.into_seq())
}
