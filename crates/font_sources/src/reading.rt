ghost use Rattle.std.specs.Prelude.{IfOk};
ghost use Rattle.source_files.specs.Stops.{Answers, Anywhere, Reads};
ghost use Rattle.font_sources.specs.Limits.{AreWithin};
ghost use Rattle.font_sources.specs.Sources.{sources_at};

use crate::document::{default_number, master_order, read_document};
use crate::family::read_family;
use crate::found::FontSources;
use outside::Sources;
use source_files::ReadStop;
use std::alloc::Global;

/// Reads everything that a font is built from: the designspace document at `path` (Designspace 4 and 5) and the UFO
/// folders of its sources (UFO 3).
///
/// The document's folder is what stands before the last slash of `path`: `/` where that slash is the first byte, and
/// none where there is no slash. The default source is the one at the default of every axis. All its glyphs are read, and
/// off each other source those of them that it has. The glyphs stand in glyph order: `.notdef` first, then those that
/// `public.glyphOrder` of the default source lists, at their first position there, then the rest in the byte order of
/// their names. Where the default source has no `.notdef`, one is made for every source, and read off none: it draws
/// nothing, and is half the default source's em wide, rounded down.
///
/// # Errors
///
/// `ReadStop::Refused` with the first fault, in this order:
///
/// 1. of the file at `path`: MissingFile, FileTooLong, the fault of its text, and the faults of the document, as
///    `designspace::read` says;
/// 2. of the same file: NoDefaultSource where no source is at the default of every axis; else SameLocation where two
///    sources lie at one location, with the numbers of the earlier and the later one, counted from 0 in the document's
///    order, as `at` and `also`. The later one is the least that lies where an earlier one does, and the earlier one the
///    least of these;
/// 3. of the default source, which is read whole, as `ufo_source::read` says;
/// 4. of the other sources, in the document's order, off each of which the default source's glyphs are wanted in glyph
///    order, as `ufo_source::read` says.
///
/// `ReadStop::ReadFault` only where the sources failed, with the path of the file. `ReadStop::NoMemory` where memory ran
/// out.
#[tactic(auto, unfolding(crate::specs::Sources::sources_at))]
pub fn read<S: Sources>(alloc: Global, sources: &mut S, path: &str) -> Result<FontSources, ReadStop>
    // Which sources they are, and which fault.
    ensures exact { Reads (S.state sources.old) (S.state sources.new) Anywhere (Answers (λ found. found) result (sources_at (S.state sources.old).files path.now)) result }
    // What is read is within limits.
    ensures within { IfOk result AreWithin }
{
    let design = read_document(alloc, sources, path)?;
    let order = master_order(alloc, path, &design)?;
    let number = default_number(order.as_slice(), design.sources.as_slice());
    let family = read_family(alloc, sources, design.sources.as_slice(), number)?;
    Ok(FontSources {
        design,
        order,
        info: family.info,
        names: family.names,
        sources: family.sources,
    })
}
