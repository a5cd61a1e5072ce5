ghost use Rattle.std.specs.Prelude.{◌≡◌, ◌++◌, ◌∷◌, ◌<◌, ℤ, length, map, All, IfOk};
ghost use Rattle.source_files.specs.Stops.{Answers, Anywhere, Reads};
ghost use Rattle.ufo_source.specs.Paths.{IsIn};
ghost use Rattle.font_sources.specs.GlyphOrder.{glyph_order};
ghost use Rattle.font_sources.specs.Limits.{AreGlyphsOf, IsDefaultWithin, IsFamilyOf, IsSourceWithin, folders_of, paths_of};
ghost use Rattle.font_sources.specs.Sources as rules;
ghost use Rattle.font_sources.specs.Sources.{family_at, family_of, source_at, sources_among};

use crate::default_source::{DefaultSource, layer_of, read_default};
use crate::found::SourceGlyphs;
use crate::made::{glyph_order, with_made};
use basics::{Name, NoMemory, Seq};
use designspace::Source;
use fontinfo::Info;
use glif::Drawing;
use outside::Sources;
use source_files::ReadStop;
use std::alloc::Global;
use ufo_source::Master;

/// The sources of a font.
#[derive(Drop)]
pub(crate) struct Family {
    /// The font information of the default source.
    pub(crate) info: Info,
    /// The names of the glyphs in glyph order.
    pub(crate) names: Seq<Name>,
    /// The sources in the document's order.
    pub(crate) sources: Seq<SourceGlyphs>,
}

/// What is known of a source of the font whose default source this is.
fn source_glyphs(
    alloc: Global,
    makes: bool,
    em: i32,
    source: &Source,
    units: i32,
    glyphs: Seq<Option<Drawing>>,
) -> Result<SourceGlyphs, NoMemory>
    ensures { IfOk result (λ found. found ≡ rules.source_glyphs makes em source.now.path units glyphs) }
{
    Ok(SourceGlyphs {
        folder: source.path.try_copy(alloc)?,
        units,
        glyphs: with_made(alloc, makes, em, glyphs)?,
    })
}

/// A source that was read beside the default one.
fn source_of(
    alloc: Global,
    default: &DefaultSource,
    source: &Source,
    master: Master,
) -> Result<SourceGlyphs, NoMemory>
    ensures { IfOk result (λ found. found ≡ rules.source_of default.now source.now master) }
{
    let makes = default.makes;
    let em = default.info.units;
    let found = source_glyphs(alloc, makes, em, source, master.info.units, master.glyphs)?;
    Ok(found)
}

/// Reads a source other than the default one: those glyphs that the default source has.
#[tactic(auto, unfolding(crate::specs::Sources::source_at))]
fn read_source<S: Sources>(
    alloc: Global,
    sources: &mut S,
    default: &DefaultSource,
    source: &Source,
) -> Result<SourceGlyphs, ReadStop>
    requires { IsDefaultWithin default.now }
    ensures exact { Reads (S.state sources.old) (S.state sources.new) (IsIn source.now.path) (Answers (λ found. found) result (source_at (S.state sources.old).files default.now source.now)) result }
    ensures within { IfOk result (IsSourceWithin (glyph_order default.now.makes default.now.names)) }
    ensures folder { IfOk result (λ found. found.folder ≡ source.now.path) }
{
    let master = ufo_source::read(
        alloc,
        sources,
        source.path.as_str(),
        layer_of(source),
        Some(&default.names),
    )?;
    Ok(source_of(alloc, default, source, master)?)
}

/// Reads sources other than the default one, in order.
fn read_sources<S: Sources>(
    alloc: Global,
    sources: &mut S,
    default: &DefaultSource,
    listed: &[Source],
) -> Result<Seq<SourceGlyphs>, ReadStop>
    requires { IsDefaultWithin default.now }
    ensures exact { Reads (S.state sources.old) (S.state sources.new) Anywhere (Answers (λ found. found) result (sources_among (S.state sources.old).files default.now listed.now)) result }
    ensures within { IfOk result (All (IsSourceWithin (glyph_order default.now.makes default.now.names))) }
    ensures folders { IfOk result (λ found. folders_of found ≡ paths_of listed.now) }
{
    let mut found = Seq::new(alloc);
    for source in listed {
        found.push(read_source(alloc, sources, default, source)?)?;
    }
    Ok(found)
}

/// Sources with one after them, and more after that.
fn with_sources(
    before: Seq<SourceGlyphs>,
    source: SourceGlyphs,
    after: Seq<SourceGlyphs>,
) -> Result<Seq<SourceGlyphs>, NoMemory>
    ensures { IfOk result (λ all. all ≡ before ++ (source ∷ after)) }
{
    let mut all = before;
    all.push(source)?;
    for next in after.into_vec() {
        all.push(next)?;
    }
    Ok(all)
}

/// The sources put together in the document's order.
fn joined(
    alloc: Global,
    default: DefaultSource,
    source: &Source,
    earlier: Seq<SourceGlyphs>,
    later: Seq<SourceGlyphs>,
) -> Result<Family, NoMemory>
    ensures { IfOk result (λ family. family ≡ rules.joined default source.now.path earlier later) }
{
    let DefaultSource {
        info,
        makes,
        names,
        glyphs,
    } = default;
    let units = info.units;
    let own = source_glyphs(alloc, makes, units, source, units, glyphs)?;
    let names = glyph_order(alloc, makes, names)?;
    let sources = with_sources(earlier, own, later)?;
    Ok(Family {
        info,
        names,
        sources,
    })
}

/// Reads the default source, and then those that stand before it and those that stand after it.
#[tactic(auto, unfolding(crate::specs::Sources::family_at))]
fn read_parted<S: Sources>(
    alloc: Global,
    sources: &mut S,
    before: &[Source],
    source: &Source,
    after: &[Source],
) -> Result<Family, ReadStop>
    ensures exact { Reads (S.state sources.old) (S.state sources.new) Anywhere (Answers (λ family. family) result (family_at (S.state sources.old).files before.now source.now after.now)) result }
    ensures within { IfOk result (IsFamilyOf (paths_of before.now ++ (source.now.path ∷ paths_of after.now)) (length before.now)) }
{
    let default = read_default(alloc, sources, source)?;
    let earlier = read_sources(alloc, sources, &default, before)?;
    let later = read_sources(alloc, sources, &default, after)?;
    Ok(joined(alloc, default, source, earlier, later)?)
}

/// Reads the sources, of which the one of this number is the default.
pub(crate) fn read_family<S: Sources>(
    alloc: Global,
    sources: &mut S,
    listed: &[Source],
    number: usize,
) -> Result<Family, ReadStop>
    requires { number < length listed.now }
    ensures exact { Reads (S.state sources.old) (S.state sources.new) Anywhere (Answers (λ family. family) result (family_of (S.state sources.old).files listed.now number)) result }
    ensures within { IfOk result (IsFamilyOf (paths_of listed.now) number) }
{
    let before = &listed[..number];
    let after = &listed[number + 1..];
    read_parted(alloc, sources, before, &listed[number], after)
}
