ghost use Rattle.std.specs.Prelude.{◌≡◌, ◌<◌, ◌*◌, length, map, All, IfOk};
ghost use Rattle.glif.specs.Limits.{IsWithinLimits};
ghost use Rattle.std.specs.List.{AllZip};
ghost use Rattle.basics.specs.Reading.{each};
ghost use Rattle.source_files.specs.Stops.{Answers, NeverFails};
ghost use Rattle.font_project.specs.Filtering as rules;
ghost use Rattle.font_project.specs.Filtering.{raised, seen};
ghost use Rattle.font_project.specs.Images.{IsImageOf, IsSourceOf};
ghost use Rattle.font_project.specs.Limits.{IsOutlinedWithin};

use crate::faults::fault_of;
use crate::outlined::OutlinedSource;
use basics::{Kind, Name, Seq};
use filters::{FilterRefusal, GlyphFilter, apply_all};
use glif::Outline;
use source_files::ReadStop;
use std::alloc::Global;

/// The image under the filters in order of an outline of the glyph of this name, of the source in this folder.
fn filtered_outline(
    alloc: Global,
    filters: &mut [Box<dyn GlyphFilter>],
    folder: &Name,
    name: &Name,
    outline: Outline,
) -> Result<Outline, ReadStop>
    requires { IsWithinLimits outline }
    ensures answers { Answers (λ made. made) result (rules.image_of (map (λ filter. image filter (setting filter)) filters.old) folder.now name.now outline) }
    ensures never { NeverFails result }
    ensures shape { IfOk result (IsImageOf (map (λ filter. kinds filter (setting filter)) filters.old) outline) }
    ensures same { map (seen called setting setting_of image kinds) filters.new ≡ map (seen called setting setting_of image kinds) filters.old }
    ensures touched { IfOk result (λ _. map touches filters.new ≡ map (raised 1) (map touches filters.old)) }
{
    match apply_all(alloc, filters, outline) {
        Ok(made) => Ok(made),
        Err((number, FilterRefusal::Range(value))) => Err(ReadStop::Refused(fault_of(
            alloc,
            folder.as_str(),
            Kind::FilterRange,
            name.as_str(),
            number,
            value,
        )?)),
        Err((_, FilterRefusal::NoMemory)) => Err(ReadStop::NoMemory),
    }
}

/// The images of the outlines of a source, one each of the glyphs of these names.
fn filtered_outlines(
    alloc: Global,
    filters: &mut [Box<dyn GlyphFilter>],
    names: &[Name],
    folder: &Name,
    outlines: Seq<Outline>,
) -> Result<Seq<Outline>, ReadStop>
    requires one_each { length outlines ≡ length names.now }
    requires within { All IsWithinLimits outlines }
    ensures answers { Answers (λ made. made) result (rules.images_of (map (λ filter. image filter (setting filter)) filters.old) folder.now names.now outlines) }
    ensures never { NeverFails result }
    ensures shape { IfOk result (AllZip (IsImageOf (map (λ filter. kinds filter (setting filter)) filters.old)) outlines) }
    ensures same { map (seen called setting setting_of image kinds) filters.new ≡ map (seen called setting setting_of image kinds) filters.old }
    ensures touched { IfOk result (λ _. map touches filters.new ≡ map (raised (length names.now)) (map touches filters.old)) }
{
    let mut made = Seq::new(alloc);
    let mut glyph = 0;
    for outline in outlines.into_vec() {
        made.push(filtered_outline(alloc, filters, folder, &names[glyph], outline)?)?;
        glyph += 1;
    }
    Ok(made)
}

/// The source with the images of its outlines.
#[tactic(auto, unfolding(crate::specs::Filtering::filtered_source))]
fn filtered_source(
    alloc: Global,
    filters: &mut [Box<dyn GlyphFilter>],
    names: &[Name],
    source: OutlinedSource,
) -> Result<OutlinedSource, ReadStop>
    requires { IsOutlinedWithin (length names.now) source }
    ensures answers { Answers (λ made. made) result (rules.filtered_source (map (λ filter. image filter (setting filter)) filters.old) names.now source) }
    ensures never { NeverFails result }
    ensures shape { IfOk result (IsSourceOf (map (λ filter. kinds filter (setting filter)) filters.old) source) }
    ensures same { map (seen called setting setting_of image kinds) filters.new ≡ map (seen called setting setting_of image kinds) filters.old }
    ensures touched { IfOk result (λ _. map touches filters.new ≡ map (raised (length names.now)) (map touches filters.old)) }
{
    let OutlinedSource { folder, outlines } = source;
    let outlines = filtered_outlines(alloc, filters, names, &folder, outlines)?;
    Ok(OutlinedSource { folder, outlines })
}

/// The sources with the images of their outlines, in their order.
fn filtered_each(
    alloc: Global,
    filters: &mut [Box<dyn GlyphFilter>],
    names: &[Name],
    sources: Vec<OutlinedSource>,
) -> Result<Vec<OutlinedSource>, ReadStop>
    requires { All (IsOutlinedWithin (length names.now)) sources.items }
    ensures answers { Answers (λ made. made.items) result (each (rules.filtered_source (map (λ filter. image filter (setting filter)) filters.old) names.now) sources.items) }
    ensures never { NeverFails result }
    ensures shape { IfOk result (λ made. AllZip (IsSourceOf (map (λ filter. kinds filter (setting filter)) filters.old)) sources.items made.items) }
    ensures same { map (seen called setting setting_of image kinds) filters.new ≡ map (seen called setting setting_of image kinds) filters.old }
    ensures touched { IfOk result (λ _. map touches filters.new ≡ map (raised (length sources.items * length names.now)) (map touches filters.old)) }
{
    let mut made = Vec::new(alloc);
    for source in sources {
        made.push(filtered_source(alloc, filters, names, source)?)?;
    }
    Ok(made)
}

/// The sources with the images of their outlines, of which the default's has this number. Its outlines go through the
/// filters first, and then those of the others in the document's order.
#[tactic(auto, unfolding(crate::specs::Filtering::filtered))]
pub(crate) fn filtered(
    alloc: Global,
    filters: &mut [Box<dyn GlyphFilter>],
    names: &[Name],
    default: usize,
    outlined: Seq<OutlinedSource>,
) -> Result<Seq<OutlinedSource>, ReadStop>
    requires there { default < length outlined }
    requires each { All (IsOutlinedWithin (length names.now)) outlined }
    ensures answers { Answers (λ made. made) result (rules.filtered (map (λ filter. image filter (setting filter)) filters.old) names.now default outlined) }
    ensures never { NeverFails result }
    ensures shape { IfOk result (AllZip (IsSourceOf (map (λ filter. kinds filter (setting filter)) filters.old)) outlined) }
    ensures same { map (seen called setting setting_of image kinds) filters.new ≡ map (seen called setting setting_of image kinds) filters.old }
    ensures touched { IfOk result (λ _. map touches filters.new ≡ map (raised (length outlined * length names.now)) (map touches filters.old)) }
{
    let mut sources = outlined.into_vec();
    let own = sources.remove(default);
    let own = filtered_source(alloc, filters, names, own)?;
    let mut made = filtered_each(alloc, filters, names, sources)?;
    made.insert(default, own)?;
    Ok(Seq::from_vec(made))
}
