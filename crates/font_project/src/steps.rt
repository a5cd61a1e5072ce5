ghost use Rattle.std.specs.Prelude.{◌≡◌, ◌*◌, length, map, IfOk, Ok};
ghost use Rattle.source_files.specs.Stops.{Anywhere, NeverFails, Reads};
ghost use Rattle.font_sources.specs.Limits.{AreWithin};
ghost use Rattle.font_model.specs.Fit.{AreGlyphCodes, IsFit};
ghost use Rattle.font_project.specs.Filtering.{raised, seen};
ghost use Rattle.font_project.specs.Fonts.{IsFontAt, IsFontOf, IsFontOfDrawn, default_number, font_filtered, font_of};
ghost use Rattle.font_project.specs.Limits.{AreAlikeWithin, AreDrawnWithin, AreOutlinedWithin, IsFrameWithin};
ghost use Rattle.font_project.specs.Making.{IsJoinedOf, MakesProject};

use crate::codes::codes_of;
use crate::columns::rows_in;
use crate::deltas::models_of;
use crate::drawn::{DrawnSource, drawn_sources};
use crate::filtering::filtered;
use crate::joining::outlined_of;
use crate::masters::{Masters, masters_of};
use crate::outlined::OutlinedSource;
use crate::presence::are_there;
use crate::ruled::{Ruled, ruled_of};
use crate::units::have_units;
use basics::Seq;
use delta_solve::GlyphModel;
use filters::GlyphFilter;
use font_model::Project;
use font_rules::Substitutions;
use font_sources::{FontSources, read};
use outside::Sources;
use source_files::ReadStop;
use std::alloc::Global;

/// The project of all that was computed.
fn joined(
    found: FontSources,
    ruled: Ruled,
    codes: Seq<(u32, u16)>,
    masters: Masters,
    models: Seq<GlyphModel>,
) -> Project
    ensures { IsJoinedOf found ruled codes masters models result }
{
    let FontSources {
        design,
        order: _,
        info,
        names: _,
        sources: _,
    } = found;
    let Masters {
        sorted,
        supports,
        table: _,
    } = masters;
    let Ruled {
        names,
        substitutions: Substitutions { subs, cells },
    } = ruled;
    Project {
        design,
        info,
        names,
        codes,
        supports,
        sorted,
        models,
        subs,
        cells,
    }
}

/// The project of the font with these code points and outlines.
#[tactic(auto, unfolding(crate::specs::Fonts::font_of))]
fn finished(
    alloc: Global,
    path: &str,
    found: FontSources,
    codes: Seq<(u32, u16)>,
    outlined: Seq<OutlinedSource>,
) -> Result<Project, ReadStop>
    requires frame { IsFrameWithin found }
    requires codes { AreGlyphCodes (length found.names) codes }
    requires outlined { AreAlikeWithin (length found.names) (length found.design.sources) (default_number found) outlined }
    ensures makes { MakesProject (λ answer. answer ≡ font_of path.now found codes outlined) result }
    ensures never { NeverFails result }
    ensures fit { IfOk result IsFit }
    ensures design { IfOk result (λ project. project.design ≡ found.design) }
    ensures names { IfOk result (λ project. length project.names.entries ≡ length found.names) }
{
    let ruled = ruled_of(alloc, path, &found)?;
    let masters = masters_of(alloc, &found.design, &found.order)?;
    let rows = rows_in(alloc, outlined.into_vec(), found.order.as_slice())?;
    let models = models_of(alloc, &masters, found.names.as_slice(), rows)?;
    Ok(joined(found, ruled, codes, masters, models))
}

/// The project of the font with these code points, and with the images of these outlines under the filters.
fn finished_filtered(
    alloc: Global,
    path: &str,
    filters: &mut [Box<dyn GlyphFilter>],
    found: FontSources,
    codes: Seq<(u32, u16)>,
    outlined: Seq<OutlinedSource>,
) -> Result<Project, ReadStop>
    requires frame { IsFrameWithin found }
    requires codes { AreGlyphCodes (length found.names) codes }
    requires outlined { AreOutlinedWithin found.names (length found.design.sources) (default_number found) outlined }
    ensures makes { MakesProject (λ answer. answer ≡ font_filtered path.now (map (λ filter. image filter (setting filter)) filters.old) found codes outlined) result }
    ensures never { NeverFails result }
    ensures fit { IfOk result IsFit }
    ensures same { map (seen called setting setting_of image kinds) filters.new ≡ map (seen called setting setting_of image kinds) filters.old }
    ensures touched { IfOk result (λ project. map touches filters.new ≡ map (raised (length project.design.sources * length project.names.entries)) (map touches filters.old)) }
{
    let default = found.order.as_slice()[0] as usize;
    let outlined = filtered(alloc, filters, found.names.as_slice(), default, outlined)?;
    finished(alloc, path, found, codes, outlined)
}

/// The project of the font whose sources draw this.
fn made(
    alloc: Global,
    path: &str,
    filters: &mut [Box<dyn GlyphFilter>],
    found: FontSources,
    drawn: Seq<DrawnSource>,
) -> Result<Project, ReadStop>
    requires frame { IsFrameWithin found }
    requires drawn { AreDrawnWithin (length found.names) (length found.design.sources) (default_number found) drawn }
    ensures makes { MakesProject (IsFontOfDrawn path.now (map (λ filter. image filter (setting filter)) filters.old) found (Ok drawn)) result }
    ensures never { NeverFails result }
    ensures fit { IfOk result IsFit }
    ensures same { map (seen called setting setting_of image kinds) filters.new ≡ map (seen called setting setting_of image kinds) filters.old }
    ensures touched { IfOk result (λ project. map touches filters.new ≡ map (raised (length project.design.sources * length project.names.entries)) (map touches filters.old)) }
{
    let default = found.order.as_slice()[0] as usize;
    let codes = codes_of(alloc, drawn.as_slice()[default].drawings.as_slice())?;
    let outlined = outlined_of(alloc, found.names.as_slice(), default, drawn)?;
    finished_filtered(alloc, path, filters, found, codes, outlined)
}

/// The project of the font of all that was read.
#[tactic(auto, unfolding(crate::specs::Fonts::drawn_of))]
fn project_of(
    alloc: Global,
    path: &str,
    filters: &mut [Box<dyn GlyphFilter>],
    found: FontSources,
) -> Result<Project, ReadStop>
    requires { AreWithin found }
    ensures makes { MakesProject (IsFontOf path.now (map (λ filter. image filter (setting filter)) filters.old) (Ok found)) result }
    ensures never { NeverFails result }
    ensures fit { IfOk result IsFit }
    ensures same { map (seen called setting setting_of image kinds) filters.new ≡ map (seen called setting setting_of image kinds) filters.old }
    ensures touched { IfOk result (λ project. map touches filters.new ≡ map (raised (length project.design.sources * length project.names.entries)) (map touches filters.old)) }
{
    have_units(alloc, found.info.units, found.sources.as_slice())?;
    are_there(alloc, found.names.as_slice(), found.sources.as_slice())?;
    let FontSources {
        design,
        order,
        info,
        names,
        sources,
    } = found;
    let drawn = drawn_sources(alloc, sources)?;
    let frame = FontSources {
        design,
        order,
        info,
        names,
        sources: Seq::new(alloc),
    };
    made(alloc, path, filters, frame, drawn)
}

/// The same, of filters in a vector.
fn project_through(
    alloc: Global,
    path: &str,
    filters: &mut Vec<Box<dyn GlyphFilter>>,
    found: FontSources,
) -> Result<Project, ReadStop>
    requires { AreWithin found }
    ensures makes { MakesProject (IsFontOf path.now (map (λ filter. image filter (setting filter)) filters.old.items) (Ok found)) result }
    ensures never { NeverFails result }
    ensures fit { IfOk result IsFit }
    ensures same { map (seen called setting setting_of image kinds) filters.new.items ≡ map (seen called setting setting_of image kinds) filters.old.items }
    ensures touched { IfOk result (λ project. map touches filters.new.items ≡ map (raised (length project.design.sources * length project.names.entries)) (map touches filters.old.items)) }
{
    project_of(alloc, path, filters.as_mut_slice(), found)
}

/// Reads the sources that the designspace document of this path names, and makes the project of their font, whose outlines
/// go through the filters in their order: each is configured already.
///
/// # Errors
///
/// The first fault, in this order: those of reading, as `font_sources::read` tells them; UnitsDiffer; GlyphMissing; of
/// components DanglingComponent and ComponentCycle, then ComponentShape; TooManyPoints and CoordinateRange of flattened
/// outlines; ContourCount, PointCount and PointKind; TooMuch; FilterRange, by source with the default's first, then by glyph;
/// RuleGlyphUnknown and TooManyCells; DeltaRange.
pub fn project<S: Sources>(
    alloc: Global,
    sources: &mut S,
    path: &str,
    filters: &mut Vec<Box<dyn GlyphFilter>>,
) -> Result<Project, ReadStop>
    ensures exact { Reads (S.state sources.old) (S.state sources.new) Anywhere (MakesProject (IsFontAt (S.state sources.old).files path.now (map (λ filter. image filter (setting filter)) filters.old.items)) result) result }
    ensures fit { IfOk result IsFit }
    // Nothing of a filter changes but its count, to which each source adds one for each glyph.
    ensures same { map (seen called setting setting_of image kinds) filters.new.items ≡ map (seen called setting setting_of image kinds) filters.old.items }
    ensures touched { IfOk result (λ project. map touches filters.new.items ≡ map (raised (length project.design.sources * length project.names.entries)) (map touches filters.old.items)) }
{
    let found = read(alloc, sources, path)?;
    project_through(alloc, path, filters, found)
}
