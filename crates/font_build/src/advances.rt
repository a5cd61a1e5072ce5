ghost use Rattle.std.specs.Prelude.{◌≡◌, drop, length, map, IfOk};
ghost use Rattle.font_build.specs.TableSteps.{later_advances};
ghost use Rattle.font_model.specs.Fit.{IsFit};
ghost use Rattle.hvar.specs.Advances.{MeansAdvances};
ghost use Rattle.region_support.specs.Coordinates.{regions_in};

use basics::{NoMemory, Seq};
use delta_solve::GlyphModel;
use font_model::Project;
use hvar::table;
use region_support::Support;
use std::alloc::Global;

/// The table of the advances: over the regions of the masters after the default, the deltas of each glyph's advance.
pub(crate) fn move_advances(alloc: Global, project: &Project) -> Result<Vec<u8>, NoMemory>
    requires { IsFit project.now }
    ensures { IfOk result (λ bytes. MeansAdvances (length project.now.design.axes) (drop 1 (regions_in project.now.supports)) (map later_advances project.now.models) bytes.items) }
{
    let regions = later_regions(alloc, project.supports.as_slice())?;
    let rows = rows(alloc, project.models.as_slice())?;
    let axes = project.design.axes.len() as u32;
    let bytes = table(alloc, axes, &regions, &rows)?;
    Ok(bytes)
}

/// The regions after the default's.
fn later_regions(alloc: Global, supports: &[Support]) -> Result<Seq<Support>, NoMemory>
    ensures { IfOk result (λ later. later ≡ drop 1 supports.now) }
{
    match supports {
        [_, later @ ..] => copied(alloc, later),
        [] => Ok(Seq::new(alloc)),
    }
}

/// Equal regions.
fn copied(alloc: Global, supports: &[Support]) -> Result<Seq<Support>, NoMemory>
    ensures { IfOk result (λ copy. copy ≡ supports.now) }
{
    let mut copy = Seq::new(alloc);
    for support in supports {
        let own = support.clone()?;
        copy.push(own)?;
    }
    Ok(copy)
}

/// A row for each glyph.
fn rows(alloc: Global, models: &[GlyphModel]) -> Result<Seq<Seq<i32>>, NoMemory>
    ensures { IfOk result (λ rows. rows ≡ map later_advances models.now) }
{
    let mut rows = Seq::new(alloc);
    for model in models {
        let row = row_of(alloc, model)?;
        rows.push(row)?;
    }
    Ok(rows)
}

/// The deltas of a glyph's advance, of each master after the default.
fn row_of(alloc: Global, model: &GlyphModel) -> Result<Seq<i32>, NoMemory>
    ensures { IfOk result (λ row. row ≡ later_advances model.now) }
{
    let tuples = model.tuples.as_slice();
    let mut row = Seq::new(alloc);
    for master in 1..tuples.len() {
        row.push(tuples[master].advance)?;
    }
    Ok(row)
}
