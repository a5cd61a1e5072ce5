ghost use Rattle.std.specs.Prelude.{◌≡◌, List, length, All, IfOk};
ghost use Rattle.std.specs.List.{AllZip};
ghost use Rattle.glif.specs.Limits.{IsWithinLimits};
ghost use Rattle.delta_solve.specs.GlyphModels.{AreAlike, IsModelOf, IsTupleWithin, delta_fault};
ghost use Rattle.delta_solve.specs.declared.model.GlyphModel.{GlyphModel};
ghost use Rattle.source_files.specs.Stops.{Answers, NeverFails};
ghost use Rattle.font_project.specs.Columns.{columns};
ghost use Rattle.font_project.specs.Deltas as rules;
ghost use Rattle.font_project.specs.Masters.{AreFitRows, AreReady, AreTuplesWithin, locations, regions};

use crate::columns::{Column, next_column, walks};
use crate::masters::Masters;
use basics::{Fault, Kind, Name, NoMemory, Seq, Spot};
use delta_solve::{DeltaStop, GlyphModel, solve_glyph};
use glif::Outline;
use source_files::ReadStop;
use std::alloc::Global;

/// The fault of a glyph's delta that doesn't fit 16 bits.
fn delta_range(
    alloc: Global,
    name: &Name,
    master: u32,
    point: u32,
    y: bool,
    value: i64,
) -> Result<Fault, NoMemory>
    ensures { IfOk result (λ fault. fault ≡ rules.delta_range name.now master point y value) }
{
    Ok(Fault {
        path: Name::from_str(alloc, "")?,
        spot: Spot {
            kind: Kind::DeltaRange,
            item: name.try_copy(alloc)?,
            at: u64::from(point),
            also: if y { 1 } else { 0 },
            first: i64::from(master),
            second: value,
        },
    })
}

/// The model of the glyph of this name, or its first delta that doesn't fit 16 bits.
fn model_of(
    alloc: Global,
    masters: &Masters,
    name: &Name,
    outlines: &Seq<Outline>,
) -> Result<GlyphModel, ReadStop>
    requires ready { AreReady masters.now }
    requires one_each { length outlines.now ≡ length masters.now.sorted }
    requires within { All IsWithinLimits outlines.now }
    requires alike { AreAlike outlines.now }
    ensures fits { Answers (λ (_ : GlyphModel). tt) result (rules.fits_or name.now (delta_fault (regions masters.now) (locations masters.now) outlines.now)) }
    ensures never { NeverFails result }
    ensures model { IfOk result (IsModelOf (regions masters.now) (locations masters.now) outlines.now) }
    ensures within { IfOk result (λ model. All IsTupleWithin model.tuples) }
{
    match solve_glyph(alloc, outlines, &masters.table) {
        Ok(model) => Ok(model),
        Err(
            DeltaStop::DeltaRange {
                master,
                point,
                y,
                value,
            },
        ) => Err(ReadStop::Refused(delta_range(alloc, name, master, point, y, value)?)),
        Err(DeltaStop::NoMemory) => Err(ReadStop::NoMemory),
    }
}

/// The model of each glyph of these names, off the rows of outlines, or the first delta that doesn't fit.
pub(crate) fn models_of(
    alloc: Global,
    masters: &Masters,
    names: &[Name],
    rows: Vec<Seq<Outline>>,
) -> Result<Seq<GlyphModel>, ReadStop>
    requires ready { AreReady masters.now }
    requires rows { AreFitRows (length masters.now.sorted) (length names.now) rows.items }
    ensures fits { Answers (λ (_ : List GlyphModel). tt) result (rules.all_fit (regions masters.now) (locations masters.now) rows.items names.now) }
    ensures never { NeverFails result }
    ensures models { IfOk result (AllZip (IsModelOf (regions masters.now) (locations masters.now)) (columns rows.items (length names.now))) }
    ensures within { IfOk result (All AreTuplesWithin) }
{
    let mut walks = walks(alloc, rows)?;
    let mut models = Seq::new(alloc);
    for name in names {
        let Column { outlines, rest } = next_column(alloc, walks)?;
        walks = rest;
        models.push(model_of(alloc, masters, name, &outlines)?)?;
    }
    Ok(models)
}
