ghost use Rattle.std.specs.Prelude.{◌≡◌, ◌+◌, map, All, IfOk};
ghost use Rattle.basics.specs.Reading.{GivesBy};
ghost use Rattle.region_support.specs.MasterOrder.{axes_of};
ghost use Rattle.region_support.specs.Coordinates.{coordinates_of, regions_in};
ghost use Rattle.delta_solve.specs.GlyphModels.{IsModelOf, IsTupleWithin};
ghost use Rattle.delta_solve.specs.declared.model.GlyphModel.{GlyphModel};
ghost use Rattle.glyph_variations.specs.Conditions.{AreGlyphTuples, point_count};
ghost use Rattle.vfb.specs.Glyph.{regions};
ghost use Rattle.commands.specs.Proper.{AreLocated};
ghost use Rattle.vfb.specs.Making.{MakesData, shown};
ghost use Rattle.vfb.specs.Masters.{AreGathered, fitting, masters_of};
ghost use Rattle.source_files.specs.Stops.{NeverFails, Reads, StopsBy};
ghost use Rattle.vfb.specs.Stops.{StopsAt};
ghost use Rattle.commands.specs.Words.{asked_tuples, seen};

use crate::drawings::read_drawings;
use crate::faults::range_fault;
use crate::masters::{Masters, gather};
use basics::Seq;
use commands::Tuples;
use delta_solve::{DeltaStop, GlyphModel, solve_glyph, table};
use glyph_variations::variations;
use gvar_table::glyph_data;
use outside::Sources;
use region_support::{Support, boxes};
use source_files::ReadStop;
use std::alloc::Global;

/// The phantom points that a glyph has after its outline's (OpenType, "glyf").
const PHANTOM_POINTS: u16 = 4;

/// The variation data of a glyph, and what they hold.
#[derive(Drop)]
pub(crate) struct GlyphData {
    /// The data, empty where nothing moves.
    pub(crate) bytes: Vec<u8>,
    /// The number of tuples.
    pub(crate) tuples: u64,
    /// The number of outline points that the tuples name.
    pub(crate) explicit: u64,
    /// The number of outline points that there are, added up over the tuples.
    pub(crate) points: u64,
}

/// How many axes the masters' locations have.
fn axis_count(masters: &Masters) -> u32
    ensures { result ≡ axes_of (coordinates_of masters.now.locations) }
{
    match masters.locations.as_slice() {
        [at, ..] => at.len() as u32,
        [] => 0,
    }
}

/// How many points the glyph has, its four phantom points among them.
fn all_count(model: &GlyphModel) -> u16
    requires { AreGlyphTuples model.now.tuples }
    ensures { result ≡ point_count model.now.tuples + 4 }
{
    match model.tuples.as_slice() {
        [default, ..] => default.deltas.len() as u16 + PHANTOM_POINTS,
        [] => PHANTOM_POINTS,
    }
}

/// The model of masters with these regions, or the first delta that doesn't fit 16 bits.
fn model_of(
    alloc: Global,
    masters: &Masters,
    supports: &Seq<Support>,
) -> Result<GlyphModel, ReadStop>
    requires gathered { AreGathered (shown masters.now) }
    requires regions { regions_in supports.now ≡ regions (shown masters.now) }
    ensures fits { GivesBy StopsBy (λ (_ : GlyphModel). shown masters.now) result (fitting (shown masters.now)) }
    ensures never { NeverFails result }
    ensures model { IfOk result (IsModelOf (regions (shown masters.now)) (coordinates_of masters.now.locations) masters.now.outlines) }
    ensures within { IfOk result (λ model. All IsTupleWithin model.tuples) }
{
    let table = table(alloc, supports, &masters.locations)?;
    match solve_glyph(alloc, &masters.outlines, &table) {
        Ok(model) => Ok(model),
        Err(
            DeltaStop::DeltaRange {
                master,
                point,
                y,
                value,
            },
        ) => Err(ReadStop::Refused(range_fault(alloc, &masters.name, master, point, y, value)?)),
        Err(DeltaStop::NoMemory) => Err(ReadStop::NoMemory),
    }
}

/// The variation data of the masters.
fn data_of(alloc: Global, masters: &Masters) -> Result<GlyphData, ReadStop>
    requires { AreGathered (shown masters.now) }
    ensures makes { MakesData (fitting (shown masters.now)) result }
    ensures never { NeverFails result }
{
    let supports = boxes(alloc, &masters.locations)?;
    let model = model_of(alloc, masters, &supports)?;
    let found = variations(alloc, &model, &supports)?;
    let bytes = glyph_data(alloc, axis_count(masters), all_count(&model), &found.tuples)?;
    Ok(GlyphData {
        bytes,
        tuples: found.tuples.len() as u64,
        explicit: found.explicit,
        points: found.points,
    })
}

/// Reads the drawings of a command, and makes the variation data of the glyph whose masters they are.
pub(crate) fn make_data<S: Sources>(
    alloc: Global,
    command: &Tuples<'_>,
    sources: &mut S,
) -> Result<GlyphData, ReadStop>
    requires { AreLocated (map seen command.now.drawings.items) }
    ensures { Reads (S.state sources.old) (S.state sources.new) (StopsAt (S.state sources.old).tells (S.state sources.old).files (map seen command.now.drawings.items)) (MakesData (masters_of (S.state sources.old).files (asked_tuples command.now)) result) result }
{
    let located = command.drawings.as_slice();
    let drawings = read_drawings(alloc, located, sources)?;
    let masters = gather(alloc, located, drawings)?;
    data_of(alloc, &masters)
}
