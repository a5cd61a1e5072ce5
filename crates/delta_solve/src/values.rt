ghost use Rattle.std.specs.Prelude.{◌≡◌, ◌≤◌, All, length, map};
ghost use Rattle.region_support.specs.Coordinates.{regions_in};
ghost use Rattle.delta_solve.specs.Deltas.{model_value};
ghost use Rattle.delta_solve.specs.GlyphModels.{IsTupleWithin, delta_advance, delta_x, delta_y};

use crate::model::GlyphModel;
use crate::scalars::scalars_at;
use crate::sums::{advance_dot, point_dot};
use basics::Seq;
use region_support::{Location, Support};

/// Where the model has a point at a location, x and y, in 65536ths of a font unit: the sum over the masters of the
/// scalar of the region times the delta. The regions are those of the masters, one a tuple and at most 128, and all
/// deltas fit 16 bits. A point past the last stands at 0.
pub fn model_at(
    model: &GlyphModel,
    point: u32,
    supports: &Seq<Support>,
    at: &Location,
) -> (i64, i64)
    requires few { length supports.now ≤ 128 }
    requires one_each { length supports.now ≡ length model.now.tuples }
    requires within { All IsTupleWithin model.now.tuples }
    ensures x { result.0 ≡ model_value (regions_in supports.now) (map (delta_x point) model.now.tuples) at.now.items }
    ensures y { result.1 ≡ model_value (regions_in supports.now) (map (delta_y point) model.now.tuples) at.now.items }
{
    let scalars = scalars_at(supports.as_slice(), at);
    let value = point_dot(scalars.as_slice(), model.tuples.as_slice(), point as usize);
    (value.x, value.y)
}

/// The advance of the model at a location, in 65536ths of a font unit, as [`model_at`] has it for a point.
pub fn advance_at(model: &GlyphModel, supports: &Seq<Support>, at: &Location) -> i64
    requires few { length supports.now ≤ 128 }
    requires one_each { length supports.now ≡ length model.now.tuples }
    requires within { All IsTupleWithin model.now.tuples }
    ensures { result ≡ model_value (regions_in supports.now) (map delta_advance model.now.tuples) at.now.items }
{
    let scalars = scalars_at(supports.as_slice(), at);
    advance_dot(scalars.as_slice(), model.tuples.as_slice())
}
