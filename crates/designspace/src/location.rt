ghost use Rattle.std.specs.Prelude.{◌≡◌, ◌≤◌, length, All, IfOk};
ghost use Rattle.arrayvec.specs.ArrayVec.{array_vec_len};
ghost use Rattle.region_support.specs.Regions.{IsNormalised};
ghost use Rattle.norm_loc.specs.Normalising.{brought};
ghost use Rattle.norm_loc.specs.Spans.{limits};
ghost use Rattle.designspace.specs.Locations as rules;

use crate::dimension::{AxisValue, Dimension};
use arrayvec::ArrayVec;
use basics::{NoMemory, Seq};
use design_axes::Axis;
use fixpoint::Fix;
use norm_loc::{AxisMap, Span, backward, forward, normalise};
use region_support::Location;
use std::alloc::Global;

/// The value on the axis with this number; of several dimensions for it the last counts.
fn last_on(axis: usize, dimensions: &[Dimension]) -> Option<AxisValue>
    ensures { result ≡ rules.last_on axis dimensions.now }
{
    let last = dimensions
        .iter()
        .rev()
        .find(|dimension| dimension.axis == axis)?;
    Some(last.value)
}

/// A user value brought between the least and the greatest one of the axis.
#[tactic(auto, unfolding(norm_loc::specs::Normalising::brought))]
fn brought(user: &Span, value: Fix<16>) -> Fix<16>
    ensures { result ≡ brought (limits user.now).min (limits user.now).max value }
{
    if value < user.min {
        user.min
    } else if user.max < value {
        user.max
    } else {
        value
    }
}

/// A value as a design value.
fn to_design(map: &AxisMap, value: AxisValue) -> Fix<16>
    ensures { result ≡ rules.to_design map.now value }
{
    match value {
        AxisValue::Design(value) => value,
        AxisValue::User(value) => forward(map, value),
    }
}

/// A value as a user value between the least and the greatest one.
fn to_user(map: &AxisMap, value: AxisValue) -> Fix<16>
    ensures { result ≡ rules.to_user map.now value }
{
    match value {
        AxisValue::Design(value) => backward(map, value),
        AxisValue::User(value) => brought(&map.user(), value),
    }
}

/// The design value, which is the default where there is no value.
#[tactic(auto, unfolding(crate::specs::Locations::design_value))]
fn design_value(map: &AxisMap, value: Option<AxisValue>) -> Fix<16>
    ensures { result ≡ rules.design_value map.now value }
{
    match value {
        Some(value) => to_design(map, value),
        None => map.design().default,
    }
}

/// The user value, which is the default where there is no value.
#[tactic(auto, unfolding(crate::specs::Locations::user_value))]
fn user_value(map: &AxisMap, value: Option<AxisValue>) -> Fix<16>
    ensures { result ≡ rules.user_value map.now value }
{
    match value {
        Some(value) => to_user(map, value),
        None => map.user().default,
    }
}

/// The normalised coordinate on the axis with this number.
#[tactic(auto, unfolding(crate::specs::Locations::coordinate_on))]
fn coordinate_on(dimensions: &[Dimension], number: usize, axis: &Axis) -> Fix<14>
    ensures value { result ≡ rules.coordinate_on dimensions.now number axis.now }
    ensures within { IsNormalised result }
{
    let value = design_value(&axis.map, last_on(number, dimensions));
    normalise(&axis.map.design(), value)
}

/// The normalised location to which dimensions lead.
#[tactic(auto, unfolding(crate::specs::Locations::location_of))]
pub(crate) fn location_of(dimensions: &[Dimension], axes: &[Axis]) -> Location
    requires { length axes.now ≤ 8 }
    ensures value { result ≡ rules.location_of dimensions.now axes.now }
    ensures count { array_vec_len result ≡ length axes.now }
    ensures within { All IsNormalised result.items }
{
    let mut at = ArrayVec::new();
    for (number, axis) in axes.iter().enumerate() {
        at.push(coordinate_on(dimensions, number, axis));
    }
    at
}

/// The user values to which dimensions lead.
pub(crate) fn user_values_of(
    alloc: Global,
    dimensions: &[Dimension],
    axes: &[Axis],
) -> Result<Seq<Fix<16>>, NoMemory>
    ensures value { IfOk result (λ values. values ≡ rules.user_values_from dimensions.now 0 axes.now) }
    ensures count { IfOk result (λ values. length values ≡ length axes.now) }
{
    let mut values = Seq::new(alloc);
    for (number, axis) in axes.iter().enumerate() {
        values.push(user_value(&axis.map, last_on(number, dimensions)))?;
    }
    Ok(values)
}
