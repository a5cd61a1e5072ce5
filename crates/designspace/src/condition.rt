ghost use Rattle.std.specs.Prelude.{◌≡◌, ◌≤◌, length, map, All, IfOk};
ghost use Rattle.basics.specs.Reading.{Gives, each};
ghost use Rattle.markup.specs.Plain.{plain};
ghost use Rattle.norm_loc.specs.Spans.{limits};
ghost use Rattle.designspace.specs.Conditions as rules;
ghost use Rattle.designspace.specs.Limits.{IsConditionOn};

use crate::dimension::{axis_named, unknown_axis};
use attributes::{needed, optional_decimal};
use basics::{Seq, Stop};
use design_axes::{Axis, named};
use fixpoint::Fix;
use markup::Element;
use norm_loc::{Span, normalise};
use rule_boxes::Condition;
use std::alloc::Global;

/// The bounds of a condition, design values, each of which may be missing.
#[derive(Clone, Copy)]
pub(crate) struct Bounds {
    /// The least value.
    pub(crate) minimum: Option<Fix<16>>,
    /// The greatest value.
    pub(crate) maximum: Option<Fix<16>>,
}

/// The least normalised coordinate, and the greatest, as raw numbers.
const LOWEST: i32 = -16_384;

const HIGHEST: i32 = 16_384;

/// Whether a least value, where there is one, exceeds a value.
fn exceeds(minimum: Option<Fix<16>>, value: Fix<16>) -> bool
    ensures { result ≡ rules.exceeds minimum value }
{
    match minimum {
        Some(minimum) => value < minimum,
        None => false,
    }
}

/// Whether a greatest value, where there is one, lies below a value.
fn lies_below(maximum: Option<Fix<16>>, value: Fix<16>) -> bool
    ensures { result ≡ rules.lies_below maximum value }
{
    match maximum {
        Some(maximum) => maximum < value,
        None => false,
    }
}

/// Whether a least value exceeds the greatest one, where there are both.
fn are_crossed(minimum: Option<Fix<16>>, maximum: Option<Fix<16>>) -> bool
    ensures { result ≡ rules.are_crossed minimum maximum }
{
    match minimum {
        Some(minimum) => lies_below(maximum, minimum),
        None => false,
    }
}

/// Whether no design value of the axis is between the bounds.
#[tactic(auto, unfolding(crate::specs::Conditions::is_empty))]
fn is_empty(design: &Span, bounds: &Bounds) -> bool
    ensures { result ≡ rules.is_empty (limits design.now) bounds.now }
{
    exceeds(bounds.minimum, design.max)
        || lies_below(bounds.maximum, design.min)
        || are_crossed(bounds.minimum, bounds.maximum)
}

/// The normalised bound, or the end of the axis where it is missing.
fn bound_or(design: &Span, end: Fix<14>, bound: Option<Fix<16>>) -> Fix<14>
    ensures { result ≡ rules.bound_or (limits design.now) end bound }
{
    match bound {
        Some(value) => normalise(design, value),
        None => end,
    }
}

/// The condition of these bounds. That it never holds is decided before they are normalised, since that brings them
/// into the span.
#[tactic(auto, unfolding(crate::specs::Conditions::condition_on))]
fn condition_on(axis: u32, design: &Span, bounds: &Bounds) -> Condition
    ensures value { result ≡ rules.condition_on axis (limits design.now) bounds.now }
    ensures axis { result.axis ≡ axis }
{
    if is_empty(design, bounds) {
        return Condition {
            axis,
            low: Fix::from_raw(HIGHEST),
            high: Fix::from_raw(LOWEST),
        };
    }
    Condition {
        axis,
        low: bound_or(design, Fix::from_raw(LOWEST), bounds.minimum),
        high: bound_or(design, Fix::from_raw(HIGHEST), bounds.maximum),
    }
}

/// The bounds of a condition.
#[tactic(auto, unfolding(crate::specs::Conditions::bounds_of))]
fn read_bounds(alloc: Global, condition: &Element) -> Result<Bounds, Stop>
    ensures { Gives (λ bounds. bounds) result (rules.bounds_of (plain condition.now)) }
{
    let minimum = optional_decimal(alloc, "minimum", condition)?;
    let maximum = optional_decimal(alloc, "maximum", condition)?;
    Ok(Bounds { minimum, maximum })
}

/// A condition.
#[tactic(auto, unfolding(crate::specs::Conditions::condition_of))]
pub(crate) fn read_condition(
    alloc: Global,
    axes: &[Axis],
    condition: &Element,
) -> Result<Condition, Stop>
    requires { length axes.now ≤ 8 }
    ensures exact { Gives (λ condition. condition) result (rules.condition_of axes.now (plain condition.now)) }
    ensures within { IfOk result (IsConditionOn (length axes.now)) }
{
    let name = needed(alloc, "name", condition)?;
    match axis_named(name, axes) {
        Some((number, axis)) => {
            let bounds = read_bounds(alloc, condition)?;
            Ok(condition_on(number as u32, &axis.map.design(), &bounds))
        }
        None => Err(unknown_axis(alloc, name, condition)),
    }
}

/// The conditions of these elements.
fn read_each(alloc: Global, axes: &[Axis], elements: &[&Element]) -> Result<Seq<Condition>, Stop>
    requires { length axes.now ≤ 8 }
    ensures within { IfOk result (All (IsConditionOn (length axes.now))) }
    ensures exact { Gives (λ set. set) result (each (rules.condition_of axes.now) (map (λ element. plain element.now) elements.now)) }
{
    let mut set = Seq::new(alloc);
    for element in elements {
        set.push(read_condition(alloc, axes, element)?)?;
    }
    Ok(set)
}

/// The conditions of a set.
#[tactic(auto, unfolding(crate::specs::Conditions::set_of))]
pub(crate) fn read_set(alloc: Global, axes: &[Axis], set: &Element) -> Result<Seq<Condition>, Stop>
    requires { length axes.now ≤ 8 }
    ensures exact { Gives (λ set. set) result (rules.set_of axes.now (plain set.now)) }
    ensures within { IfOk result (All (IsConditionOn (length axes.now))) }
{
    let elements = named(alloc, "condition", set)?;
    read_each(alloc, axes, elements.as_slice())
}
