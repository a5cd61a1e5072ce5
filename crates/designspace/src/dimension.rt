ghost use Rattle.std.specs.Prelude.{◌≡◌, ◌<◌, length, map, option_map, IfSome};
ghost use Rattle.basics.specs.Reading.{Gives, IsStop, spot_of, each};
ghost use Rattle.basics.specs.declared.kinds.Kind.TheVariants as kind;
ghost use Rattle.std.specs.Prelude.{pos};
ghost use Rattle.markup_rules.specs.Tree.{at_of};
ghost use Rattle.markup.specs.Plain.{plain};
ghost use Rattle.designspace.specs.Dimensions as rules;

use attributes::{attribute_fault, fault, needed, optional_decimal};
use basics::{Kind, Seq, Stop, stop_at};
use design_axes::{Axis, first_named, named};
use fixpoint::Fix;
use markup::Element;
use std::alloc::Global;

/// A value on an axis, as a document writes it.
#[derive(Clone, Copy)]
pub(crate) enum AxisValue {
    /// A design value, at which sources are drawn.
    Design(Fix<16>),
    /// A user value, as an application shows it.
    User(Fix<16>),
}

/// A value on one axis.
#[derive(Clone, Copy)]
pub(crate) struct Dimension {
    /// The number of the axis, from 0.
    pub(crate) axis: usize,
    /// The value.
    pub(crate) value: AxisValue,
}

/// The axis with a name, and its number.
pub(crate) fn axis_named<'a>(name: &str, axes: &'a [Axis]) -> Option<(usize, &'a Axis)>
    ensures value { option_map (λ found. (found.0, found.1.now)) result ≡ rules.axis_from 0 name.now axes.now }
    ensures within { IfSome result (λ found. found.0 < length axes.now) }
{
    for (number, axis) in axes.iter().enumerate() {
        if axis.name.as_str() == name {
            return Some((number, axis));
        }
    }
    None
}

/// The stop at an element that names an axis which isn't there.
pub(crate) fn unknown_axis(alloc: Global, name: &str, element: &Element) -> Stop
    ensures { IsStop result (spot_of kind.UnknownAxis name.now (at_of (plain element.now)) (pos 0)) }
{
    stop_at(alloc, Kind::UnknownAxis, name, element.offset(), 0)
}

/// Tests that a dimension has no value of its own for heights.
fn check_isotropic(alloc: Global, dimension: &Element, height: Option<&str>) -> Result<(), Stop>
    ensures { Gives (λ _. tt) result (rules.isotropic (plain dimension.now) (option_map (λ text. text.now) height.entry)) }
{
    match height {
        Some(_) => Err(fault(alloc, Kind::Anisotropic, dimension)),
        None => Ok(()),
    }
}

/// The user value of a dimension that has no design value.
#[tactic(auto, unfolding(crate::specs::Dimensions::user_value_in))]
fn read_user_value(alloc: Global, dimension: &Element) -> Result<AxisValue, Stop>
    ensures { Gives (λ value. value) result (rules.user_value_in (plain dimension.now)) }
{
    match optional_decimal(alloc, "uservalue", dimension)? {
        Some(value) => Ok(AxisValue::User(value)),
        None => Err(attribute_fault(alloc, Kind::MissingAttribute, "xvalue", dimension)),
    }
}

/// The value of a dimension. Beside a design value no user value is read.
#[tactic(auto, unfolding(crate::specs::Dimensions::value_of))]
fn read_value(alloc: Global, dimension: &Element) -> Result<AxisValue, Stop>
    ensures { Gives (λ value. value) result (rules.value_of (plain dimension.now)) }
{
    match optional_decimal(alloc, "xvalue", dimension)? {
        Some(value) => Ok(AxisValue::Design(value)),
        None => read_user_value(alloc, dimension),
    }
}

/// A dimension on the axis with this number.
#[tactic(auto, unfolding(crate::specs::Dimensions::dimension_on))]
fn read_dimension_on(alloc: Global, axis: usize, dimension: &Element) -> Result<Dimension, Stop>
    ensures { Gives (λ dimension. dimension) result (rules.dimension_on axis (plain dimension.now)) }
{
    check_isotropic(alloc, dimension, dimension.attribute("yvalue"))?;
    let value = read_value(alloc, dimension)?;
    Ok(Dimension { axis, value })
}

/// A dimension on the axis that it names.
#[tactic(auto, unfolding(crate::specs::Dimensions::dimension_of))]
fn read_dimension(alloc: Global, axes: &[Axis], dimension: &Element) -> Result<Dimension, Stop>
    ensures { Gives (λ dimension. dimension) result (rules.dimension_of axes.now (plain dimension.now)) }
{
    let name = needed(alloc, "name", dimension)?;
    match axis_named(name, axes) {
        Some((number, _)) => read_dimension_on(alloc, number, dimension),
        None => Err(unknown_axis(alloc, name, dimension)),
    }
}

/// The dimensions of these elements.
fn read_each(alloc: Global, axes: &[Axis], elements: &[&Element]) -> Result<Seq<Dimension>, Stop>
    ensures { Gives (λ dimensions. dimensions) result (each (rules.dimension_of axes.now) (map (λ element. plain element.now) elements.now)) }
{
    let mut dimensions = Seq::new(alloc);
    for element in elements {
        dimensions.push(read_dimension(alloc, axes, element)?)?;
    }
    Ok(dimensions)
}

/// The dimensions of the first `location` of a source or an instance; none where it is absent.
#[tactic(auto, unfolding(crate::specs::Dimensions::dimensions_of))]
pub(crate) fn read_dimensions(
    alloc: Global,
    axes: &[Axis],
    element: &Element,
) -> Result<Seq<Dimension>, Stop>
    ensures { Gives (λ dimensions. dimensions) result (rules.dimensions_of axes.now (plain element.now)) }
{
    match first_named("location", element) {
        Some(location) => {
            let elements = named(alloc, "dimension", location)?;
            read_each(alloc, axes, elements.as_slice())
        }
        None => Ok(Seq::new(alloc)),
    }
}
