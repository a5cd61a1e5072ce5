ghost use Rattle.std.specs.Prelude.{◌≡◌, [], map, All, AllPairs, IfOk, find, option_map};
ghost use Rattle.basics.specs.Reading.{Gives, in_turn};
ghost use Rattle.markup.specs.Plain.{plain};
ghost use Rattle.markup_rules.specs.Tree.{children_of};
ghost use Rattle.design_axes.specs.Axes.{AreApart, AreFew, IsShort, and_axis, axes_in, axes_of, counted, is_cross_map, none_or_cross_map};

use crate::axis::{Axis, read_axis};
use crate::elements::{first_named, named};
use attributes::fault;
use basics::{Kind, Seq, Stop, stop_at};
use markup::Element;
use std::alloc::Global;

/// How many axes a document may have.
const AXES: usize = 8;

/// Tests that there are one to eight axes.
#[tactic(auto, unfolding(crate::specs::Axes::counted))]
fn check_count(alloc: Global, axes: &[&Element]) -> Result<(), Stop>
    ensures { Gives (λ _. tt) result (counted (map (λ axis. plain axis.now) axes.now)) }
{
    let count = axes.len();
    if count == 0 {
        Err(stop_at(alloc, Kind::NoAxes, "", 0, 0))
    } else if count <= AXES {
        Ok(())
    } else {
        Err(stop_at(alloc, Kind::TooManyAxes, "", 0, count as i64))
    }
}

/// The axes of these elements, in their order.
fn read_each(alloc: Global, elements: &[&Element]) -> Result<Seq<Axis>, Stop>
    ensures { Gives (λ axes. axes) result (in_turn and_axis [] (map (λ axis. plain axis.now) elements.now)) }
{
    let mut axes = Seq::new(alloc);
    for element in elements {
        let axis = read_axis(alloc, axes.as_slice(), element)?;
        axes.push(axis)?;
    }
    Ok(axes)
}

/// Whether the element is a map that takes several axes together.
fn is_cross_map(element: &Element) -> bool
    ensures { result ≡ is_cross_map (plain element.now) }
{
    element.is_named("mappings") && !element.children().is_empty()
}

/// The first map that takes several axes together.
fn cross_map(axes: &Element) -> Option<&Element>
    ensures { option_map (λ map. plain map.now) result ≡ find is_cross_map (children_of (plain axes.now)) }
{
    for child in axes.children() {
        if is_cross_map(child) {
            return Some(child);
        }
    }
    None
}

/// Tests that no map takes several axes together.
fn check_maps(alloc: Global, axes: &Element) -> Result<(), Stop>
    ensures { Gives (λ _. tt) result (none_or_cross_map (find is_cross_map (children_of (plain axes.now)))) }
{
    match cross_map(axes) {
        Some(map) => Err(fault(alloc, Kind::CrossAxisMap, map)),
        None => Ok(()),
    }
}

/// The axes of an element `axes`.
#[tactic(auto, unfolding(crate::specs::Axes::axes_in))]
fn read_element(alloc: Global, element: &Element) -> Result<Seq<Axis>, Stop>
    ensures { Gives (λ axes. axes) result (axes_in (plain element.now)) }
{
    let elements = named(alloc, "axis", element)?;
    check_count(alloc, elements.as_slice())?;
    let axes = read_each(alloc, elements.as_slice())?;
    check_maps(alloc, element)?;
    Ok(axes)
}

/// Reads the axes of a designspace document off its root element (Designspace, "axes").
///
/// Of the first `axes` each `axis` is read, in the document's order. Its `tag` is one to four bytes of ASCII 32 to
/// 126, filled with spaces; its `name` has at most 100 units of UTF-16; `minimum`, `default` and `maximum` are user
/// values, decimal texts that are rounded to 16 binary places, and rise weakly. The label is the text of the first
/// `labelname` whose `xml:lang` is `en`, at most 100 units as well, or the name where there is none. The axis is
/// hidden where `hidden` is `1` or `true`. Each `map` is a node from its `input`, a user value, to its `output`, a
/// design value. No two axes have one tag or one name. Other elements and attributes are passed over.
///
/// # Errors
///
/// `Stop::NoMemory` where memory ran out, or else `Stop::At` with the first fault. A number that is faulty is
/// MissingAttribute, NotNumber or NumberRange; its item is the attribute, its `at` the offset in bytes of the
/// element. Axes and nodes are numbered from 0 in the document's order, each axis by its `at` but where an offset is
/// named here. Tested are, in this order:
///
/// 1. NoAxes where there is no axis; TooManyAxes where there are more than eight, with their number as `first`;
/// 2. the axes in their order, each with all that follows: DiscreteAxis where it has `values`; MissingAttribute of the
///    item `tag`, BadTag with the text as item, both at the axis's offset; MissingAttribute of the item `name`, and
///    NameLength of it with the number of units as `first`, at that offset too; the numbers `minimum`, `default` and
///    `maximum`; AxisOrder where they don't rise;
/// 3. DuplicateAxis where an earlier axis has its tag or its name, with the first such axis as `at` and this one as
///    `also`; NameLength of the item `labelname`, at the offset of that element;
/// 4. the numbers `input` and `output` of each node; MapOrder where the inputs and outputs of the nodes don't rise,
///    with the first such node as `also`; MapRange where the least or the greatest user value becomes a design value
///    that 16 binary places don't hold; MapCollapse where the pair of a node stands against an earlier one's or
///    against one that every axis has, with the node as `also`, or where one side of the axis has user values and no
///    design values, with the number of nodes as `also`;
/// 5. after all axes CrossAxisMap at the offset of the first `mappings` with an element in it, a map that takes several
///    axes together.
#[tactic(auto, unfolding(crate::specs::Axes::axes_of))]
pub fn read_axes(alloc: Global, designspace: &Element) -> Result<Seq<Axis>, Stop>
    // Which axes they are, and which fault.
    ensures exact { Gives (λ axes. axes) result (axes_of (plain designspace.now)) }
    // There are one to eight.
    ensures few { IfOk result AreFew }
    // No two have one tag or one name.
    ensures apart { IfOk result (AllPairs AreApart) }
    // Names and labels are short.
    ensures short { IfOk result (All IsShort) }
{
    match first_named("axes", designspace) {
        Some(element) => read_element(alloc, element),
        None => Err(stop_at(alloc, Kind::NoAxes, "", 0, 0)),
    }
}
