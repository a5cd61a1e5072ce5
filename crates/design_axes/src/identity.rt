ghost use Rattle.std.specs.Prelude.{option_map};
ghost use Rattle.basics.specs.Reading.{Gives};
ghost use Rattle.markup.specs.Plain.{plain};
ghost use Rattle.design_axes.specs.Names as rules;

use crate::spots::axis_fault;
use crate::texts::short_name;
use attributes::needed;
use basics::{Kind, Name, Stop, stop_at};
use font_text::tag_of;
use markup::Element;
use std::alloc::Global;

/// What tells an axis from others.
#[derive(Drop)]
pub(crate) struct Identity {
    /// Its tag.
    pub(crate) tag: [u8; 4],
    /// Its name.
    pub(crate) name: Name,
}

/// The tag that was found in a text of the axis, or its fault.
fn tag_or_fault(
    alloc: Global,
    axis: &Element,
    text: &str,
    found: Option<[u8; 4]>,
) -> Result<[u8; 4], Stop>
    ensures { Gives (λ tag. tag) result (rules.tag_or_fault (plain axis.now) text.now found) }
{
    match found {
        Some(tag) => Ok(tag),
        None => Err(stop_at(alloc, Kind::BadTag, text, axis.offset(), 0)),
    }
}

/// The tag of an axis.
#[tactic(auto, unfolding(crate::specs::Names::tag_in))]
fn read_tag(alloc: Global, axis: &Element) -> Result<[u8; 4], Stop>
    ensures { Gives (λ tag. tag) result (rules.tag_in (plain axis.now)) }
{
    let text = needed(alloc, "tag", axis)?;
    tag_or_fault(alloc, axis, text, tag_of(text))
}

/// The name of an axis.
#[tactic(auto, unfolding(crate::specs::Names::name_in))]
fn read_name(alloc: Global, axis: &Element) -> Result<Name, Stop>
    ensures { Gives (λ name. name) result (rules.name_in (plain axis.now)) }
{
    let text = needed(alloc, "name", axis)?;
    short_name(alloc, "name", axis, text)
}

/// Tests that the axis has a range of values, and no single ones.
fn check_range(alloc: Global, number: u64, values: Option<&str>) -> Result<(), Stop>
    ensures { Gives (λ _. tt) result (rules.ranging number (option_map (λ text. text.now) values.entry)) }
{
    match values {
        Some(_) => Err(axis_fault(alloc, Kind::DiscreteAxis, number, 0)),
        None => Ok(()),
    }
}

/// What tells the axis with this number from others.
#[tactic(auto, unfolding(crate::specs::Names::identity_of))]
pub(crate) fn read_identity(alloc: Global, number: u64, axis: &Element) -> Result<Identity, Stop>
    ensures { Gives (λ identity. identity) result (rules.identity_of number (plain axis.now)) }
{
    check_range(alloc, number, axis.attribute("values"))?;
    let tag = read_tag(alloc, axis)?;
    let name = read_name(alloc, axis)?;
    Ok(Identity { tag, name })
}
