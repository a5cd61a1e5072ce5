ghost use Rattle.std.specs.Prelude.{◌≡◌, ℕ, length, position, option_map};
ghost use Rattle.basics.specs.Reading.{Gives};
ghost use Rattle.markup.specs.Plain.{plain};
ghost use Rattle.design_axes.specs.Axes.{axis_of, distinct, has_either, none_or_duplicate};

use crate::identity::{Identity, read_identity};
use crate::label::{is_hidden, read_label};
use crate::mapping::{read_map, read_span};
use crate::spots::axis_fault;
use basics::{Kind, Name, Stop};
use markup::Element;
use norm_loc::AxisMap;
use std::alloc::Global;

/// An axis of a design space (Designspace, "axis").
#[derive(Drop)]
pub struct Axis {
    /// Its tag, as `wght`.
    pub tag: [u8; 4],
    /// Its name, by which the rest of the document speaks of it.
    pub name: Name,
    /// What applications show: its first label in English, or its name where it has none.
    pub label: Name,
    /// Whether applications aren't to show it.
    pub hidden: bool,
    /// Its values and its map.
    pub map: AxisMap,
}

/// Whether the axis has this tag or this name.
fn has_either(identity: &Identity, axis: &Axis) -> bool
    ensures { result ≡ has_either identity.now axis.now }
{
    axis.tag == identity.tag || axis.name.as_str() == identity.name.as_str()
}

/// The first axis with this tag or this name.
fn first_alike(earlier: &[Axis], identity: &Identity) -> Option<usize>
    ensures { result ≡ position (has_either identity.now) earlier.now }
{
    earlier.iter().position(|axis| has_either(identity, axis))
}

/// Tests that no earlier axis has this tag or this name.
#[tactic(auto, unfolding(crate::specs::Axes::distinct))]
fn check_distinct(alloc: Global, earlier: &[Axis], identity: &Identity) -> Result<(), Stop>
    ensures { Gives (λ _. tt) result (distinct earlier.now identity.now) }
{
    match first_alike(earlier, identity) {
        Some(number) => Err(axis_fault(
            alloc,
            Kind::DuplicateAxis,
            number as u64,
            earlier.len() as u64,
        )),
        None => Ok(()),
    }
}

/// The axis of an element, after these earlier ones.
#[tactic(auto, unfolding(crate::specs::Axes::axis_of))]
pub(crate) fn read_axis(alloc: Global, earlier: &[Axis], element: &Element) -> Result<Axis, Stop>
    ensures { Gives (λ axis. axis) result (axis_of earlier.now (plain element.now)) }
{
    let number = earlier.len() as u64;
    let identity = read_identity(alloc, number, element)?;
    let user = read_span(alloc, number, element)?;
    check_distinct(alloc, earlier, &identity)?;
    let label = read_label(alloc, &identity.name, element)?;
    let map = read_map(alloc, number, user, element)?;
    let Identity { tag, name } = identity;
    Ok(Axis {
        tag,
        name,
        label,
        hidden: is_hidden(element),
        map,
    })
}
