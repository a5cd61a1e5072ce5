ghost use Rattle.std.specs.Prelude.{◌≡◌};
ghost use Rattle.basics.specs.Reading.{Gives};
ghost use Rattle.markup.specs.Plain.{plain};
ghost use Rattle.norm_loc.specs.Normalising.{Limits};
ghost use Rattle.norm_loc.specs.Spans.{limits};
ghost use Rattle.design_axes.specs.Values.{faultless, mapping_of, node_of, nodes_of, rising, user_limits};

use crate::elements::named;
use crate::spots::axis_fault;
use attributes::decimal;
use basics::{Kind, Seq, Stop};
use fixpoint::Fix;
use markup::Element;
use norm_loc::{AxisMap, MapStop, Span};
use std::alloc::Global;

/// The span of these three values, where they rise weakly.
fn rising(
    alloc: Global,
    number: u64,
    min: Fix<16>,
    default: Fix<16>,
    max: Fix<16>,
) -> Result<Span, Stop>
    ensures { let three : Limits = record { min = min; default = default; max = max } in
        Gives limits result (rising number three) }
{
    match Span::new(min, default, max) {
        Some(span) => Ok(span),
        None => Err(axis_fault(alloc, Kind::AxisOrder, number, 0)),
    }
}

/// The least value, the default and the greatest of the axis with this number.
#[tactic(auto, unfolding(crate::specs::Values::user_limits))]
pub(crate) fn read_span(alloc: Global, number: u64, axis: &Element) -> Result<Span, Stop>
    ensures { Gives limits result (user_limits number (plain axis.now)) }
{
    let min = decimal(alloc, "minimum", axis)?;
    let default = decimal(alloc, "default", axis)?;
    let max = decimal(alloc, "maximum", axis)?;
    rising(alloc, number, min, default, max)
}

/// A node of the map of an axis.
#[tactic(auto, unfolding(crate::specs::Values::node_of))]
fn read_node(alloc: Global, node: &Element) -> Result<(Fix<16>, Fix<16>), Stop>
    ensures { Gives (λ node. node) result (node_of (plain node.now)) }
{
    let input = decimal(alloc, "input", node)?;
    let output = decimal(alloc, "output", node)?;
    Ok((input, output))
}

/// The nodes of the map of an axis.
#[tactic(auto, unfolding(crate::specs::Values::nodes_of))]
fn read_nodes(alloc: Global, axis: &Element) -> Result<Seq<(Fix<16>, Fix<16>)>, Stop>
    ensures { Gives (λ nodes. nodes) result (nodes_of (plain axis.now)) }
{
    let elements = named(alloc, "map", axis)?;
    let mut nodes = Seq::new(alloc);
    for element in &elements {
        nodes.push(read_node(alloc, element)?)?;
    }
    Ok(nodes)
}

/// The map with this span and these nodes of the axis with this number.
#[tactic(auto, unfolding(crate::specs::Values::faultless))]
fn faultless(
    alloc: Global,
    number: u64,
    user: Span,
    nodes: Seq<(Fix<16>, Fix<16>)>,
) -> Result<AxisMap, Stop>
    ensures { Gives (λ map. map) result (faultless number (record { user = limits user; nodes = nodes })) }
{
    match AxisMap::new(alloc, user, nodes) {
        Ok(map) => Ok(map),
        Err(MapStop::MapOrder(node)) => Err(axis_fault(alloc, Kind::MapOrder, number, node)),
        Err(MapStop::MapRange) => Err(axis_fault(alloc, Kind::MapRange, number, 0)),
        Err(MapStop::MapCollapse(node)) => Err(axis_fault(alloc, Kind::MapCollapse, number, node)),
        Err(MapStop::NoMemory) => Err(Stop::NoMemory),
    }
}

/// The map of the axis with this number, whose user values lie in this span.
#[tactic(auto, unfolding(crate::specs::Values::mapping_of))]
pub(crate) fn read_map(
    alloc: Global,
    number: u64,
    user: Span,
    axis: &Element,
) -> Result<AxisMap, Stop>
    ensures { Gives (λ map. map) result (mapping_of number (limits user) (plain axis.now)) }
{
    let nodes = read_nodes(alloc, axis)?;
    faultless(alloc, number, user, nodes)
}
