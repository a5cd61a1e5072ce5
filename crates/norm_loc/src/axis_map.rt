ghost use Rattle.std.specs.Prelude.{◌≡◌, ℤ, pos, neg_ℤ, ◌≤ℤ◌, List, None, true, false, IfOk, MatchOption, option_map};
ghost use Rattle.norm_loc.specs.AvarPairs.{avar_at, avar_pairs};
ghost use Rattle.norm_loc.specs.AxisMaps.{Mapping, backward, design_of, forward};
ghost use Rattle.norm_loc.specs.MapFaults.{is_in_range, side_vanishes, unordered};
ghost use Rattle.norm_loc.specs.PairBounds.{AreSegments};
ghost use Rattle.norm_loc.specs.Spans.{limits};

use crate::coordinate::brought;
use crate::follow::{Direction, followed};
use crate::pairs::pairs_of;
use crate::span::Span;
use crate::stop::MapStop;
use basics::{NoMemory, Seq};
use fixpoint::Fix;
use std::alloc::Global;
use std::marker::Model;

/// The map of an axis (Designspace, "axis" and "map"): its user span, and nodes from user values, as an
/// application shows them, to design values, at which sources are drawn. Contracts see these two.
#[derive(Drop)]
pub struct AxisMap {
    user: Span,
    design: Span,
    nodes: Seq<(Fix<16>, Fix<16>)>,
    pairs: Seq<(Fix<14>, Fix<14>)>,
}

impl Model for AxisMap {
    ghost use Rattle.norm_loc.specs.AxisMaps.{Mapping};
    ghost use Rattle.norm_loc.specs.Maps.{IsMade};
    ghost use Rattle.norm_loc.specs.Spans.{limits};

    ghost Value = { Mapping };

    ghost view = { λ m. record { user = limits m.user; nodes = m.nodes } };

    ghost invariant = { λ m. IsMade m.user m.design m.nodes m.pairs };
}

impl AxisMap {
    ghost use Rattle.norm_loc.specs.MapFaults.{AnswersMap};

    /// The map with this user span and these nodes, each a user value and its design value; or its first
    /// fault, in this order: nodes that do not rise, a design span that 16.16 does not hold, and values
    /// that collapse.
    pub fn new(
        alloc: Global,
        user: Span,
        nodes: Seq<(Fix<16>, Fix<16>)>,
    ) -> Result<AxisMap, MapStop>
        ensures { AnswersMap (record { user = limits user; nodes = nodes }) result }
    {
        let list = nodes.as_slice();
        if let Some(number) = first_unordered(list) {
            return Err(MapStop::MapOrder(number));
        }
        let Some(design) = design_span(&user, list) else {
            return Err(MapStop::MapRange);
        };
        let pairs = pairs_of(alloc, &user, &design, list)?;
        if side_vanishes(&user, &design) {
            return Err(MapStop::MapCollapse(nodes.len() as u64));
        }
        Ok(AxisMap {
            user,
            design,
            nodes,
            pairs,
        })
    }

    /// The limits of the axis in user values.
    pub fn user(&self) -> Span
        ensures { limits result ≡ self.now.user }
    {
        self.user
    }

    /// The limits of the axis in design values.
    pub fn design(&self) -> Span
        ensures { limits result ≡ design_of self.now }
    {
        self.design
    }

    /// An equal map.
    pub fn try_copy(&self, alloc: Global) -> Result<AxisMap, NoMemory>
        ensures { IfOk result (λ map. map ≡ self.now) }
    {
        Ok(AxisMap {
            user: self.user,
            design: self.design,
            nodes: copied(alloc, self.nodes.as_slice())?,
            pairs: copied(alloc, self.pairs.as_slice())?,
        })
    }
}

// The first node whose numbers do not both lie above those of the node before it.
fn first_unordered(nodes: &[(Fix<16>, Fix<16>)]) -> Option<u64>
    ensures { result ≡ unordered nodes.now }
{
    let [first, rest @ ..] = nodes else {
        return None;
    };
    let (mut before, mut nodes) = (first, rest);
    let mut number: usize = 1;
    while let [node, after @ ..] = nodes {
        if !(before.0 < node.0 && before.1 < node.1) {
            return Some(number as u64);
        }
        number += 1;
        before = node;
        nodes = after;
    }
    None
}

// The design value of a user value, which 16.16 may not hold.
fn design_value(user: &Span, nodes: &[(Fix<16>, Fix<16>)], v: Fix<16>) -> i64
    requires { unordered nodes.now ≡ None }
    ensures { result ≡ forward (record { user = limits user.now; nodes = nodes.now }) v }
{
    let value = brought(user.min.wide(), user.max.wide(), v.wide());
    followed(Direction::Forward, nodes, value)
}

// The limits in design values, where 16.16 holds them.
fn design_span(user: &Span, nodes: &[(Fix<16>, Fix<16>)]) -> Option<Span>
    requires { unordered nodes.now ≡ None }
    ensures { let m : Mapping = record { user = limits user.now; nodes = nodes.now } in
        MatchOption result (is_in_range m ≡ false) (λ design. (limits design ≡ design_of m) × (is_in_range m ≡ true)) }
{
    let min = i32::try_from(design_value(user, nodes, user.min)).ok()?;
    let max = i32::try_from(design_value(user, nodes, user.max)).ok()?;
    let default = design_value(user, nodes, user.default) as i32;
    Some(Span {
        min: Fix::from_raw(min),
        default: Fix::from_raw(default),
        max: Fix::from_raw(max),
    })
}

// A side of the user span has values, and the same side of the design span has none.
fn side_vanishes(user: &Span, design: &Span) -> bool
    ensures { result ≡ side_vanishes (limits user.now) (limits design.now) }
{
    (user.min < user.default && !(design.min < design.default))
        || (user.default < user.max && !(design.default < design.max))
}

// A copy of a list of pairs.
fn copied<const F: u32>(
    alloc: Global,
    items: &[(Fix<F>, Fix<F>)],
) -> Result<Seq<(Fix<F>, Fix<F>)>, NoMemory>
    ensures { IfOk result (λ copy. copy ≡ items.now) }
{
    let mut copy = Vec::new(alloc);
    copy.extend_from_slice(items)?;
    Ok(Seq::from_vec(copy))
}

/// The design value of a user value, which is first brought into the span. Between two nodes it lies on
/// the line from one to the other, rounded to the nearest, ties up; beyond them it moves as the last node
/// on its side does.
pub fn forward(map: &AxisMap, v: Fix<16>) -> Fix<16>
    ensures { result ≡ forward map.now v }
{
    Fix::from_raw(design_value(&map.user, map.nodes.as_slice(), v) as i32)
}

/// The user value of a design value, which is first brought into the design span. It follows the nodes in
/// the other direction by the rule of `forward`, and is brought into the user span.
pub fn backward(map: &AxisMap, w: Fix<16>) -> Fix<16>
    ensures { result ≡ backward map.now w }
{
    let value = brought(map.design.min.wide(), map.design.max.wide(), w.wide());
    let value = followed(Direction::Backward, map.nodes.as_slice(), value);
    let value = brought(map.user.min.wide(), map.user.max.wide(), value);
    Fix::from_raw(value as i32)
}

/// The pairs of the axis in table `avar` (F2DOT14): those of -1, 0 and 1, and for each node on the axis its
/// normalised user value and its normalised design value. They rise by their first numbers, and each is
/// there once, so that there are at most 32,769.
pub fn avar_pairs(alloc: Global, map: &AxisMap) -> Result<Seq<(Fix<14>, Fix<14>)>, NoMemory>
    ensures value { IfOk result (λ pairs. pairs ≡ avar_pairs map.now) }
    ensures segments { IfOk result AreSegments }
{
    copied(alloc, map.pairs.as_slice())
}

/// The normalised design value of a normalised user value, by the pairs (OpenType, "avar"): between two
/// of them on the line from one to the other, rounded to the nearest, ties up. Both are from -1 to 1.
pub fn avar_at(map: &AxisMap, v: Fix<14>) -> Fix<14>
    requires low { neg_ℤ (pos 16384) ≤ℤ v }
    requires high { v ≤ℤ pos 16384 }
    ensures value { result ≡ avar_at map.now v }
    ensures low { neg_ℤ (pos 16384) ≤ℤ result }
    ensures high { result ≤ℤ pos 16384 }
{
    Fix::from_raw(followed(Direction::Forward, map.pairs.as_slice(), v.wide()) as i32)
}
