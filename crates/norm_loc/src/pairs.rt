ghost use Rattle.std.specs.Prelude.{◌≡◌, ℤ, ◌≤ℤ◌, List, [], IfOk, OnOk, not};
ghost use Rattle.std.specs.List.{list_any};
ghost use Rattle.norm_loc.specs.declared.follow.Direction.TheVariants.{Forward};
ghost use Rattle.norm_loc.specs.AvarPairs.{is_on_axis, with_node, with_pair};
ghost use Rattle.norm_loc.specs.Following.{KeysRise};
ghost use Rattle.norm_loc.specs.MapFaults.{is_against, stands_against};
ghost use Rattle.norm_loc.specs.Inserting.{AnswersPairs, IsInsertion};
ghost use Rattle.norm_loc.specs.Spans.{limits};

use crate::coordinate::normalise;
use crate::span::Span;
use crate::stop::MapStop;
use basics::{NoMemory, Seq};
use fixpoint::Fix;
use std::alloc::Global;

// Where a pair belongs among others.
enum Insertion {
    // At this index.
    At(usize),
    // Its first number is there already; whether its second one is the same.
    Taken(bool),
}

// Looks from the end: nodes make pairs in rising order, so that few stand after a new one, those that each
// axis has.
fn insertion_of(pairs: &[(Fix<14>, Fix<14>)], pair: &(Fix<14>, Fix<14>)) -> Insertion
    requires { KeysRise Forward pairs.now }
    ensures { IsInsertion pair.now pairs.now result }
{
    let mut prefix = pairs;
    while let [before @ .., last] = prefix {
        if last.0 < pair.0 {
            break;
        }
        if last.0 == pair.0 {
            return Insertion::Taken(pair.1 == last.1);
        }
        prefix = before;
    }
    Insertion::At(prefix.len())
}

// Puts a pair where it belongs, once. Whether no pair stands against it.
fn put(pairs: &mut Vec<(Fix<14>, Fix<14>)>, pair: (Fix<14>, Fix<14>)) -> Result<bool, NoMemory>
    requires { KeysRise Forward pairs.old.items }
    ensures placed { OnOk result (pairs.new.items ≡ with_pair pair pairs.old.items) }
    ensures alone { IfOk result (λ alone. alone ≡ not (list_any (is_against pair) pairs.old.items)) }
{
    match insertion_of(pairs.as_slice(), &pair) {
        Insertion::Taken(alone) => Ok(alone),
        Insertion::At(index) => {
            pairs.insert(index, pair)?;
            Ok(true)
        }
    }
}

// Whether a node lies on the axis: others make no pair.
fn is_on_axis(user: &Span, node: &(Fix<16>, Fix<16>)) -> bool
    ensures { result ≡ is_on_axis (limits user.now) node.now }
{
    user.min <= node.0 && node.0 <= user.max
}

// Puts the pair of a node where it belongs, if it makes one. Whether no pair stands against it.
fn put_node(
    pairs: &mut Vec<(Fix<14>, Fix<14>)>,
    user: &Span,
    design: &Span,
    node: &(Fix<16>, Fix<16>),
) -> Result<bool, NoMemory>
    requires { KeysRise Forward pairs.old.items }
    ensures placed { OnOk result (pairs.new.items ≡ with_node (limits user.now) (limits design.now) node.now pairs.old.items) }
    ensures alone { IfOk result (λ alone. alone ≡ not (stands_against (limits user.now) (limits design.now) node.now pairs.old.items)) }
{
    if is_on_axis(user, node) {
        let pair = (normalise(user, node.0), normalise(design, node.1));
        put(pairs, pair)
    } else {
        Ok(true)
    }
}

/// All pairs of the nodes by these spans, with those that each axis has; or the first node whose pair
/// stands against another.
pub(crate) fn pairs_of(
    alloc: Global,
    user: &Span,
    design: &Span,
    nodes: &[(Fix<16>, Fix<16>)],
) -> Result<Seq<(Fix<14>, Fix<14>)>, MapStop>
    ensures { AnswersPairs (limits user.now) (limits design.now) nodes.now result }
{
    let (zero, one) = (Fix::from_raw(0), Fix::one());
    let mut pairs = vec![in alloc; (-one, -one), (zero, zero), (one, one)]?;
    for index in 0..nodes.len() {
        if !put_node(&mut pairs, user, design, &nodes[index])? {
            return Err(MapStop::MapCollapse(index as u64));
        }
    }
    Ok(Seq::from_vec(pairs))
}
