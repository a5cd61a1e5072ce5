ghost use Rattle.std.specs.Prelude.{◌≡◌, ℤ, ◌≤ℤ◌, ◌<ℤ◌};
ghost use Rattle.std.specs.Int.{w32};
ghost use Rattle.std.specs.Int.RustNames.{FitsSigned};
ghost use Rattle.norm_loc.specs.Following.{KeysRise, KeysRiseAfter, between, followed, followed_after, key, moved, value};

use fixpoint::{Fix, mul_div_up};

/// Which number of a node is looked up, and which it leads to.
#[derive(Clone, Copy)]
pub(crate) enum Direction {
    /// From the first to the second.
    Forward,
    /// From the second to the first.
    Backward,
}

// The number of a node that is looked up.
fn key<const F: u32>(direction: Direction, node: &(Fix<F>, Fix<F>)) -> i64
    ensures value { result ≡ key direction node.now }
    ensures size { FitsSigned w32 result }
{
    match direction {
        Direction::Forward => node.0.wide(),
        Direction::Backward => node.1.wide(),
    }
}

// The number that a node leads to.
fn value<const F: u32>(direction: Direction, node: &(Fix<F>, Fix<F>)) -> i64
    ensures value { result ≡ value direction node.now }
    ensures size { FitsSigned w32 result }
{
    match direction {
        Direction::Forward => node.1.wide(),
        Direction::Backward => node.0.wide(),
    }
}

#[tactic(auto, unfolding(crate::specs::Following::moved))]
// Beyond the first or the last node: the number moves as that node does.
fn moved(x0: i64, y0: i64, v: i64) -> i64
    requires x0 { FitsSigned w32 x0 }
    requires y0 { FitsSigned w32 y0 }
    requires v { FitsSigned w32 v }
    ensures { result ≡ moved x0 y0 v }
{
    v + (y0 - x0)
}

// Between two nodes: on the line from one to the other.
fn between(x0: i64, y0: i64, x1: i64, y1: i64, v: i64) -> i64
    requires x0 { FitsSigned w32 x0 }
    requires y0 { FitsSigned w32 y0 }
    requires x1 { FitsSigned w32 x1 }
    requires y1 { FitsSigned w32 y1 }
    requires low { x0 ≤ℤ v }
    requires high { v <ℤ x1 }
    ensures { result ≡ between x0 y0 x1 y1 v }
{
    y0 + mul_div_up(y1 - y0, v - x0, x1 - x0)
}

// What the number becomes that is at this node or above it, with the nodes that follow.
fn followed_after<const F: u32>(
    direction: Direction,
    node: &(Fix<F>, Fix<F>),
    nodes: &[(Fix<F>, Fix<F>)],
    v: i64,
) -> i64
    requires rise { KeysRiseAfter direction node.now nodes.now }
    requires size { FitsSigned w32 v }
    requires above { key direction node.now ≤ℤ v }
    ensures { result ≡ followed_after direction node.now nodes.now v }
{
    let mut x = key(direction, node);
    let mut y = value(direction, node);
    let mut nodes = nodes;
    while let [next, rest @ ..] = nodes {
        let next_x = key(direction, next);
        let next_y = value(direction, next);
        if v < next_x {
            return between(x, y, next_x, next_y, v);
        }
        x = next_x;
        y = next_y;
        nodes = rest;
    }
    moved(x, y, v)
}

/// The nodes as a function: on straight lines from node to node, rounded to the nearest number, ties up;
/// below the first node and above the last one, the number moves as that node does.
pub(crate) fn followed<const F: u32>(
    direction: Direction,
    nodes: &[(Fix<F>, Fix<F>)],
    v: i64,
) -> i64
    requires rise { KeysRise direction nodes.now }
    requires size { FitsSigned w32 v }
    ensures { result ≡ followed direction nodes.now v }
{
    let [node, rest @ ..] = nodes else {
        return v;
    };
    let x = key(direction, node);
    if v < x {
        moved(x, value(direction, node), v)
    } else {
        followed_after(direction, node, rest, v)
    }
}
