//! An order in which everything stands after all to which it refers.

ghost use Rattle.std.specs.Prelude.{◌≡◌, ℕ, ◌+◌, ◌++◌, ◌∷◌, ◌-◌, ◌<◌, ◌≤◌, List, [], length, All, IfOk, OnOk, MatchOption, slice_index, slice_get, slice_set, Some, Contains};
ghost use Rattle.std.specs.Bool.{MatchBool};
ghost use Rattle.compat.specs.References.{bases_at, HasCycle, IsClosed, IsOrder};
ghost use Rattle.compat.specs.Walks.{IsWalk, StaySeen, AreSeen, mark_at, left_at, steps_left, IsNextBase, IsStep, IsTour, IsTourStep, IsVisit};
ghost use Rattle.compat.specs.declared.order.Mark.TheVariants.{New, Open, Done};

use basics::{NoMemory, Seq};
use std::alloc::Global;

/// How far the walk is with one thing.
#[derive(Clone, Copy)]
enum Mark {
    /// It isn't reached yet.
    New,
    /// It is on the path that is walked.
    Open,
    /// It stands in the order, and so does all to which it refers.
    Done,
}

/// The state of one thing.
#[derive(Clone, Copy)]
struct Node {
    mark: Mark,
    /// How many of its references haven't been looked at. They are taken from the last to the first.
    left: usize,
}

/// A walk through all references, depth first, with a path instead of the stack.
#[derive(Drop)]
struct Walk {
    nodes: Vec<Node>,
    /// Those that are open, each referring to the next.
    path: Vec<usize>,
    /// Those that are done, in the order in which they were.
    order: Vec<usize>,
}

impl Walk {
    /// The walk before its first step.
    fn new(alloc: Global, graph: &[Seq<usize>]) -> Result<Walk, NoMemory>
        ensures { IfOk result (λ walk. IsWalk graph.now walk.nodes.items walk.path.items walk.order.items × (walk.path.items ≡ [])) }
    {
        let mut nodes = Vec::new(alloc);
        for bases in graph {
            nodes.push(Node {
                mark: Mark::New,
                left: bases.len(),
            })?;
        }
        Ok(Walk {
            nodes,
            path: Vec::new(alloc),
            order: Vec::new(alloc),
        })
    }

    /// The last of the path.
    fn last(&self) -> Option<usize>
        ensures { result ≡ slice_get self.now.path.items (length self.now.path.items - 1) }
    {
        self.path.last().copied()
    }

    /// Looks at one more reference of `top`, which isn't the first that is left.
    fn look(&mut self, top: usize)
        requires known { top < length self.old.nodes.items }
        requires some { 0 < left_at self.old.nodes.items top }
        ensures nodes { self.new.nodes.items ≡ slice_set self.old.nodes.items top (record { mark = mark_at self.old.nodes.items top; left = left_at self.old.nodes.items top - 1 }) }
        ensures path { self.new.path.items ≡ self.old.path.items }
        ensures order { self.new.order.items ≡ self.old.order.items }
    {
        let node = self.nodes[top];
        self.nodes[top] = Node {
            mark: node.mark,
            left: node.left - 1,
        };
    }

    /// Puts one that is new at the end of the path.
    fn open(&mut self, base: usize) -> Result<(), NoMemory>
        requires { base < length self.old.nodes.items }
        ensures nodes { OnOk result (self.new.nodes.items ≡ slice_set self.old.nodes.items base (record { mark = Open; left = left_at self.old.nodes.items base })) }
        ensures path { OnOk result (self.new.path.items ≡ self.old.path.items ++ base ∷ []) }
        ensures order { self.new.order.items ≡ self.old.order.items }
    {
        self.path.push(base)?;
        let left = self.nodes[base].left;
        self.nodes[base] = Node {
            mark: Mark::Open,
            left,
        };
        Ok(())
    }

    /// Takes the last of the path, `top`, into the order.
    fn close(&mut self, top: usize) -> Result<(), NoMemory>
        requires known { top < length self.old.nodes.items }
        requires last { slice_get self.old.path.items (length self.old.path.items - 1) ≡ Some top }
        ensures nodes { OnOk result (self.new.nodes.items ≡ slice_set self.old.nodes.items top (record { mark = Done; left = left_at self.old.nodes.items top })) }
        ensures path { OnOk result (self.old.path.items ≡ self.new.path.items ++ top ∷ []) }
        ensures order { OnOk result (self.new.order.items ≡ self.old.order.items ++ top ∷ []) }
    {
        self.order.push(top)?;
        let _last = self.path.pop();
        let left = self.nodes[top].left;
        self.nodes[top] = Node {
            mark: Mark::Done,
            left,
        };
        Ok(())
    }

    /// How far the walk is with one thing.
    fn mark(&self, number: usize) -> Mark
        requires { number < length self.now.nodes.items }
        ensures { result ≡ mark_at self.now.nodes.items number }
    {
        self.nodes[number].mark
    }

    /// The next to which `top` refers, or None where all have been looked at.
    fn next_base(&self, graph: &[Seq<usize>], top: usize) -> Option<usize>
        requires sizes { length self.now.nodes.items ≡ length graph.now }
        requires known { top < length graph.now }
        requires left { left_at self.now.nodes.items top ≤ length (bases_at graph.now top) }
        ensures { MatchOption result (left_at self.now.nodes.items top ≡ 0) (IsNextBase graph.now self.now.nodes.items top) }
    {
        let left = self.nodes[top].left;
        if left == 0 {
            return None;
        }
        Some(graph[top].as_slice()[left - 1])
    }

    /// Does one step with the last of the path, `top`. Answers false where it found a cycle.
    fn step(&mut self, graph: &[Seq<usize>], top: usize) -> Result<bool, NoMemory>
        requires walk { IsWalk graph.now self.old.nodes.items self.old.path.items self.old.order.items }
        requires closed { IsClosed graph.now }
        requires last { slice_get self.old.path.items (length self.old.path.items - 1) ≡ Some top }
        requires known { top < length graph.now }
        ensures { IfOk result (λ goes. MatchBool goes (IsStep graph.now self.old.nodes.items self.old.path.items self.new.nodes.items self.new.path.items self.new.order.items) (HasCycle graph.now)) }
    {
        let Some(base) = self.next_base(graph, top) else {
            self.close(top)?;
            return Ok(true);
        };
        match self.mark(base) {
            Mark::Done => {
                self.look(top);
                Ok(true)
            }
            Mark::New => {
                self.open(base)?;
                Ok(true)
            }
            Mark::Open => Ok(false),
        }
    }

    /// Walks from `root`, which is new, through all that it reaches. Answers false where it found a cycle.
    fn visit(&mut self, graph: &[Seq<usize>], root: usize) -> Result<bool, NoMemory>
        requires walk { IsWalk graph.now self.old.nodes.items self.old.path.items self.old.order.items }
        requires closed { IsClosed graph.now }
        requires at_rest { self.old.path.items ≡ [] }
        requires known { root < length graph.now }
        requires fresh { mark_at self.old.nodes.items root ≡ New }
        ensures { IfOk result (λ goes. MatchBool goes (IsVisit graph.now self.old.nodes.items root self.new.nodes.items self.new.path.items self.new.order.items) (HasCycle graph.now)) }
    {
        self.open(root)?;
        while let Some(top) = self.last() {
            if !self.step(graph, top)? {
                return Ok(false);
            }
        }
        Ok(true)
    }

    /// Does one step with the last of the path, `top`, and goes on past what is open as past what is done.
    fn step_on(&mut self, graph: &[Seq<usize>], top: usize) -> Result<(), NoMemory>
        requires tour { IsTour graph.now self.old.nodes.items self.old.path.items self.old.order.items }
        requires closed { IsClosed graph.now }
        requires last { slice_get self.old.path.items (length self.old.path.items - 1) ≡ Some top }
        requires known { top < length graph.now }
        ensures { OnOk result (IsTourStep graph.now self.old.nodes.items self.old.path.items self.new.nodes.items self.new.path.items self.new.order.items) }
    {
        let Some(base) = self.next_base(graph, top) else {
            return self.close(top);
        };
        match self.mark(base) {
            Mark::New => self.open(base),
            Mark::Open | Mark::Done => {
                self.look(top);
                Ok(())
            }
        }
    }

    /// Walks from `root` through all that it reaches and that is new, past cycles.
    fn tour(&mut self, graph: &[Seq<usize>], root: usize) -> Result<(), NoMemory>
        requires tour { IsTour graph.now self.old.nodes.items self.old.path.items self.old.order.items }
        requires closed { IsClosed graph.now }
        requires known { root < length graph.now }
        ensures { OnOk result (IsTour graph.now self.new.nodes.items self.new.path.items self.new.order.items) }
    {
        self.open(root)?;
        while let Some(top) = self.last() {
            self.step_on(graph, top)?;
        }
        Ok(())
    }
}

/// An order in which everything stands after all to which it refers, or None exactly where something reaches
/// itself. `graph` has for each the numbers of those to which it refers, all of them below its length.
///
/// It takes one step for each reference and two for each number, and uses no stack.
pub(crate) fn order_of(alloc: Global, graph: &[Seq<usize>]) -> Result<Option<Vec<usize>>, NoMemory>
    requires { IsClosed graph.now }
    ensures { IfOk result (λ found. MatchOption found (HasCycle graph.now) (λ order. IsOrder graph.now order.items)) }
{
    let mut walk = Walk::new(alloc, graph)?;
    for root in 0..graph.len() {
        if matches!(walk.nodes[root].mark, Mark::New) && !walk.visit(graph, root)? {
            return Ok(None);
        }
    }
    Ok(Some(walk.order))
}

/// The numbers in the order in which a walk through all references, depth first, is done with each. A cycle doesn't
/// stop it. It takes no more steps than `order_of`.
pub(crate) fn finishing_order(alloc: Global, graph: &[Seq<usize>]) -> Result<Vec<usize>, NoMemory>
    requires { IsClosed graph.now }
    ensures { IfOk result (λ order. All (λ number. number < length graph.now) order.items) }
{
    let mut walk = Walk::new(alloc, graph)?;
    for root in 0..graph.len() {
        if matches!(walk.nodes[root].mark, Mark::New) {
            walk.tour(graph, root)?;
        }
    }
    Ok(walk.order)
}
