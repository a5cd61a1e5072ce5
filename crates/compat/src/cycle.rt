//! Which is the first that reaches itself.

ghost use Rattle.std.specs.Prelude.{◌≡◌, ℕ, ◌<◌, ◌↔◌, true, length, All, IfOk, OnOk, IsTrue};
ghost use Rattle.compat.specs.References.{bases_at, Reaches, HasCycle, IsClosed, IsFirstOnCycle};
ghost use Rattle.compat.specs.Searches.{is_marked, AreClear, AreReferrers, AreSettled, IsMarking, AreMarkings, IsSearch};

use crate::order::finishing_order;
use basics::{NoMemory, Seq};
use std::alloc::Global;

/// Marks `base`, and lets it wait if it wasn't marked.
fn mark(base: usize, marked: &mut Vec<bool>, waiting: &mut Vec<usize>) -> Result<(), NoMemory>
    requires { base < length marked.old.items }
    ensures { OnOk result (IsMarking base marked.old.items waiting.old.items marked.new.items waiting.new.items) }
{
    if !marked[base] {
        waiting.push(base)?;
        marked[base] = true;
    }
    Ok(())
}

/// Marks all of `bases`, and lets those that weren't marked wait.
fn mark_all(
    bases: &[usize],
    marked: &mut Vec<bool>,
    waiting: &mut Vec<usize>,
) -> Result<(), NoMemory>
    requires { All (λ base. base < length marked.old.items) bases.now }
    ensures marking { OnOk result (AreMarkings bases.now marked.old.items waiting.old.items marked.new.items waiting.new.items) }
    ensures all { OnOk result (All (λ base. is_marked marked.new.items base ≡ true) bases.now) }
{
    for &base in bases {
        mark(base, marked, waiting)?;
    }
    Ok(())
}

/// Marks all to which `number` refers, and lets those that weren't marked wait.
fn mark_bases(
    graph: &[Seq<usize>],
    number: usize,
    marked: &mut Vec<bool>,
    waiting: &mut Vec<usize>,
) -> Result<(), NoMemory>
    requires known { number < length graph.now }
    requires marks { length marked.old.items ≡ length graph.now }
    requires closed { IsClosed graph.now }
    ensures marking { OnOk result (AreMarkings (bases_at graph.now number) marked.old.items waiting.old.items marked.new.items waiting.new.items) }
    ensures all { OnOk result (All (λ base. is_marked marked.new.items base ≡ true) (bases_at graph.now number)) }
{
    mark_all(graph[number].as_slice(), marked, waiting)
}

/// Whether the one of this number reaches itself.
fn reaches_itself(alloc: Global, graph: &[Seq<usize>], number: usize) -> Result<bool, NoMemory>
    requires closed { IsClosed graph.now }
    requires known { number < length graph.now }
    ensures { IfOk result (λ found. IsTrue found ↔ Reaches graph.now number number) }
{
    let mut marked = vec![in alloc; false; graph.len()]?;
    let mut waiting = vec![in alloc; number]?;
    while let Some(next) = waiting.pop() {
        mark_bases(graph, next, &mut marked, &mut waiting)?;
    }
    Ok(marked[number])
}

/// Marks `root` and all that it reaches, but for what is reached through what was marked already.
fn mark_from(
    alloc: Global,
    graph: &[Seq<usize>],
    root: usize,
    marked: &mut Vec<bool>,
) -> Result<(), NoMemory>
    requires closed { IsClosed graph.now }
    requires known { root < length graph.now }
    requires marks { length marked.old.items ≡ length graph.now }
    requires settled { AreSettled graph.now marked.old.items }
    ensures marks { OnOk result (length marked.new.items ≡ length graph.now) }
    ensures settled { OnOk result (AreSettled graph.now marked.new.items) }
{
    let mut waiting = Vec::new(alloc);
    mark(root, marked, &mut waiting)?;
    while let Some(next) = waiting.pop() {
        mark_bases(graph, next, marked, &mut waiting)?;
    }
    Ok(())
}

/// Whether all of `bases` are marked.
fn are_marked(bases: &[usize], marked: &[bool]) -> bool
    requires { All (λ base. base < length marked.now) bases.now }
    ensures { IsTrue result ↔ All (λ base. is_marked marked.now base ≡ true) bases.now }
{
    for &base in bases {
        if !marked[base] {
            return false;
        }
    }
    true
}

/// For each of `order` whether it is seen not to reach itself, where they are searched from the last to the first:
/// it isn't reached by an earlier search, and all to which it refers are.
fn clear_of_cycles(
    alloc: Global,
    graph: &[Seq<usize>],
    order: &[usize],
) -> Result<Vec<bool>, NoMemory>
    requires closed { IsClosed graph.now }
    requires known { All (λ number. number < length graph.now) order.now }
    ensures marks { IfOk result (λ clear. length clear.items ≡ length graph.now) }
    ensures clear { IfOk result (λ clear. AreClear graph.now clear.items) }
{
    let mut clear = vec![in alloc; false; graph.len()]?;
    let mut marked = vec![in alloc; false; graph.len()]?;
    for index in (0..order.len()).rev() {
        let number = order[index];
        if !marked[number] {
            clear[number] = are_marked(graph[number].as_slice(), marked.as_slice());
            mark_from(alloc, graph, number, &mut marked)?;
        }
    }
    Ok(clear)
}

/// For each the numbers of those that refer to it.
fn referrers(alloc: Global, graph: &[Seq<usize>]) -> Result<Vec<Seq<usize>>, NoMemory>
    requires { IsClosed graph.now }
    ensures { IfOk result (λ referrers. AreReferrers (length graph.now) referrers.items) }
{
    let mut referrers = Vec::new(alloc);
    for _bases in graph {
        referrers.push(Seq::new(alloc))?;
    }
    for (number, bases) in graph.iter().enumerate() {
        for &base in bases.as_slice() {
            referrers[base].push(number)?;
        }
    }
    Ok(referrers)
}

/// The first that reaches itself, of a graph in which something does.
///
/// What reaches one another, a component of the graph, is searched as a whole by Kosaraju's algorithm: in the order in
/// which a walk against the references is done with each, from the last to the first, a search along the references
/// that goes by what was reached before reaches one component. One that is alone in its component and doesn't refer to
/// itself is on no cycle, and the first other one is on one. So it takes a number of steps that grows with that of the
/// references alone.
pub(crate) fn first_on_cycle(alloc: Global, graph: &[Seq<usize>]) -> Result<usize, NoMemory>
    requires closed { IsClosed graph.now }
    requires cycle { HasCycle graph.now }
    ensures { IfOk result (IsFirstOnCycle graph.now) }
{
    let referrers = referrers(alloc, graph)?;
    let order = finishing_order(alloc, referrers.as_slice())?;
    let clear = clear_of_cycles(alloc, graph, order.as_slice())?;
    for number in 0..graph.len() {
        if !clear[number] && reaches_itself(alloc, graph, number)? {
            return Ok(number);
        }
    }
    unreachable!()
}
