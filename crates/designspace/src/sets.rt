ghost use Rattle.std.specs.Prelude.{◌≡◌, ◌≤◌, length, map, IfOk};
ghost use Rattle.basics.specs.Reading.{Gives, in_turn};
ghost use Rattle.markup.specs.Plain.{plain};
ghost use Rattle.designspace.specs.Limits.{AreSetsOn, IsSortedOn};
ghost use Rattle.designspace.specs.Rules as rules;

use crate::condition::{read_condition, read_set};
use basics::{NoMemory, Seq, Stop};
use design_axes::Axis;
use markup::Element;
use rule_boxes::{Condition, Sets};
use std::alloc::Global;

/// The conditions of a rule, sorted by where they stand.
#[derive(Drop)]
pub(crate) struct Sorted {
    /// Those that stand in the rule itself.
    pub(crate) direct: Seq<Condition>,
    /// Those of each set.
    pub(crate) sets: Sets,
}

impl Sorted {
    /// No conditions.
    fn new(alloc: Global) -> Sorted
        ensures { result ≡ rules.nothing_sorted }
    {
        Sorted {
            direct: Seq::new(alloc),
            sets: Seq::new(alloc),
        }
    }
}

/// What is sorted with one more child of the rule.
#[tactic(auto, unfolding(crate::specs::Rules::child_of))]
fn read_child(
    alloc: Global,
    axes: &[Axis],
    mut sorted: Sorted,
    child: &Element,
) -> Result<Sorted, Stop>
    requires few { length axes.now ≤ 8 }
    requires sorted { IsSortedOn (length axes.now) sorted }
    ensures exact { Gives (λ sorted. sorted) result (rules.child_of axes.now sorted (plain child.now)) }
    ensures within { IfOk result (IsSortedOn (length axes.now)) }
{
    if child.is_named("condition") {
        sorted.direct.push(read_condition(alloc, axes, child)?)?;
    } else if child.is_named("conditionset") {
        sorted.sets.push(read_set(alloc, axes, child)?)?;
    }
    Ok(sorted)
}

/// What is sorted of all children of the rule.
fn read_children(alloc: Global, axes: &[Axis], children: &[Element]) -> Result<Sorted, Stop>
    requires { length axes.now ≤ 8 }
    ensures exact { Gives (λ sorted. sorted) result (in_turn (rules.child_of axes.now) rules.nothing_sorted (map plain children.now)) }
    ensures within { IfOk result (IsSortedOn (length axes.now)) }
{
    let mut sorted = Sorted::new(alloc);
    for child in children {
        sorted = read_child(alloc, axes, sorted, child)?;
    }
    Ok(sorted)
}

/// The sets with the direct conditions as the first one, where there are any.
fn direct_first(direct: Seq<Condition>, sets: Sets) -> Result<Sets, NoMemory>
    ensures { IfOk result (λ all. all ≡ rules.direct_first direct sets) }
{
    if direct.is_empty() {
        return Ok(sets);
    }
    let mut sets = sets.into_vec();
    sets.insert(0, direct)?;
    Ok(Seq::from_vec(sets))
}

/// The sets of conditions of a rule. The direct conditions are the first set, though faults come in the order of the
/// document.
#[tactic(auto, unfolding(crate::specs::Rules::sets_of))]
pub(crate) fn read_sets(alloc: Global, axes: &[Axis], rule: &Element) -> Result<Sets, Stop>
    requires { length axes.now ≤ 8 }
    ensures exact { Gives (λ sets. sets) result (rules.sets_of axes.now (plain rule.now)) }
    ensures within { IfOk result (AreSetsOn (length axes.now)) }
    ensures count { IfOk result (λ sets. length sets ≡ rules.set_count (plain rule.now)) }
{
    let Sorted { direct, sets } = read_children(alloc, axes, rule.children())?;
    Ok(direct_first(direct, sets)?)
}
