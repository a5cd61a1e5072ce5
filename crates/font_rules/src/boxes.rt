ghost use Rattle.std.specs.Prelude.{◌≡◌, ◌≤◌, length, All, IfOk, IfErr};
ghost use Rattle.basics.specs.Reading.{spot_of};
ghost use Rattle.source_files.specs.Stops.{Answers, NeverFails};
ghost use Rattle.designspace.specs.Limits.{IsRuleOn};
ghost use Rattle.rule_boxes.specs.Cells.{AreCells};
ghost use Rattle.rule_boxes.specs.Grid.{grid_above};
ghost use Rattle.font_rules.specs.RuleNumbers as words;

use basics::{Fault, Kind, Name, NoMemory, Seq, Spot};
use designspace::Rule;
use rule_boxes::{Cell, Condition, RuleStop, Sets, cells};
use source_files::ReadStop;
use std::alloc::Global;

/// An equal set of conditions of its own.
fn copy_set(alloc: Global, set: &[Condition]) -> Result<Seq<Condition>, NoMemory>
    ensures { IfOk result (λ copy. copy ≡ set.now) }
{
    let mut copy = Vec::new(alloc);
    copy.extend_from_slice(set)?;
    Ok(Seq::from_vec(copy))
}

/// Equal sets of their own.
fn copy_sets(alloc: Global, sets: &[Seq<Condition>]) -> Result<Sets, NoMemory>
    ensures { IfOk result (λ copy. copy ≡ sets.now) }
{
    let mut copy = Seq::new(alloc);
    for set in sets {
        copy.push(copy_set(alloc, set.as_slice())?)?;
    }
    Ok(copy)
}

/// Where each rule holds.
fn sets_of(alloc: Global, rules: &[Rule]) -> Result<Seq<Sets>, NoMemory>
    ensures { IfOk result (λ sets. sets ≡ words.sets_of rules.now) }
{
    let mut sets = Seq::new(alloc);
    for rule in rules {
        sets.push(copy_sets(alloc, rule.sets.as_slice())?)?;
    }
    Ok(sets)
}

/// The fault of the document of this path, whose rules cut the design space too finely.
fn grid_fault(alloc: Global, path: &str, product: u64) -> Result<Fault, NoMemory>
    requires small { product ≤ 1073774592 }
    ensures { IfOk result (λ fault. fault ≡ words.grid_fault path.now product) }
{
    Ok(Fault {
        path: Name::from_str(alloc, path)?,
        spot: Spot {
            kind: Kind::TooManyCells,
            item: Name::from_str(alloc, "")?,
            at: 0,
            also: 0,
            first: product as i64,
            second: 0,
        },
    })
}

/// The boxes in which the same rules hold, on so many axes.
pub(crate) fn boxes_of(
    alloc: Global,
    path: &str,
    rules: &[Rule],
    axes: u32,
) -> Result<Seq<Cell>, ReadStop>
    requires some { 1 ≤ axes }
    requires axes { axes ≤ 8 }
    requires few { length rules.now ≤ 64 }
    requires rules { All (IsRuleOn axes) rules.now }
    ensures answers { Answers (λ _. tt) result (words.grid_or path.now (grid_above axes (words.sets_of rules.now))) }
    ensures never { NeverFails result }
    ensures cells { IfOk result (AreCells axes (words.sets_of rules.now)) }
{
    let sets = sets_of(alloc, rules)?;
    match cells(alloc, &sets, axes) {
        Ok(cells) => Ok(cells),
        Err(RuleStop::TooManyCells(product)) => {
            Err(ReadStop::Refused(grid_fault(alloc, path, product)?))
        }
        Err(RuleStop::NoMemory) => Err(ReadStop::NoMemory),
    }
}
