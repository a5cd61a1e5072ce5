ghost use Rattle.std.specs.Prelude.{◌≡◌, ◌≤◌, ◌<◌, ◌^◌, map, IfOk, OnOk};
ghost use Rattle.basics.specs.Reading.{Gives};
ghost use Rattle.markup.specs.Plain.{plain};
ghost use Rattle.designspace.specs.Parts.{few, listed};

use basics::{Kind, NoMemory, Stop, stop_at};
use design_axes::{first_named, named};
use markup::Element;
use std::alloc::Global;

/// The items of the first list with a name; none where there is no such list.
#[tactic(auto, unfolding(crate::specs::Parts::listed))]
pub(crate) fn listed<'a>(
    alloc: Global,
    list: &str,
    item: &str,
    designspace: &'a Element,
) -> Result<Vec<&'a Element>, NoMemory>
    ensures { IfOk result (λ found. map (λ child. plain child.now) found.items ≡ listed list.now item.now (plain designspace.now)) }
{
    match first_named(list, designspace) {
        Some(element) => named(alloc, item, element),
        None => Ok(Vec::new(alloc)),
    }
}

/// Tests that there are at most so many; a fault has the number that is given and the count.
#[tactic(auto, unfolding(crate::specs::Parts::few))]
pub(crate) fn check_few(
    alloc: Global,
    kind: Kind,
    at: u64,
    most: usize,
    count: usize,
) -> Result<(), Stop>
    requires { count < 2 ^ 63 }
    ensures exact { Gives (λ _. tt) result (few kind at most count) }
    ensures within { OnOk result (count ≤ most) }
{
    if count <= most {
        Ok(())
    } else {
        Err(stop_at(alloc, kind, "", at, count as i64))
    }
}
