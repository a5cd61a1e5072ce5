ghost use Rattle.std.specs.Prelude.{◌≡◌, IfOk};
ghost use Rattle.plist.specs.Entries.{firsts};

use crate::value::Value;
use basics::{Name, NoMemory};
use std::alloc::Global;
use std::collections::BTreeSet;

/// Of entries with equal keys the first alone, in order.
pub(crate) fn first_of_each(
    alloc: Global,
    entries: Vec<(Name, Value)>,
) -> Result<Vec<(Name, Value)>, NoMemory>
    ensures { IfOk result (λ kept. kept.items ≡ firsts entries.items) }
{
    let mut keys = BTreeSet::new(alloc);
    let mut kept = Vec::new(alloc);
    for entry in entries {
        let key = entry.0.try_copy(alloc)?;
        let is_new = keys.insert(key)?;
        if !is_new {
            continue;
        }
        kept.push(entry)?;
    }
    Ok(kept)
}
