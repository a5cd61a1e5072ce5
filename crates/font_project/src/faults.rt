ghost use Rattle.std.specs.Prelude.{◌≡◌, pos, IfOk};
ghost use Rattle.source_files.specs.Trees.{fault_at};
ghost use Rattle.basics.specs.Reading.{spot_of};

use basics::{Fault, Kind, Name, NoMemory, Spot};
use std::alloc::Global;

/// An equal fault, of the source in this folder.
pub(crate) fn fault_in(alloc: Global, folder: &Name, spot: &Spot) -> Result<Fault, NoMemory>
    ensures { IfOk result (λ fault. fault ≡ fault_at folder.now spot.now) }
{
    Ok(Fault {
        path: folder.try_copy(alloc)?,
        spot: Spot {
            kind: spot.kind,
            item: spot.item.try_copy(alloc)?,
            at: spot.at,
            also: spot.also,
            first: spot.first,
            second: spot.second,
        },
    })
}

/// A fault of what the path names, with an item and a number.
pub(crate) fn fault_of(
    alloc: Global,
    path: &str,
    kind: Kind,
    item: &str,
    at: u64,
    first: i64,
) -> Result<Fault, NoMemory>
    ensures { IfOk result (λ fault. fault ≡ fault_at path.now (spot_of kind item.now at first)) }
{
    Ok(Fault {
        path: Name::from_str(alloc, path)?,
        spot: Spot {
            kind,
            item: Name::from_str(alloc, item)?,
            at,
            also: 0,
            first,
            second: 0,
        },
    })
}
