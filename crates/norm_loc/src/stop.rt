ghost use Rattle.std.specs.Prelude.{◌≡◌};

use basics::NoMemory;
use std::alloc::AllocFailed;

/// Why there is no map of an axis. Nodes are numbered from 0 in the document's order.
#[derive(Clone, Copy, Debug, PartialEq, Eq)]
pub enum MapStop {
    /// Not both numbers of this node lie above those of the node before it.
    MapOrder(u64),
    /// The least or the greatest user value becomes a design value that 16.16 does not hold.
    MapRange,
    /// The pair of this node has the first number of an earlier node's pair, or of one that each axis
    /// has, and another second number; or, with the number of nodes, a side of the axis that has user
    /// values has no design values.
    MapCollapse(u64),
    /// Memory ran out.
    NoMemory,
}

impl From<NoMemory> for MapStop {
    ghost use Rattle.norm_loc.specs.declared.stop.MapStop.TheVariants.{NoMemory};

    ghost from_gives = { λ _ stop. stop ≡ NoMemory };

    fn from(_: NoMemory) -> MapStop {
        MapStop::NoMemory
    }
}

impl<T: Drop> From<AllocFailed<T>> for MapStop {
    ghost use Rattle.norm_loc.specs.declared.stop.MapStop.TheVariants.{NoMemory};

    ghost from_gives = { λ _ stop. stop ≡ NoMemory };

    fn from(_: AllocFailed<T>) -> MapStop {
        MapStop::NoMemory
    }
}
