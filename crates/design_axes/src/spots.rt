ghost use Rattle.basics.specs.Reading.{IsStop};
ghost use Rattle.design_axes.specs.Spots.{axis_spot};

use basics::{Kind, Name, NoMemory, Spot, Stop};
use std::alloc::Global;

/// The stop at a fault of the axis with this number, and with a second number.
pub(crate) fn axis_fault(alloc: Global, kind: Kind, axis: u64, also: u64) -> Stop
    ensures { IsStop result (axis_spot kind axis also) }
{
    match Name::from_str(alloc, "") {
        Ok(item) => Stop::At(Spot {
            kind,
            item,
            at: axis,
            also,
            first: 0,
            second: 0,
        }),
        Err(NoMemory) => Stop::NoMemory,
    }
}
