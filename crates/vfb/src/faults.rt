ghost use Rattle.std.specs.Prelude.{◌≡◌, IfOk};
ghost use Rattle.vfb.specs.Masters.{difference_fault, location_fault, range_fault};

use basics::{Fault, Kind, Name, NoMemory, Spot};
use compat::Difference;
use std::alloc::Global;

/// A difference of the file at `path` from the default's drawing, whose glyph has this name.
pub(crate) fn difference_fault(
    alloc: Global,
    name: &Name,
    path: &str,
    difference: Difference,
) -> Result<Fault, NoMemory>
    ensures { IfOk result (λ fault. fault ≡ difference_fault name.now path.now difference) }
{
    Ok(Fault {
        path: Name::from_str(alloc, path)?,
        spot: Spot {
            kind: difference.kind,
            item: name.try_copy(alloc)?,
            at: difference.contour,
            also: difference.point,
            first: difference.first,
            second: difference.second,
        },
    })
}

/// A fault of the locations of the drawings with these two numbers.
pub(crate) fn location_fault(
    alloc: Global,
    kind: Kind,
    at: u32,
    also: u32,
) -> Result<Fault, NoMemory>
    ensures { IfOk result (λ fault. fault ≡ location_fault kind at also) }
{
    Ok(Fault {
        path: Name::from_str(alloc, "")?,
        spot: Spot {
            kind,
            item: Name::from_str(alloc, "")?,
            at: u64::from(at),
            also: u64::from(also),
            first: 0,
            second: 0,
        },
    })
}

/// A delta of the glyph with this name that doesn't fit 16 bits: that of a point's x or y, for the
/// master with this number in the order of masters.
pub(crate) fn range_fault(
    alloc: Global,
    name: &Name,
    master: u32,
    point: u32,
    y: bool,
    value: i64,
) -> Result<Fault, NoMemory>
    ensures { IfOk result (λ fault. fault ≡ range_fault name.now master point y value) }
{
    Ok(Fault {
        path: Name::from_str(alloc, "")?,
        spot: Spot {
            kind: Kind::DeltaRange,
            item: name.try_copy(alloc)?,
            at: u64::from(point),
            also: if y { 1 } else { 0 },
            first: i64::from(master),
            second: value,
        },
    })
}
