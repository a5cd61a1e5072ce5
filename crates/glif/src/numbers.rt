ghost use Rattle.basics.specs.Reading.{Gives};
ghost use Rattle.glif.specs.Numbers.{coordinate, offset, width};

use crate::limits::{GREATEST, LEAST};
use attributes::{Limits, optional_whole, whole};
use basics::{Kind, Stop};
use markup::Tagged;
use std::alloc::Global;

/// The limits of coordinates and of offsets of components.
const COORDINATES: Limits = Limits {
    least: LEAST,
    greatest: GREATEST,
    kind: Kind::CoordinateRange,
};

/// The limits of advance widths.
const ADVANCE_WIDTHS: Limits = Limits {
    least: 0,
    greatest: GREATEST,
    kind: Kind::CoordinateRange,
};

/// A coordinate, which has to be there.
#[tactic(auto, unfolding(crate::specs::Numbers::coordinate))]
pub(crate) fn coordinate<T: Tagged>(alloc: Global, name: &str, element: &T) -> Result<i32, Stop>
    ensures { Gives (λ number. number) result (coordinate name.now (T.tree element.now)) }
{
    whole(alloc, &COORDINATES, name, element)
}

/// An offset of a component, 0 where the attribute is absent.
#[tactic(auto, unfolding(crate::specs::Numbers::offset))]
pub(crate) fn offset<T: Tagged>(alloc: Global, name: &str, component: &T) -> Result<i32, Stop>
    ensures { Gives (λ number. number) result (offset name.now (T.tree component.now)) }
{
    Ok(optional_whole(alloc, &COORDINATES, name, component)?.unwrap_or(0))
}

/// The width of an `advance`, 0 where the attribute is absent.
#[tactic(auto, unfolding(crate::specs::Numbers::width))]
pub(crate) fn width<T: Tagged>(alloc: Global, advance: &T) -> Result<i32, Stop>
    ensures { Gives (λ number. number) result (width (T.tree advance.now)) }
{
    Ok(optional_whole(alloc, &ADVANCE_WIDTHS, "width", advance)?.unwrap_or(0))
}
