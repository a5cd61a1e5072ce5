ghost use Rattle.std.specs.Prelude.{◌≡◌, length};
ghost use Rattle.region_support.specs.MasterOrder.{value_on};
ghost use Rattle.region_support.specs.Coordinates.{coordinates_of};
ghost use Rattle.region_support.specs.Regions.{least_on, greatest_on, first_triple, first_from};

use crate::Location;
use fixpoint::Fix;
use variation_rules::Triple;

/// The location's value on an axis.
pub(crate) fn value_on(location: &Location, axis: usize) -> i32
    ensures { result ≡ value_on axis location.now.items }
{
    match location.as_slice().get(axis) {
        Some(value) => value.raw(),
        None => 0,
    }
}

// The least value of any master on an axis, 0 among them.
fn least_on(masters: &[Location], axis: usize) -> i32
    ensures { result ≡ least_on (coordinates_of masters.now) axis }
{
    let mut least = 0;
    for location in masters {
        least = least.min(value_on(location, axis));
    }
    least
}

// The greatest value of any master on an axis, 0 among them.
fn greatest_on(masters: &[Location], axis: usize) -> i32
    ensures { result ≡ greatest_on (coordinates_of masters.now) axis }
{
    let mut greatest = 0;
    for location in masters {
        greatest = greatest.max(value_on(location, axis));
    }
    greatest
}

// From the default over the master's value to the farthest master on that side.
fn first_triple(least: i32, greatest: i32, value: i32) -> Triple
    ensures { result ≡ first_triple least greatest value }
{
    let (start, peak, end) = if 0 < value {
        (0, value, greatest)
    } else if value < 0 {
        (least, value, 0)
    } else {
        (0, 0, 0)
    };
    Triple {
        start: Fix::from_raw(start),
        peak: Fix::from_raw(peak),
        end: Fix::from_raw(end),
    }
}

/// Writes the region of a master with these values before any cut, one triple a value.
pub(crate) fn first_region(masters: &[Location], at: &[Fix<14>], region: &mut [Triple])
    requires { length region.old ≡ length at.now }
    ensures { region.new ≡ first_from (coordinates_of masters.now) 0 at.now }
{
    for axis in 0..at.len() {
        region[axis] = first_triple(
            least_on(masters, axis),
            greatest_on(masters, axis),
            at[axis].raw(),
        );
    }
}
