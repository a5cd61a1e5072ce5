ghost use Rattle.std.specs.Prelude.{◌≡◌, ◌≤◌, ℕ, length, All, IfOk};
ghost use Rattle.std.specs.List.{AllByRecursion};
ghost use Rattle.arrayvec.specs.ArrayVec.{array_vec_len};
ghost use Rattle.region_support.specs.MasterOrder.{AreMasters, axes_of};
ghost use Rattle.region_support.specs.Coordinates.{coordinates_of, regions_in};
ghost use Rattle.region_support.specs.Regions.{first_from, cut_by_all, regions_of, AreTriangular, FirstIsWhole, AreNoneIfIgnored, AreNormalisedLocations, AreNormalisedRegions};

use crate::cut::cut_by;
use crate::first::first_region;
use crate::{Location, Support};
use arrayvec::ArrayVec;
use basics::{NoMemory, Seq};
use fixpoint::Fix;
use std::alloc::Global;
use variation_rules::Triple;

// Writes the region of a master among all, cut by the earlier ones in turn.
fn write_region(masters: &[Location], earlier: &[Location], at: &Location, region: &mut [Triple])
    requires { length region.old ≡ array_vec_len at.now }
    ensures { region.new ≡ cut_by_all (first_from (coordinates_of masters.now) 0 at.now.items) (coordinates_of earlier.now) }
{
    first_region(masters, at.as_slice(), region);
    for other in earlier {
        cut_by(region, other.as_slice());
    }
}

// A support of so many axes, to be written.
fn blank(axes: usize) -> Support
    requires { axes ≤ 8 }
    ensures { array_vec_len result ≡ axes }
{
    let none = Triple {
        start: Fix::from_raw(0),
        peak: Fix::from_raw(0),
        end: Fix::from_raw(0),
    };
    let mut support = ArrayVec::from([none; 8]);
    support.truncate(axes);
    support
}

// The region of a master among all, cut by the earlier ones in turn.
fn region(masters: &[Location], earlier: &[Location], at: &Location) -> Support
    ensures { result.items ≡ cut_by_all (first_from (coordinates_of masters.now) 0 at.now.items) (coordinates_of earlier.now) }
{
    let mut support = blank(at.len());
    write_region(masters, earlier, at, support.as_mut_slice());
    support
}

/// The region of each master, in their order; each is as long as the locations. A region reaches from
/// the default over its master to the farthest master on that side, and is cut by each earlier master
/// that stands on the same axes and within it: on every axis on which that master is farthest out, as
/// a fraction of the way from the peak to the end, the region ends at that master. The masters' own
/// axes count alone: an axis on which a master is at the default is 0, 0, 0 in its region, and the
/// default's region is whole everywhere.
pub fn boxes(alloc: Global, sorted: &Seq<Location>) -> Result<Seq<Support>, NoMemory>
    requires masters { AreMasters (axes_of (coordinates_of sorted.now)) (coordinates_of sorted.now) }
    requires few { length sorted.now ≤ 128 }
    ensures value { IfOk result (λ supports. regions_in supports ≡ regions_of (coordinates_of sorted.now)) }
    ensures count { IfOk result (λ supports. length supports ≡ length sorted.now) }
    ensures lengths { IfOk result (λ supports. All (λ support. array_vec_len support ≡ axes_of (coordinates_of sorted.now)) supports) }
    ensures triangular { IfOk result (λ supports. AreTriangular (regions_in supports) (coordinates_of sorted.now)) }
    ensures default { IfOk result (λ supports. FirstIsWhole (regions_in supports)) }
    ensures none { IfOk result (λ supports. AreNoneIfIgnored (regions_in supports)) }
    ensures normalised { IfOk result (λ supports. AreNormalisedLocations (coordinates_of sorted.now) → AreNormalisedRegions (regions_in supports)) }
{
    let masters = sorted.as_slice();
    let mut supports = Seq::new(alloc);
    for index in 0..masters.len() {
        let support = region(masters, &masters[..index], &masters[index]);
        supports.push(support)?;
    }
    Ok(supports)
}
