ghost use Rattle.std.specs.Prelude.{◌≡◌, ◌≤◌, pos, ◌≢◌, length};
ghost use Rattle.region_support.specs.Keys.{key_of};
ghost use Rattle.region_support.specs.MasterOrder.{rank, is_axis_point};
ghost use Rattle.region_support.specs.Coordinates.{coordinates_of};

use crate::Location;
use crate::first::value_on;
use arrayvec::ArrayVec;
use fixpoint::Fix;
use std::cmp::Reverse;

/// What orders a master among all: its fields, one after the other. The number comes last, where it decides
/// nothing, since no two masters stand at one location.
#[derive(Drop, PartialEq, Eq, PartialOrd, Ord)]
pub(crate) struct Key {
    /// On how many axes the master isn't at the default.
    pub rank: u32,
    /// On how many of these it stands at one of the axis's points; those with more come first.
    pub points: Reverse<u32>,
    /// The axes on which it isn't at the default.
    pub axes: ArrayVec<u32, 8>,
    /// For each of these, whether it is above the default.
    pub sides: ArrayVec<bool, 8>,
    /// For each of these, how far it is from the default.
    pub distances: ArrayVec<u32, 8>,
    /// The master's number.
    pub number: u32,
}

// On how many axes a location isn't at the default.
fn rank(at: &[Fix<14>]) -> usize
    ensures { result ≡ rank at.now }
{
    at.iter().filter(|value| value.raw() != 0).count()
}

// Whether a master stands at this value on this axis alone.
fn is_axis_point(masters: &[Location], axis: usize, value: i32) -> bool
    ensures { result ≡ is_axis_point (coordinates_of masters.now) axis value }
{
    for other in masters {
        if rank(other.as_slice()) == 1 && value_on(other, axis) == value {
            return true;
        }
    }
    false
}

/// The key of the master of this number at this location, among all masters.
pub(crate) fn key_of(masters: &[Location], number: u32, at: &[Fix<14>]) -> Key
    requires { length at.now ≤ 8 }
    ensures { result ≡ key_of (coordinates_of masters.now) number at.now }
{
    let mut points = 0;
    let mut axes = ArrayVec::new();
    let mut sides = ArrayVec::new();
    let mut distances = ArrayVec::new();
    for axis in 0..at.len() {
        let value = at[axis].raw();
        if value != 0 {
            axes.push(axis as u32);
            sides.push(0 < value);
            distances.push(value.unsigned_abs());
            if is_axis_point(masters, axis, value) {
                points += 1;
            }
        }
    }
    Key {
        rank: distances.len() as u32,
        points: Reverse(points),
        axes,
        sides,
        distances,
        number,
    }
}
