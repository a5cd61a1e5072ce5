ghost use Rattle.std.specs.Prelude.{◌≡◌, ◌≢◌, ◌≤◌, [], length, position, Some, None, All, IfOk, IfErr};
ghost use Rattle.std.specs.List.{list_any};
ghost use Rattle.arrayvec.specs.ArrayVec.{array_vec_len};
ghost use Rattle.region_support.specs.MasterOrder.{is_default, axes_of, AreMasters};
ghost use Rattle.region_support.specs.Coordinates.{coordinates_of};
ghost use Rattle.region_support.specs.Regions.{AreNormalisedLocations};
ghost use Rattle.region_support.specs.Sorting.{is_same_location, first_repeat, model_fault, order_of, IsOrder, locations_at};

use crate::Location;
use crate::key::key_of;
use basics::{NoMemory, Seq};
use std::alloc::Global;

/// Why masters can't be put in order.
#[derive(Debug, Drop, PartialEq, Eq)]
pub enum ModelStop {
    /// No location is the default, 0 on every axis.
    NoDefault,
    /// Two locations are equal: the numbers of the earlier and of the later one. The later one is the least that
    /// equals an earlier one, and the earlier one the least that it equals.
    SameLocation(u32, u32),
    /// Memory ran out.
    NoMemory,
}

impl From<NoMemory> for ModelStop {
    ghost use Rattle.region_support.specs.declared.sorting.ModelStop.TheVariants.{NoMemory};

    ghost from_gives = { λ _ stop. stop ≡ NoMemory };

    fn from(_: NoMemory) -> ModelStop {
        ModelStop::NoMemory
    }
}

// Whether the location is the default.
fn is_default(at: &Location) -> bool
    ensures { result ≡ is_default at.now.items }
{
    at.as_slice().iter().all(|value| value.raw() == 0)
}

// Whether one of the locations is the default.
fn has_default(locations: &[Location]) -> bool
    ensures { result ≡ list_any is_default (coordinates_of locations.now) }
{
    for at in locations {
        if is_default(at) {
            return true;
        }
    }
    false
}

// The number of the first of the earlier locations that equals this one.
fn first_same(earlier: &[Location], at: &Location) -> Option<usize>
    ensures { result ≡ position (is_same_location at.now.items) (coordinates_of earlier.now) }
{
    for (number, other) in earlier.iter().enumerate() {
        if at == other {
            return Some(number);
        }
    }
    None
}

// The first location that equals an earlier one: the number of the first such one, and its own.
fn first_repeat(locations: &[Location]) -> Option<(u32, u32)>
    requires { length locations.now ≤ 128 }
    ensures { result ≡ first_repeat [] (coordinates_of locations.now) }
{
    for number in 0..locations.len() {
        if let Some(first) = first_same(&locations[..number], &locations[number]) {
            return Some((first as u32, number as u32));
        }
    }
    None
}

// Why there is no order.
fn model_fault(locations: &[Location]) -> Option<ModelStop>
    requires { length locations.now ≤ 128 }
    ensures { result ≡ model_fault (coordinates_of locations.now) }
{
    if has_default(locations) {
        let (first, number) = first_repeat(locations)?;
        Some(ModelStop::SameLocation(first, number))
    } else {
        Some(ModelStop::NoDefault)
    }
}

// The numbers of the locations in the order of masters, where there is one.
fn sorted_numbers(alloc: Global, locations: &[Location]) -> Result<Seq<u32>, NoMemory>
    requires lengths { All (λ at. array_vec_len at ≡ axes_of (coordinates_of locations.now)) locations.now }
    requires few { length locations.now ≤ 128 }
    requires sound { model_fault (coordinates_of locations.now) ≡ None }
    ensures { IfOk result (λ numbers. IsOrder (coordinates_of locations.now) numbers) }
{
    let mut keys = Vec::new(alloc);
    for number in 0..locations.len() {
        keys.push(key_of(locations, number as u32, locations[number].as_slice()))?;
    }
    keys.sort_unstable();
    let numbers: Vec<u32> = keys.iter().map(|key| key.number).collect(alloc)?;
    Ok(Seq::from_vec(numbers))
}

/// The numbers of the locations, counted from 0 as they are listed, in the order of masters: those that are off the
/// default on fewer axes come first, then those that stand at more axis points, then the axes, the sides and the
/// distances from the default decide, item by item. An axis point is the coordinate of a master that is off the default on
/// that axis alone. The default is the first.
pub fn order(alloc: Global, locations: &Seq<Location>) -> Result<Seq<u32>, ModelStop>
    requires lengths { All (λ at. array_vec_len at ≡ axes_of (coordinates_of locations.now)) locations.now }
    requires few { length locations.now ≤ 128 }
    ensures value { IfOk result (λ order. order ≡ order_of (coordinates_of locations.now)) }
    ensures masters { IfOk result (λ order. IsOrder (coordinates_of locations.now) order) }
    ensures sound { IfOk result (λ _. model_fault (coordinates_of locations.now) ≡ None) }
    ensures fault { IfErr result (λ stop. stop ≢ ModelStop.NoMemory → model_fault (coordinates_of locations.now) ≡ Some stop) }
{
    let locations = locations.as_slice();
    if let Some(stop) = model_fault(locations) {
        return Err(stop);
    }
    Ok(sorted_numbers(alloc, locations)?)
}

/// Copies of the locations in their order, which is what `boxes` takes.
pub fn in_order(
    alloc: Global,
    locations: &Seq<Location>,
    order: &Seq<u32>,
) -> Result<Seq<Location>, NoMemory>
    requires { IsOrder (coordinates_of locations.now) order.now }
    ensures value { IfOk result (λ sorted. coordinates_of sorted ≡ locations_at (coordinates_of locations.now) order.now) }
    ensures masters { IfOk result (λ sorted. AreMasters (axes_of (coordinates_of sorted)) (coordinates_of sorted)) }
    ensures axes { IfOk result (λ sorted. axes_of (coordinates_of sorted) ≡ axes_of (coordinates_of locations.now)) }
    ensures count { IfOk result (λ sorted. length sorted ≡ length locations.now) }
    ensures normalised { IfOk result (λ sorted. AreNormalisedLocations (coordinates_of locations.now) → AreNormalisedLocations (coordinates_of sorted)) }
{
    let locations = locations.as_slice();
    let numbers = order.as_slice();
    let mut sorted = Seq::new(alloc);
    for number in numbers {
        let at = locations[*number as usize].clone()?;
        sorted.push(at)?;
    }
    Ok(sorted)
}
