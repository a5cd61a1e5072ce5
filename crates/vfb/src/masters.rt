ghost use Rattle.std.specs.Prelude.{◌≡◌, ◌≢◌, ◌<◌, ◌≤◌, length, map, All, IfOk};
ghost use Rattle.std.specs.List.{AllPairs};
ghost use Rattle.basics.specs.Reading.{GivesBy};
ghost use Rattle.glif.specs.Limits.{IsWithinLimits};
ghost use Rattle.glif.specs.declared.shape.Drawing.{Drawing};
ghost use Rattle.arrayvec.specs.ArrayVec.{array_vec_len};
ghost use Rattle.region_support.specs.MasterOrder.{axes_of};
ghost use Rattle.region_support.specs.Coordinates.{coordinates_of};
ghost use Rattle.region_support.specs.Sorting.{IsOrder};
ghost use Rattle.commands.specs.Proper.{AreLocated, locations_of_drawings};
ghost use Rattle.vfb.specs.Making.{shown};
ghost use Rattle.vfb.specs.Masters.{AreGathered, drawing_numbered, gathered, masters_in, ordered};
ghost use Rattle.source_files.specs.Stops.{Answers, StopsBy, NeverFails};
ghost use Rattle.commands.specs.Words.{seen};

use crate::contours::all_alike;
use crate::faults::location_fault;
use basics::{Kind, Name, NoMemory, Seq};
use commands::Located;
use glif::{Drawing, Outline};
use region_support::{Location, ModelStop, in_order, order};
use source_files::ReadStop;
use std::alloc::Global;
use std::mem;

/// The masters of a glyph in their order, the default first.
#[derive(Drop)]
pub(crate) struct Masters {
    /// The glyph's name, which is that of the default's drawing.
    pub(crate) name: Name,
    /// Where each master stands.
    pub(crate) locations: Seq<Location>,
    /// What each draws.
    pub(crate) outlines: Seq<Outline>,
}

/// An equal location of its own.
fn copy_location(at: &Location) -> Result<Location, NoMemory>
    ensures { IfOk result (λ copy. copy.items ≡ at.now.items) }
{
    Ok(at.clone()?)
}

/// Where the drawings stand, in the order of the words.
fn locations_of(alloc: Global, located: &[Located<'_>]) -> Result<Seq<Location>, NoMemory>
    ensures { IfOk result (λ listed. coordinates_of listed ≡ locations_of_drawings (map seen located.now)) }
{
    let mut listed = Vec::new(alloc);
    for one in located {
        listed.push(copy_location(&one.at)?)?;
    }
    Ok(Seq::from_vec(listed))
}

/// The numbers of the drawings at these locations, in the order of masters.
fn ordered(alloc: Global, listed: &Seq<Location>) -> Result<Seq<u32>, ReadStop>
    requires lengths { All (λ at. array_vec_len at ≡ axes_of (coordinates_of listed.now)) listed.now }
    requires few { length listed.now ≤ 128 }
    ensures order { Answers (λ order. order) result (ordered (coordinates_of listed.now)) }
    ensures never { NeverFails result }
    ensures masters { IfOk result (IsOrder (coordinates_of listed.now)) }
{
    match order(alloc, listed) {
        Ok(order) => Ok(order),
        Err(ModelStop::NoDefault) => Err(ReadStop::Refused(location_fault(
            alloc,
            Kind::NoDefaultSource,
            0,
            0,
        )?)),
        Err(ModelStop::SameLocation(first, second)) => {
            Err(ReadStop::Refused(location_fault(alloc, Kind::SameLocation, first, second)?))
        }
        Err(ModelStop::NoMemory) => Err(ReadStop::NoMemory),
    }
}

/// What the drawings of these numbers draw, in their order, moved out of the drawings.
fn outlines_in(
    alloc: Global,
    mut drawings: Vec<Drawing>,
    order: &[u32],
) -> Result<Seq<Outline>, NoMemory>
    requires numbers { All (λ number. number < length drawings.items) order.now }
    requires apart { AllPairs (λ first second. first ≢ second) order.now }
    ensures { IfOk result (λ outlines. outlines ≡ map (λ number. (drawing_numbered drawings.items number).outline) order.now) }
{
    let mut outlines = Vec::new(alloc);
    for number in order {
        let nothing = Outline {
            advance: 0,
            contours: Seq::new(alloc),
        };
        let outline = mem::replace(&mut drawings[*number as usize].outline, nothing);
        outlines.push(outline)?;
    }
    Ok(Seq::from_vec(outlines))
}

/// The masters that the drawings at these locations are, in their order.
fn masters_in(
    alloc: Global,
    listed: &Seq<Location>,
    drawings: Seq<Drawing>,
    order: &Seq<u32>,
) -> Result<Masters, NoMemory>
    requires one_each { length drawings ≡ length listed.now }
    requires order { IsOrder (coordinates_of listed.now) order.now }
    ensures { IfOk result (λ masters. shown masters ≡ masters_in (coordinates_of listed.now) drawings order.now) }
{
    let locations = in_order(alloc, listed, order)?;
    let numbers = order.as_slice();
    let drawn = drawings.as_slice();
    let name = drawn[numbers[0] as usize].name.try_copy(alloc)?;
    let outlines = outlines_in(alloc, drawings.into_vec(), numbers)?;
    Ok(Masters {
        name,
        locations,
        outlines,
    })
}

/// The masters that the drawings are, one for each that the words name: in their order, all with
/// contours like the default's.
pub(crate) fn gather(
    alloc: Global,
    located: &[Located<'_>],
    drawings: Seq<Drawing>,
) -> Result<Masters, ReadStop>
    requires located { AreLocated (map seen located.now) }
    requires one_each { length drawings ≡ length located.now }
    requires within { All (λ (drawing : Drawing). IsWithinLimits drawing.outline) drawings }
    ensures gathers { GivesBy StopsBy shown result (gathered (map seen located.now) drawings) }
    ensures never { NeverFails result }
    ensures gathered { IfOk result (λ masters. AreGathered (shown masters)) }
{
    let listed = locations_of(alloc, located)?;
    let order = ordered(alloc, &listed)?;
    let drawn = drawings.as_slice();
    let default = &drawn[order.as_slice()[0] as usize];
    all_alike(alloc, default, located, drawn)?;
    Ok(masters_in(alloc, &listed, drawings, &order)?)
}
