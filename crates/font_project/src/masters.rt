ghost use Rattle.std.specs.Prelude.{◌≡◌, ◌≤◌, length, IfOk};
ghost use Rattle.designspace.specs.Limits as documents;
ghost use Rattle.font_sources.specs.Document.{locations_of};
ghost use Rattle.region_support.specs.Coordinates.{coordinates_of};
ghost use Rattle.region_support.specs.MasterOrder.{AreMasters, axes_of};
ghost use Rattle.region_support.specs.Regions.{AreNormalisedLocations};
ghost use Rattle.region_support.specs.Sorting.{IsOrder, locations_at};
ghost use Rattle.font_project.specs.Masters.{AreReady, locations};

use basics::{NoMemory, Seq};
use delta_solve::{ScalarTable, table};
use designspace::{Designspace, Source};
use region_support::{Location, Support, boxes, in_order};
use std::alloc::Global;

/// The masters of a font in their order, the default first.
#[derive(Drop)]
pub(crate) struct Masters {
    /// Where each stands.
    pub(crate) sorted: Seq<Location>,
    /// The region of influence of each.
    pub(crate) supports: Seq<Support>,
    /// How much the regions count at the masters' locations.
    pub(crate) table: ScalarTable,
}

/// An equal location of its own.
fn copy_location(at: &Location) -> Result<Location, NoMemory>
    ensures { IfOk result (λ copy. copy.items ≡ at.now.items) }
{
    Ok(at.clone()?)
}

/// Where the sources stand, in the document's order.
fn locations_of(alloc: Global, sources: &[Source]) -> Result<Seq<Location>, NoMemory>
    ensures exact { IfOk result (λ listed. coordinates_of listed ≡ locations_of sources.now) }
    ensures one_each { IfOk result (λ listed. length listed ≡ length sources.now) }
{
    let mut listed = Seq::new(alloc);
    for source in sources {
        listed.push(copy_location(&source.location)?)?;
    }
    Ok(listed)
}

/// The masters that stand so, in their order.
fn masters_at(alloc: Global, sorted: Seq<Location>) -> Result<Masters, NoMemory>
    requires in_order { AreMasters (axes_of (coordinates_of sorted)) (coordinates_of sorted) }
    requires normalised { AreNormalisedLocations (coordinates_of sorted) }
    requires few { length sorted ≤ 128 }
    ensures ready { IfOk result AreReady }
    ensures same { IfOk result (λ masters. masters.sorted ≡ sorted) }
{
    let supports = boxes(alloc, &sorted)?;
    let table = table(alloc, &supports, &sorted)?;
    Ok(Masters {
        sorted,
        supports,
        table,
    })
}

/// The masters that the sources of a document are, in this order.
pub(crate) fn masters_of(
    alloc: Global,
    design: &Designspace,
    order: &Seq<u32>,
) -> Result<Masters, NoMemory>
    requires design { documents.IsWithinLimits design.now }
    requires order { IsOrder (locations_of design.now.sources) order.now }
    ensures ready { IfOk result AreReady }
    ensures same { IfOk result (λ masters. locations masters ≡ locations_at (locations_of design.now.sources) order.now) }
    ensures one_each { IfOk result (λ masters. length masters.sorted ≡ length design.now.sources) }
{
    let listed = locations_of(alloc, design.sources.as_slice())?;
    let sorted = in_order(alloc, &listed, order)?;
    masters_at(alloc, sorted)
}
