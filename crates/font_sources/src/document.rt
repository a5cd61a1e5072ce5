ghost use Rattle.std.specs.Prelude.{◌≡◌, ◌<◌, ◌≤◌, length, All, IfOk, slice_index_or};
ghost use Rattle.basics.specs.Reading.{Gives, IsStop};
ghost use Rattle.arrayvec.specs.ArrayVec.{array_vec_len};
ghost use Rattle.source_files.specs.Stops.{Answers, NeverFails, Reads};
ghost use Rattle.region_support.specs.Coordinates.{coordinates_of};
ghost use Rattle.region_support.specs.MasterOrder.{axes_of};
ghost use Rattle.region_support.specs.Sorting.{IsOrder};
ghost use Rattle.designspace.specs.Limits.{IsWithinLimits};
ghost use Rattle.font_sources.specs.Document as rules;
ghost use Rattle.font_sources.specs.Document.{document_at, folder_of, location_fault, locations_of, or_root};

use basics::{Kind, Name, NoMemory, Seq, Spot, Stop};
use designspace::{Designspace, Source};
use outside::Sources;
use region_support::{Location, ModelStop, order};
use source_files::{ReadStop, in_file, read_tree};
use std::alloc::Global;

/// The folder of a file by what stands before the last slash of its path.
fn or_root(folder: &str) -> &str
    ensures { result.now ≡ or_root folder.now }
{
    if folder.is_empty() { "/" } else { folder }
}

/// The folder of a file: what stands before the last slash of its path. It is `/` where that slash is the first byte, and
/// empty where there is none.
#[tactic(auto, unfolding(crate::specs::Document::folder_of))]
fn folder_of(path: &str) -> &str
    ensures { result.now ≡ folder_of path.now }
{
    match path.rsplit_once('/') {
        Some((folder, _)) => or_root(folder),
        None => "",
    }
}

/// Reads the designspace document at `path`.
#[tactic(auto, using(source_files::proofs::InFile::answers_in_file), unfolding(crate::specs::Document::document_at))]
pub(crate) fn read_document<S: Sources>(
    alloc: Global,
    sources: &mut S,
    path: &str,
) -> Result<Designspace, ReadStop>
    ensures exact { Reads (S.state sources.old) (S.state sources.new) (λ named. named ≡ path.now) (Answers (λ design. design) result (document_at (S.state sources.old).files path.now)) result }
    ensures within { IfOk result IsWithinLimits }
{
    let tree = read_tree(alloc, sources, path)?;
    in_file(
        alloc,
        path,
        designspace::read(alloc, &tree, folder_of(path)),
    )
}

/// An equal location of its own.
fn copy_location(at: &Location) -> Result<Location, NoMemory>
    ensures { IfOk result (λ copy. copy.items ≡ at.now.items) }
{
    Ok(at.clone()?)
}

/// Where the sources stand, in their order.
fn locations_of(alloc: Global, sources: &[Source]) -> Result<Seq<Location>, NoMemory>
    ensures { IfOk result (λ locations. coordinates_of locations ≡ locations_of sources.now) }
{
    let mut locations = Seq::new(alloc);
    for source in sources {
        locations.push(copy_location(&source.location)?)?;
    }
    Ok(locations)
}

/// A fault of the locations of two sources, which are told by their numbers.
fn location_fault(alloc: Global, kind: Kind, at: u32, also: u32) -> Stop
    ensures { IsStop result (location_fault kind at also) }
{
    match Name::from_str(alloc, "") {
        Ok(item) => Stop::At(Spot {
            kind,
            item,
            at: u64::from(at),
            also: u64::from(also),
            first: 0,
            second: 0,
        }),
        Err(NoMemory) => Stop::NoMemory,
    }
}

/// The numbers of the sources at these locations, in the order of masters.
fn ordered(alloc: Global, locations: &Seq<Location>) -> Result<Seq<u32>, Stop>
    requires lengths { All (λ at. array_vec_len at ≡ axes_of (coordinates_of locations.now)) locations.now }
    requires few { length locations.now ≤ 128 }
    ensures exact { Gives (λ order. order) result (rules.ordered (coordinates_of locations.now)) }
    ensures masters { IfOk result (IsOrder (coordinates_of locations.now)) }
{
    match order(alloc, locations) {
        Ok(order) => Ok(order),
        Err(ModelStop::NoDefault) => Err(location_fault(alloc, Kind::NoDefaultSource, 0, 0)),
        Err(ModelStop::SameLocation(first, second)) => {
            Err(location_fault(alloc, Kind::SameLocation, first, second))
        }
        Err(ModelStop::NoMemory) => Err(Stop::NoMemory),
    }
}

/// The numbers of the sources of the document at `path`, in the order of masters.
#[tactic(auto, using(source_files::proofs::InFile::answers_in_file), unfolding(crate::specs::Document::master_order))]
pub(crate) fn master_order(
    alloc: Global,
    path: &str,
    design: &Designspace,
) -> Result<Seq<u32>, ReadStop>
    requires { IsWithinLimits design.now }
    ensures answers { Answers (λ order. order) result (rules.master_order path.now design.now.sources) }
    ensures never { NeverFails result }
    ensures masters { IfOk result (IsOrder (locations_of design.now.sources)) }
{
    let locations = locations_of(alloc, design.sources.as_slice())?;
    in_file(alloc, path, ordered(alloc, &locations))
}

/// The number of the default source, which is the first in order.
pub(crate) fn default_number(order: &[u32], sources: &[Source]) -> usize
    requires { IsOrder (locations_of sources.now) order.now }
    ensures value { result ≡ slice_index_or order.now 0 0 }
    ensures below { result < length sources.now }
{
    order[0] as usize
}
