ghost use Rattle.std.specs.Prelude.{◌≡◌, ◌≤◌, length, map, option_map, All, IfOk};
ghost use Rattle.basics.specs.Reading.{Gives, each};
ghost use Rattle.markup_rules.specs.Tree.{attribute_of};
ghost use Rattle.markup.specs.Plain.{plain};
ghost use Rattle.designspace.specs.Limits.{IsSourceOn};
ghost use Rattle.designspace.specs.Sources as rules;

use crate::dimension::read_dimensions;
use crate::location::location_of;
use crate::parts::{check_few, listed};
use attributes::needed;
use basics::{Kind, Name, NoMemory, Seq, Stop};
use design_axes::Axis;
use markup::Element;
use region_support::Location;
use std::alloc::Global;

/// A source of the design space (Designspace, "source").
#[derive(Drop)]
pub struct Source {
    /// The path of its UFO folder: the document's folder, `/` and the file name.
    pub path: Name,
    /// The name of the layer that is drawn, where one is told.
    pub layer: Option<Name>,
    /// Where it lies: its normalised coordinate on each axis.
    pub location: Location,
}

/// How many sources a document may have.
const SOURCES: usize = 128;

/// Whether a path begins with `/`.
fn is_absolute(path: &[u8]) -> bool
    ensures { result ≡ rules.is_absolute path.now }
{
    match path {
        [first, ..] => *first == b'/',
        [] => false,
    }
}

/// The path of a file of a folder. One that begins with `/` stands alone, and so does one in no folder.
#[tactic(auto, unfolding(crate::specs::Sources::path_of))]
fn path_of(alloc: Global, folder: &str, filename: &str) -> Result<Name, NoMemory>
    ensures { IfOk result (λ path. path ≡ rules.path_of folder.now filename.now) }
{
    if is_absolute(filename.as_bytes()) || folder.is_empty() {
        return Name::from_str(alloc, filename);
    }
    let path = if folder == "/" {
        format!(in alloc; "/{filename}")?
    } else {
        format!(in alloc; "{folder}/{filename}")?
    };
    Name::from_str(alloc, path.as_str())
}

/// A text of its own, where there is one.
fn optional_name(alloc: Global, text: Option<&str>) -> Result<Option<Name>, NoMemory>
    ensures { IfOk result (λ name. name ≡ option_map (λ text. text.now) text.entry) }
{
    match text {
        Some(text) => Ok(Some(Name::from_str(alloc, text)?)),
        None => Ok(None),
    }
}

/// A source.
#[tactic(auto, unfolding(crate::specs::Sources::source_of))]
fn read_source(alloc: Global, folder: &str, axes: &[Axis], source: &Element) -> Result<Source, Stop>
    requires { length axes.now ≤ 8 }
    ensures exact { Gives (λ source. source) result (rules.source_of folder.now axes.now (plain source.now)) }
    ensures within { IfOk result (IsSourceOn (length axes.now)) }
{
    let filename = needed(alloc, "filename", source)?;
    let dimensions = read_dimensions(alloc, axes, source)?;
    let path = path_of(alloc, folder, filename)?;
    let layer = optional_name(alloc, source.attribute("layer"))?;
    Ok(Source {
        path,
        layer,
        location: location_of(dimensions.as_slice(), axes),
    })
}

/// The sources of these elements.
fn read_each(
    alloc: Global,
    folder: &str,
    axes: &[Axis],
    elements: &[&Element],
) -> Result<Seq<Source>, Stop>
    requires { length axes.now ≤ 8 }
    ensures exact { Gives (λ sources. sources) result (each (rules.source_of folder.now axes.now) (map (λ element. plain element.now) elements.now)) }
    ensures within { IfOk result (All (IsSourceOn (length axes.now))) }
    ensures count { IfOk result (λ sources. length sources ≡ length elements.now) }
{
    let mut sources = Seq::new(alloc);
    for element in elements {
        sources.push(read_source(alloc, folder, axes, element)?)?;
    }
    Ok(sources)
}

/// The sources of a document whose folder this is.
#[tactic(auto, unfolding(crate::specs::Sources::sources_of, crate::specs::Sources::sources_in))]
pub(crate) fn read_sources(
    alloc: Global,
    folder: &str,
    axes: &[Axis],
    designspace: &Element,
) -> Result<Seq<Source>, Stop>
    requires { length axes.now ≤ 8 }
    ensures exact { Gives (λ sources. sources) result (rules.sources_of folder.now axes.now (plain designspace.now)) }
    ensures within { IfOk result (All (IsSourceOn (length axes.now))) }
    ensures few { IfOk result (λ sources. length sources ≤ 128) }
{
    let elements = listed(alloc, "sources", "source", designspace)?;
    check_few(alloc, Kind::TooManySources, 0, SOURCES, elements.len())?;
    read_each(alloc, folder, axes, elements.as_slice())
}
