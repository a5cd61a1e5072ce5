ghost use Rattle.std.specs.Prelude.{All, IfOk};
ghost use Rattle.compat.specs.Flattened.{AreFit};
ghost use Rattle.font_project.specs.Flats.{AreFlatSources, IsFlat, IsFlatSource};
ghost use Rattle.font_project.specs.declared.drawn.DrawnSource.{DrawnSource};

use crate::drawn::DrawnSource;
use basics::{Name, NoMemory, Seq, Spot, Stop};
use compat::flatten;
use glif::{Drawing, Outline};
use std::alloc::Global;

/// What flattening the drawings of a source gives.
#[derive(Drop)]
pub(crate) enum Flat {
    /// The outline of each glyph, with its components drawn into it.
    Outlines(Seq<Outline>),
    /// The fault of the source, with the name of the glyph that has it.
    Refused(Spot),
}

/// A source whose drawings were flattened.
#[derive(Drop)]
pub(crate) struct FlatSource {
    /// Its UFO folder.
    pub(crate) folder: Name,
    /// What flattening gave.
    pub(crate) flat: Flat,
}

/// What flattening drawings gives.
fn flat_of(alloc: Global, drawings: &Seq<Drawing>) -> Result<Flat, NoMemory>
    requires { AreFit drawings.now }
    ensures { IfOk result (IsFlat drawings.now) }
{
    match flatten(alloc, drawings) {
        Ok(outlines) => Ok(Flat::Outlines(outlines)),
        Err((_, Stop::At(spot))) => Ok(Flat::Refused(spot)),
        Err((_, Stop::NoMemory)) => Err(NoMemory),
    }
}

/// A source with what flattening its drawings gives.
fn flat_source(alloc: Global, source: DrawnSource) -> Result<FlatSource, NoMemory>
    requires { AreFit source.drawings }
    ensures { IfOk result (IsFlatSource source) }
{
    let DrawnSource { folder, drawings } = source;
    let flat = flat_of(alloc, &drawings)?;
    Ok(FlatSource { folder, flat })
}

/// The sources with what flattening gives; their drawings are dropped.
pub(crate) fn flat_sources(
    alloc: Global,
    drawn: Seq<DrawnSource>,
) -> Result<Seq<FlatSource>, NoMemory>
    requires { All (λ (source : DrawnSource). AreFit source.drawings) drawn }
    ensures { IfOk result (AreFlatSources drawn) }
{
    let mut sources = Seq::new(alloc);
    for source in drawn.into_vec() {
        let flat = flat_source(alloc, source)?;
        sources.push(flat)?;
    }
    Ok(sources)
}
