ghost use Rattle.std.specs.Prelude.{◌≡◌, length, map, All, IfOk};
ghost use Rattle.basics.specs.Reading.{Gives};
ghost use Rattle.glif.specs.Limits.{IsWithinLimits};
ghost use Rattle.glif.specs.declared.shape.Drawing.{Drawing};
ghost use Rattle.source_files.specs.Stops.{Answers, Reads};
ghost use Rattle.vfb.specs.Faults.{alone, drawing_at, drawings_of, drawn_alone};
ghost use Rattle.vfb.specs.Stops.{StopsAt};
ghost use Rattle.commands.specs.Words.{seen};

use basics::{Kind, Seq, Stop, stop_at};
use commands::Located;
use glif::Drawing;
use outside::Sources;
use source_files::{ReadStop, in_file, read_file};
use std::alloc::Global;

/// The drawing, if it has no components: it stands alone, so that they would draw nothing.
fn alone(alloc: Global, drawing: Drawing) -> Result<Drawing, Stop>
    ensures gives { Gives (λ found. found) result (alone drawing) }
    ensures same { IfOk result (λ found. found ≡ drawing) }
{
    if drawing.components.is_empty() {
        Ok(drawing)
    } else {
        Err(stop_at(alloc, Kind::DanglingComponent, drawing.name.as_str(), 0, 0))
    }
}

/// The drawing that a text is as a GLIF, if it has no components.
#[tactic(auto, unfolding(crate::specs::Faults::drawn_alone))]
fn drawn_alone(alloc: Global, text: &[u8]) -> Result<Drawing, Stop>
    ensures gives { Gives (λ drawing. drawing) result (drawn_alone text.now) }
    ensures within { IfOk result (λ drawing. IsWithinLimits drawing.outline) }
{
    let drawing = glif::read_text(alloc, text)?;
    alone(alloc, drawing)
}

/// Reads a drawing that the words location.
#[tactic(auto, using(source_files::proofs::InFile::answers_in_file, source_files::proofs::InFile::kept_in_file), unfolding(crate::specs::Faults::drawing_at))]
fn read_drawing<S: Sources>(
    alloc: Global,
    located: &Located<'_>,
    sources: &mut S,
) -> Result<Drawing, ReadStop>
    ensures reads { Reads (S.state sources.old) (S.state sources.new) (λ named. named ≡ located.now.path.now) (Answers (λ drawing. drawing) result (drawing_at (S.state sources.old).files (seen located.now))) result }
    ensures within { IfOk result (λ drawing. IsWithinLimits drawing.outline) }
{
    let text = read_file(alloc, sources, located.path)?;
    in_file(alloc, located.path, drawn_alone(alloc, text.as_slice()))
}

/// Reads the drawings, one for each that the words location, in the order of the words. A file with a
/// fault is answered before the next one is read.
pub(crate) fn read_drawings<S: Sources>(
    alloc: Global,
    located: &[Located<'_>],
    sources: &mut S,
) -> Result<Seq<Drawing>, ReadStop>
    ensures reads { Reads (S.state sources.old) (S.state sources.new) (StopsAt (S.state sources.old).tells (S.state sources.old).files (map seen located.now)) (Answers (λ drawings. drawings) result (drawings_of (S.state sources.old).files (map seen located.now))) result }
    ensures one_each { IfOk result (λ drawings. length drawings ≡ length located.now) }
    ensures within { IfOk result (All (λ (drawing : Drawing). IsWithinLimits drawing.outline)) }
{
    let mut drawings = Seq::new(alloc);
    for one in located {
        let drawing = read_drawing(alloc, one, sources)?;
        drawings.push(drawing)?;
    }
    Ok(drawings)
}
