ghost use Rattle.std.specs.Prelude.{◌<◌, ◌≤◌, length, IfOk};
ghost use Rattle.source_files.specs.Stops.{NeverFails};
ghost use Rattle.font_project.specs.Fonts.{AreOutlined};
ghost use Rattle.font_project.specs.Limits.{AreDrawnWithin, AreOutlinedWithin};
ghost use Rattle.font_project.specs.Making.{AnswersRightly};

use crate::components::have_bases;
use crate::drawn::DrawnSource;
use crate::flat::flat_sources;
use crate::numbers::default_first;
use crate::outlined::{OutlinedSource, are_flat, outlined_sources};
use crate::resolving::are_resolved;
use crate::shapes::have_shapes;
use crate::sizes::are_few;
use basics::{Name, Seq};
use source_files::ReadStop;
use std::alloc::Global;

/// The outlines of the sources, of which the default's has this number: all fit the default's, and are few enough.
///
/// Components are compared before the drawings are flattened, since flattening drops them; where they differ is told in
/// its turn.
#[tactic(auto, unfolding(crate::specs::Fonts::outlined_of))]
pub(crate) fn outlined_of(
    alloc: Global,
    names: &[Name],
    default: usize,
    drawn: Seq<DrawnSource>,
) -> Result<Seq<OutlinedSource>, ReadStop>
    requires { AreDrawnWithin (length names.now) (length drawn) default drawn }
    ensures answers { AnswersRightly (AreOutlined names.now default drawn) result }
    ensures never { NeverFails result }
    ensures within { IfOk result (AreOutlinedWithin names.now (length drawn) default) }
{
    let sources = drawn.as_slice();
    let numbers = default_first(alloc, default, sources.len())?;
    let bases = have_bases(alloc, names, &sources[default], sources);
    let flats = flat_sources(alloc, drawn)?;
    are_resolved(alloc, flats.as_slice(), &numbers)?;
    bases?;
    are_flat(alloc, flats.as_slice(), &numbers)?;
    let outlined = outlined_sources(alloc, flats)?;
    let sources = outlined.as_slice();
    have_shapes(alloc, names, &sources[default], sources)?;
    are_few(alloc, sources, &numbers)?;
    Ok(outlined)
}
