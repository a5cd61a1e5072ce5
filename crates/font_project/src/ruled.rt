ghost use Rattle.std.specs.Prelude.{IfOk};
ghost use Rattle.source_files.specs.Stops.{Answers, NeverFails};
ghost use Rattle.font_project.specs.Limits.{IsFrameWithin};
ghost use Rattle.font_project.specs.Ruled as rules;

use crate::naming::numbered;
use basics::Name;
use font_rules::{Substitutions, substitutions_of};
use font_sources::FontSources;
use indexmap::IndexMap;
use source_files::ReadStop;
use std::alloc::Global;

/// The numbers of the glyphs, and what the rules of the document make of them.
#[derive(Drop)]
pub(crate) struct Ruled {
    /// The number of each glyph by its name, in glyph order.
    pub(crate) names: IndexMap<Name, u16>,
    pub(crate) substitutions: Substitutions,
}

/// The glyphs by their names, and the rules by their numbers; the path is that of the document.
pub(crate) fn ruled_of(alloc: Global, path: &str, found: &FontSources) -> Result<Ruled, ReadStop>
    requires frame { IsFrameWithin found.now }
    ensures answers { Answers (λ ruled. ruled.substitutions.subs) result (rules.rules_of path.now found.now) }
    ensures never { NeverFails result }
    ensures right { IfOk result (rules.AreRuled found.now) }
{
    let names = numbered(alloc, found.names.as_slice())?;
    let axes = found.design.axes.len() as u32;
    let substitutions = substitutions_of(alloc, path, found.design.rules.as_slice(), &names, axes)?;
    Ok(Ruled {
        names,
        substitutions,
    })
}
