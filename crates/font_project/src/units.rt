ghost use Rattle.std.specs.Prelude.{◌≡◌, IfOk};
ghost use Rattle.source_files.specs.Stops.{Answers, NeverFails};
ghost use Rattle.font_project.specs.Units as rules;

use basics::{Fault, Kind, Name, NoMemory, Spot};
use font_sources::SourceGlyphs;
use source_files::ReadStop;
use std::alloc::Global;

/// The fault of a source of other units than these.
fn units_fault(alloc: Global, units: i32, source: &SourceGlyphs) -> Result<Fault, NoMemory>
    ensures { IfOk result (λ fault. fault ≡ rules.units_fault units source.now) }
{
    Ok(Fault {
        path: source.folder.try_copy(alloc)?,
        spot: Spot {
            kind: Kind::UnitsDiffer,
            item: Name::from_str(alloc, "")?,
            at: 0,
            also: 0,
            first: i64::from(units),
            second: i64::from(source.units),
        },
    })
}

/// Tests that a source has these units of the em.
#[tactic(auto, unfolding(crate::specs::Units::has_units))]
fn has_units(alloc: Global, units: i32, source: &SourceGlyphs) -> Result<(), ReadStop>
    ensures answers { Answers (λ done. done) result (rules.has_units units source.now) }
    ensures never { NeverFails result }
{
    if source.units == units {
        Ok(())
    } else {
        Err(ReadStop::Refused(units_fault(alloc, units, source)?))
    }
}

/// Tests that all sources have these units of the em, in the document's order.
pub(crate) fn have_units(
    alloc: Global,
    units: i32,
    sources: &[SourceGlyphs],
) -> Result<(), ReadStop>
    ensures answers { Answers (λ done. done) result (rules.have_units units sources.now) }
    ensures never { NeverFails result }
{
    for source in sources {
        has_units(alloc, units, source)?;
    }
    Ok(())
}
