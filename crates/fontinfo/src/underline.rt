ghost use Rattle.std.specs.Prelude.{◌≡◌, IfOk};
ghost use Rattle.basics.specs.Reading.{Gives};
ghost use Rattle.plist.specs.Values.{plain_value};
ghost use Rattle.fontinfo.specs.Ranges as range;
ghost use Rattle.fontinfo.specs.Ranges.{IsWithin};
ghost use Rattle.fontinfo.specs.Underlines as rules;
ghost use Rattle.fontinfo.specs.Underlines.{IsUnderlineWithin};

use crate::key::Key;
use crate::keys::{METRIC, number_or};
use crate::metrics::part_of;
use basics::Stop;
use plist::Value;
use std::alloc::Global;

/// Where an underline lies, and how thick it is.
#[derive(Clone, Copy)]
pub(crate) struct Underline {
    /// Where it lies.
    pub(crate) position: i32,
    /// How thick it is.
    pub(crate) size: i32,
}

/// The underline of a font with so many units to the em.
#[tactic(auto, unfolding(crate::specs::Underlines::underline_of))]
pub(crate) fn read_underline(alloc: Global, units: i32, info: &Value) -> Result<Underline, Stop>
    requires { IsWithin range.units units }
    ensures exact { Gives (λ underline. underline) result (rules.underline_of units (plain_value info.now)) }
    ensures within { IfOk result IsUnderlineWithin }
{
    let position = number_or(
        alloc,
        METRIC,
        -part_of(units, 1, 10),
        Key::UnderlinePosition,
        info,
    )?;
    let size = number_or(
        alloc,
        METRIC,
        part_of(units, 1, 20),
        Key::UnderlineThickness,
        info,
    )?;
    Ok(Underline { position, size })
}
