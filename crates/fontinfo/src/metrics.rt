ghost use Rattle.std.specs.Prelude.{◌≡◌, ◌≤◌, ◌≤ℤ◌, pos, IfOk};
ghost use Rattle.basics.specs.Reading.{Gives};
ghost use Rattle.plist.specs.Values.{plain_value};
ghost use Rattle.fontinfo.specs.Metrics as rules;
ghost use Rattle.fontinfo.specs.Metrics.{AreHeightsWithin, AreLettersWithin, AreMetricsWithin};
ghost use Rattle.fontinfo.specs.Ranges as range;
ghost use Rattle.fontinfo.specs.Ranges.{IsWithin};

use crate::key::Key;
use crate::keys::{METRIC, fixed_or_zero, number_or, read_rounded};
use basics::{Kind, Stop, stop_at};
use fixpoint::Fix;
use plist::Value;
use std::alloc::Global;

/// The heights of lines.
#[derive(Clone, Copy)]
pub(crate) struct Heights {
    /// The ascender.
    pub(crate) ascender: i32,
    /// The descender.
    pub(crate) descender: i32,
}

/// The heights of letters, and their angle.
#[derive(Clone, Copy)]
pub(crate) struct Letters {
    /// The height of x.
    pub(crate) x_height: i32,
    /// The height of capitals.
    pub(crate) cap_height: i32,
    /// The angle of italics.
    pub(crate) italic: Fix<16>,
}

/// The units of the em, the heights in them, and the angle.
#[derive(Clone, Copy)]
pub(crate) struct Metrics {
    /// Units of the em.
    pub(crate) units: i32,
    /// The heights of lines.
    pub(crate) heights: Heights,
    /// The heights of letters, and their angle.
    pub(crate) letters: Letters,
}

/// The number, where it can be that of the units of an em.
fn units_or_fault(alloc: Global, number: i64) -> Result<i32, Stop>
    ensures exact { Gives (λ units. units) result (rules.units_or_fault number) }
    ensures within { IfOk result (IsWithin range.units) }
{
    if 16 <= number && number <= 16_384 {
        Ok(number as i32)
    } else {
        Err(stop_at(alloc, Kind::UnitsRange, "", 0, number))
    }
}

/// The units of the em that a value tells.
#[tactic(auto, unfolding(crate::specs::Metrics::units_value))]
fn units_value(alloc: Global, value: &Value) -> Result<i32, Stop>
    ensures exact { Gives (λ units. units) result (rules.units_value (plain_value value.now)) }
    ensures within { IfOk result (IsWithin range.units) }
{
    let number = read_rounded(alloc, Key::UnitsPerEm, value)?;
    units_or_fault(alloc, number)
}

/// The units of the em.
#[tactic(auto, unfolding(crate::specs::Metrics::units_of))]
fn read_units(alloc: Global, info: &Value) -> Result<i32, Stop>
    ensures exact { Gives (λ units. units) result (rules.units_of (plain_value info.now)) }
    ensures within { IfOk result (IsWithin range.units) }
{
    match info.get(Key::UnitsPerEm.name()) {
        Some(value) => units_value(alloc, value),
        None => Ok(1000),
    }
}

/// A part of the units of the em, rounded down.
#[tactic(auto, unfolding(crate::specs::Metrics::part_of))]
pub(crate) fn part_of(units: i32, part: u32, whole: u32) -> i32
    requires em { IsWithin range.units units }
    requires proper { part ≤ whole }
    requires small { whole ≤ 20 }
    requires some { 1 ≤ whole }
    ensures value { result ≡ rules.part_of units part whole }
    ensures low { pos 0 ≤ℤ result }
    ensures high { result ≤ℤ pos 16384 }
{
    (units.unsigned_abs() * part / whole) as i32
}

/// The heights of lines.
#[tactic(auto, unfolding(crate::specs::Metrics::heights_of))]
fn read_heights(alloc: Global, units: i32, info: &Value) -> Result<Heights, Stop>
    requires { IsWithin range.units units }
    ensures exact { Gives (λ heights. heights) result (rules.heights_of units (plain_value info.now)) }
    ensures within { IfOk result AreHeightsWithin }
{
    let ascender = number_or(alloc, METRIC, part_of(units, 4, 5), Key::Ascender, info)?;
    let descender = number_or(alloc, METRIC, -part_of(units, 1, 5), Key::Descender, info)?;
    Ok(Heights {
        ascender,
        descender,
    })
}

/// The heights of letters, and their angle.
#[tactic(auto, unfolding(crate::specs::Metrics::letters_of))]
fn read_letters(alloc: Global, units: i32, info: &Value) -> Result<Letters, Stop>
    requires { IsWithin range.units units }
    ensures exact { Gives (λ letters. letters) result (rules.letters_of units (plain_value info.now)) }
    ensures within { IfOk result AreLettersWithin }
{
    let x_height = number_or(alloc, METRIC, part_of(units, 1, 2), Key::XHeight, info)?;
    let cap_height = number_or(alloc, METRIC, part_of(units, 7, 10), Key::CapHeight, info)?;
    let italic = fixed_or_zero(alloc, Key::ItalicAngle, info)?;
    Ok(Letters {
        x_height,
        cap_height,
        italic,
    })
}

/// The units of the em, the heights in them, and the angle.
#[tactic(auto, unfolding(crate::specs::Metrics::metrics_of))]
pub(crate) fn read_metrics(alloc: Global, info: &Value) -> Result<Metrics, Stop>
    ensures exact { Gives (λ metrics. metrics) result (rules.metrics_of (plain_value info.now)) }
    ensures within { IfOk result AreMetricsWithin }
{
    let units = read_units(alloc, info)?;
    let heights = read_heights(alloc, units, info)?;
    let letters = read_letters(alloc, units, info)?;
    Ok(Metrics {
        units,
        heights,
        letters,
    })
}
