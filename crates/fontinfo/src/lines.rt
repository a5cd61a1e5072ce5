ghost use Rattle.std.specs.Prelude.{◌≡◌, IfOk};
ghost use Rattle.basics.specs.Reading.{Gives};
ghost use Rattle.plist.specs.Values.{plain_value};
ghost use Rattle.fontinfo.specs.Lines as rules;
ghost use Rattle.fontinfo.specs.Lines.{AreLinesWithin};
ghost use Rattle.fontinfo.specs.Ranges.{IsWithin, metric};

use crate::key::Key;
use crate::keys::{METRIC, number_or};
use basics::Stop;
use plist::Value;
use std::alloc::Global;

/// The heights of lines, as a table says them.
#[derive(Clone, Copy)]
pub(crate) struct Lines {
    /// The ascender.
    pub(crate) ascender: i32,
    /// The descender.
    pub(crate) descender: i32,
    /// The gap between lines.
    pub(crate) gap: i32,
}

/// The heights of lines of `hhea`, where the font has this ascender and this descender.
#[tactic(auto, unfolding(crate::specs::Lines::hhea_of))]
pub(crate) fn read_hhea(
    alloc: Global,
    ascender: i32,
    descender: i32,
    info: &Value,
) -> Result<Lines, Stop>
    requires up { IsWithin metric ascender }
    requires down { IsWithin metric descender }
    ensures exact { Gives (λ lines. lines) result (rules.hhea_of ascender descender (plain_value info.now)) }
    ensures within { IfOk result AreLinesWithin }
{
    let ascender = number_or(alloc, METRIC, ascender, Key::HheaAscender, info)?;
    let descender = number_or(alloc, METRIC, descender, Key::HheaDescender, info)?;
    let gap = number_or(alloc, METRIC, 0, Key::HheaLineGap, info)?;
    Ok(Lines {
        ascender,
        descender,
        gap,
    })
}

/// The heights of lines of `OS/2`, where the font has this ascender and this descender.
#[tactic(auto, unfolding(crate::specs::Lines::typo_of))]
pub(crate) fn read_typo(
    alloc: Global,
    ascender: i32,
    descender: i32,
    info: &Value,
) -> Result<Lines, Stop>
    requires up { IsWithin metric ascender }
    requires down { IsWithin metric descender }
    ensures exact { Gives (λ lines. lines) result (rules.typo_of ascender descender (plain_value info.now)) }
    ensures within { IfOk result AreLinesWithin }
{
    let ascender = number_or(alloc, METRIC, ascender, Key::TypoAscender, info)?;
    let descender = number_or(alloc, METRIC, descender, Key::TypoDescender, info)?;
    let gap = number_or(alloc, METRIC, 0, Key::TypoLineGap, info)?;
    Ok(Lines {
        ascender,
        descender,
        gap,
    })
}
