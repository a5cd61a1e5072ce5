ghost use Rattle.std.specs.Prelude.{◌≡◌, IfOk};
ghost use Rattle.basics.specs.Reading.{Gives};
ghost use Rattle.plist.specs.Values.{plain_value};
ghost use Rattle.fontinfo.specs.Ranges as range;
ghost use Rattle.fontinfo.specs.Ranges.{IsWithin, metric};
ghost use Rattle.fontinfo.specs.Tables as rules;
ghost use Rattle.fontinfo.specs.Tables.{AreTablesWithin, IsOs2Within};

use crate::classes::{Classes, Clipping, read_classes, read_clipping};
use crate::lines::{Lines, read_hhea, read_typo};
use crate::underline::{Underline, read_underline};
use basics::Stop;
use plist::Value;
use std::alloc::Global;

/// What the table `OS/2` says beside the metrics.
#[derive(Clone, Copy)]
pub(crate) struct Os2 {
    /// The heights of lines.
    pub(crate) typo: Lines,
    /// Where glyphs are cut off.
    pub(crate) clipping: Clipping,
    /// The classes of weight and width, and the vendor.
    pub(crate) classes: Classes,
}

/// What the tables `hhea`, `OS/2` and `post` say beside the metrics.
#[derive(Clone, Copy)]
pub(crate) struct Tables {
    /// The heights of lines of `hhea`.
    pub(crate) hhea: Lines,
    /// What `OS/2` says.
    pub(crate) os2: Os2,
    /// The underline of `post`.
    pub(crate) underline: Underline,
}

/// What the table `OS/2` says of a font with this ascender and this descender.
#[tactic(auto, unfolding(crate::specs::Tables::os2_of))]
fn read_os2(alloc: Global, ascender: i32, descender: i32, info: &Value) -> Result<Os2, Stop>
    requires up { IsWithin metric ascender }
    requires down { IsWithin metric descender }
    ensures exact { Gives (λ os2. os2) result (rules.os2_of ascender descender (plain_value info.now)) }
    ensures within { IfOk result IsOs2Within }
{
    let typo = read_typo(alloc, ascender, descender, info)?;
    let clipping = read_clipping(alloc, info)?;
    let classes = read_classes(alloc, info)?;
    Ok(Os2 {
        typo,
        clipping,
        classes,
    })
}

/// What the tables `hhea`, `OS/2` and `post` say of a font with these units of the em, this ascender and this descender.
#[tactic(auto, unfolding(crate::specs::Tables::tables_of))]
pub(crate) fn read_tables(
    alloc: Global,
    units: i32,
    ascender: i32,
    descender: i32,
    info: &Value,
) -> Result<Tables, Stop>
    requires em { IsWithin range.units units }
    requires up { IsWithin metric ascender }
    requires down { IsWithin metric descender }
    ensures exact { Gives (λ tables. tables) result (rules.tables_of units ascender descender (plain_value info.now)) }
    ensures within { IfOk result AreTablesWithin }
{
    let hhea = read_hhea(alloc, ascender, descender, info)?;
    let os2 = read_os2(alloc, ascender, descender, info)?;
    let underline = read_underline(alloc, units, info)?;
    Ok(Tables {
        hhea,
        os2,
        underline,
    })
}
