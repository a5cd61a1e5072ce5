ghost use Rattle.std.specs.Prelude.{◌≡◌, ℕ, ◌*◌, List, ◌++◌, length, IfOk, OnOk, Some};
ghost use Rattle.fontinfo.specs.FontInfo.{AreNumbersWithin};
ghost use Rattle.plain_tables.specs.Conditions.{AreFacts, IsAdvanceWithin, IsGlyphWithin};
ghost use Rattle.plain_tables.specs.FixedFields.{AreRead, table_bytes, values_of};
ghost use Rattle.plain_tables.specs.HorizontalMetrics.{hhea_fields, hhea_of, hmtx_bytes, metric_fields, metric_of, metrics_in, metrics_of};

use crate::facts::Facts;
use crate::glyphs::{Glyph, glyph_at};
use crate::measures::{Extent, measured};
use crate::values::{short, table, word};
use basics::NoMemory;
use be_bytes::Field::{self, Int16, Uint16};
use be_bytes::put_fields;
use fontinfo::Info;
use std::alloc::Global;

/// The table of lines of text that run horizontally (OpenType, "hhea", version 1.0), 36 bytes: the heights of lines, the
/// greatest advance width, the least bearings and the greatest reach over all glyphs that have contours, and that table
/// `hmtx` has a record for each glyph.
pub fn hhea(alloc: Global, facts: &Facts) -> Result<Vec<u8>, NoMemory>
    requires { AreFacts facts.now }
    ensures written { IfOk result (λ bytes. bytes.items ≡ table_bytes (hhea_of facts.now)) }
    ensures means { IfOk result (λ bytes. AreRead (hhea_of facts.now) bytes.items) }
    ensures size { IfOk result (λ bytes. length bytes.items ≡ 36) }
{
    let measures = measured(facts);
    let glyphs = facts.names.len() as u16;
    let widest = measures.widths.widest;
    let fields = hhea_fields(&facts.info, measures.extent, widest, glyphs);
    let bytes = table(alloc, &fields)?;
    Ok(bytes)
}

/// The fields of `hhea`.
#[tactic(auto, unfolding(crate::specs::HorizontalMetrics::hhea_fields))]
fn hhea_fields(info: &Info, extent: Extent, widest: i32, glyphs: u16) -> [Field; 18]
    requires numbers { AreNumbersWithin info.now }
    requires widest { IsAdvanceWithin widest }
    ensures { result ≡ values_of (hhea_fields info.now extent widest glyphs) }
{
    [
        // majorVersion, minorVersion
        Uint16(1),
        Uint16(0),
        // ascender, descender, lineGap
        short(info.hhea_ascender),
        short(info.hhea_descender),
        short(info.hhea_gap),
        // advanceWidthMax, minLeftSideBearing, minRightSideBearing, xMaxExtent
        word(widest),
        Int16(extent.bounds.x_min),
        Int16(extent.right),
        Int16(extent.bounds.x_max),
        // caretSlopeRise, caretSlopeRun, caretOffset
        Int16(1),
        Int16(0),
        Int16(0),
        // four reserved, metricDataFormat, numberOfHMetrics
        Int16(0),
        Int16(0),
        Int16(0),
        Int16(0),
        Int16(0),
        Uint16(glyphs),
    ]
}

/// The table of the horizontal metrics (OpenType, "hmtx"): for each glyph its advance width, and its left side bearing,
/// which is its least x coordinate, or 0 where it has no contours.
pub fn hmtx(alloc: Global, facts: &Facts) -> Result<Vec<u8>, NoMemory>
    requires { AreFacts facts.now }
    ensures written { IfOk result (λ bytes. bytes.items ≡ hmtx_bytes facts.now) }
    ensures means { IfOk result (λ bytes. metrics_in (length facts.now.names) (length facts.now.names) bytes.items ≡ Some (metrics_of facts.now)) }
    ensures size { IfOk result (λ bytes. length bytes.items ≡ 4 * length facts.now.names) }
{
    let mut bytes = Vec::new(alloc);
    for index in 0..facts.names.len() {
        put_fields(&mut bytes, &metric(glyph_at(facts, index)))?;
    }
    Ok(bytes)
}

/// The fields of a glyph in `hmtx`: advanceWidth, lsb.
fn metric(glyph: Glyph) -> [Field; 2]
    requires { IsGlyphWithin glyph }
    ensures { result ≡ metric_fields (metric_of glyph) }
{
    let bearing = if glyph.contours == 0 {
        0
    } else {
        glyph.bounds.x_min
    };
    [word(glyph.advance), Int16(bearing)]
}
