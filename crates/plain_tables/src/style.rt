ghost use Rattle.std.specs.Prelude.{◌≡◌, ℕ, ℤ, pos, List, length, IfOk, IfSome, ◌≤ℤ◌, if◌then◌else◌};
ghost use Rattle.be_bytes.specs.declared.field.Field.TheVariants.{Tag, Uint16};
ghost use Rattle.fontinfo.specs.FontInfo.{AreNumbersWithin};
ghost use Rattle.fontinfo.specs.Ranges.{IsWithin, height};
ghost use Rattle.glyf_loca.specs.Bounds.{greatest, least};
ghost use Rattle.plain_tables.specs.Conditions.{AreFacts, CodesRise};
ghost use Rattle.plain_tables.specs.FixedFields.{AreRead, table_bytes, values_of, word};
ghost use Rattle.plain_tables.specs.StyleMetrics.{class_fields, clipped, codes_of, cut, line_fields, os2_of};

use crate::facts::Facts;
use crate::measures::{average, measured};
use crate::values::{hundredth, short, thousandth, word};
use basics::NoMemory;
use be_bytes::Field::{self, Int16, Tag, Uint8, Uint16, Uint32};
use be_bytes::put_fields;
use fontinfo::Info;
use glyf_loca::Bounds;
use std::alloc::Global;

/// The last code point that a field of 16 bits holds.
const LAST_CODE: u32 = 0xFFFF;

/// The table of a font's style and lines (OpenType, "OS/2", version 4), 96 bytes. The average is over the advance
/// widths above 0; the first and the last code point are the least and the greatest, each cut to 0xFFFF; where no
/// clipping heights are told, they reach as far as the glyphs that have contours.
pub fn os2(alloc: Global, facts: &Facts) -> Result<Vec<u8>, NoMemory>
    requires { AreFacts facts.now }
    ensures written { IfOk result (λ bytes. bytes.items ≡ table_bytes (os2_of facts.now)) }
    ensures means { IfOk result (λ bytes. AreRead (os2_of facts.now) bytes.items) }
    ensures size { IfOk result (λ bytes. length bytes.items ≡ 96) }
{
    let measures = measured(facts);
    let average = average(measures.widths);
    let codes = facts.codes.as_slice();
    let mut bytes = Vec::new(alloc);
    put_fields(&mut bytes, &class_fields(&facts.info, average))?;
    put_fields(
        &mut bytes,
        &line_fields(
            &facts.info,
            measures.extent.bounds,
            codes,
            facts.substitutes,
        ),
    )?;
    Ok(bytes)
}

/// The fields up to the classes of `panose`.
#[tactic(auto, unfolding(crate::specs::StyleMetrics::class_fields))]
fn class_fields(info: &Info, average: i16) -> [Field; 26]
    requires { AreNumbersWithin info.now }
    ensures { result ≡ values_of (class_fields info.now average) }
{
    [
        // version, xAvgCharWidth, usWeightClass, usWidthClass, fsType
        Uint16(4),
        Int16(average),
        word(info.weight),
        word(info.width),
        Uint16(0),
        // ySubscriptXSize, ySubscriptYSize, ySubscriptXOffset, ySubscriptYOffset
        hundredth(65 * info.units),
        hundredth(60 * info.units),
        Int16(0),
        thousandth(75 * info.units),
        // ySuperscriptXSize, ySuperscriptYSize, ySuperscriptXOffset, ySuperscriptYOffset
        hundredth(65 * info.units),
        hundredth(60 * info.units),
        Int16(0),
        hundredth(35 * info.units),
        // yStrikeoutSize, yStrikeoutPosition, sFamilyClass
        short(info.underline_size),
        hundredth(60 * info.x_height),
        Int16(0),
        // panose
        Uint8(0),
        Uint8(0),
        Uint8(0),
        Uint8(0),
        Uint8(0),
        Uint8(0),
        Uint8(0),
        Uint8(0),
        Uint8(0),
        Uint8(0),
    ]
}

/// The fields after `panose`.
#[tactic(auto, unfolding(crate::specs::StyleMetrics::line_fields))]
fn line_fields(info: &Info, bounds: Bounds, codes: &[(u32, u16)], substitutes: bool) -> [Field; 20]
    requires numbers { AreNumbersWithin info.now }
    requires codes { CodesRise 0 codes.now }
    ensures value { result ≡ values_of (line_fields info.now bounds codes.now substitutes) }
    ensures vendor { length info.now.vendor ≡ 4 }
{
    [
        // ulUnicodeRange1, ulUnicodeRange2, ulUnicodeRange3, ulUnicodeRange4
        Uint32(0),
        Uint32(0),
        Uint32(0),
        Uint32(0),
        // achVendID, fsSelection, usFirstCharIndex, usLastCharIndex
        vendor(info.vendor),
        Uint16(0x0040),
        first_code(codes),
        last_code(codes),
        // sTypoAscender, sTypoDescender, sTypoLineGap
        short(info.typo_ascender),
        short(info.typo_descender),
        short(info.typo_gap),
        // usWinAscent, usWinDescent
        clip(info.win_ascent, i32::from(bounds.y_max)),
        clip(info.win_descent, -i32::from(bounds.y_min)),
        // ulCodePageRange1, ulCodePageRange2
        Uint32(0),
        Uint32(0),
        // sxHeight, sCapHeight, usDefaultChar, usBreakChar, usMaxContext
        short(info.x_height),
        short(info.cap_height),
        Uint16(0),
        Uint16(32),
        context(substitutes),
    ]
}

/// The field of the vendor.
fn vendor(letters: [u8; 4]) -> Field
    ensures value { result ≡ Tag letters }
    ensures size { length letters ≡ 4 }
{
    Tag(letters)
}

/// The field of the longest context: one glyph, where glyphs are substituted.
fn context(substitutes: bool) -> Field
    ensures { result ≡ Uint16 (if substitutes then 1 else 0) }
{
    if substitutes { Uint16(1) } else { Uint16(0) }
}

/// The field of the least code point.
fn first_code(codes: &[(u32, u16)]) -> Field
    requires { CodesRise 0 codes.now }
    ensures { result ≡ cut (least (codes_of codes.now)) }
{
    if codes.is_empty() {
        return Uint16(0);
    }
    let (code, _) = codes[0];
    Uint16(code.min(LAST_CODE) as u16)
}

/// The field of the greatest code point.
fn last_code(codes: &[(u32, u16)]) -> Field
    requires { CodesRise 0 codes.now }
    ensures { result ≡ cut (greatest (codes_of codes.now)) }
{
    if codes.is_empty() {
        return Uint16(0);
    }
    let (code, _) = codes[codes.len() - 1];
    Uint16(code.min(LAST_CODE) as u16)
}

/// The field of a clipping height: the one that is told, or how far glyphs reach.
fn clip(told: Option<i32>, reach: i32) -> Field
    requires told { IfSome told (IsWithin height) }
    requires reach { reach ≤ℤ pos 65535 }
    ensures { result ≡ word (clipped told reach) }
{
    match told {
        Some(height) => word(height),
        None => word(reach.max(0)),
    }
}
