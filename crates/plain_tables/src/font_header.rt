ghost use Rattle.std.specs.Prelude.{◌≡◌, ℕ, List, [], ◌∷◌, drop, length, take, IfOk};
ghost use Rattle.be_bytes.specs.declared.field.Field.TheVariants.{Int32};
ghost use Rattle.fontinfo.specs.FontInfo.{AreNumbersWithin};
ghost use Rattle.plain_tables.specs.Conditions.{AreFacts};
ghost use Rattle.plain_tables.specs.FixedFields.{AreRead, table_bytes, values_of};
ghost use Rattle.plain_tables.specs.FontHeader.{head_fields, head_of, maxp_fields, maxp_of, revision_of};

use crate::facts::Facts;
use crate::measures::{Counts, measured};
use crate::values::{table, word};
use basics::NoMemory;
use be_bytes::Field::{self, Int16, Int32, Int64, Uint16, Uint32};
use fixpoint::divide_up;
use fontinfo::Info;
use glyf_loca::Bounds;
use std::alloc::Global;

/// The table of the whole font (OpenType, "head", version 1.0), 54 bytes: its version and units, the bounds over all
/// glyphs that have contours, and the form of the offsets in `loca`. Its field checksumAdjustment is 0: it hangs on the
/// file as a whole.
pub fn head(alloc: Global, facts: &Facts) -> Result<Vec<u8>, NoMemory>
    requires { AreFacts facts.now }
    ensures written { IfOk result (λ bytes. bytes.items ≡ table_bytes (head_of facts.now)) }
    ensures means { IfOk result (λ bytes. AreRead (head_of facts.now) bytes.items) }
    ensures size { IfOk result (λ bytes. length bytes.items ≡ 54) }
    ensures adjustment { IfOk result (λ bytes. take 4 (drop 8 bytes.items) ≡ 0 ∷ 0 ∷ 0 ∷ 0 ∷ []) }
{
    let measures = measured(facts);
    let fields = head_fields(&facts.info, measures.extent.bounds, facts.long);
    let bytes = table(alloc, &fields)?;
    Ok(bytes)
}

/// The fields of `head`.
#[tactic(auto, unfolding(crate::specs::FontHeader::head_fields))]
fn head_fields(info: &Info, bounds: Bounds, long: bool) -> [Field; 18]
    requires { AreNumbersWithin info.now }
    ensures { result ≡ values_of (head_fields info.now bounds long) }
{
    [
        // majorVersion, minorVersion, fontRevision
        Uint16(1),
        Uint16(0),
        revision(info),
        // checksumAdjustment, magicNumber, flags
        Uint32(0),
        Uint32(0x5F0F_3CF5),
        Uint16(3),
        // unitsPerEm, created, modified
        word(info.units),
        Int64(0),
        Int64(0),
        // xMin, yMin, xMax, yMax
        Int16(bounds.x_min),
        Int16(bounds.y_min),
        Int16(bounds.x_max),
        Int16(bounds.y_max),
        // macStyle, lowestRecPPEM, fontDirectionHint
        Uint16(0),
        Uint16(6),
        Int16(2),
        // indexToLocFormat, glyphDataFormat
        Int16(if long { 1 } else { 0 }),
        Int16(0),
    ]
}

/// The field of the version, its minor number in thousandths.
fn revision(info: &Info) -> Field
    requires { AreNumbersWithin info.now }
    ensures { result ≡ Int32 (revision_of info.now) }
{
    let minor = divide_up(i64::from(info.minor) * 65536, 1000) as i32;
    Int32(info.major * 65536 + minor)
}

/// The table of what a font takes to be drawn (OpenType, "maxp", version 1.0), 32 bytes: the number of glyphs, and the
/// most points and contours of one of them.
pub fn maxp(alloc: Global, facts: &Facts) -> Result<Vec<u8>, NoMemory>
    requires { AreFacts facts.now }
    ensures written { IfOk result (λ bytes. bytes.items ≡ table_bytes (maxp_of facts.now)) }
    ensures means { IfOk result (λ bytes. AreRead (maxp_of facts.now) bytes.items) }
    ensures size { IfOk result (λ bytes. length bytes.items ≡ 32) }
{
    let measures = measured(facts);
    let glyphs = facts.names.len() as u16;
    let bytes = table(alloc, &maxp_fields(glyphs, measures.counts))?;
    Ok(bytes)
}

/// The fields of `maxp`.
#[tactic(auto, unfolding(crate::specs::FontHeader::maxp_fields))]
fn maxp_fields(glyphs: u16, counts: Counts) -> [Field; 15]
    ensures { result ≡ values_of (maxp_fields glyphs counts) }
{
    [
        // version
        Uint32(0x0001_0000),
        // numGlyphs, maxPoints, maxContours
        Uint16(glyphs),
        Uint16(counts.points),
        Uint16(counts.contours),
        // maxCompositePoints, maxCompositeContours
        Uint16(0),
        Uint16(0),
        // maxZones, maxTwilightPoints, maxStorage, maxFunctionDefs, maxInstructionDefs
        Uint16(2),
        Uint16(0),
        Uint16(0),
        Uint16(0),
        Uint16(0),
        // maxStackElements, maxSizeOfInstructions, maxComponentElements, maxComponentDepth
        Uint16(0),
        Uint16(0),
        Uint16(0),
        Uint16(0),
    ]
}
