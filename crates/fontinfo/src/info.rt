ghost use Rattle.std.specs.Prelude.{◌≡◌, IfOk, Ok};
ghost use Rattle.basics.specs.Reading.{Gives};
ghost use Rattle.plist.specs.Values.{dict, no_entries, plain_value};
ghost use Rattle.fontinfo.specs.Metrics.{AreMetricsWithin};
ghost use Rattle.fontinfo.specs.Naming.{AreTextsShort, IsVersionWithin};
ghost use Rattle.fontinfo.specs.Tables.{AreTablesWithin};
ghost use Rattle.fontinfo.specs.FontInfo.{AreNumbersWithin, AreTextsWithin, info_from, info_of, is_dict};

use crate::keys::wrong_kind;
use crate::metrics::{Heights, Metrics, read_metrics};
use crate::naming::{Legal, Names, Naming, read_naming};
use crate::tables::{Tables, read_tables};
use basics::{Name, NoMemory, Stop};
use fixpoint::Fix;
use plist::Value;
use std::alloc::Global;

/// What a font says of itself (UFO 3, "fontinfo.plist"): the keys from which its tables are made, each with its
/// default where the key is absent. Heights are in units of the em, and in -32,767..32,767.
#[derive(Drop)]
pub struct Info {
    /// `unitsPerEm`: the units of the em, 16..16,384; 1000 by default.
    pub units: i32,
    /// `ascender`; by default four fifths of the em, rounded down.
    pub ascender: i32,
    /// `descender`, which is negative below the baseline; by default a fifth of the em, rounded down, below it.
    pub descender: i32,
    /// `xHeight`; by default half the em, rounded down.
    pub x_height: i32,
    /// `capHeight`; by default seven tenths of the em, rounded down.
    pub cap_height: i32,
    /// `italicAngle`, in degrees counted against the clock; 0 by default.
    pub italic: Fix<16>,
    /// `familyName`, at most 100 units of UTF-16; `Untitled` by default.
    pub family: Name,
    /// `styleName`, at most 100 units of UTF-16; `Regular` by default.
    pub style: Name,
    /// `versionMajor`, 0..999; 0 by default.
    pub major: i32,
    /// `versionMinor`, 0..999; 0 by default.
    pub minor: i32,
    /// `copyright`, at most 1000 units of UTF-16.
    pub copyright: Option<Name>,
    /// `openTypeNameVersion`, at most 100 units of UTF-16; by default `Version `, the major version, a point, and
    /// the minor version in three digits.
    pub version: Name,
    /// `openTypeHheaAscender`; the ascender by default.
    pub hhea_ascender: i32,
    /// `openTypeHheaDescender`; the descender by default.
    pub hhea_descender: i32,
    /// `openTypeHheaLineGap`; 0 by default.
    pub hhea_gap: i32,
    /// `openTypeOS2TypoAscender`; the ascender by default.
    pub typo_ascender: i32,
    /// `openTypeOS2TypoDescender`; the descender by default.
    pub typo_descender: i32,
    /// `openTypeOS2TypoLineGap`; 0 by default.
    pub typo_gap: i32,
    /// `openTypeOS2WinAscent`, not negative.
    pub win_ascent: Option<i32>,
    /// `openTypeOS2WinDescent`, counted down and not negative.
    pub win_descent: Option<i32>,
    /// `openTypeOS2WeightClass`, 1..1000; 400 by default.
    pub weight: i32,
    /// `openTypeOS2WidthClass`, 1..9; 5 by default.
    pub width: i32,
    /// `openTypeOS2VendorID`, one to four bytes of ASCII 32 to 126, filled with spaces; four spaces by default.
    pub vendor: [u8; 4],
    /// `postscriptUnderlinePosition`; by default a tenth of the em, rounded down, below the baseline.
    pub underline_at: i32,
    /// `postscriptUnderlineThickness`; by default a twentieth of the em, rounded down.
    pub underline_size: i32,
}

/// The parts put together.
fn info_from(metrics: &Metrics, naming: Naming, tables: Tables) -> Info
    requires metrics { AreMetricsWithin metrics.now }
    requires version { IsVersionWithin naming.numbers }
    requires texts { AreTextsShort naming }
    requires tables { AreTablesWithin tables }
    ensures value { result ≡ info_from metrics.now naming tables }
    ensures within { AreNumbersWithin result }
    ensures texts { AreTextsWithin result }
{
    let Names { family, style } = naming.names;
    let Legal { copyright, version } = naming.legal;
    let vendor = tables.os2.classes.vendor;
    Info {
        units: metrics.units,
        ascender: metrics.heights.ascender,
        descender: metrics.heights.descender,
        x_height: metrics.letters.x_height,
        cap_height: metrics.letters.cap_height,
        italic: metrics.letters.italic,
        family,
        style,
        major: naming.numbers.major,
        minor: naming.numbers.minor,
        copyright,
        version,
        hhea_ascender: tables.hhea.ascender,
        hhea_descender: tables.hhea.descender,
        hhea_gap: tables.hhea.gap,
        typo_ascender: tables.os2.typo.ascender,
        typo_descender: tables.os2.typo.descender,
        typo_gap: tables.os2.typo.gap,
        win_ascent: tables.os2.clipping.ascent,
        win_descent: tables.os2.clipping.descent,
        weight: tables.os2.classes.weight,
        width: tables.os2.classes.width,
        vendor,
        underline_at: tables.underline.position,
        underline_size: tables.underline.size,
    }
}

/// Tests that the value is a dictionary.
fn check_dict(alloc: Global, value: &Value) -> Result<(), Stop>
    ensures { Gives (λ _. tt) result (is_dict (plain_value value.now)) }
{
    match value.as_dict() {
        Some(_) => Ok(()),
        None => Err(wrong_kind(alloc)),
    }
}

/// Reads the font information off the value of `fontinfo.plist` (UFO 3), a dictionary. Numbers are decimal texts with
/// 16 binary places, and all but the angle are rounded to the nearest whole number, a tie going up, before their
/// range is tested. Keys that no field of [`Info`] names mean nothing.
///
/// # Errors
///
/// `Stop::At` with the first fault, the value's own before those of its keys, and these in the order of the fields:
/// NotPlist where the value is no dictionary or a key's value isn't of its kind, a number or a text; NotNumber, with
/// the key, where a number isn't a decimal text; NumberRange, with the key, where it doesn't fit 16 binary places or
/// leaves the range of its field; UnitsRange, with the number, where `unitsPerEm` does; NameLength, with the key and
/// the length, where a text is too long; BadTag, with the text, where the vendor's isn't a tag. `Stop::NoMemory`
/// where memory ran out.
#[tactic(auto, unfolding(crate::specs::FontInfo::info_of))]
pub fn read(alloc: Global, value: &Value) -> Result<Info, Stop>
    // Which information it is, and which fault.
    ensures exact { Gives (λ info. info) result (info_of (plain_value value.now)) }
    // The numbers are in their ranges.
    ensures within { IfOk result AreNumbersWithin }
    // The texts are short enough.
    ensures texts { IfOk result AreTextsWithin }
{
    check_dict(alloc, value)?;
    let metrics = read_metrics(alloc, value)?;
    let naming = read_naming(alloc, value)?;
    let Heights {
        ascender,
        descender,
    } = metrics.heights;
    let tables = read_tables(alloc, metrics.units, ascender, descender, value)?;
    Ok(info_from(&metrics, naming, tables))
}

impl Info {
    /// The information of a font that tells none: each field has its default.
    #[tactic(auto, using(crate::proofs::Plain::plain_is))]
    pub fn plain(alloc: Global) -> Result<Info, NoMemory>
        // It is what an empty dictionary is read as.
        ensures exact { IfOk result (λ info. info_of (dict no_entries) ≡ Ok info) }
        // Its texts are short enough.
        ensures texts { IfOk result AreTextsWithin }
    {
        let family = Name::from_str(alloc, "Untitled")?;
        let style = Name::from_str(alloc, "Regular")?;
        let version = Name::from_str(alloc, "Version 0.000")?;
        let vendor = [b' '; 4];
        Ok(Info {
            units: 1000,
            ascender: 800,
            descender: -200,
            x_height: 500,
            cap_height: 700,
            italic: Fix::from_raw(0),
            family,
            style,
            major: 0,
            minor: 0,
            copyright: None,
            version,
            hhea_ascender: 800,
            hhea_descender: -200,
            hhea_gap: 0,
            typo_ascender: 800,
            typo_descender: -200,
            typo_gap: 0,
            win_ascent: None,
            win_descent: None,
            weight: 400,
            width: 5,
            vendor,
            underline_at: -100,
            underline_size: 50,
        })
    }
}
