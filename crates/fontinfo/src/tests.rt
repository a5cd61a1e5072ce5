//! Each key right and wrong, by itself and beside its neighbour.

use crate::{Info, read};
use basics::{Name, NoMemory, Stop};
use plist::Value;
use std::alloc::Global;
use std::fmt::Write;
use std::process::Abort;
use std::test::Fail;

/// Keys with their values, parted by `|`, a number after `#` and a text after `'`; and what differs from the
/// information of a font that tells none. The defaults are worked out by hand: of 2048 units four fifths are 1638.4,
/// a fifth 409.6, half 1024, seven tenths 1433.6, a tenth 204.8 and a twentieth 102.4.
const READ: [(&str, &str); 15] = [
    ("", ""),
    ("note='x|guidelines=!|ascender =#7", ""),
    (
        "unitsPerEm=#2048",
        "units 2048;ascender 1638;descender -409;x 1024;cap 1433;hhea 1638 -409 0;typo 1638 -409 0;underline -204 102;",
    ),
    (
        "unitsPerEm=#15.5",
        "units 16;ascender 12;descender -3;x 8;cap 11;hhea 12 -3 0;typo 12 -3 0;underline -1 0;",
    ),
    (
        "unitsPerEm=#16384.49",
        "units 16384;ascender 13107;descender -3276;x 8192;cap 11468;hhea 13107 -3276 0;typo 13107 -3276 0;underline -1638 819;",
    ),
    (
        "ascender=#750",
        "ascender 750;hhea 750 -200 0;typo 750 -200 0;",
    ),
    ("ascender=#0.5", "ascender 1;hhea 1 -200 0;typo 1 -200 0;"),
    ("ascender=#-0.5", "ascender 0;hhea 0 -200 0;typo 0 -200 0;"),
    (
        "ascender=#32767.4",
        "ascender 32767;hhea 32767 -200 0;typo 32767 -200 0;",
    ),
    (
        "descender=#-250",
        "descender -250;hhea 800 -250 0;typo 800 -250 0;",
    ),
    (
        "descender=#-32767.5",
        "descender -32767;hhea 800 -32767 0;typo 800 -32767 0;",
    ),
    ("xHeight=#480", "x 480;"),
    ("capHeight=# 650.5 ", "cap 651;"),
    ("italicAngle=#-12.5", "italic -819200;"),
    ("italicAngle=#32767.99999", "italic 2147483647;"),
];

/// The same, for later keys.
const READ_NAMING: [(&str, &str); 15] = [
    ("familyName='Io", "family Io;"),
    ("familyName='", "family ;"),
    ("styleName='Bold", "style Bold;"),
    ("versionMajor=#3", "major 3;version Version 3.000;"),
    ("versionMajor=#999.4", "major 999;version Version 999.000;"),
    ("versionMajor=#-0.5", ""),
    ("versionMinor=#7", "minor 7;version Version 0.007;"),
    ("versionMinor=#998.5", "minor 999;version Version 0.999;"),
    (
        "versionMajor=#12|versionMinor=#45",
        "major 12;minor 45;version Version 12.045;",
    ),
    ("copyright='(c) me", "copyright (c) me;"),
    (
        "openTypeNameVersion='1.0 beta|versionMajor=#2",
        "major 2;version 1.0 beta;",
    ),
    ("openTypeHheaAscender=#900", "hhea 900 -200 0;"),
    ("openTypeHheaDescender=#-300", "hhea 800 -300 0;"),
    ("openTypeHheaLineGap=#90", "hhea 800 -200 90;"),
    ("openTypeOS2TypoAscender=#700", "typo 700 -200 0;"),
];

/// The same, for later keys.
const READ_TABLES: [(&str, &str); 15] = [
    ("openTypeOS2TypoDescender=#-310", "typo 800 -310 0;"),
    ("openTypeOS2TypoLineGap=#-1.5", "typo 800 -200 -1;"),
    ("openTypeOS2WinAscent=#1000", "win Some(1000) None;"),
    ("openTypeOS2WinAscent=#-0.5", "win Some(0) None;"),
    ("openTypeOS2WinDescent=#250.5", "win None Some(251);"),
    ("openTypeOS2WinDescent=#32767", "win None Some(32767);"),
    ("openTypeOS2WeightClass=#0.5", "weight 1;"),
    ("openTypeOS2WeightClass=#1000.4", "weight 1000;"),
    ("openTypeOS2WidthClass=#9.4", "width 9;"),
    ("openTypeOS2WidthClass=#1", "width 1;"),
    ("openTypeOS2VendorID='x", "vendor [120, 32, 32, 32];"),
    ("openTypeOS2VendorID=' ~ab", "vendor [32, 126, 97, 98];"),
    ("postscriptUnderlinePosition=#-75.5", "underline -75 50;"),
    ("postscriptUnderlineThickness=#20.5", "underline -100 21;"),
    ("postscriptUnderlineThickness=#-20", "underline -100 -20;"),
];

/// Keys with a fault, the first where there are two; and the fault.
const REFUSED: [(&str, &str); 16] = [
    ("unitsPerEm='1000", "NotPlist  0 0 0 0"),
    ("unitsPerEm=#", "NotNumber unitsPerEm 0 0 0 0"),
    ("unitsPerEm=#15.49", "UnitsRange  0 0 15 0"),
    ("unitsPerEm=#16384.5", "UnitsRange  0 0 16385 0"),
    ("unitsPerEm=#-1000", "UnitsRange  0 0 -1000 0"),
    ("unitsPerEm=#32768", "NumberRange unitsPerEm 0 0 0 0"),
    ("ascender='750", "NotPlist  0 0 0 0"),
    ("ascender=#x", "NotNumber ascender 0 0 0 0"),
    ("ascender=#32767.5", "NumberRange ascender 0 0 0 0"),
    ("ascender=#-32767.51", "NumberRange ascender 0 0 0 0"),
    ("descender=!", "NotPlist  0 0 0 0"),
    ("descender=#1e3", "NotNumber descender 0 0 0 0"),
    ("descender=#-32767.51", "NumberRange descender 0 0 0 0"),
    ("xHeight='", "NotPlist  0 0 0 0"),
    ("xHeight=#32767.5", "NumberRange xHeight 0 0 0 0"),
    ("capHeight=#-32768", "NumberRange capHeight 0 0 0 0"),
];

/// The same, for later keys.
const REFUSED_NAMING: [(&str, &str); 16] = [
    ("italicAngle='0", "NotPlist  0 0 0 0"),
    ("italicAngle=#north", "NotNumber italicAngle 0 0 0 0"),
    ("italicAngle=#-32768", "NumberRange italicAngle 0 0 0 0"),
    ("familyName=#1", "NotPlist  0 0 0 0"),
    ("styleName=!", "NotPlist  0 0 0 0"),
    ("versionMajor='1", "NotPlist  0 0 0 0"),
    ("versionMajor=#one", "NotNumber versionMajor 0 0 0 0"),
    ("versionMajor=#999.5", "NumberRange versionMajor 0 0 0 0"),
    ("versionMajor=#-0.51", "NumberRange versionMajor 0 0 0 0"),
    ("versionMinor=#1000", "NumberRange versionMinor 0 0 0 0"),
    ("versionMinor=#-1", "NumberRange versionMinor 0 0 0 0"),
    ("copyright=#1", "NotPlist  0 0 0 0"),
    ("openTypeNameVersion=#1.0", "NotPlist  0 0 0 0"),
    (
        "openTypeHheaAscender=#32768",
        "NumberRange openTypeHheaAscender 0 0 0 0",
    ),
    ("openTypeHheaDescender='", "NotPlist  0 0 0 0"),
    (
        "openTypeHheaLineGap=#a",
        "NotNumber openTypeHheaLineGap 0 0 0 0",
    ),
];

/// The same, for later keys.
const REFUSED_TABLES: [(&str, &str); 16] = [
    ("openTypeOS2TypoAscender=!", "NotPlist  0 0 0 0"),
    (
        "openTypeOS2TypoDescender=#-32767.6",
        "NumberRange openTypeOS2TypoDescender 0 0 0 0",
    ),
    (
        "openTypeOS2TypoLineGap=#.5",
        "NotNumber openTypeOS2TypoLineGap 0 0 0 0",
    ),
    (
        "openTypeOS2WinAscent=#-0.51",
        "NumberRange openTypeOS2WinAscent 0 0 0 0",
    ),
    ("openTypeOS2WinAscent='1", "NotPlist  0 0 0 0"),
    (
        "openTypeOS2WinDescent=#-1",
        "NumberRange openTypeOS2WinDescent 0 0 0 0",
    ),
    (
        "openTypeOS2WinDescent=#32767.5",
        "NumberRange openTypeOS2WinDescent 0 0 0 0",
    ),
    (
        "openTypeOS2WeightClass=#0.49",
        "NumberRange openTypeOS2WeightClass 0 0 0 0",
    ),
    (
        "openTypeOS2WeightClass=#1000.5",
        "NumberRange openTypeOS2WeightClass 0 0 0 0",
    ),
    (
        "openTypeOS2WidthClass=#0",
        "NumberRange openTypeOS2WidthClass 0 0 0 0",
    ),
    (
        "openTypeOS2WidthClass=#9.5",
        "NumberRange openTypeOS2WidthClass 0 0 0 0",
    ),
    ("openTypeOS2VendorID=#1", "NotPlist  0 0 0 0"),
    ("openTypeOS2VendorID='", "BadTag  0 0 0 0"),
    ("openTypeOS2VendorID='abcde", "BadTag abcde 0 0 0 0"),
    ("openTypeOS2VendorID='\u{e9}", "BadTag \u{e9} 0 0 0 0"),
    ("openTypeOS2VendorID='a\t", "BadTag a\t 0 0 0 0"),
];

/// The same, for later keys.
const REFUSED_LATER: [(&str, &str); 14] = [
    ("openTypeOS2VendorID='\u{7f}", "BadTag \u{7f} 0 0 0 0"),
    (
        "postscriptUnderlinePosition=#--1",
        "NotNumber postscriptUnderlinePosition 0 0 0 0",
    ),
    (
        "postscriptUnderlineThickness=#40000",
        "NumberRange postscriptUnderlineThickness 0 0 0 0",
    ),
    // The first of two, which stands later in the dictionary.
    ("ascender=#x|unitsPerEm=#1", "UnitsRange  0 0 1 0"),
    ("xHeight=#x|descender=#x", "NotNumber descender 0 0 0 0"),
    ("italicAngle=#x|capHeight=#x", "NotNumber capHeight 0 0 0 0"),
    (
        "familyName=#1|italicAngle=#x",
        "NotNumber italicAngle 0 0 0 0",
    ),
    (
        "versionMinor=#x|versionMajor=#x",
        "NotNumber versionMajor 0 0 0 0",
    ),
    (
        "copyright=#1|versionMinor=#x",
        "NotNumber versionMinor 0 0 0 0",
    ),
    (
        "openTypeOS2TypoAscender=#x|openTypeHheaLineGap=#x",
        "NotNumber openTypeHheaLineGap 0 0 0 0",
    ),
    (
        "openTypeOS2WinDescent=#x|openTypeOS2WinAscent=#x",
        "NotNumber openTypeOS2WinAscent 0 0 0 0",
    ),
    (
        "openTypeOS2WidthClass=#x|openTypeOS2WeightClass=#x",
        "NotNumber openTypeOS2WeightClass 0 0 0 0",
    ),
    (
        "openTypeOS2VendorID='|openTypeOS2WidthClass=#x",
        "NotNumber openTypeOS2WidthClass 0 0 0 0",
    ),
    (
        "postscriptUnderlineThickness=#x|postscriptUnderlinePosition=#x",
        "NotNumber postscriptUnderlinePosition 0 0 0 0",
    ),
];

// The value that is written so.
fn value_of(alloc: Global, written: &str) -> Result<Value, NoMemory> {
    if let Some(number) = written.strip_prefix('#') {
        return Ok(Value::Number(Name::from_str(alloc, number)?));
    }
    match written.strip_prefix('\'') {
        Some(text) => Ok(Value::Text(Name::from_str(alloc, text)?)),
        None => Ok(Value::Bool(true)),
    }
}

// The dictionary of these keys.
fn dict_of(alloc: Global, written: &str) -> Result<Value, NoMemory> {
    let mut entries = Vec::new(alloc);
    for entry in written.split('|') {
        if let Some((key, value)) = entry.split_once('=') {
            let key = Name::from_str(alloc, key)?;
            entries.push((key, value_of(alloc, value)?))?;
        }
    }
    Ok(Value::Dict(entries))
}

// The fields of the information, those that go together in one.
fn fields(alloc: Global, info: &Info) -> Result<Vec<String>, NoMemory> {
    let copyright = match &info.copyright {
        Some(text) => text.as_str(),
        None => "none",
    };
    let fields = vec![in alloc;
        format!(in alloc; "units {};", info.units)?,
        format!(in alloc; "ascender {};", info.ascender)?,
        format!(in alloc; "descender {};", info.descender)?,
        format!(in alloc; "x {};", info.x_height)?,
        format!(in alloc; "cap {};", info.cap_height)?,
        format!(in alloc; "italic {};", info.italic.raw())?,
        format!(in alloc; "family {};", info.family.as_str())?,
        format!(in alloc; "style {};", info.style.as_str())?,
        format!(in alloc; "major {};", info.major)?,
        format!(in alloc; "minor {};", info.minor)?,
        format!(in alloc; "copyright {copyright};")?,
        format!(in alloc; "version {};", info.version.as_str())?,
        format!(in alloc;
            "hhea {} {} {};",
            info.hhea_ascender, info.hhea_descender, info.hhea_gap
        )?,
        format!(in alloc;
            "typo {} {} {};",
            info.typo_ascender, info.typo_descender, info.typo_gap
        )?,
        format!(in alloc; "win {:?} {:?};", info.win_ascent, info.win_descent)?,
        format!(in alloc; "weight {};", info.weight)?,
        format!(in alloc; "width {};", info.width)?,
        format!(in alloc; "vendor {:?};", info.vendor.as_slice())?,
        format!(in alloc; "underline {} {};", info.underline_at, info.underline_size)?,
    ]?;
    Ok(fields)
}

// What is read: the fields that differ from the plain ones, or the fault with its fields.
fn outcome(alloc: Global, value: &Value, plain: &Info) -> Result<String, NoMemory> {
    let mut line = String::new(alloc);
    match read(alloc, value) {
        Ok(info) => {
            let plain = fields(alloc, plain)?;
            for (i, field) in fields(alloc, &info)?.iter().enumerate() {
                if plain
                    .get(i)
                    .is_none_or(|other| other.as_str() != field.as_str())
                {
                    line.push_str(field.as_str())?;
                }
            }
        }
        Err(Stop::At(spot)) => {
            let kind = spot.kind.name();
            let item = spot.item.as_str();
            write!(
                line,
                "{kind} {item} {} {} {} {}",
                spot.at, spot.also, spot.first, spot.second
            )?;
        }
        Err(Stop::NoMemory) => line.push_str("no memory")?,
    }
    Ok(line)
}

/// Each row's dict gives this information, or is refused so.
fn check_rows(rt: &impl Abort, alloc: Global, rows: &[(&str, &str)]) -> Result<(), Fail> {
    let plain = Info::plain(alloc)?;
    for (written, want) in rows {
        let value = dict_of(alloc, written)?;
        let found = outcome(alloc, &value, &plain)?;
        assert_eq!(rt; found.as_str(), *want, "{written}");
    }
    Ok(())
}

#[test]
fn reads_metrics(rt: HostRuntime) -> Result<(), Fail> {
    check_rows(&rt, rt.alloc(), &READ)
}

#[test]
fn reads_naming(rt: HostRuntime) -> Result<(), Fail> {
    check_rows(&rt, rt.alloc(), &READ_NAMING)
}

#[test]
fn reads_tables(rt: HostRuntime) -> Result<(), Fail> {
    check_rows(&rt, rt.alloc(), &READ_TABLES)
}

#[test]
fn refuses_metrics(rt: HostRuntime) -> Result<(), Fail> {
    check_rows(&rt, rt.alloc(), &REFUSED)
}

#[test]
fn refuses_naming(rt: HostRuntime) -> Result<(), Fail> {
    check_rows(&rt, rt.alloc(), &REFUSED_NAMING)
}

#[test]
fn refuses_tables(rt: HostRuntime) -> Result<(), Fail> {
    check_rows(&rt, rt.alloc(), &REFUSED_TABLES)
}

#[test]
fn refuses_later_keys(rt: HostRuntime) -> Result<(), Fail> {
    check_rows(&rt, rt.alloc(), &REFUSED_LATER)
}

#[test]
fn refuses_another_value(rt: HostRuntime) -> Result<(), Fail> {
    let alloc = rt.alloc();
    let plain = Info::plain(alloc)?;
    let found = outcome(alloc, &Value::Array(Vec::new(alloc)), &plain)?;
    assert_eq!(rt; found.as_str(), "NotPlist  0 0 0 0");
    Ok(())
}

// Texts at their limits, in units of UTF-16: the emoji takes two, the letter one.
#[test]
fn limits_texts(rt: HostRuntime) -> Result<(), Fail> {
    let alloc = rt.alloc();
    let plain = Info::plain(alloc)?;
    // Each row: a key, how many pairs fill it, and one unit more than they have.
    for (key, pairs, over) in [
        ("familyName", 50, 101),
        ("styleName", 50, 101),
        ("copyright", 500, 1001),
        ("openTypeNameVersion", 50, 101),
    ] {
        let mut written = format!(in alloc; "{key}='")?;
        for _ in 0..pairs {
            written.push('\u{1f600}')?;
        }
        let found = outcome(alloc, &dict_of(alloc, written.as_str())?, &plain)?;
        assert!(rt; !found.as_str().starts_with("NameLength"), "{key}");
        written.push('\u{e9}')?;
        let found = outcome(alloc, &dict_of(alloc, written.as_str())?, &plain)?;
        let want = format!(in alloc; "NameLength {key} 0 0 {over} 0")?;
        assert_eq!(rt; found.as_str(), want.as_str());
    }
    Ok(())
}
