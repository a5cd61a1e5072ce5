//! Fonts: a document with its sources, and what comes of `build`.

use super::*;

/// The words that ask for the font.
const FONT_WORDS: &[&str] = &["vfb", "build", "s.designspace", "o.ttf"];

/// Two sources, at the ends of one axis.
pub(super) const DOCUMENT: &str = r#"<?xml version="1.0" encoding="UTF-8"?>
<designspace format="5.0">
<axes><axis tag="wght" name="Weight" minimum="100" maximum="900" default="100"/></axes>
<sources>
<source filename="L.ufo"><location><dimension name="Weight" xvalue="100"/></location></source>
<source filename="B.ufo"><location><dimension name="Weight" xvalue="900"/></location></source>
</sources>
</designspace>
"#;

/// A third source at 500 and a fourth at 500.01, which are one place in F2DOT14.
const CROWDED: &str = r#"<designspace format="5.0">
<axes><axis tag="wght" name="Weight" minimum="100" maximum="900" default="100"/></axes>
<sources>
<source filename="L.ufo"><location><dimension name="Weight" xvalue="100"/></location></source>
<source filename="B.ufo"><location><dimension name="Weight" xvalue="900"/></location></source>
<source filename="B.ufo"><location><dimension name="Weight" xvalue="500"/></location></source>
<source filename="B.ufo"><location><dimension name="Weight" xvalue="500.01"/></location></source>
</sources>
</designspace>
"#;

/// From 500 on a blank stands in place of the square.
const RULED: &str = r#"<designspace format="5.0">
<axes><axis tag="wght" name="Weight" minimum="100" maximum="900" default="100"/></axes>
<rules><rule name="blank"><conditionset><condition name="Weight" minimum="500"/></conditionset><sub name="box" with="space"/></rule></rules>
<sources>
<source filename="L.ufo"/>
<source filename="B.ufo"><location><dimension name="Weight" xvalue="900"/></location></source>
</sources>
</designspace>
"#;

/// The axis ends before its rule holds.
const NEVER_RULED: &str = r#"<designspace format="5.0">
<axes><axis tag="wght" name="Weight" minimum="100" maximum="900" default="100"/></axes>
<rules><rule><conditionset><condition name="Weight" minimum="1200"/></conditionset><sub name="box" with="space"/></rule></rules>
<sources>
<source filename="L.ufo"/>
<source filename="B.ufo"><location><dimension name="Weight" xvalue="900"/></location></source>
</sources>
</designspace>
"#;

/// Its second substitution has no glyph to put in place.
const MISRULED: &str = r#"<designspace format="5.0">
<axes><axis tag="wght" name="Weight" minimum="100" maximum="900" default="100"/></axes>
<rules><rule><conditionset/><sub name="box" with="space"/><sub name="space" with="dot"/></rule></rules>
<sources>
<source filename="L.ufo"/>
<source filename="B.ufo"><location><dimension name="Weight" xvalue="900"/></location></source>
</sources>
</designspace>
"#;

/// As many axes as there may be.
const EIGHT_AXES: &str = r#"<designspace format="5.0">
<axes>
<axis tag="aaaa" name="a" minimum="0" maximum="9" default="0"/>
<axis tag="bbbb" name="b" minimum="0" maximum="9" default="0"/>
<axis tag="cccc" name="c" minimum="0" maximum="9" default="0"/>
<axis tag="dddd" name="d" minimum="0" maximum="9" default="0"/>
<axis tag="eeee" name="e" minimum="0" maximum="9" default="0"/>
<axis tag="ffff" name="f" minimum="0" maximum="9" default="0"/>
<axis tag="gggg" name="g" minimum="0" maximum="9" default="0"/>
<axis tag="hhhh" name="h" minimum="0" maximum="9" default="0"/>
</axes>
<sources>
<source filename="L.ufo"/>
<source filename="B.ufo"><location><dimension name="h" xvalue="9"/></location></source>
</sources>
</designspace>
"#;

/// One axis more.
const NINE_AXES: &str = r#"<designspace format="5.0">
<axes><axis/><axis/><axis/><axis/><axis/><axis/><axis/><axis/><axis/></axes>
</designspace>
"#;

/// The format of a source.
const METAINFO: &str =
    "<plist version=\"1.0\"><dict><key>formatVersion</key><integer>3</integer></dict></plist>";

/// The files of its glyphs.
const CONTENTS: &str =
    "<plist version=\"1.0\"><dict><key>box</key><string>box.glif</string><key>space</key><string>space.glif</string></dict></plist>";

/// A square.
pub(super) const LIGHT_BOX: &str =
    r#"<glyph name="box" format="2"><advance width="120"/><unicode hex="25A1"/><outline><contour>
<point x="0" y="0" type="line"/><point x="100" y="0" type="line"/>
<point x="100" y="100" type="line"/><point x="0" y="100" type="line"/>
</contour></outline></glyph>
"#;

/// The same, wider by 50 on the right.
pub(super) const BOLD_BOX: &str =
    r#"<glyph name="box" format="2"><advance width="170"/><unicode hex="25A1"/><outline><contour>
<point x="0" y="0" type="line"/><point x="150" y="0" type="line"/>
<point x="150" y="100" type="line"/><point x="0" y="100" type="line"/>
</contour></outline></glyph>
"#;

/// Blanks of two widths.
const LIGHT_SPACE: &str =
    "<glyph name=\"space\" format=\"2\"><advance width=\"200\"/><unicode hex=\"0020\"/></glyph>";

const BOLD_SPACE: &str =
    "<glyph name=\"space\" format=\"2\"><advance width=\"260\"/><unicode hex=\"0020\"/></glyph>";

/// The files of the two sources.
pub(super) const SOURCES: [(&str, &str); 8] = [
    ("L.ufo/metainfo.plist", METAINFO),
    ("L.ufo/glyphs/contents.plist", CONTENTS),
    ("L.ufo/glyphs/box.glif", LIGHT_BOX),
    ("L.ufo/glyphs/space.glif", LIGHT_SPACE),
    ("B.ufo/metainfo.plist", METAINFO),
    ("B.ufo/glyphs/contents.plist", CONTENTS),
    ("B.ufo/glyphs/box.glif", BOLD_BOX),
    ("B.ufo/glyphs/space.glif", BOLD_SPACE),
];

/// What is said of the font of the first document.
pub(super) const SUMMARY: &str = "glyphs 3\nmasters 2\naxes 1\ntuples 2\nexplicit 2 of 4\n";

/// A run over a document, without one of the files of its sources, where these calls fail; and then its
/// status, what it says and how many bytes `o.ttf` holds.
#[derive(Drop)]
struct FontCase {
    words: &'static [&'static str],
    document: &'static str,
    missing: &'static str,
    reads: &'static [u64],
    writes: &'static [u64],
    says: &'static [u64],
    status: u8,
    said: &'static str,
    held: Held,
}

/// What a path holds.
#[derive(Drop)]
enum Held {
    Nothing,
    Prefix(usize),
    Font,
}

/// The first document with all files, where nothing fails.
const BUILT: FontCase = FontCase {
    words: FONT_WORDS,
    document: DOCUMENT,
    missing: "",
    reads: &[],
    writes: &[],
    says: &[],
    status: 0,
    said: SUMMARY,
    held: Held::Font,
};

const FONTS: [FontCase; 10] = [
    BUILT,
    // The header with the directory is whole, and of the first table, `HVAR`, the first half is there.
    FontCase {
        writes: &[2],
        status: 4,
        said: "write fault o.ttf\n",
        held: Held::Prefix(264),
        ..BUILT
    },
    FontCase {
        reads: &[1],
        status: 3,
        said: "read fault L.ufo/metainfo.plist\n",
        held: Held::Nothing,
        ..BUILT
    },
    FontCase {
        says: &[0],
        status: 4,
        said: "glyphs 3\nmasters 2\naxes 1write fault -\n",
        ..BUILT
    },
    FontCase {
        missing: "B.ufo/metainfo.plist",
        status: 1,
        said: "refused MissingFile B.ufo/metainfo.plist - 0 0 0 0\n",
        held: Held::Nothing,
        ..BUILT
    },
    FontCase {
        document: CROWDED,
        status: 1,
        said: "refused SameLocation s.designspace - 2 3 0 0\n",
        held: Held::Nothing,
        ..BUILT
    },
    FontCase {
        document: NEVER_RULED,
        ..BUILT
    },
    FontCase {
        document: MISRULED,
        status: 1,
        said: "refused RuleGlyphUnknown s.designspace dot 0 1 0 0\n",
        held: Held::Nothing,
        ..BUILT
    },
    FontCase {
        document: NINE_AXES,
        status: 1,
        said: "refused TooManyAxes s.designspace - 0 0 9 0\n",
        held: Held::Nothing,
        ..BUILT
    },
    FontCase {
        words: &["vfb", "build", "s.designspace"],
        status: 2,
        said: "usage words\n",
        held: Held::Nothing,
        ..BUILT
    },
];

/// The files of a document and its sources, but for one.
fn font_files(alloc: Global, document: &str, missing: &str) -> Result<Seq<(Name, Vec<u8>)>, Fail> {
    let mut texts = Vec::new(alloc);
    texts.push(("s.designspace", document))?;
    for (path, text) in SOURCES {
        if path != missing {
            texts.push((path, text))?;
        }
    }
    files(alloc, texts.as_slice())
}

/// Runs as the case says, and compares the status and what is said; answers what `o.ttf` holds.
fn held_after(rt: &impl Abort, alloc: Global, case: &FontCase) -> Result<Option<Vec<u8>>, Fail> {
    let words = owned(alloc, case.words)?;
    let texts = font_files(alloc, case.document, case.missing)?;
    let mut sources = MemorySources::new(texts, numbers(alloc, case.reads)?);
    let rooms = room(alloc, "o.ttf", 9_999)?;
    let mut outputs = MemoryOutputs::new(alloc, rooms, numbers(alloc, case.writes)?)?;
    let mut say = MemorySay::new(alloc, 99, numbers(alloc, case.says)?)?;
    let status = run(
        alloc,
        &words,
        Vec::new(alloc),
        &mut sources,
        &mut outputs,
        &mut say,
    );
    let said = case.said;
    assert_eq!(rt; status.number(), case.status, "{said}");
    assert_eq!(rt; say.said(), said.as_bytes(), "{said}");
    match outputs.held("o.ttf") {
        Some(bytes) => Ok(Some(Vec::from_slice(alloc, bytes)?)),
        None => Ok(None),
    }
}

#[test]
fn builds_fonts(rt: HostRuntime) -> Result<(), Fail> {
    let alloc = rt.alloc();
    let font = held_after(&rt, alloc, &BUILT)?.ok_or("a font")?;
    // The first record of the directory: `HVAR`, of 56 bytes.
    assert_eq!(rt; font.get(12..16), Some(b"HVAR".as_slice()));
    assert_eq!(rt; font.get(24..28), Some([0, 0, 0, 56].as_slice()));
    for case in &FONTS {
        let said = case.said;
        let held = held_after(&rt, alloc, case)?;
        let bytes = held.as_ref().map(|bytes| bytes.as_slice());
        match case.held {
            Held::Nothing => assert_eq!(rt; bytes, None, "{said}"),
            Held::Prefix(length) => assert_eq!(rt; bytes, font.get(..length), "{said}"),
            Held::Font => assert_eq!(rt; bytes, Some(font.as_slice()), "{said}"),
        }
    }
    Ok(())
}

/// The room that the font and its summary take is enough; and so are eight axes.
#[test]
fn builds_fonts_in_their_room(rt: HostRuntime) -> Result<(), Fail> {
    let alloc = rt.alloc();
    let words = owned(alloc, FONT_WORDS)?;
    let font = held_after(&rt, alloc, &BUILT)?.ok_or("a font")?;
    let mut sources = SureSources::new(font_files(alloc, DOCUMENT, "")?);
    let mut outputs = SureOutputs::new(alloc, room(alloc, "o.ttf", font.len() as u64)?)?;
    let mut say = SureSay::new(alloc, SUMMARY.len() as u64)?;
    let status = run(
        alloc,
        &words,
        Vec::new(alloc),
        &mut sources,
        &mut outputs,
        &mut say,
    );
    assert_eq!(rt; status.number(), 0);
    assert_eq!(rt; outputs.held("o.ttf"), Some(font.as_slice()));
    assert_eq!(rt; say.said(), SUMMARY.as_bytes());
    let eight = FontCase {
        document: EIGHT_AXES,
        said: "glyphs 3\nmasters 2\naxes 8\ntuples 2\nexplicit 2 of 4\n",
        ..BUILT
    };
    let held = held_after(&rt, alloc, &eight)?;
    assert!(rt; held.is_some());
    Ok(())
}

/// A rule that holds somewhere brings a table: one lookup of one pair, and one record of one condition.
#[test]
fn builds_rules(rt: HostRuntime) -> Result<(), Fail> {
    let alloc = rt.alloc();
    let ruled = FontCase {
        document: RULED,
        ..BUILT
    };
    let font = held_after(&rt, alloc, &ruled)?.ok_or("a font")?;
    // 15 tables, the first of which is `GSUB`, of 128 bytes: 46 before the lookups, 34 of these, 48 of the record.
    assert_eq!(rt; font.get(4..6), Some([0, 15].as_slice()));
    assert_eq!(rt; font.get(12..16), Some(b"GSUB".as_slice()));
    assert_eq!(rt; font.get(24..28), Some([0, 0, 0, 128].as_slice()));
    Ok(())
}
