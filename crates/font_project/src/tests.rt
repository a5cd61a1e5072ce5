//! What no clause says: that calls succeed where there is enough memory, and their answers over files in memory, worked
//! out by hand.

use crate::{Project, ReadStop, project};
use basics::{Name, NoMemory, Seq};
use delta_solve::GlyphModel;
use filters::{GlyphFilter, Reverse, Shift};
use outside::MemorySources;
use std::alloc::Global;
use std::fmt::Write;
use std::process::Abort;
use std::test::Fail;

/// The files of a font without a fault, parted by `|`. The document has two axes from 0 to 100, and a word for each
/// source: its folder, and its location; a rule is written after `%`. A property list is written in parts: a key after `!`, a text after `'`, a number
/// after `#`, and brackets. A glyph is written as its advance, code points after `u`, contours in parentheses of points on
/// the curve or, after `~`, off it, and components after `+`.
const FILES: &str = "f=B100,0 A0,0 C50,0\
|A/metainfo.plist={ !formatVersion #3 }|A/glyphs/contents.plist={ !b 'b !a 'a }\
|A/glyphs/a=500 u7A ( 0,0 100,0 ~50,80 )|A/glyphs/b=400 u41 +a,10,0\
|B/metainfo.plist={ !formatVersion #3 }|B/glyphs/contents.plist={ !a 'a !b 'b }\
|B/glyphs/a=600 ( 0,0 140,0 ~60,90 )|B/glyphs/b=440 +a,20,5\
|C/metainfo.plist={ !formatVersion #3 }|C/glyphs/contents.plist={ !a 'a !b 'b }\
|C/glyphs/a=560 ( 0,0 120,0 ~50,80 )|C/glyphs/b=400 +a,10,0\
|D/metainfo.plist={ !formatVersion #3 }|D/glyphs/contents.plist={ !a 'a !b 'b }\
|D/glyphs/a=600 ( -16384,0 140,0 ~60,90 )|D/glyphs/b=440 +a,0,0";

/// Its project: the glyphs, the code points, the locations, the starts and ends of the regions on the first axis, and of
/// each glyph the points of its contours, their kinds, and the deltas of its masters.
const PROJECT: &str = ".notdef 0 a 1 b 2 [(65, 2), (122, 1)] \
[0, 0] [8192, 0] [16384, 0] 0:0 0:16384 8192:16384 \
- [] [] 500 0 0 \
- [3] [true, true, false] 0,0 100,0 50,80 500 0,0 20,0 0,0 60 0,0 40,0 10,10 100 \
- [3] [true, true, false] 10,0 110,0 60,80 400 0,0 20,0 0,0 0 10,5 50,5 20,15 40";

/// Texts of the filter `shift`, which comes after `reverse`; what the files are answered as then, and how often each filter
/// was applied: three sources have three glyphs. The default source is read second and filtered first, and its first glyph
/// has no points.
const FILTERED: [(&str, &str, u64, u64); 3] = [
    (
        "10:-5",
        ".notdef 0 a 1 b 2 [(65, 2), (122, 1)] \
[0, 0] [8192, 0] [16384, 0] 0:0 0:16384 8192:16384 \
- [] [] 500 0 0 \
- [3] [true, false, true] 10,-5 60,75 110,-5 500 0,0 0,0 20,0 60 0,0 10,10 40,0 100 \
- [3] [true, false, true] 20,-5 70,75 120,-5 400 0,0 0,0 20,0 0 10,5 20,15 50,5 40",
        9,
        9,
    ),
    ("16300:0", "A FilterRange a 1 0 16400 0", 2, 2),
    ("16260:0", "B FilterRange a 1 0 16400 0", 5, 5),
];

/// What stands in place of the files, and what is refused: each fault together with one that comes after it.
const FAULTS: [(&str, &str); 11] = [
    (
        "B/fontinfo.plist={ !unitsPerEm #2000 }|C/fontinfo.plist={ !unitsPerEm #16 }|B/glyphs/contents.plist={ !b 'b }",
        "B UnitsDiffer  0 0 1000 2000",
    ),
    (
        "B/glyphs/contents.plist={ !a 'a }|C/glyphs/contents.plist={ !b 'b }",
        "C GlyphMissing a 0 0 0 0",
    ),
    (
        "B/glyphs/a=1 +b,0,0|A/glyphs/b=1 +a,0,0 +q,0,0",
        "A DanglingComponent b 1 0 0 0",
    ),
    ("C/glyphs/a=1 +b,0,0", "C ComponentCycle a 0 0 0 0"),
    (
        "C/glyphs/b=400 ( 0,0 )|A/glyphs/b=400 +a,16300,0",
        "C ComponentShape b 0 0 1 0",
    ),
    (
        "B/glyphs/b=440 +a,16383,0|A/glyphs/b=400 +a,16300,0|C/glyphs/a=1",
        "A CoordinateRange b 0 0 16400 0",
    ),
    (
        "B/glyphs/b=440 ( 0,0 ) +a,0,0|C/glyphs/a=1",
        "C ContourCount a 0 0 1 0",
    ),
    (
        "B/glyphs/a=600 ( 0,0 140,0 )|f=B100,0 A0,0 C50,0 %0,q,a",
        "B PointCount a 0 0 3 2",
    ),
    (
        "B/glyphs/a=600 ( 0,0 140,0 60,90 )",
        "B PointKind a 0 2 0 1",
    ),
    (
        "f=D100,100 A0,0 B100,0 C0,100 %0,a,b %0,b,q %0,q,b|A/glyphs/a=1 ( -16384,0 1,0 ~1,0 )|B/glyphs/a=1 ( 16383,0 1,0 ~1,0 )|C/glyphs/a=1 ( 16383,0 1,0 ~1,0 )|A/glyphs/b=1 +a,0,0|B/glyphs/b=1 +a,0,0|C/glyphs/b=1 +a,0,0",
        "f RuleGlyphUnknown q 1 0 0 0",
    ),
    (
        "f=D100,100 A0,0 B100,0 C0,100|A/glyphs/a=1 ( -16384,0 1,0 ~1,0 )|B/glyphs/a=1 ( 16383,0 1,0 ~1,0 )|C/glyphs/a=1 ( 16383,0 1,0 ~1,0 )|A/glyphs/b=1 +a,0,0|B/glyphs/b=1 +a,0,0|C/glyphs/b=1 +a,0,0",
        " DeltaRange a 0 0 3 -65534",
    ),
];

/// A part of a property list.
fn part_of(alloc: Global, part: &str) -> Result<String, NoMemory> {
    if let Some(key) = part.strip_prefix('!') {
        return Ok(format!(in alloc; "<key>{key}</key>")?);
    }
    if let Some(text) = part.strip_prefix('\'') {
        return Ok(format!(in alloc; "<string>{text}</string>")?);
    }
    if let Some(number) = part.strip_prefix('#') {
        return Ok(format!(in alloc; "<real>{number}</real>")?);
    }
    let tag = match part {
        "{" => "<dict>",
        "}" => "</dict>",
        _ => "?",
    };
    Ok(String::from_str(alloc, tag)?)
}

/// The text of a property list.
fn list_of(alloc: Global, written: &str) -> Result<String, NoMemory> {
    let mut text = String::from_str(alloc, "<plist>")?;
    for part in written.split(' ') {
        text.push_str(part_of(alloc, part)?.as_str())?;
    }
    text.push_str("</plist>")?;
    Ok(text)
}

/// What stands before and after the first comma.
fn pair_of(text: &str) -> (&str, &str) {
    match text.split_once(',') {
        Some(pair) => pair,
        None => (text, "0"),
    }
}

/// A part of a glyph's outline.
fn outline_part(alloc: Global, part: &str) -> Result<String, NoMemory> {
    if let Some(component) = part.strip_prefix('+') {
        let (base, offset) = pair_of(component);
        let (x, y) = pair_of(offset);
        return Ok(format!(in alloc; "<component base='{base}' xOffset='{x}' yOffset='{y}'/>")?);
    }
    if let Some(point) = part.strip_prefix('~') {
        let (x, y) = pair_of(point);
        return Ok(format!(in alloc; "<point x='{x}' y='{y}'/>")?);
    }
    if part == "(" {
        return Ok(String::from_str(alloc, "<contour>")?);
    }
    if part == ")" {
        return Ok(String::from_str(alloc, "</contour>")?);
    }
    let (x, y) = pair_of(part);
    Ok(format!(in alloc; "<point x='{x}' y='{y}' type='qcurve'/>")?)
}

/// The text of a glyph, whose name is that in the list of glyphs.
fn glyph_of(alloc: Global, written: &str) -> Result<String, NoMemory> {
    let (width, parts) = match written.split_once(' ') {
        Some((width, parts)) => (width, parts),
        None => (written, ""),
    };
    let mut codes = String::new(alloc);
    let mut outline = String::new(alloc);
    for part in parts.split(' ') {
        if let Some(code) = part.strip_prefix('u') {
            let element = format!(in alloc; "<unicode hex='{code}'/>")?;
            codes.push_str(element.as_str())?;
        } else if !part.is_empty() {
            outline.push_str(outline_part(alloc, part)?.as_str())?;
        }
    }
    let (codes, outline) = (codes.as_str(), outline.as_str());
    Ok(format!(in alloc;
        "<glyph name='' format='2'><advance width='{width}'/>{codes}<outline>{outline}</outline></glyph>"
    )?)
}

/// A rule that holds from a coordinate on the first axis on, and what replaces a glyph then.
fn rule_of(alloc: Global, written: &str) -> Result<String, NoMemory> {
    let (least, sub) = pair_of(written);
    let (glyph, substitute) = pair_of(sub);
    Ok(format!(in alloc;
        "<rule><conditionset><condition name='x' minimum='{least}'/></conditionset><sub name='{glyph}' with='{substitute}'/></rule>"
    )?)
}

/// The text of a document.
fn document_of(alloc: Global, written: &str) -> Result<String, NoMemory> {
    let mut sources = String::new(alloc);
    let mut rules = String::new(alloc);
    for word in written.split(' ') {
        if let Some(rule) = word.strip_prefix('%') {
            rules.push_str(rule_of(alloc, rule)?.as_str())?;
        } else if let Some((folder, at)) = word.split_at_checked(1) {
            let (x, y) = pair_of(at);
            let source = format!(in alloc;
                "<source filename='{folder}'><location><dimension name='x' xvalue='{x}'/><dimension name='y' xvalue='{y}'/></location></source>"
            )?;
            sources.push_str(source.as_str())?;
        }
    }
    let (sources, rules) = (sources.as_str(), rules.as_str());
    Ok(format!(in alloc;
        "<designspace format='5.0'><axes><axis tag='xxxx' name='x' minimum='0' default='0' maximum='100'/><axis tag='yyyy' name='y' minimum='0' default='0' maximum='100'/></axes><rules>{rules}</rules><sources>{sources}</sources></designspace>"
    )?)
}

/// The text of the file of this name.
fn text_of(alloc: Global, name: &str, written: &str) -> Result<String, NoMemory> {
    if name == "f" {
        document_of(alloc, written)
    } else if name.ends_with(".plist") {
        list_of(alloc, written)
    } else {
        glyph_of(alloc, written)
    }
}

/// Adds the files that are written so.
fn add(alloc: Global, files: &mut Seq<(Name, Vec<u8>)>, written: &str) -> Result<(), NoMemory> {
    for file in written.split('|') {
        if let Some((name, written)) = file.split_once('=') {
            let text = text_of(alloc, name, written)?;
            let bytes = Vec::from_slice(alloc, text.as_str().as_bytes())?;
            files.push((Name::from_str(alloc, name)?, bytes))?;
        }
    }
    Ok(())
}

/// The files, with what is written in place of some, and with these reads failing.
fn memory(alloc: Global, written: &str, failing: &[u64]) -> Result<MemorySources, NoMemory> {
    let mut files = Seq::new(alloc);
    add(alloc, &mut files, written)?;
    add(alloc, &mut files, FILES)?;
    let failing = Seq::from_vec(Vec::from_slice(alloc, failing)?);
    Ok(MemorySources::new(files, failing))
}

/// Adds a model to a line.
fn write_model(line: &mut String, model: &GlyphModel) -> Result<(), NoMemory> {
    write!(
        line,
        " - {:?} {:?}",
        model.lengths.as_slice(),
        model.on.as_slice()
    )?;
    for tuple in model.tuples.as_slice() {
        for delta in tuple.deltas.as_slice() {
            write!(line, " {},{}", delta.x, delta.y)?;
        }
        write!(line, " {}", tuple.advance)?;
    }
    Ok(())
}

/// A project as a line.
fn project_line(alloc: Global, project: &Project) -> Result<String, NoMemory> {
    let mut line = String::new(alloc);
    for (name, number) in &project.names {
        write!(line, "{} {number} ", name.as_str())?;
    }
    write!(line, "{:?}", project.codes.as_slice())?;
    for at in project.sorted.as_slice() {
        if let [x, y] = at.as_slice() {
            write!(line, " [{}, {}]", x.raw(), y.raw())?;
        }
    }
    for support in project.supports.as_slice() {
        if let [triple, ..] = support.as_slice() {
            write!(line, " {}:{}", triple.start.raw(), triple.end.raw())?;
        }
    }
    for model in project.models.as_slice() {
        write_model(&mut line, model)?;
    }
    for pairs in project.subs.as_slice() {
        write!(line, " {:?}", pairs.as_slice())?;
    }
    for cell in project.cells.as_slice() {
        if let ([low, ..], [high, ..]) = (cell.low.as_slice(), cell.high.as_slice()) {
            write!(
                line,
                " {}..{}:{:?}",
                low.raw(),
                high.raw(),
                cell.rules.as_slice()
            )?;
        }
    }
    Ok(line)
}

/// A stop as a line: its path, and all of its spot.
fn stop_line(alloc: Global, stop: &ReadStop) -> Result<String, NoMemory> {
    let mut line = String::new(alloc);
    match stop {
        ReadStop::Refused(fault) => {
            let (path, item) = (fault.path.as_str(), fault.spot.item.as_str());
            let spot = &fault.spot;
            write!(
                line,
                "{path} {} {item} {} {} ",
                spot.kind.name(),
                spot.at,
                spot.also
            )?;
            write!(line, "{} {}", spot.first, spot.second)?;
        }
        ReadStop::ReadFault(path) => write!(line, "{} read fault", path.as_str())?,
        ReadStop::NoMemory => line.push_str("no memory")?,
    }
    Ok(line)
}

/// What the document is answered as, where its outlines go through filters.
fn filtered_line(
    alloc: Global,
    written: &str,
    failing: &[u64],
    filters: &mut Vec<Box<dyn GlyphFilter>>,
) -> Result<String, NoMemory> {
    let mut sources = memory(alloc, written, failing)?;
    match project(alloc, &mut sources, "f", filters) {
        Ok(project) => project_line(alloc, &project),
        Err(stop) => stop_line(alloc, &stop),
    }
}

/// What the document is answered as without filters.
fn answer_line(alloc: Global, written: &str, failing: &[u64]) -> Result<String, NoMemory> {
    let mut none = Vec::new(alloc);
    filtered_line(alloc, written, failing, &mut none)
}

/// How often the filter was applied.
fn touched(filter: &Box<dyn GlyphFilter>) -> u64 {
    filter.touched()
}

/// Asserts the answer.
fn expect(rt: &impl Abort, alloc: Global, written: &str, answer: &str) -> Result<(), NoMemory> {
    let line = answer_line(alloc, written, &[])?;
    assert_eq!(rt; line.as_str(), answer);
    Ok(())
}

#[test]
fn projects(rt: HostRuntime) -> Result<(), Fail> {
    let alloc = rt.alloc();
    expect(&rt, alloc, "", PROJECT)?;
    // The first rule holds from 8192 on, the second one from the default on.
    let ruled = format!(in alloc; "{PROJECT} [(1, 2)] [(2, 0)] 0..8191:[1] 8192..16384:[0, 1]")?;
    expect(
        &rt,
        alloc,
        "f=B100,0 A0,0 C50,0 %50,a,b %0,b,.notdef",
        ruled.as_str(),
    )?;
    Ok(())
}

#[test]
fn refusals(rt: HostRuntime) -> Result<(), Fail> {
    for (written, answer) in FAULTS {
        expect(&rt, rt.alloc(), written, answer)?;
    }
    Ok(())
}

#[test]
fn reads_that_fail(rt: HostRuntime) -> Result<(), Fail> {
    let line = answer_line(rt.alloc(), "", &[1])?;
    assert_eq!(rt; line.as_str(), "A/metainfo.plist read fault");
    Ok(())
}

#[test]
fn filters(rt: HostRuntime) -> Result<(), Fail> {
    let alloc = rt.alloc();
    for (text, answer, reversed, shifted) in FILTERED {
        let mut shift = Shift::new();
        assert!(rt; shift.configure(text), "{text}");
        let mut filters: Vec<Box<dyn GlyphFilter>> = Vec::new(alloc);
        filters.push(Box::new(alloc, Reverse::new())?)?;
        filters.push(Box::new(alloc, shift)?)?;
        let line = filtered_line(alloc, "", &[], &mut filters)?;
        assert_eq!(rt; line.as_str(), answer, "{text}");
        match filters.as_slice() {
            [first, second] => {
                assert_eq!(rt; touched(first), reversed, "{text}");
                assert_eq!(rt; touched(second), shifted, "{text}");
            }
            _ => assert!(rt; false, "{text}"),
        }
    }
    Ok(())
}
