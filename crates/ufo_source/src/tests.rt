//! What no clause says: that calls succeed where there is enough memory, and their answers over files in memory,
//! worked out by hand.

use crate::{Master, ReadStop, read};
use basics::{Name, NoMemory, Seq};
use outside::MemorySources;
use std::alloc::Global;
use std::fmt::Write;
use std::process::Abort;
use std::test::Fail;

/// The files of a folder without a fault, parted by `|`. A property list is written in parts with a blank between:
/// a key after `!`, a text after `'`, a number after `#`, and brackets. A glyph is written as its advance and its code
/// points. In the list of glyphs one name stands twice.
const FILES: &str =
    "metainfo.plist={ !formatVersion #3 }|glyphs/contents.plist={ !a 'a.glif !a 'no !B 'B.glif }|glyphs/a.glif=7 42 41 42|glyphs/B.glif=8";

/// The first files, each with a fault in turn and with one of a later file: what stands in place of the files, and what
/// a source is read as or refused for. The last rows have an order with a name twice, one of no glyph, and values that
/// aren't texts.
const FIRST_FILES: [(&str, &str); 12] = [
    ("metainfo.plist=[ ]", "u/metainfo.plist NotPlist  0 0"),
    (
        "metainfo.plist={ }|fontinfo.plist=?",
        "u/metainfo.plist FormatVersion  0 -1",
    ),
    (
        "metainfo.plist={ !formatVersion #2 }",
        "u/metainfo.plist FormatVersion  0 2",
    ),
    (
        "metainfo.plist={ !formatVersion '3 }",
        "u/metainfo.plist FormatVersion  0 -1",
    ),
    (
        "metainfo.plist={ !formatVersion #3.5 }",
        "u/metainfo.plist FormatVersion  0 -1",
    ),
    (
        "metainfo.plist={ !formatVersion #3.0 }|fontinfo.plist=?",
        "u/fontinfo.plist BadText  0 0",
    ),
    (
        "fontinfo.plist=[ ]|lib.plist=?",
        "u/fontinfo.plist NotPlist  0 0",
    ),
    (
        "fontinfo.plist={ !unitsPerEm #15 }",
        "u/fontinfo.plist UnitsRange  0 15",
    ),
    (
        "lib.plist='x|layercontents.plist=?",
        "u/lib.plist NotPlist  0 0",
    ),
    (
        "lib.plist={ !public.glyphOrder 'a }",
        "1000 - B a - B 8 [] - a 7 [66, 65]",
    ),
    (
        "lib.plist={ !public.glyphOrder [ 'a #1 'q [ ] 'a ] }",
        "1000 a q - B a - B 8 [] - a 7 [66, 65]",
    ),
    (
        "fontinfo.plist={ !unitsPerEm #16 }",
        "16 - B a - B 8 [] - a 7 [66, 65]",
    ),
];

/// The same, of the list of layers and that of glyphs.
const LISTS: [(&str, &str); 12] = [
    (
        "layercontents.plist={ }|glyphs/contents.plist=?",
        "u/layercontents.plist NotPlist  0 0",
    ),
    (
        "layercontents.plist=[ [ 'x ] ]",
        "u/layercontents.plist NotPlist  0 0",
    ),
    (
        "layercontents.plist=[ [ 'x 'glyphs 'y ] ]",
        "u/layercontents.plist NotPlist  0 0",
    ),
    (
        "layercontents.plist=[ [ 'x 'glyphs ] [ 'y #1 ] ]",
        "u/layercontents.plist NotPlist  0 0",
    ),
    (
        "layercontents.plist=[ [ 'glyphs 'x ] ]|glyphs/contents.plist=?",
        "u NoLayer glyphs 0 0",
    ),
    (
        "glyphs/contents.plist=[ ]",
        "u/glyphs/contents.plist NotPlist  0 0",
    ),
    (
        "glyphs/contents.plist={ !\t 'a !c #1 }",
        "u/glyphs/contents.plist NotPlist  0 0",
    ),
    (
        "glyphs/contents.plist={ !a '.. !a '.. !\t '.. !~\u{7f} '.. }",
        "u/glyphs/contents.plist GlyphName  1 0",
    ),
    (
        "glyphs/contents.plist={ !~ '.. ! '.. }",
        "u/glyphs/contents.plist GlyphName  1 0",
    ),
    (
        "glyphs/contents.plist={ !!~\u{7f} '.. }",
        "u/glyphs/contents.plist GlyphName  0 0",
    ),
    (
        "glyphs/contents.plist={ !1234567890123456789012345678901234567890123456789012345678901234 'x }",
        "u/glyphs/contents.plist GlyphName  0 0",
    ),
    (
        "glyphs/contents.plist={ !123456789012345678901234567890123456789012345678901234567890123 'x }",
        "u/glyphs/x MissingFile  0 0",
    ),
];

/// The same, of the glyphs, which are read in the byte order of their names, B before a.
const GLYPHS: [(&str, &str); 10] = [
    (
        "glyphs/contents.plist={ !a '../a !B 'B.glif }",
        "u/glyphs/contents.plist FileName ../a 0 0",
    ),
    (
        "glyphs/contents.plist={ !a '../a !B 'B.glif }|glyphs/B.glif=-1",
        "u/glyphs/B.glif CoordinateRange width 26 -1",
    ),
    (
        "glyphs/contents.plist={ !a ' }",
        "u/glyphs/contents.plist FileName  0 0",
    ),
    (
        "glyphs/contents.plist={ !a '. }",
        "u/glyphs/contents.plist FileName . 0 0",
    ),
    (
        "glyphs/contents.plist={ !a '.. }",
        "u/glyphs/contents.plist FileName .. 0 0",
    ),
    (
        "glyphs/contents.plist={ !a '..a }",
        "u/glyphs/..a MissingFile  0 0",
    ),
    ("glyphs/B.glif=8 41", "u DuplicateCode a 0 65"),
    ("glyphs/B.glif=8 41 42", "u DuplicateCode a 0 66"),
    (
        "glyphs/contents.plist={ !b 'b !B 'a.glif !a 'a.glif }",
        "u DuplicateCode a 0 66",
    ),
    (
        "glyphs/contents.plist={ !b 'b !a 'a.glif }",
        "u/glyphs/b MissingFile  0 0",
    ),
];

/// Layers that are asked for by name, of which two have one.
const LAYERS: &str = "layercontents.plist=[ [ 'x 'up/down ] [ 'y 'glyphs ] [ 'y 'z ] ]";

const ASKED: [(&str, &str); 4] = [
    ("y", "1000 - B a - B 8 [] - a 7 [66, 65]"),
    ("x", "u/layercontents.plist FileName up/down 0 0"),
    ("", "u NoLayer  0 0"),
    ("glyphs", "u NoLayer glyphs 0 0"),
];

/// Whether `.notdef` is among the glyphs, how many others there are, and what a source is refused for: too many, where
/// there are more than 32,510 with a `.notdef` that is made, or else for the file of the first, which isn't there.
const COUNTS: [(bool, u32, &str); 4] = [
    (true, 32_509, "u/glyphs/n MissingFile  0 0"),
    (false, 32_509, "u/glyphs/g MissingFile  0 0"),
    (true, 32_510, "u TooManyGlyphs  0 32511"),
    (false, 32_510, "u TooManyGlyphs  0 32511"),
];

/// A source that would be refused if it were read whole: its order is no dictionary, a name isn't one that a font can
/// hold, two glyphs have one code point, and a glyph that isn't wanted has no file.
const OTHER: &str = "lib.plist=[ ]|glyphs/contents.plist={ !a 'a.glif !\t 'a.glif !d '.. }";

/// The files in the order in which they are read, where all glyphs are, and where `a` is wanted.
const WHOLE: [&str; 7] = [
    "metainfo.plist",
    "fontinfo.plist",
    "lib.plist",
    "layercontents.plist",
    "glyphs/contents.plist",
    "glyphs/B.glif",
    "glyphs/a.glif",
];

const PART: [&str; 5] = [
    "metainfo.plist",
    "fontinfo.plist",
    "layercontents.plist",
    "glyphs/contents.plist",
    "glyphs/a.glif",
];

/// A part of a property list.
fn part_of(alloc: Global, part: &str) -> Result<String, NoMemory> {
    if let Some(key) = part.strip_prefix('!') {
        return Ok(format!(in alloc; "<key>{key}</key>")?);
    }
    if let Some(text) = part.strip_prefix('\'') {
        return Ok(format!(in alloc; "<string>{text}</string>")?);
    }
    if let Some(number) = part.strip_prefix('#') {
        return Ok(format!(in alloc; "<real>{number}</real>")?);
    }
    let tag = match part {
        "{" => "<dict>",
        "}" => "</dict>",
        "[" => "<array>",
        "]" => "</array>",
        _ => "?",
    };
    Ok(String::from_str(alloc, tag)?)
}

/// The text of a property list.
fn list_of(alloc: Global, written: &str) -> Result<String, NoMemory> {
    let mut text = String::from_str(alloc, "<plist>")?;
    for part in written.split(' ') {
        text.push_str(part_of(alloc, part)?.as_str())?;
    }
    text.push_str("</plist>")?;
    Ok(text)
}

/// The text of a glyph, whose name is not that in the list of glyphs.
fn glyph_of(alloc: Global, written: &str) -> Result<String, NoMemory> {
    let (width, codes) = match written.split_once(' ') {
        Some((width, codes)) => (width, codes),
        None => (written, ""),
    };
    let mut text = format!(in alloc; "<glyph name='' format='2'><advance width='{width}'/>")?;
    for code in codes.split(' ') {
        if !code.is_empty() {
            let element = format!(in alloc; "<unicode hex='{code}'/>")?;
            text.push_str(element.as_str())?;
        }
    }
    text.push_str("</glyph>")?;
    Ok(text)
}

/// The text of the file of this name.
fn text_of(alloc: Global, name: &str, written: &str) -> Result<String, NoMemory> {
    if name.ends_with(".glif") {
        glyph_of(alloc, written)
    } else if written == "?" {
        Ok(String::from_str(alloc, "?")?)
    } else {
        list_of(alloc, written)
    }
}

/// Adds the files of the folder `u` that are written so.
fn add(alloc: Global, files: &mut Seq<(Name, Vec<u8>)>, written: &str) -> Result<(), NoMemory> {
    for file in written.split('|') {
        if let Some((name, written)) = file.split_once('=') {
            let path = format!(in alloc; "u/{name}")?;
            let text = text_of(alloc, name, written)?;
            let bytes = Vec::from_slice(alloc, text.as_str().as_bytes())?;
            files.push((Name::from_str(alloc, path.as_str())?, bytes))?;
        }
    }
    Ok(())
}

/// The folder, with what is written in place of its files, and with these reads failing.
fn memory(alloc: Global, written: &str, failing: &[u64]) -> Result<MemorySources, NoMemory> {
    let mut files = Seq::new(alloc);
    add(alloc, &mut files, written)?;
    add(alloc, &mut files, FILES)?;
    let failing = Seq::from_vec(Vec::from_slice(alloc, failing)?);
    Ok(MemorySources::new(files, failing))
}

/// A list of glyphs, as it is written above: perhaps `.notdef`, and so many others.
fn glyph_list(alloc: Global, has_notdef: bool, others: u32) -> Result<String, NoMemory> {
    let mut written = String::from_str(alloc, "glyphs/contents.plist={")?;
    if has_notdef {
        written.push_str(" !.notdef 'n")?;
    }
    for number in 0..others {
        write!(written, " !g{number} 'g")?;
    }
    written.push_str(" }")?;
    Ok(written)
}

/// The names.
fn names_of(alloc: Global, texts: &[&'static str]) -> Result<Seq<Name>, NoMemory> {
    let mut names = Seq::new(alloc);
    for text in texts {
        names.push(Name::from_str(alloc, text)?)?;
    }
    Ok(names)
}

/// Adds names to a line.
fn write_names(line: &mut String, names: &Seq<Name>) -> Result<(), NoMemory> {
    for name in names.as_slice() {
        line.push_str(name.as_str())?;
        line.push_str(" ")?;
    }
    Ok(())
}

/// A source as its units of the em, its order, its names, and of each glyph its name, its advance and its code points.
fn source_line(alloc: Global, master: &Master) -> Result<String, NoMemory> {
    let mut line = String::new(alloc);
    write!(line, "{} ", master.info.units)?;
    write_names(&mut line, &master.order)?;
    line.push_str("- ")?;
    write_names(&mut line, &master.names)?;
    line.push_str("-")?;
    for (number, glyph) in master.glyphs.as_slice().iter().enumerate() {
        if number > 0 {
            line.push_str(" -")?;
        }
        match glyph {
            Some(drawing) => {
                let name = drawing.name.as_str();
                let codes = drawing.codes.as_slice();
                write!(line, " {name} {} {codes:?}", drawing.outline.advance)?;
            }
            None => line.push_str(" none")?,
        }
    }
    Ok(line)
}

/// A stop as its path, its kind, its item, its offset or position, and its first value.
fn stop_line(alloc: Global, stop: &ReadStop) -> Result<String, NoMemory> {
    let mut line = String::new(alloc);
    match stop {
        ReadStop::Refused(fault) => {
            let path = fault.path.as_str();
            let kind = fault.spot.kind.name();
            let item = fault.spot.item.as_str();
            write!(
                line,
                "{path} {kind} {item} {} {}",
                fault.spot.at, fault.spot.first
            )?;
        }
        ReadStop::ReadFault(path) => write!(line, "{} read fault", path.as_str())?,
        ReadStop::NoMemory => line.push_str("no memory")?,
    }
    Ok(line)
}

/// What a read answered.
fn outcome(alloc: Global, answer: Result<Master, ReadStop>) -> Result<String, NoMemory> {
    match answer {
        Ok(master) => source_line(alloc, &master),
        Err(stop) => stop_line(alloc, &stop),
    }
}

/// Each row's source is answered as it says.
fn check_rows(rt: &impl Abort, alloc: Global, rows: &[(&str, &str)]) -> Result<(), Fail> {
    for (written, want) in rows {
        let mut sources = memory(alloc, written, &[])?;
        let found = outcome(alloc, read(alloc, &mut sources, "u", None, None))?;
        assert_eq!(rt; found.as_str(), *want, "{written}");
    }
    Ok(())
}

#[test]
fn reads_first_files(rt: HostRuntime) -> Result<(), Fail> {
    check_rows(&rt, rt.alloc(), &FIRST_FILES)
}

#[test]
fn reads_lists(rt: HostRuntime) -> Result<(), Fail> {
    check_rows(&rt, rt.alloc(), &LISTS)
}

#[test]
fn reads_glyphs(rt: HostRuntime) -> Result<(), Fail> {
    check_rows(&rt, rt.alloc(), &GLYPHS)
}

#[test]
fn counts_glyphs(rt: HostRuntime) -> Result<(), Fail> {
    let alloc = rt.alloc();
    for (has_notdef, others, want) in COUNTS {
        let written = glyph_list(alloc, has_notdef, others)?;
        let mut sources = memory(alloc, written.as_str(), &[])?;
        let found = outcome(alloc, read(alloc, &mut sources, "u", None, None))?;
        assert_eq!(rt; found.as_str(), want);
    }
    Ok(())
}

#[test]
fn reads_layers(rt: HostRuntime) -> Result<(), Fail> {
    let alloc = rt.alloc();
    for (layer, want) in ASKED {
        let mut sources = memory(alloc, LAYERS, &[])?;
        let found = outcome(alloc, read(alloc, &mut sources, "u", Some(layer), None))?;
        assert_eq!(rt; found.as_str(), want);
    }
    Ok(())
}

#[test]
fn reads_wanted(rt: HostRuntime) -> Result<(), Fail> {
    let alloc = rt.alloc();
    let mut sources = memory(alloc, OTHER, &[])?;
    let wanted = names_of(alloc, &["\t", "q", "a"])?;
    let found = outcome(alloc, read(alloc, &mut sources, "u", None, Some(&wanted)))?;
    assert_eq!(rt;
        found.as_str(),
        "1000 - \t q a - \t 7 [66, 65] - none - a 7 [66, 65]"
    );
    Ok(())
}

/// Each read that fails is told with its path.
#[test]
fn tells_which_read_of_all_failed(rt: HostRuntime) -> Result<(), Fail> {
    let alloc = rt.alloc();
    for (number, name) in WHOLE.iter().enumerate() {
        let mut sources = memory(alloc, "", &[number as u64])?;
        let found = outcome(alloc, read(alloc, &mut sources, "u", None, None))?;
        let want = format!(in alloc; "u/{name} read fault")?;
        assert_eq!(rt; found.as_str(), want.as_str());
    }
    Ok(())
}

/// The same, where one glyph is wanted; no other file is read.
#[test]
fn tells_which_read_of_some_failed(rt: HostRuntime) -> Result<(), Fail> {
    let alloc = rt.alloc();
    let wanted = names_of(alloc, &["c", "a"])?;
    for (number, name) in PART.iter().enumerate() {
        let mut sources = memory(alloc, "", &[number as u64])?;
        let found = outcome(alloc, read(alloc, &mut sources, "u", None, Some(&wanted)))?;
        let want = format!(in alloc; "u/{name} read fault")?;
        assert_eq!(rt; found.as_str(), want.as_str());
    }
    Ok(())
}
