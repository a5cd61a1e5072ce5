//! What no clause says: that calls succeed where there is enough memory, and their answers over files in memory,
//! worked out by hand.

use crate::{FontSources, ReadStop, SourceGlyphs, read};
use basics::{Name, NoMemory, Seq};
use glif::Drawing;
use outside::MemorySources;
use std::alloc::Global;
use std::fmt::Write;
use std::process::Abort;
use std::test::Fail;

/// The document of a font.
const PATH: &str = "d/f.designspace";

/// The files of a font, parted by `|`. A document is written as its sources, each the name of its folder, its place on
/// the one axis and perhaps a layer. A property list is written in parts with a blank between: a key after `!`, a text
/// after `'`, a number after `#`, and brackets. A glyph is written as its advance. The default source has no `.notdef`,
/// and its order has a name twice and one of no glyph. Of the others one lacks a glyph and has one that isn't wanted, and
/// one is a layer.
const FILES: &str =
    "d/f.designspace=@ B:1000 A:0 C:500:x|d/A.ufo/metainfo.plist={ !formatVersion #3 }|d/A.ufo/fontinfo.plist={ !unitsPerEm #1001 }|d/A.ufo/lib.plist={ !public.glyphOrder [ 'b 'q 'a 'b ] }|d/A.ufo/glyphs/contents.plist={ !c 'c !b 'b !a 'a }|d/A.ufo/glyphs/a=1|d/A.ufo/glyphs/b=2|d/A.ufo/glyphs/c=3|d/B.ufo/metainfo.plist={ !formatVersion #3 }|d/B.ufo/glyphs/contents.plist={ !c 'c !b 'b !.notdef 'n !d 'd }|d/B.ufo/glyphs/b=12|d/B.ufo/glyphs/c=13|d/C.ufo/metainfo.plist={ !formatVersion #3 }|d/C.ufo/layercontents.plist=[ [ 'x 'y ] ]|d/C.ufo/y/contents.plist={ !a 'a }|d/C.ufo/y/a=21";

/// Those files, as they are read.
const WHOLE: &str =
    "1 2 0 - .notdef b a c - d/B.ufo 1000 500 12 none 13 - d/A.ufo 1001 500 2 1 3 - d/C.ufo 1000 500 none 21 none";

/// What stands in place of the document, and what is read or refused.
const DOCUMENTS: [(&str, &str); 11] = [
    ("", WHOLE),
    ("d/f.designspace=?", "d/f.designspace BadText  0 0 0 0"),
    (
        "d/f.designspace=<plist/>",
        "d/f.designspace NotDesignspace  0 0 0 0",
    ),
    (
        "d/f.designspace=<designspace format='3'/>",
        "d/f.designspace FormatVersion  0 0 3 0",
    ),
    (
        "d/f.designspace=<designspace format='5'/>",
        "d/f.designspace NoAxes  0 0 0 0",
    ),
    (
        "d/f.designspace=<designspace format='5'><axes><axis tag='wght' name='W' minimum='0' default='0' maximum='9'/></axes><sources><source/></sources></designspace>",
        "d/f.designspace MissingAttribute filename 109 0 0 0",
    ),
    (
        "d/f.designspace=@ B:1000 C:500",
        "d/f.designspace NoDefaultSource  0 0 0 0",
    ),
    (
        "d/f.designspace=@ C:500 C:500",
        "d/f.designspace NoDefaultSource  0 0 0 0",
    ),
    (
        "d/f.designspace=@ B:500 A:0 B:1000 C:1000 C:500",
        "d/f.designspace SameLocation  2 3 0 0",
    ),
    (
        "d/f.designspace=@ B:500 A:0 A:0|d/A.ufo/metainfo.plist=?",
        "d/f.designspace SameLocation  1 2 0 0",
    ),
    (
        "d/f.designspace=@ A:0",
        "0 - .notdef b a c - d/A.ufo 1001 500 2 1 3",
    ),
];

/// The same, of the files of the sources.
const SOURCES: [(&str, &str); 12] = [
    (
        "d/B.ufo/metainfo.plist=?|d/A.ufo/glyphs/contents.plist={ !a 'b !b 'b !c '.. }|d/C.ufo/metainfo.plist=?",
        "d/A.ufo/glyphs/contents.plist FileName .. 0 0 0 0",
    ),
    (
        "d/A.ufo/lib.plist=[ ]",
        "d/A.ufo/lib.plist NotPlist  0 0 0 0",
    ),
    (
        "d/A.ufo/glyphs/contents.plist={ !a 'a !\t 'a }",
        "d/A.ufo/glyphs/contents.plist GlyphName  1 0 0 0",
    ),
    (
        "d/C.ufo/metainfo.plist=?|d/B.ufo/glyphs/c=-1",
        "d/B.ufo/glyphs/c CoordinateRange width 26 0 -1 0",
    ),
    (
        "d/B.ufo/glyphs/b=?|d/B.ufo/glyphs/c=-1",
        "d/B.ufo/glyphs/b BadText  0 0 0 0",
    ),
    (
        "d/C.ufo/layercontents.plist=[ ]",
        "d/C.ufo NoLayer x 0 0 0 0",
    ),
    ("d/B.ufo/lib.plist=?|d/C.ufo/lib.plist=?", WHOLE),
    ("d/B.ufo/glyphs/n=?|d/B.ufo/glyphs/d=?", WHOLE),
    (
        "d/A.ufo/lib.plist={ }",
        "1 2 0 - .notdef a b c - d/B.ufo 1000 500 none 12 13 - d/A.ufo 1001 500 1 2 3 - d/C.ufo 1000 500 21 none none",
    ),
    (
        "d/A.ufo/lib.plist={ !public.glyphOrder [ '.notdef 'c ] }",
        "1 2 0 - .notdef c a b - d/B.ufo 1000 500 13 none 12 - d/A.ufo 1001 500 3 1 2 - d/C.ufo 1000 500 none 21 none",
    ),
    (
        "d/A.ufo/lib.plist={ !public.glyphOrder [ 'c '.notdef ] }|d/A.ufo/glyphs/contents.plist={ !c 'c !.notdef 'b !$ 'a }|d/B.ufo/glyphs/n=14",
        "1 2 0 - .notdef c $ - d/B.ufo 1000 14 13 none - d/A.ufo 1001 2 3 1 - d/C.ufo 1000 none none none",
    ),
    (
        "d/A.ufo/glyphs/contents.plist={ }|d/A.ufo/fontinfo.plist={ !unitsPerEm #16 }",
        "1 2 0 - .notdef - d/B.ufo 1000 8 - d/A.ufo 16 8 - d/C.ufo 1000 8",
    ),
];

/// Paths of a document with one source, and the first file of that source, which isn't there.
const FOLDERS: [(&str, &str); 5] = [
    ("f", "A.ufo/metainfo.plist MissingFile  0 0 0 0"),
    ("/f", "/A.ufo/metainfo.plist MissingFile  0 0 0 0"),
    ("a/b.c/f", "a/b.c/A.ufo/metainfo.plist MissingFile  0 0 0 0"),
    ("/a/f", "/a/A.ufo/metainfo.plist MissingFile  0 0 0 0"),
    ("a//", "a//A.ufo/metainfo.plist MissingFile  0 0 0 0"),
];

/// The files in the order in which they are read.
const READS: [&str; 20] = [
    "d/f.designspace",
    "d/A.ufo/metainfo.plist",
    "d/A.ufo/fontinfo.plist",
    "d/A.ufo/lib.plist",
    "d/A.ufo/layercontents.plist",
    "d/A.ufo/glyphs/contents.plist",
    "d/A.ufo/glyphs/a",
    "d/A.ufo/glyphs/b",
    "d/A.ufo/glyphs/c",
    "d/B.ufo/metainfo.plist",
    "d/B.ufo/fontinfo.plist",
    "d/B.ufo/layercontents.plist",
    "d/B.ufo/glyphs/contents.plist",
    "d/B.ufo/glyphs/b",
    "d/B.ufo/glyphs/c",
    "d/C.ufo/metainfo.plist",
    "d/C.ufo/fontinfo.plist",
    "d/C.ufo/layercontents.plist",
    "d/C.ufo/y/contents.plist",
    "d/C.ufo/y/a",
];

/// A source of a document.
fn source_of(alloc: Global, written: &str) -> Result<String, NoMemory> {
    let (folder, place) = match written.split_once(':') {
        Some((folder, place)) => (folder, place),
        None => (written, "0"),
    };
    let (place, layer) = match place.split_once(':') {
        Some((place, layer)) => (place, layer),
        None => (place, ""),
    };
    let mut text = format!(in alloc; "<source filename='{folder}.ufo'")?;
    if !layer.is_empty() {
        let attribute = format!(in alloc; " layer='{layer}'")?;
        text.push_str(attribute.as_str())?;
    }
    let location = format!(in alloc;
        "><location><dimension name='W' xvalue='{place}'/></location></source>"
    )?;
    text.push_str(location.as_str())?;
    Ok(text)
}

/// A document with one axis.
fn document_of(alloc: Global, sources: &str) -> Result<String, NoMemory> {
    let mut text = String::from_str(
        alloc,
        "<designspace format='5.0'><axes><axis tag='wght' name='W' minimum='0' default='0' maximum='1000'/></axes><sources>",
    )?;
    for source in sources.split(' ') {
        text.push_str(source_of(alloc, source)?.as_str())?;
    }
    text.push_str("</sources></designspace>")?;
    Ok(text)
}

/// A part of a property list.
fn part_of(alloc: Global, part: &str) -> Result<String, NoMemory> {
    if let Some(key) = part.strip_prefix('!') {
        return Ok(format!(in alloc; "<key>{key}</key>")?);
    }
    if let Some(text) = part.strip_prefix('\'') {
        return Ok(format!(in alloc; "<string>{text}</string>")?);
    }
    if let Some(number) = part.strip_prefix('#') {
        return Ok(format!(in alloc; "<real>{number}</real>")?);
    }
    let tag = match part {
        "{" => "<dict>",
        "}" => "</dict>",
        "[" => "<array>",
        "]" => "</array>",
        _ => "?",
    };
    Ok(String::from_str(alloc, tag)?)
}

/// A property list.
fn list_of(alloc: Global, written: &str) -> Result<String, NoMemory> {
    let mut text = String::from_str(alloc, "<plist>")?;
    for part in written.split(' ') {
        text.push_str(part_of(alloc, part)?.as_str())?;
    }
    text.push_str("</plist>")?;
    Ok(text)
}

/// The text of a file.
fn text_of(alloc: Global, path: &str, written: &str) -> Result<String, NoMemory> {
    if let Some(sources) = written.strip_prefix("@ ") {
        document_of(alloc, sources)
    } else if written == "?" || written.starts_with('<') {
        Ok(String::from_str(alloc, written)?)
    } else if path.ends_with(".plist") {
        list_of(alloc, written)
    } else {
        Ok(format!(in alloc; "<glyph name='' format='2'><advance width='{written}'/></glyph>")?)
    }
}

/// Adds the files that are written so.
fn add(alloc: Global, files: &mut Seq<(Name, Vec<u8>)>, written: &str) -> Result<(), NoMemory> {
    for file in written.split('|') {
        if let Some((path, written)) = file.split_once('=') {
            let text = text_of(alloc, path, written)?;
            let bytes = Vec::from_slice(alloc, text.as_str().as_bytes())?;
            files.push((Name::from_str(alloc, path)?, bytes))?;
        }
    }
    Ok(())
}

/// The files, with others in place of some, and with these reads failing.
fn memory(alloc: Global, written: &str, failing: &[u64]) -> Result<MemorySources, NoMemory> {
    let mut files = Seq::new(alloc);
    add(alloc, &mut files, written)?;
    add(alloc, &mut files, FILES)?;
    let failing = Seq::from_vec(Vec::from_slice(alloc, failing)?);
    Ok(MemorySources::new(files, failing))
}

/// Adds a glyph to a line, as its advance.
fn write_glyph(line: &mut String, glyph: &Option<Drawing>) -> Result<(), NoMemory> {
    match glyph {
        Some(drawing) => write!(line, " {}", drawing.outline.advance)?,
        None => line.push_str(" none")?,
    }
    Ok(())
}

/// Adds a source to a line, as its folder, its units of the em and its glyphs.
fn write_source(line: &mut String, source: &SourceGlyphs) -> Result<(), NoMemory> {
    write!(line, " - {} {}", source.folder.as_str(), source.units)?;
    for glyph in source.glyphs.as_slice() {
        write_glyph(line, glyph)?;
    }
    Ok(())
}

/// The sources of a font as their order, the names of the glyphs, and each source.
fn found_line(alloc: Global, found: &FontSources) -> Result<String, NoMemory> {
    let mut line = String::new(alloc);
    for number in found.order.as_slice() {
        write!(line, "{number} ")?;
    }
    line.push_str("-")?;
    for name in found.names.as_slice() {
        write!(line, " {}", name.as_str())?;
    }
    for source in found.sources.as_slice() {
        write_source(&mut line, source)?;
    }
    Ok(line)
}

/// A stop as its path, its kind and all else that it tells.
fn stop_line(alloc: Global, stop: &ReadStop) -> Result<String, NoMemory> {
    let mut line = String::new(alloc);
    match stop {
        ReadStop::Refused(fault) => {
            let path = fault.path.as_str();
            let spot = &fault.spot;
            write!(line, "{path} {} {}", spot.kind.name(), spot.item.as_str())?;
            write!(line, " {} {}", spot.at, spot.also)?;
            write!(line, " {} {}", spot.first, spot.second)?;
        }
        ReadStop::ReadFault(path) => write!(line, "{} read fault", path.as_str())?,
        ReadStop::NoMemory => line.push_str("no memory")?,
    }
    Ok(line)
}

/// What a read answers.
fn outcome(alloc: Global, mut sources: MemorySources, path: &str) -> Result<String, NoMemory> {
    match read(alloc, &mut sources, path) {
        Ok(found) => found_line(alloc, &found),
        Err(stop) => stop_line(alloc, &stop),
    }
}

/// Each row's font is answered as it says.
fn check_rows(rt: &impl Abort, alloc: Global, rows: &[(&str, &str)]) -> Result<(), Fail> {
    for (written, want) in rows {
        let found = outcome(alloc, memory(alloc, written, &[])?, PATH)?;
        assert_eq!(rt; found.as_str(), *want, "{written}");
    }
    Ok(())
}

#[test]
fn reads_documents(rt: HostRuntime) -> Result<(), Fail> {
    check_rows(&rt, rt.alloc(), &DOCUMENTS)
}

#[test]
fn reads_sources(rt: HostRuntime) -> Result<(), Fail> {
    check_rows(&rt, rt.alloc(), &SOURCES)
}

#[test]
fn finds_folders(rt: HostRuntime) -> Result<(), Fail> {
    let alloc = rt.alloc();
    for (path, want) in FOLDERS {
        let written = format!(in alloc; "{path}=@ A:0")?;
        let found = outcome(alloc, memory(alloc, written.as_str(), &[])?, path)?;
        assert_eq!(rt; found.as_str(), want);
    }
    Ok(())
}

/// Each read that fails is told with its path, and no other file is read.
#[test]
fn tells_which_read_failed(rt: HostRuntime) -> Result<(), Fail> {
    let alloc = rt.alloc();
    for (number, path) in READS.iter().enumerate() {
        let found = outcome(alloc, memory(alloc, "", &[number as u64])?, PATH)?;
        let want = format!(in alloc; "{path} read fault")?;
        assert_eq!(rt; found.as_str(), want.as_str());
    }
    let found = outcome(alloc, memory(alloc, "", &[20])?, PATH)?;
    assert_eq!(rt; found.as_str(), WHOLE);
    Ok(())
}
