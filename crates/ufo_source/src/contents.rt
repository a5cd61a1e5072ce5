ghost use Rattle.std.specs.Prelude.{◌≡◌, map, string_bytes, IfOk};
ghost use Rattle.std.specs.List.{list_all, list_any};
ghost use Rattle.basics.specs.Reading.{Gives};
ghost use Rattle.plist.specs.Values.{plain_entry, plain_value};
ghost use Rattle.source_files.specs.Stops.{Answers, NeverFails, Reads};
ghost use Rattle.source_files.specs.Trees.{in_file};
ghost use Rattle.ufo_source.specs.Contents as rules;
ghost use Rattle.ufo_source.specs.Contents.{all_contents_at, contents_at, contents_name, contents_of, contents_path, entries_among, entry_of, few_glyphs, glyph_count, glyph_name, glyph_names, is_glyph_name, is_name_byte, is_notdef};
ghost use Rattle.ufo_source.specs.Limits.{AreGlyphNames};
ghost use Rattle.ufo_source.specs.Paths.{IsIn};

use crate::paths::{in_folder, path_in};
use crate::property_lists::{entries_of, read_value, text_of};
use basics::{Kind, Name, NoMemory, Seq, Stop, stop_at};
use outside::Sources;
use plist::Value;
use source_files::{ReadStop, in_file};
use std::alloc::Global;
use std::collections::BTreeMap;

/// The most glyphs of a font, `.notdef` with them.
const GLYPHS: usize = 32_510;

/// The glyph's name and its file's, of an entry that has a text.
#[tactic(auto, unfolding(crate::specs::Contents::entry_of))]
fn entry_of(alloc: Global, entry: &(Name, Value)) -> Result<(Name, Name), Stop>
    ensures { Gives (λ entry. entry) result (entry_of (plain_entry entry.now)) }
{
    let file = text_of(alloc, &entry.1)?;
    let file = Name::from_str(alloc, file)?;
    let name = entry.0.try_copy(alloc)?;
    Ok((name, file))
}

/// The glyphs that entries are, in order.
fn entries_among(alloc: Global, entries: &[(Name, Value)]) -> Result<Seq<(Name, Name)>, Stop>
    ensures { Gives (λ entries. entries) result (entries_among (map plain_entry entries.now)) }
{
    let mut glyphs = Seq::new(alloc);
    for entry in entries {
        glyphs.push(entry_of(alloc, entry)?)?;
    }
    Ok(glyphs)
}

/// The glyphs that the value of `contents.plist` lists, in its order.
#[tactic(auto, unfolding(crate::specs::Contents::contents_of))]
fn contents_of(alloc: Global, value: &Value) -> Result<Seq<(Name, Name)>, Stop>
    ensures { Gives (λ entries. entries) result (contents_of (plain_value value.now)) }
{
    let entries = entries_of(alloc, value)?;
    entries_among(alloc, entries)
}

/// The name of the list of a layer's glyphs, as seen from the UFO folder.
pub(crate) fn contents_name(alloc: Global, layer: &str) -> Result<String, NoMemory>
    ensures { IfOk result (λ name. string_bytes name ≡ contents_name layer.now) }
{
    path_in(alloc, layer, "contents.plist")
}

/// Reads the list of a layer's glyphs: the name of each with the name of its file, in the order of the list.
#[tactic(auto, using(source_files::proofs::InFile::answers_in_file), unfolding(crate::specs::Contents::contents_at))]
pub(crate) fn read_contents<S: Sources>(
    alloc: Global,
    sources: &mut S,
    folder: &str,
    layer: &str,
) -> Result<Seq<(Name, Name)>, ReadStop>
    ensures { Reads (S.state sources.old) (S.state sources.new) (IsIn folder.now) (Answers (λ entries. entries) result (contents_at (S.state sources.old).files folder.now layer.now)) result }
{
    let name = contents_name(alloc, layer)?;
    let value = read_value(alloc, sources, folder, name.as_str())?;
    in_folder(alloc, folder, name.as_str(), contents_of(alloc, &value))
}

/// Whether a byte may stand in a glyph's name: one of ASCII that shows.
fn is_name_byte(byte: u8) -> bool
    ensures { result ≡ is_name_byte byte }
{
    33 <= byte && byte <= 126
}

/// Whether each byte may stand in a glyph's name.
fn are_name_bytes(bytes: &[u8]) -> bool
    ensures { result ≡ list_all is_name_byte bytes.now }
{
    bytes.iter().all(|byte| is_name_byte(*byte))
}

/// Whether a font can hold a glyph of this name.
fn is_glyph_name(name: &str) -> bool
    ensures { result ≡ is_glyph_name name.now }
{
    1 <= name.len() && name.len() <= 63 && are_name_bytes(name.as_bytes())
}

/// Tests the name of the glyph at this position.
fn check_glyph_name(alloc: Global, position: usize, entry: &(Name, Name)) -> Result<(), Stop>
    ensures { Gives (λ _. tt) result (glyph_name position entry.now) }
{
    if is_glyph_name(entry.0.as_str()) {
        Ok(())
    } else {
        Err(stop_at(alloc, Kind::GlyphName, "", position as u64, 0))
    }
}

/// Tests the names of the glyphs, in order.
fn check_glyph_names(alloc: Global, entries: &[(Name, Name)]) -> Result<(), Stop>
    ensures { Gives (λ _. tt) result (glyph_names entries.now) }
{
    for (position, entry) in entries.iter().enumerate() {
        check_glyph_name(alloc, position, entry)?;
    }
    Ok(())
}

/// Whether one of the glyphs is `.notdef`.
fn has_notdef(entries: &[(Name, Name)]) -> bool
    ensures { result ≡ list_any is_notdef entries.now }
{
    entries.iter().any(|entry| entry.0.as_str() == ".notdef")
}

/// How many glyphs the font has: `.notdef` is made where there is none.
fn glyph_count(entries: &[(Name, Name)]) -> usize
    ensures { result ≡ glyph_count entries.now }
{
    if has_notdef(entries) {
        entries.len()
    } else {
        entries.len() + 1
    }
}

/// Tests that the font has few enough glyphs.
fn check_count(alloc: Global, entries: &[(Name, Name)]) -> Result<(), Stop>
    ensures { Gives (λ _. tt) result (few_glyphs entries.now) }
{
    let count = glyph_count(entries);
    if count <= GLYPHS {
        Ok(())
    } else {
        Err(stop_at(alloc, Kind::TooManyGlyphs, "", 0, count as i64))
    }
}

/// Each entry's file by its name.
fn by_name(alloc: Global, entries: Vec<(Name, Name)>) -> Result<BTreeMap<Name, Name>, NoMemory>
    ensures { IfOk result (λ files. files.entries ≡ rules.in_byte_order entries.items) }
{
    let mut files = BTreeMap::new(alloc);
    for (name, file) in entries {
        files.insert(name, file)?;
    }
    Ok(files)
}

/// The entries in the byte order of their names.
fn in_byte_order(alloc: Global, entries: Seq<(Name, Name)>) -> Result<Seq<(Name, Name)>, NoMemory>
    ensures { IfOk result (λ ordered. ordered ≡ rules.in_byte_order entries) }
{
    let mut ordered = Seq::new(alloc);
    for entry in by_name(alloc, entries.into_vec())? {
        ordered.push(entry)?;
    }
    Ok(ordered)
}

/// Tests the names of the glyphs, as the answer for their list.
#[tactic(auto, using(source_files::proofs::InFile::answers_in_file))]
fn check_names(
    alloc: Global,
    folder: &str,
    layer: &str,
    entries: &[(Name, Name)],
) -> Result<(), ReadStop>
    ensures answers { Answers (λ _. tt) result (in_file (contents_path folder.now layer.now) (glyph_names entries.now)) }
    ensures never { NeverFails result }
{
    let name = contents_name(alloc, layer)?;
    in_folder(
        alloc,
        folder,
        name.as_str(),
        check_glyph_names(alloc, entries),
    )
}

/// Tests that there are few enough glyphs, as the answer for the UFO folder.
#[tactic(auto, using(source_files::proofs::InFile::answers_in_file))]
fn check_few(alloc: Global, folder: &str, entries: &[(Name, Name)]) -> Result<(), ReadStop>
    ensures answers { Answers (λ _. tt) result (in_file folder.now (few_glyphs entries.now)) }
    ensures never { NeverFails result }
{
    in_file(alloc, folder, check_count(alloc, entries))
}

/// Reads the list of a layer's glyphs, of which the font takes all: their names are tested, and their number. They
/// are answered in the byte order of their names.
#[tactic(auto, unfolding(crate::specs::Contents::all_contents_at))]
pub(crate) fn read_all_contents<S: Sources>(
    alloc: Global,
    sources: &mut S,
    folder: &str,
    layer: &str,
) -> Result<Seq<(Name, Name)>, ReadStop>
    ensures exact { Reads (S.state sources.old) (S.state sources.new) (IsIn folder.now) (Answers (λ entries. entries) result (all_contents_at (S.state sources.old).files folder.now layer.now)) result }
    ensures names { IfOk result (λ entries. AreGlyphNames (map (λ entry. entry.0) entries)) }
{
    let entries = read_contents(alloc, sources, folder, layer)?;
    check_names(alloc, folder, layer, entries.as_slice())?;
    check_few(alloc, folder, entries.as_slice())?;
    Ok(in_byte_order(alloc, entries)?)
}
