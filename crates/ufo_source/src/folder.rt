ghost use Rattle.std.specs.Prelude.{◌≡◌, map, option_map, IfOk, IfNone, IfSome};
ghost use Rattle.source_files.specs.Stops.{Answers, Reads};
ghost use Rattle.ufo_source.specs.Folders.{master_at, part_at, whole_at};
ghost use Rattle.ufo_source.specs.Limits.{IsMasterWithin, IsPartOf, IsWhole};
ghost use Rattle.ufo_source.specs.Paths.{IsIn};

use crate::contents::{read_all_contents, read_contents};
use crate::glyphs::read_glyphs;
use crate::index::Index;
use crate::information::read_info;
use crate::layers::read_layer;
use crate::metainfo::read_metainfo;
use crate::order::read_order;
use crate::wanted::read_wanted;
use basics::{Name, NoMemory, Seq};
use fontinfo::Info;
use glif::Drawing;
use outside::Sources;
use source_files::ReadStop;
use std::alloc::Global;

/// What a UFO folder holds as a source of a font (UFO 3).
#[derive(Drop)]
pub struct Master {
    /// The font information.
    pub info: Info,
    /// The names that `public.glyphOrder` of `lib.plist` lists, in its order, each once at its first position; also
    /// such as no glyph has. Empty where only wanted glyphs are read.
    pub order: Seq<Name>,
    /// The names of the glyphs: all of the layer, in their byte order; or those that are wanted, in their order.
    pub names: Seq<Name>,
    /// The drawing of each name, with that name; None where the layer lacks a wanted glyph.
    pub glyphs: Seq<Option<Drawing>>,
}

/// The names of entries, in order.
fn names_of(alloc: Global, entries: Seq<(Name, Name)>) -> Result<Seq<Name>, NoMemory>
    ensures { IfOk result (λ names. names ≡ map (λ entry. entry.0) entries) }
{
    let mut names = Seq::new(alloc);
    for (name, _file) in entries.into_vec() {
        names.push(name)?;
    }
    Ok(names)
}

/// A copy of names.
fn copied(alloc: Global, names: &[Name]) -> Result<Seq<Name>, NoMemory>
    ensures { IfOk result (λ copies. copies ≡ names.now) }
{
    let mut copies = Seq::new(alloc);
    for name in names {
        copies.push(name.try_copy(alloc)?)?;
    }
    Ok(copies)
}

/// Reads a source whole: the order of its glyphs too, and all of them.
#[tactic(auto, unfolding(crate::specs::Folders::whole_at))]
fn read_whole<S: Sources>(
    alloc: Global,
    sources: &mut S,
    folder: &str,
    name: Option<&str>,
) -> Result<Master, ReadStop>
    ensures exact { Reads (S.state sources.old) (S.state sources.new) (IsIn folder.now) (Answers (λ master. master) result (whole_at (S.state sources.old).files folder.now (option_map (λ name. name.now) name.entry))) result }
    ensures within { IfOk result IsMasterWithin }
    ensures whole { IfOk result IsWhole }
{
    read_metainfo(alloc, sources, folder)?;
    let info = read_info(alloc, sources, folder)?;
    let order = read_order(alloc, sources, folder)?;
    let layer = read_layer(alloc, sources, folder, name)?;
    let entries = read_all_contents(alloc, sources, folder, layer.as_str())?;
    let glyphs = read_glyphs(alloc, sources, folder, layer.as_str(), entries.as_slice())?;
    let names = names_of(alloc, entries)?;
    Ok(Master {
        info,
        order,
        names,
        glyphs,
    })
}

/// Reads a source of which these glyphs alone are wanted.
#[tactic(auto, unfolding(crate::specs::Folders::part_at))]
fn read_part<S: Sources>(
    alloc: Global,
    sources: &mut S,
    folder: &str,
    name: Option<&str>,
    wanted: &Seq<Name>,
) -> Result<Master, ReadStop>
    ensures exact { Reads (S.state sources.old) (S.state sources.new) (IsIn folder.now) (Answers (λ master. master) result (part_at (S.state sources.old).files folder.now (option_map (λ name. name.now) name.entry) wanted.now)) result }
    ensures within { IfOk result IsMasterWithin }
    ensures wanted { IfOk result (IsPartOf wanted.now) }
{
    read_metainfo(alloc, sources, folder)?;
    let info = read_info(alloc, sources, folder)?;
    let layer = read_layer(alloc, sources, folder, name)?;
    let entries = read_contents(alloc, sources, folder, layer.as_str())?;
    let index = Index::new(alloc, entries.as_slice())?;
    let glyphs = read_wanted(
        alloc,
        sources,
        folder,
        layer.as_str(),
        &index,
        wanted.as_slice(),
    )?;
    let names = copied(alloc, wanted.as_slice())?;
    Ok(Master {
        info,
        order: Seq::new(alloc),
        names,
        glyphs,
    })
}

/// Reads a UFO folder (UFO 3) as a source of a font, each file once and in the order of the list below. A file's path
/// is the folder as it stands, `/`, and the file's name.
///
/// The glyphs are those of the layer of the name `layer`, of the first that `layercontents.plist` has of it, or without
/// a name those of the folder `glyphs`. Without `wanted` the whole source is read: the order of its glyphs, and all of
/// them, in the byte order of their names. With `wanted` these glyphs alone are read, in the order of the names, and
/// neither `lib.plist` nor a glyph that isn't named; a name that the layer lacks gives None. A glyph's name is the one
/// that `contents.plist` has for it, whatever its file says.
///
/// # Errors
///
/// `ReadStop::Refused` with the first fault. Its path is that of the file, or the folder where it says so. Each file's
/// own faults come first: MissingFile, FileTooLong, the fault of its text, NotPlist for what is no property list, and
/// NotPlist at 0 where the value isn't of the kind that is named here. Then:
///
/// 1. `metainfo.plist`, a dictionary: FormatVersion where its `formatVersion` isn't a number that is 3, with the
///    number as `first`, or −1 where there is none or it isn't whole;
/// 2. `fontinfo.plist`, a dictionary: the faults of font information. The file may be absent, which means an empty
///    dictionary;
/// 3. without `wanted`, `lib.plist`, a dictionary: its `public.glyphOrder` counts where it is an array, and in it the
///    texts, of equal ones the first. The file may be absent;
/// 4. `layercontents.plist`, an array of arrays of two texts, a layer's name and its folder's: for the UFO folder
///    NoLayer where the layer isn't there, with its name, or `glyphs`, as item; FileName where its folder's name is
///    empty, `.`, `..` or holds a slash, with that name as item. A folder without this file, though UFO 3 asks for it,
///    has the layer `public.default` with the folder `glyphs`;
/// 5. `contents.plist` in that folder, a dictionary of texts. Without `wanted` also GlyphName where a name isn't 1 to 63
///    bytes of ASCII 33 to 126, with its position in the dictionary, counted from 0; and for the UFO folder TooManyGlyphs
///    where there are more than 32,510, a `.notdef` that is lacking counted with them, with their number as `first`;
/// 6. each glyph: for `contents.plist` FileName, as above, of its file's name; the faults of its file; and without
///    `wanted` for the UFO folder DuplicateCode where an earlier glyph has one of its code points, with the glyph's name
///    as item and the first such code point as `first`.
///
/// `ReadStop::ReadFault` only where the sources failed, with the path of the file, which begins with the folder and a
/// slash. `ReadStop::NoMemory` where memory ran out.
pub fn read<S: Sources>(
    alloc: Global,
    sources: &mut S,
    folder: &str,
    layer: Option<&str>,
    wanted: Option<&Seq<Name>>,
) -> Result<Master, ReadStop>
    ensures exact { Reads (S.state sources.old) (S.state sources.new) (IsIn folder.now) (Answers (λ master. master) result (master_at (S.state sources.old).files folder.now (option_map (λ name. name.now) layer.entry) (option_map (λ names. names.now) wanted.entry))) result }
    // What holds whatever the sources tell: of each source, of a whole one, and where some glyphs are wanted.
    ensures within { IfOk result IsMasterWithin }
    ensures whole { IfNone wanted.entry (IfOk result IsWhole) }
    ensures wanted { IfSome wanted.entry (λ names. IfOk result (IsPartOf names.now)) }
{
    match wanted {
        None => read_whole(alloc, sources, folder, layer),
        Some(names) => read_part(alloc, sources, folder, layer, names),
    }
}
