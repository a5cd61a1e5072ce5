ghost use Rattle.std.specs.Prelude.{◌≡◌, ◌++◌, ◌^◌, is_some, length, map, nat_lt, IfOk, Some};
ghost use Rattle.std.specs.List.{concat};
ghost use Rattle.font_build.specs.FontReading.{tags_in};
ghost use Rattle.font_build.specs.FontTags.{font_tags};
ghost use Rattle.font_build.specs.TableSteps.{gsub_slices, slices_of};
ghost use Rattle.sfnt_write.specs.Holds.{HoldsTables};
ghost use Rattle.sfnt_write.specs.Tables.{IsPlainHead, slice_of, total_size};

use crate::design_tables::DesignTables;
use crate::tables::Tables;
use basics::{NoMemory, Seq};
use sfnt_write::{Table, assemble};
use std::alloc::Global;

/// The tables have fewer bytes than this in all.
const ROOM: u64 = 0x8000_0000;

/// The tables, by rising tags.
fn listed(alloc: Global, tables: Tables) -> Result<Seq<Table>, NoMemory>
    ensures { IfOk result (λ list. map slice_of list ≡ slices_of tables) }
{
    let Tables {
        glyf,
        loca,
        fixed,
        design,
        cmap,
        gsub,
        hvar,
        varied,
    } = tables;
    let DesignTables { avar, fvar, name } = design;
    let plain = Vec::from_array(
        alloc,
        [
            table(*b"HVAR", hvar),
            table(*b"OS/2", fixed.os2),
            table(*b"avar", avar),
            table(*b"cmap", cmap),
            table(*b"fvar", fvar),
            table(*b"glyf", glyf),
            table(*b"gvar", varied.bytes),
            table(*b"head", fixed.head),
            table(*b"hhea", fixed.hhea),
            table(*b"hmtx", fixed.hmtx),
            table(*b"loca", loca),
            table(*b"maxp", fixed.maxp),
            table(*b"name", name),
            table(*b"post", fixed.post),
        ],
    )?;
    let list = with_gsub(plain, gsub)?;
    Ok(Seq::from_vec(list))
}

/// These tables, by rising tags, with that of substitutions first, where there is one: its tag is the least.
fn with_gsub(mut list: Vec<Table>, gsub: Option<Vec<u8>>) -> Result<Vec<Table>, NoMemory>
    ensures { IfOk result (λ all. map slice_of all.items ≡ gsub_slices gsub ++ map slice_of list.items) }
{
    if let Some(bytes) = gsub {
        list.insert(0, table(*b"GSUB", bytes))?;
    }
    Ok(list)
}

/// A table of this tag and these bytes.
fn table(tag: [u8; 4], bytes: Vec<u8>) -> Table
    ensures { result ≡ record { tag = tag; bytes = bytes } }
{
    Table { tag, bytes }
}

/// Whether the tables have less than 2^31 bytes in all.
fn are_small(tables: &[Table]) -> bool
    ensures { result ≡ nat_lt (total_size (map slice_of tables.now)) (2 ^ 31) }
{
    let mut size = 0;
    for table in tables {
        size += table.bytes.len() as u64;
        if ROOM <= size {
            return false;
        }
    }
    true
}

/// The pieces of the file of these tables. Within a project's limits no font has 2^31 bytes: `gvar` and `glyf` have the
/// most, 23 for each point of a glyph in each of its tuples and 5 for each point of the default, of which there are
/// 16,777,216 in all. Since not all of this is proved, a greater one is answered as want of memory.
pub(crate) fn pieces_of(alloc: Global, tables: Tables) -> Result<Seq<Vec<u8>>, NoMemory>
    requires { IsPlainHead tables.fixed.head.items }
    ensures holds { IfOk result (λ pieces. HoldsTables (slices_of tables) (concat (map (λ piece. piece.items) pieces))) }
    ensures tags { IfOk result (λ pieces. tags_in (concat (map (λ piece. piece.items) pieces)) ≡ Some (font_tags (is_some tables.gsub))) }
{
    let list = listed(alloc, tables)?;
    if are_small(list.as_slice()) {
        let pieces = assemble(alloc, list)?;
        Ok(pieces)
    } else {
        Err(NoMemory)
    }
}
