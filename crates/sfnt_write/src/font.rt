ghost use Rattle.std.specs.Prelude.{map, IfOk};
ghost use Rattle.std.specs.List.{concat};
ghost use Rattle.sfnt_write.specs.Holds.{HoldsTables};
ghost use Rattle.sfnt_write.specs.Layout.{ArePieces};
ghost use Rattle.sfnt_write.specs.Tables.{CanBeFont, slice_of};

use crate::directory::directory_of;
use crate::table::{Table, piece_of};
use basics::{NoMemory, Seq};
use std::alloc::Global;

/// What the words of a font file add up to, modulo 2^32 (OpenType, "head", `checksumAdjustment`).
const FILE_SUM: u32 = 0xB1B0_AFBA;

/// The pieces of a font file, in their order: the table directory, and each table, filled with zeros up to a multiple
/// of 4 bytes (OpenType, "Organization of an OpenType font"). The tags of the tables rise; one of them is `head`, 54
/// bytes whose `checksumAdjustment` is 0, and it gets the one of the file. No table is copied.
pub fn assemble(alloc: Global, tables: Seq<Table>) -> Result<Seq<Vec<u8>>, NoMemory>
    requires { CanBeFont (map slice_of tables) }
    ensures written { IfOk result (λ pieces. ArePieces (map slice_of tables) (map (λ piece. piece.items) pieces)) }
    ensures means { IfOk result (λ pieces. HoldsTables (map slice_of tables) (concat (map (λ piece. piece.items) pieces))) }
{
    let directory = directory_of(alloc, tables.as_slice())?;
    let adjustment = FILE_SUM.wrapping_sub(directory.file_sum);
    let mut pieces = Seq::new(alloc);
    pieces.push(directory.bytes)?;
    for table in tables.into_vec() {
        let piece = piece_of(table, adjustment)?;
        pieces.push(piece)?;
    }
    Ok(pieces)
}
