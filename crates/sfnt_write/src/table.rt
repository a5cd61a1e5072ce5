ghost use Rattle.std.specs.Prelude.{◌≡◌, ◌≤◌, ◌<◌, ◌^◌, length, IfOk, OnOk};
ghost use Rattle.sfnt_write.specs.Layout as layout;
ghost use Rattle.sfnt_write.specs.Steps.{HasField};
ghost use Rattle.sfnt_write.specs.Tables as tables;
ghost use Rattle.sfnt_write.specs.Tables.{slice_of};

use basics::NoMemory;

/// The tag `head`.
const HEAD_TAG: u32 = 0x6865_6164;

/// Where `checksumAdjustment` stands in table `head`, and where it ends (OpenType, "head").
const ADJUSTMENT: usize = 8;

const ADJUSTMENT_END: usize = 12;

/// A table of a font.
#[derive(Drop)]
pub struct Table {
    /// Its tag.
    pub tag: [u8; 4],
    /// Its bytes, without filling.
    pub bytes: Vec<u8>,
}

/// The number that the letters of a tag write.
#[tactic(auto, unfolding(crate::specs::Tables::tag_number))]
pub(crate) fn tag_number(tag: [u8; 4]) -> u32
    ensures value { result ≡ tables.tag_number tag }
    ensures fits { result < 2 ^ 32 }
{
    u32::from_be_bytes(tag)
}

/// How many zeros fill so many bytes up to a multiple of 4.
pub(crate) fn filling(size: usize) -> usize
    ensures { result ≡ layout.filling size }
{
    (4 - size % 4) % 4
}

/// Fills the bytes up to a multiple of 4.
fn fill(bytes: &mut Vec<u8>) -> Result<(), NoMemory>
    ensures { OnOk result (bytes.new.items ≡ layout.filled bytes.old.items) }
{
    let zeros = [0; 3];
    let count = filling(bytes.len());
    bytes.extend_from_slice(&zeros[..count])?;
    Ok(())
}

/// Writes `checksumAdjustment` in place.
fn put_adjustment(bytes: &mut [u8], adjustment: u32)
    requires { 12 ≤ length bytes.old }
    ensures { bytes.new ≡ layout.with_adjustment adjustment bytes.old }
{
    bytes[ADJUSTMENT..ADJUSTMENT_END].copy_from_slice(&adjustment.to_be_bytes());
}

/// The bytes of a table in the file: those of `head` with this adjustment, and others as they are.
fn adjusted(table: Table, adjustment: u32) -> Vec<u8>
    requires { HasField (slice_of table) }
    ensures { result.items ≡ layout.adjusted adjustment (slice_of table).tag (slice_of table).bytes }
{
    let mut bytes = table.bytes;
    if tag_number(table.tag) == HEAD_TAG {
        put_adjustment(&mut bytes, adjustment);
    }
    bytes
}

/// The piece of a table, filled.
pub(crate) fn piece_of(table: Table, adjustment: u32) -> Result<Vec<u8>, NoMemory>
    requires { HasField (slice_of table) }
    ensures { IfOk result (λ piece. piece.items ≡ layout.piece_of adjustment (slice_of table)) }
{
    let mut bytes = adjusted(table, adjustment);
    fill(&mut bytes)?;
    Ok(bytes)
}
