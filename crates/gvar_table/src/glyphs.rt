ghost use Rattle.std.specs.Prelude.{◌≡◌, ℕ, ◌+◌, ◌*◌, ◌^◌, ◌<◌, ◌≤◌, [], ◌++◌, length, map, slice_index, slice_index_or, IfOk, OnOk};
ghost use Rattle.variation_rules.specs.TupleVariations.{MeansTuples, PacksTuples};
ghost use Rattle.variation_rules.specs.VariationsTable.{IsVariationsTable, glyph_slice};
ghost use Rattle.gvar_table.specs.Table.{AddsGlyph, AreGlyphsOf, IsWrittenTable, table_header};
ghost use Rattle.gvar_table.specs.Tuples.{AreTuplesOf, variation_of};

use crate::glyph::glyph_data;
use crate::tuple::Tuple;
use basics::{NoMemory, Seq};
use be_bytes::{put_bytes, put_u16, put_u32};
use std::alloc::Global;

/// The bytes of the header and of the offset after the last glyph's.
const HEADER_AND_END: u32 = 24;

/// The bytes of an offset.
const OFFSET: u32 = 4;

/// The flag of 32-bit offsets.
const LONG_OFFSETS: u16 = 1;

/// The table of the glyphs' variation data (OpenType, "gvar"), in a font of so many axes, 1 to 8: for each glyph,
/// at most 32,510 of them, the number of its points with the four phantom points, and its tuples, as `glyph_data`
/// takes them. The counts, each taken once for each tuple, add up to at most 16,777,216. Offsets are of 32 bits,
/// no peaks are shared, and the glyphs' data stand one after another without filling.
pub fn table(
    alloc: Global,
    axes: u32,
    counts: &Seq<u16>,
    glyphs: &Seq<Seq<Tuple>>,
) -> Result<Vec<u8>, NoMemory>
    requires { AreGlyphsOf axes counts.now glyphs.now }
    ensures written { IfOk result (λ bytes. IsWrittenTable axes counts.now glyphs.now bytes.items) }
    ensures reads { IfOk result (λ bytes. IsVariationsTable axes (length glyphs.now) [] bytes.items) }
    ensures means { IfOk result (λ bytes. (glyph : ℕ) → glyph < length glyphs.now → MeansTuples axes (slice_index counts.now glyph) [] (glyph_slice bytes.items glyph) (map variation_of (slice_index_or glyphs.now glyph []))) }
    ensures packs { IfOk result (λ bytes. (glyph : ℕ) → glyph < length glyphs.now → PacksTuples axes (slice_index counts.now glyph) [] (glyph_slice bytes.items glyph) (map variation_of (slice_index_or glyphs.now glyph []))) }
{
    let counts = counts.as_slice();
    let glyphs = glyphs.as_slice();
    let mut offsets = Vec::new(alloc);
    let mut body = Vec::new(alloc);
    put_u32(&mut offsets, 0)?;
    for (i, tuples) in glyphs.iter().enumerate() {
        push_glyph(alloc, axes, counts[i], tuples, &mut offsets, &mut body)?;
    }
    let mut bytes = Vec::new(alloc);
    push_header(&mut bytes, axes as u16, glyphs.len() as u16)?;
    put_bytes(&mut bytes, &offsets)?;
    put_bytes(&mut bytes, &body)?;
    Ok(bytes)
}

/// Adds the header of the table.
fn push_header(bytes: &mut Vec<u8>, axes: u16, glyphs: u16) -> Result<(), NoMemory>
    ensures { OnOk result (bytes.new.items ≡ bytes.old.items ++ table_header axes glyphs) }
{
    let offset = HEADER_AND_END + OFFSET * u32::from(glyphs);
    put_u16(bytes, 1)?;
    put_u16(bytes, 0)?;
    put_u16(bytes, axes)?;
    put_u16(bytes, 0)?;
    put_u32(bytes, offset)?;
    put_u16(bytes, glyphs)?;
    put_u16(bytes, LONG_OFFSETS)?;
    put_u32(bytes, offset)
}

/// Adds the data of a glyph, and the offset after it.
fn push_glyph(
    alloc: Global,
    axes: u32,
    count: u16,
    tuples: &Seq<Tuple>,
    offsets: &mut Vec<u8>,
    body: &mut Vec<u8>,
) -> Result<(), NoMemory>
    requires are { AreTuplesOf axes count tuples.now }
    requires room { length body.old.items + 4 + 23 * (count * length tuples.now) < 2 ^ 32 }
    ensures { OnOk result (AddsGlyph count tuples.now offsets.old.items offsets.new.items body.old.items body.new.items) }
{
    let own = glyph_data(alloc, axes, count, tuples)?;
    put_bytes(body, &own)?;
    put_u32(offsets, body.len() as u32)
}
