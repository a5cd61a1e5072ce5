ghost use Rattle.std.specs.Prelude.{◌≡◌, ℕ, ◌+◌, ◌*◌, ◌≤◌, List, [], ◌++◌, length, map, IfOk, OnOk};
ghost use Rattle.variation_rules.specs.TupleVariations.{MeansTuples, PacksTuples, header_bytes};
ghost use Rattle.variation_rules.specs.declared.tuple.TupleVariation.{TupleVariation};
ghost use Rattle.gvar_table.specs.Layout.{AddsTuple, IsWritten};
ghost use Rattle.gvar_table.specs.Tuples.{AreTuplesOf, IsTupleOf, variation_of};

use crate::header::push_header;
use crate::part::pack_part;
use crate::tuple::Tuple;
use basics::{NoMemory, Seq};
use be_bytes::{put_bytes, put_u16};
use std::alloc::Global;

/// The bytes of the number of tuples and of the offset of the packed parts.
const COUNT_AND_OFFSET: u16 = 4;

/// The variation data of a glyph (OpenType, "gvar"), in a font of so many axes, 1 to 8, for a glyph of so many
/// points, 4 to 4,004 with the four phantom points. There are at most 127 tuples; each has one triple an axis, of
/// F2DOT14 coordinates from -1 to 1, points below `count` that rise, and for each of them a delta whose numbers
/// are of 16 bits. Every peak is embedded and every tuple has its own points; packed lists are in maximal runs.
/// Without tuples there are no bytes; else at most 4, and 23 for each point of the glyph in each tuple.
pub fn glyph_data(
    alloc: Global,
    axes: u32,
    count: u16,
    tuples: &Seq<Tuple>,
) -> Result<Vec<u8>, NoMemory>
    requires { AreTuplesOf axes count tuples.now }
    ensures written { IfOk result (λ bytes. IsWritten count bytes.items (map variation_of tuples.now)) }
    ensures means { IfOk result (λ bytes. MeansTuples axes count [] bytes.items (map variation_of tuples.now)) }
    ensures packs { IfOk result (λ bytes. PacksTuples axes count [] bytes.items (map variation_of tuples.now)) }
    ensures short { IfOk result (λ bytes. length bytes.items ≤ 4 + 23 * (count * length tuples.now)) }
    ensures only { IfOk result (λ bytes. (others : List TupleVariation) → MeansTuples axes count [] bytes.items others → others ≡ map variation_of tuples.now) }
{
    let tuples = tuples.as_slice();
    let mut bytes = Vec::new(alloc);
    if tuples.is_empty() {
        return Ok(bytes);
    }
    let mut headers = Vec::new(alloc);
    let mut parts = Vec::new(alloc);
    for tuple in tuples {
        push_tuple(alloc, axes, count, tuple, &mut headers, &mut parts)?;
    }
    put_u16(&mut bytes, tuples.len() as u16)?;
    put_u16(&mut bytes, COUNT_AND_OFFSET + headers.len() as u16)?;
    put_bytes(&mut bytes, &headers)?;
    put_bytes(&mut bytes, &parts)?;
    Ok(bytes)
}

/// Adds the header and the packed part of a tuple.
fn push_tuple(
    alloc: Global,
    axes: u32,
    count: u16,
    tuple: &Tuple,
    headers: &mut Vec<u8>,
    parts: &mut Vec<u8>,
) -> Result<(), NoMemory>
    requires few { count ≤ 4004 }
    requires is_tuple { IsTupleOf axes count tuple.now }
    ensures { OnOk result (AddsTuple count (variation_of tuple.now) headers.old.items headers.new.items parts.old.items parts.new.items) }
{
    let part = pack_part(alloc, count, tuple)?;
    push_header(headers, part.len() as u16, tuple.support.as_slice())?;
    put_bytes(parts, &part)
}
