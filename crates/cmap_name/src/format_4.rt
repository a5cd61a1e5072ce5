ghost use Rattle.std.specs.Prelude.{◌≡◌, ◌+◌, ◌*◌, ◌++◌, ◌≤◌, length, map, All, IfOk, OnOk};
ghost use Rattle.cmap_name.specs.CharacterLayout as layout;
ghost use Rattle.cmap_name.specs.CharacterLayout.{IsFormat4, array_bytes, format_4_fields, last_segment};
ghost use Rattle.cmap_name.specs.Steps.{Appends, FitsBasic};

use crate::groups::Group;
use basics::NoMemory;
use be_bytes::Field::{self, Uint16};
use be_bytes::{put_fields, put_u16};
use search_fields::{SearchFields, search_fields};
use std::alloc::Global;

/// The most segments whose subtable has a 16-bit length.
pub(crate) const MOST_SEGMENTS: usize = 8189;

/// The bytes of the subtable without its segments.
const HEADER: u16 = 16;

/// The bytes of a segment, two in each of the four arrays.
const SEGMENT: u16 = 8;

/// A segment: what each of the four arrays has of it.
#[derive(Clone, Copy)]
pub(crate) struct Segment {
    /// The last character.
    pub(crate) end_code: u16,
    /// The first character.
    pub(crate) start_code: u16,
    /// What makes a character's code its glyph, modulo 65536.
    pub(crate) id_delta: u16,
    /// Where the glyphs stand, from this field on, or 0 where they follow from the codes.
    pub(crate) id_range_offset: u16,
}

/// The segment that ends the search of each character. It gives U+FFFF glyph 0.
const LAST_SEGMENT: Segment = Segment {
    end_code: 0xFFFF,
    start_code: 0xFFFF,
    id_delta: 1,
    id_range_offset: 0,
};

/// The four arrays, in their order.
#[derive(Clone, Copy)]
pub(crate) enum Array {
    EndCode,
    StartCode,
    IdDelta,
    IdRangeOffset,
}

/// The bytes of the subtable of so many runs.
pub(crate) fn format_4_size(groups: usize) -> u32
    requires { groups + 1 ≤ 8189 }
    ensures { result ≡ 16 + 8 * (groups + 1) }
{
    u32::from(HEADER) + u32::from(SEGMENT) * (groups as u32 + 1)
}

/// Appends the subtable of these runs in format 4.
pub(crate) fn put_format_4(
    alloc: Global,
    out: &mut Vec<u8>,
    groups: &[Group],
) -> Result<(), NoMemory>
    requires few { length groups.now + 1 ≤ 8189 }
    requires basic { All FitsBasic groups.now }
    ensures { OnOk result (Appends (IsFormat4 groups.now) out.old.items out.new.items) }
{
    let segments = segments_of(alloc, groups)?;
    let count = segments.len() as u16;
    let search = search_fields(2, count);
    put_fields(out, &header(count, search))?;
    put_array(out, Array::EndCode, &segments)?;
    // reservedPad
    put_u16(out, 0)?;
    put_array(out, Array::StartCode, &segments)?;
    put_array(out, Array::IdDelta, &segments)?;
    put_array(out, Array::IdRangeOffset, &segments)
}

/// The segments of these runs, and the last one.
fn segments_of(alloc: Global, groups: &[Group]) -> Result<Vec<Segment>, NoMemory>
    requires { All FitsBasic groups.now }
    ensures { IfOk result (λ segments. segments.items ≡ layout.segments_of groups.now) }
{
    let mut segments = Vec::new(alloc);
    for group in groups {
        segments.push(segment_of(*group))?;
    }
    segments.push(LAST_SEGMENT)?;
    Ok(segments)
}

/// The segment of a run.
fn segment_of(group: Group) -> Segment
    requires { FitsBasic group }
    ensures { result ≡ layout.segment_of group }
{
    let first = group.first as u16;
    Segment {
        end_code: group.last as u16,
        start_code: first,
        id_delta: group.glyph.wrapping_sub(first),
        id_range_offset: 0,
    }
}

/// The fields before the arrays.
#[tactic(auto, unfolding(crate::specs::CharacterLayout::format_4_fields))]
fn header(count: u16, search: SearchFields) -> [Field; 7]
    requires { count ≤ 8189 }
    ensures { result ≡ format_4_fields count search }
{
    [
        // format, length, language
        Uint16(4),
        Uint16(HEADER + SEGMENT * count),
        Uint16(0),
        // segCountX2
        Uint16(2 * count),
        // searchRange, entrySelector, rangeShift
        Uint16(search.search_range),
        Uint16(search.entry_selector),
        Uint16(search.range_shift),
    ]
}

/// Appends an array.
fn put_array(out: &mut Vec<u8>, array: Array, segments: &[Segment]) -> Result<(), NoMemory>
    ensures { OnOk result (out.new.items ≡ out.old.items ++ array_bytes array segments.now) }
{
    for segment in segments {
        put_u16(out, item_of(array, *segment))?;
    }
    Ok(())
}

/// What an array has of a segment.
fn item_of(array: Array, segment: Segment) -> u16
    ensures { result ≡ layout.item_of array segment }
{
    match array {
        Array::EndCode => segment.end_code,
        Array::StartCode => segment.start_code,
        Array::IdDelta => segment.id_delta,
        Array::IdRangeOffset => segment.id_range_offset,
    }
}
