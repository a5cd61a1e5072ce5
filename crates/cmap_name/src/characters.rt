ghost use Rattle.std.specs.Prelude.{◌≡◌, ℕ, ◌+◌, ◌*◌, ◌++◌, ◌∷◌, [], ◌≤◌, ◌<◌, ◌^◌, length, take, All, IfOk, OnOk, Some};
ghost use Rattle.std.specs.List.{list_any};
ghost use Rattle.be_bytes.specs.declared.field.Field.TheVariants.{Uint16};
ghost use Rattle.cmap_name.specs.CharacterLayout.{IsCharacterMap, IsFormat4, cmap_bytes, encoding_fields, format_12_bytes};
ghost use Rattle.cmap_name.specs.Characters.{Agree, glyph_of_character};
ghost use Rattle.cmap_name.specs.Codes.{AreCodes, glyph_of};
ghost use Rattle.cmap_name.specs.Groups as runs;
ghost use Rattle.cmap_name.specs.Steps.{FitsBasic, IsMapOf};

use crate::format_4::{MOST_SEGMENTS, format_4_size, put_format_4};
use crate::format_12::put_format_12;
use crate::groups::{Group, groups_of};
use basics::{NoMemory, Seq};
use be_bytes::Field::{self, Uint16, Uint32};
use be_bytes::put_fields;
use std::alloc::Global;

/// The last character that a subtable of encoding 1 may give a glyph.
const LAST_BASIC: u32 = 0xFFFE;

/// The platform of Windows.
const WINDOWS: u16 = 3;

/// Of Windows the encoding of the first 65536 characters, and that of all.
const BASIC: u16 = 1;

const WHOLE: u16 = 10;

/// The bytes of the table before its encoding records.
const HEADER: u32 = 4;

/// The bytes of an encoding record.
const RECORD: u32 = 8;

/// The table of the glyphs of characters (OpenType, "cmap"), of characters with their glyphs: the characters rise, are at
/// most U+10FFFF, and none is U+FFFF. A subtable of format 4 has those up to U+FFFE, unless it needs more than 8189
/// segments; one of format 12 has all, where one exceeds U+FFFF or the other isn't there.
pub fn cmap(alloc: Global, codes: &Seq<(u32, u16)>) -> Result<Vec<u8>, NoMemory>
    requires { AreCodes codes.now }
    ensures written { IfOk result (λ bytes. IsCharacterMap codes.now bytes.items) }
    ensures means { IfOk result (λ bytes. (c : ℕ) → glyph_of_character bytes.items c ≡ Some (glyph_of codes.now c)) }
    ensures agrees { IfOk result (λ bytes. Agree bytes.items) }
{
    let codes = codes.as_slice();
    let basic = groups_of(alloc, basic_codes(codes))?;
    let whole = groups_of(alloc, codes)?;
    if MOST_SEGMENTS < basic.len() + 1 {
        return whole_alone(alloc, &whole);
    }
    if exceed_basic(codes) {
        both(alloc, &basic, &whole)
    } else {
        basic_alone(alloc, &basic)
    }
}

/// Whether a code exceeds U+FFFF.
fn exceed_basic(codes: &[(u32, u16)]) -> bool
    ensures { result ≡ list_any runs.exceeds codes.now }
{
    codes.iter().any(|(code, _)| 0xFFFF < *code)
}

/// The codes up to U+FFFE, of codes that rise.
fn basic_codes(codes: &[(u32, u16)]) -> &[(u32, u16)]
    ensures { result.now ≡ runs.basic_codes codes.now }
{
    &codes[..basic_count(codes)]
}

/// How many codes come before the first that exceeds U+FFFE.
fn basic_count(codes: &[(u32, u16)]) -> usize
    ensures within { result ≤ length codes.now }
    ensures value { take result codes.now ≡ runs.basic_codes codes.now }
{
    for (index, (code, _)) in codes.iter().enumerate() {
        if LAST_BASIC < *code {
            return index;
        }
    }
    codes.len()
}

/// The table with the subtable of encoding 1 alone.
fn basic_alone(alloc: Global, basic: &[Group]) -> Result<Vec<u8>, NoMemory>
    requires few { length basic.now + 1 ≤ 8189 }
    requires fit { All FitsBasic basic.now }
    ensures { IfOk result (λ bytes. IsMapOf (IsFormat4 basic.now) (λ own. (1, own) ∷ []) bytes.items) }
{
    let mut bytes = Vec::new(alloc);
    put_fields(&mut bytes, &header(1))?;
    put_fields(&mut bytes, &record(BASIC, HEADER + RECORD))?;
    put_format_4(alloc, &mut bytes, basic)?;
    Ok(bytes)
}

/// The table with the subtable of encoding 10 alone.
fn whole_alone(alloc: Global, whole: &[Group]) -> Result<Vec<u8>, NoMemory>
    requires { length whole.now ≤ 0x11_0000 }
    ensures { IfOk result (λ bytes. bytes.items ≡ cmap_bytes ((10, format_12_bytes whole.now) ∷ [])) }
{
    let mut bytes = Vec::new(alloc);
    put_fields(&mut bytes, &header(1))?;
    put_fields(&mut bytes, &record(WHOLE, HEADER + RECORD))?;
    put_format_12(&mut bytes, whole)?;
    Ok(bytes)
}

/// The table with both subtables.
fn both(alloc: Global, basic: &[Group], whole: &[Group]) -> Result<Vec<u8>, NoMemory>
    requires few { length basic.now + 1 ≤ 8189 }
    requires fit { All FitsBasic basic.now }
    requires few_whole { length whole.now ≤ 0x11_0000 }
    ensures { IfOk result (λ bytes. IsMapOf (IsFormat4 basic.now) (λ own. (1, own) ∷ (10, format_12_bytes whole.now) ∷ []) bytes.items) }
{
    let first = HEADER + 2 * RECORD;
    let second = first + format_4_size(basic.len());
    let mut bytes = Vec::new(alloc);
    put_fields(&mut bytes, &header(2))?;
    put_fields(&mut bytes, &record(BASIC, first))?;
    put_fields(&mut bytes, &record(WHOLE, second))?;
    put_format_4(alloc, &mut bytes, basic)?;
    put_format_12(&mut bytes, whole)?;
    Ok(bytes)
}

/// The fields before the encoding records: version, numTables.
fn header(count: u16) -> [Field; 2]
    ensures { result ≡ Uint16 0 ∷ Uint16 count ∷ [] }
{
    [Uint16(0), Uint16(count)]
}

/// The fields of an encoding record of Windows.
#[tactic(auto, unfolding(crate::specs::CharacterLayout::encoding_fields))]
fn record(encoding: u16, offset: u32) -> [Field; 3]
    ensures { result ≡ encoding_fields (record { platform = 3; encoding = encoding; offset = offset }) }
{
    [Uint16(WINDOWS), Uint16(encoding), Uint32(offset)]
}
