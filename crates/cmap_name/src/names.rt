ghost use Rattle.std.specs.Prelude.{◌≡◌, ◌+◌, ◌*◌, ◌<◌, ◌≤◌, ◌^◌, ◌++◌, [], ◌∷◌, length, All, IfOk, OnOk, Some};
ghost use Rattle.be_bytes.specs.declared.field.Field.TheVariants.{Uint16};
ghost use Rattle.std.specs.List.{flat_map, sum_by};
ghost use Rattle.be_bytes.specs.Fields.{fields_bytes};
ghost use Rattle.font_text.specs.Utf16.{utf16_length};
ghost use Rattle.cmap_name.specs.NameLayout.{name_bytes, name_fields, name_record_bytes, name_records_from, text_bytes};
ghost use Rattle.cmap_name.specs.Names.{AreNames, names_in};
ghost use Rattle.cmap_name.specs.Steps.{IsName};

use crate::utf16::put_text;
use basics::{Name, NoMemory, Seq};
use be_bytes::Field::{self, Uint16};
use be_bytes::put_fields;
use font_text::utf16_length;
use std::alloc::Global;

/// The bytes of the table before its records.
const HEADER: u16 = 6;

/// The bytes of a record.
const RECORD: u16 = 12;

/// The platform of Windows, of it the encoding of Unicode, and English.
const WINDOWS: u16 = 3;

const UNICODE: u16 = 1;

const ENGLISH: u16 = 0x0409;

/// The table of the names (OpenType, "name"), each by its id with its text: at most 1000, whose ids rise and whose texts
/// have at most 65535 bytes of UTF-16 together. Each text stands by itself, in the order of the ids.
pub fn name(alloc: Global, records: &Seq<(u16, Name)>) -> Result<Vec<u8>, NoMemory>
    requires { AreNames records.now }
    ensures written { IfOk result (λ bytes. bytes.items ≡ name_bytes records.now) }
    ensures means { IfOk result (λ bytes. names_in bytes.items ≡ Some records.now) }
{
    let names = records.as_slice();
    let mut bytes = Vec::new(alloc);
    put_fields(&mut bytes, &header(names.len() as u16))?;
    put_records(&mut bytes, names)?;
    for (_, text) in names {
        put_text(&mut bytes, text.as_str())?;
    }
    Ok(bytes)
}

/// The fields before the records: version, count, storageOffset.
fn header(count: u16) -> [Field; 3]
    requires { count ≤ 1000 }
    ensures { result ≡ Uint16 0 ∷ Uint16 count ∷ Uint16 (6 + 12 * count) ∷ [] }
{
    [Uint16(0), Uint16(count), Uint16(HEADER + RECORD * count)]
}

/// Appends the records of all names.
fn put_records(out: &mut Vec<u8>, names: &[(u16, Name)]) -> Result<(), NoMemory>
    requires { sum_by (λ own. 2 * utf16_length own.1) names.now ≤ 65535 }
    ensures written { OnOk result (out.new.items ≡ out.old.items ++ flat_map name_record_bytes (name_records_from 0 names.now)) }
    ensures fit { OnOk result (All IsName names.now) }
{
    let mut offset = 0;
    for (id, text) in names {
        let size = 2 * utf16_length(text.as_str()) as u16;
        put_fields(out, &record(*id, size, offset))?;
        offset += size;
    }
    Ok(())
}

/// The fields of a record.
#[tactic(auto, unfolding(crate::specs::NameLayout::name_fields))]
fn record(id: u16, size: u16, offset: u16) -> [Field; 6]
    ensures value { result ≡ name_fields (record { platform = 3; encoding = 1; language = 0x0409; id = id; size = size; offset = offset }) }
    ensures fits { id < 2 ^ 16 }
{
    [
        // platformID, encodingID, languageID
        Uint16(WINDOWS),
        Uint16(UNICODE),
        Uint16(ENGLISH),
        // nameID, length, stringOffset
        Uint16(id),
        Uint16(size),
        Uint16(offset),
    ]
}
