ghost use Rattle.std.specs.Prelude.{◌≡◌, ◌++◌, OnOk};
ghost use Rattle.std.specs.List.{flat_map};
ghost use Rattle.std.specs.Str.{IsUtf8};
ghost use Rattle.cmap_name.specs.CharacterLayout.{word};
ghost use Rattle.cmap_name.specs.NameLayout.{text_bytes};
ghost use Rattle.cmap_name.specs.Utf16.{units_of};

use basics::NoMemory;
use be_bytes::put_u16;

/// The first character that takes two units.
const SUPPLEMENTARY: u32 = 0x10000;

/// The first surrogate of those that begin a pair, and of those that end one.
const HIGH: u16 = 0xD800;

const LOW: u16 = 0xDC00;

/// Appends a text in UTF-16, big-endian.
pub(crate) fn put_text(out: &mut Vec<u8>, text: &str) -> Result<(), NoMemory>
    ensures written { OnOk result (out.new.items ≡ out.old.items ++ text_bytes text.now) }
    ensures text { OnOk result (IsUtf8 text.now) }
{
    for character in text.chars() {
        put_character(out, character)?;
    }
    Ok(())
}

/// Appends the units of a character.
fn put_character(out: &mut Vec<u8>, character: char) -> Result<(), NoMemory>
    ensures { OnOk result (out.new.items ≡ out.old.items ++ flat_map word (units_of character)) }
{
    let code = u32::from(character);
    if code < SUPPLEMENTARY {
        return put_u16(out, code as u16);
    }
    let bits = code - SUPPLEMENTARY;
    put_u16(out, HIGH + (bits / 0x400) as u16)?;
    put_u16(out, LOW + (bits % 0x400) as u16)
}
