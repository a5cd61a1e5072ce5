ghost use Rattle.std.specs.Prelude.{◌≡◌, ℕ, ◌+◌, ◌*◌, ◌≤◌, List, ◌++◌, length, All, IfOk, OnOk, Some};
ghost use Rattle.std.specs.Int.{w32};
ghost use Rattle.std.specs.Int.RustNames.{FitsSigned};
ghost use Rattle.std.specs.List.{flat_map};
ghost use Rattle.fontinfo.specs.FontInfo.{AreNumbersWithin};
ghost use Rattle.plain_tables.specs.Conditions.{AreFacts, IsNameWithin};
ghost use Rattle.plain_tables.specs.FixedFields.{AreRead, values_of};
ghost use Rattle.plain_tables.specs.GlyphNames.{index_bytes, name_bytes, names_in, numbers_from, post_bytes, post_fields, post_of};

use crate::facts::Facts;
use crate::values::{short, table};
use basics::{Name, NoMemory};
use be_bytes::Field::{self, Int32, Uint16, Uint32};
use be_bytes::{put_bytes, put_u8, put_u16};
use fontinfo::Info;
use std::alloc::Global;

/// The index of the first name that isn't one of the standard's own.
const FIRST_NAME: u16 = 258;

/// The table of the glyphs' names (OpenType, "post", version 2.0): the angle of the font and its underline, and for each
/// glyph a name of its own, also where the standard has one.
pub fn post(alloc: Global, facts: &Facts) -> Result<Vec<u8>, NoMemory>
    requires { AreFacts facts.now }
    ensures written { IfOk result (λ bytes. bytes.items ≡ post_bytes facts.now) }
    ensures means { IfOk result (λ bytes. AreRead (post_of facts.now) bytes.items) }
    ensures names { IfOk result (λ bytes. names_in bytes.items ≡ Some facts.now.names) }
    ensures size { IfOk result (λ bytes. length bytes.items ≤ 34 + 66 * length facts.now.names) }
{
    let names = facts.names.as_slice();
    let glyphs = names.len() as u16;
    let mut bytes = table(alloc, &post_fields(&facts.info, glyphs))?;
    put_indexes(&mut bytes, glyphs)?;
    put_names(&mut bytes, names)?;
    Ok(bytes)
}

/// The fields of `post` before its arrays.
#[tactic(auto, unfolding(crate::specs::GlyphNames::post_fields))]
fn post_fields(info: &Info, glyphs: u16) -> [Field; 10]
    requires { AreNumbersWithin info.now }
    ensures value { result ≡ values_of (post_fields info.now glyphs) }
    ensures italic { FitsSigned w32 info.now.italic }
{
    [
        // version, italicAngle, underlinePosition, underlineThickness
        Uint32(0x0002_0000),
        Int32(info.italic.raw()),
        short(info.underline_at),
        short(info.underline_size),
        // isFixedPitch, minMemType42, maxMemType42, minMemType1, maxMemType1
        Uint32(0),
        Uint32(0),
        Uint32(0),
        Uint32(0),
        Uint32(0),
        // numGlyphs
        Uint16(glyphs),
    ]
}

/// Appends the index of each glyph's name.
fn put_indexes(out: &mut Vec<u8>, glyphs: u16) -> Result<(), NoMemory>
    requires { glyphs ≤ 32510 }
    ensures { OnOk result (out.new.items ≡ out.old.items ++ flat_map index_bytes (numbers_from 258 glyphs)) }
{
    for glyph in 0..glyphs {
        put_u16(out, FIRST_NAME + glyph)?;
    }
    Ok(())
}

/// Appends names, each after its length.
fn put_names(out: &mut Vec<u8>, names: &[Name]) -> Result<(), NoMemory>
    requires { All IsNameWithin names.now }
    ensures { OnOk result (out.new.items ≡ out.old.items ++ flat_map name_bytes names.now) }
{
    for name in names {
        put_name(out, name)?;
    }
    Ok(())
}

/// Appends a name after its length.
fn put_name(out: &mut Vec<u8>, name: &Name) -> Result<(), NoMemory>
    requires { IsNameWithin name.now }
    ensures { OnOk result (out.new.items ≡ out.old.items ++ name_bytes name.now) }
{
    let text = name.as_str().as_bytes();
    put_u8(out, text.len() as u8)?;
    put_bytes(out, text)
}
