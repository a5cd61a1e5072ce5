ghost use Rattle.std.specs.Prelude.{◌≡◌, ◌≤◌, ◌++◌, take, filter, codes, IfOk, OnOk};
ghost use Rattle.std.specs.String.{string_bytes};
ghost use Rattle.font_tables.specs.FontNames as rules;
ghost use Rattle.font_tables.specs.ShortNames.{with_plain};
ghost use Rattle.font_text.specs.Utf16.{utf16_length};

use basics::{Name, NoMemory};
use fontinfo::Info;
use std::alloc::Global;

/// The bytes of a PostScript name (OpenType, "name", name id 6).
const SIZE: usize = 63;

/// Whether a byte is one of the marks that a PostScript name can't have.
fn is_mark(byte: u8) -> bool
    ensures { result ≡ rules.is_mark byte }
{
    b"[](){}<>/%".iter().any(|mark| *mark == byte)
}

/// Whether a PostScript name can have a byte.
fn is_plain(byte: u8) -> bool
    ensures { result ≡ rules.is_plain byte }
{
    33 <= byte && byte <= 126 && !is_mark(byte)
}

/// Adds a byte, where a PostScript name can have it and isn't full.
fn push_plain(plain: &mut String, byte: u8) -> Result<(), NoMemory>
    ensures { OnOk result (string_bytes plain.new ≡ with_plain (string_bytes plain.old) byte) }
{
    if plain.len() < SIZE && is_plain(byte) {
        plain.push(char::from(byte))?;
    }
    Ok(())
}

/// Of a text the bytes that a PostScript name can have, up to 63.
pub(crate) fn plain_text(alloc: Global, text: &str) -> Result<String, NoMemory>
    ensures { IfOk result (λ plain. string_bytes plain ≡ take 63 (filter rules.is_plain text.now)) }
{
    let mut plain = String::new(alloc);
    for byte in text.as_bytes() {
        push_plain(&mut plain, *byte)?;
    }
    Ok(plain)
}

/// The PostScript name of a font.
#[tactic(auto, unfolding(crate::specs::FontNames::postscript_name))]
pub(crate) fn postscript_name(alloc: Global, info: &Info) -> Result<Name, NoMemory>
    ensures value { IfOk result (λ name. name ≡ rules.postscript_name info.now) }
    ensures short { IfOk result (λ name. utf16_length name ≤ 63) }
{
    let family = info.family.as_str();
    let style = info.style.as_str();
    let whole = format!(in alloc; "{family}-{style}")?;
    let plain = plain_text(alloc, whole.as_str())?;
    let name = Name::from_str(alloc, plain.as_str())?;
    Ok(name)
}
