ghost use Rattle.std.specs.Prelude.{◌≡◌, ◌≤◌, ◌++◌, codes, IfOk};
ghost use Rattle.fontinfo.specs.FontInfo.{AreTextsWithin};
ghost use Rattle.font_tables.specs.FontNames as rules;
ghost use Rattle.font_text.specs.Utf16.{utf16_length};

use basics::{Name, NoMemory};
use fontinfo::Info;
use std::alloc::Global;

/// The first id that a font may give to names of its own (OpenType, "name", "Name IDs").
pub(crate) const FIRST: u16 = 256;

/// Which version of which font it is.
pub(crate) fn unique_name(alloc: Global, info: &Info, postscript: &Name) -> Result<Name, NoMemory>
    requires texts { AreTextsWithin info.now }
    requires postscript { postscript.now ≡ rules.postscript_name info.now }
    requires short { utf16_length postscript.now ≤ 63 }
    ensures value { IfOk result (λ name. name ≡ rules.unique_name info.now) }
    ensures short { IfOk result (λ name. utf16_length name ≤ 164) }
{
    let version = info.version.as_str();
    let postscript = postscript.as_str();
    let name = format!(in alloc; "{version};{postscript}")?;
    let text = Name::from_str(alloc, name.as_str())?;
    Ok(text)
}

/// The family and the style.
pub(crate) fn full_name(alloc: Global, info: &Info) -> Result<Name, NoMemory>
    requires { AreTextsWithin info.now }
    ensures value { IfOk result (λ name. name ≡ rules.full_name info.now) }
    ensures short { IfOk result (λ name. utf16_length name ≤ 201) }
{
    let family = info.family.as_str();
    let style = info.style.as_str();
    let name = format!(in alloc; "{family} {style}")?;
    let text = Name::from_str(alloc, name.as_str())?;
    Ok(text)
}
