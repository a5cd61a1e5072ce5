ghost use Rattle.std.specs.Prelude.{◌≡◌, IfOk};

use basics::{Name, NoMemory};
use fontinfo::Info;
use std::alloc::Global;

/// An equal text, where there is one.
fn copied(alloc: Global, text: &Option<Name>) -> Result<Option<Name>, NoMemory>
    ensures { IfOk result (λ copy. copy ≡ text.now) }
{
    match text {
        Some(text) => {
            let copy = text.try_copy(alloc)?;
            Ok(Some(copy))
        }
        None => Ok(None),
    }
}

/// Equal information.
pub(crate) fn copied_info(alloc: Global, info: &Info) -> Result<Info, NoMemory>
    ensures { IfOk result (λ copy. copy ≡ info.now) }
{
    let family = info.family.try_copy(alloc)?;
    let style = info.style.try_copy(alloc)?;
    let copyright = copied(alloc, &info.copyright)?;
    let version = info.version.try_copy(alloc)?;
    Ok(Info {
        units: info.units,
        ascender: info.ascender,
        descender: info.descender,
        x_height: info.x_height,
        cap_height: info.cap_height,
        italic: info.italic,
        family,
        style,
        major: info.major,
        minor: info.minor,
        copyright,
        version,
        hhea_ascender: info.hhea_ascender,
        hhea_descender: info.hhea_descender,
        hhea_gap: info.hhea_gap,
        typo_ascender: info.typo_ascender,
        typo_descender: info.typo_descender,
        typo_gap: info.typo_gap,
        win_ascent: info.win_ascent,
        win_descent: info.win_descent,
        weight: info.weight,
        width: info.width,
        vendor: info.vendor,
        underline_at: info.underline_at,
        underline_size: info.underline_size,
    })
}
