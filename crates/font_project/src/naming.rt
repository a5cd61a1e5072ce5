ghost use Rattle.std.specs.Prelude.{◌≡◌, ◌≤◌, length, IfOk};
ghost use Rattle.glif.specs.Limits.{AreDistinct};
ghost use Rattle.font_model.specs.Fonts as fonts;

use basics::{Name, NoMemory};
use indexmap::IndexMap;
use std::alloc::Global;

/// The number of each glyph by its name, in glyph order.
pub(crate) fn numbered(alloc: Global, names: &[Name]) -> Result<IndexMap<Name, u16>, NoMemory>
    requires few { length names.now ≤ 32510 }
    requires once { AreDistinct names.now }
    ensures { IfOk result (λ found. found.entries ≡ fonts.numbered 0 names.now) }
{
    let mut found = IndexMap::new(alloc);
    for (number, name) in names.iter().enumerate() {
        found.insert(name.try_copy(alloc)?, number as u16)?;
    }
    Ok(found)
}
