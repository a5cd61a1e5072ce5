ghost use Rattle.std.specs.Prelude.{◌≡◌, pos, ◌≤ℤ◌, IfOk};
ghost use Rattle.font_sources.specs.GlyphOrder as rules;

use crate::glyph_order::NOTDEF;
use basics::{Name, NoMemory, Seq};
use glif::{Drawing, Outline};
use std::alloc::Global;

/// A `.notdef` that draws nothing and is half the em wide, rounded down.
fn made_notdef(alloc: Global, units: i32) -> Result<Drawing, NoMemory>
    ensures { IfOk result (λ drawing. drawing ≡ rules.made_notdef units) }
{
    Ok(Drawing {
        name: Name::from_str(alloc, NOTDEF)?,
        outline: Outline {
            advance: units.div_euclid(2),
            contours: Seq::new(alloc),
        },
        components: Seq::new(alloc),
        codes: Seq::new(alloc),
    })
}

/// The names of the glyphs of the font: where a `.notdef` is made, its name before the others.
pub(crate) fn glyph_order(
    alloc: Global,
    makes: bool,
    names: Seq<Name>,
) -> Result<Seq<Name>, NoMemory>
    ensures { IfOk result (λ all. all ≡ rules.glyph_order makes names) }
{
    if makes {
        let mut all = names.into_vec();
        all.insert(0, Name::from_str(alloc, NOTDEF)?)?;
        Ok(Seq::from_vec(all))
    } else {
        Ok(names)
    }
}

/// The glyphs of a source of the font: where a `.notdef` is made, it stands before the others.
pub(crate) fn with_made(
    alloc: Global,
    makes: bool,
    units: i32,
    glyphs: Seq<Option<Drawing>>,
) -> Result<Seq<Option<Drawing>>, NoMemory>
    ensures { IfOk result (λ all. all ≡ rules.with_made makes units glyphs) }
{
    if makes {
        let mut all = glyphs.into_vec();
        all.insert(0, Some(made_notdef(alloc, units)?))?;
        Ok(Seq::from_vec(all))
    } else {
        Ok(glyphs)
    }
}
