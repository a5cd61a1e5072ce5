ghost use Rattle.std.specs.Prelude.{◌≡◌, ◌≤◌, length, All, IfOk, OnOk};
ghost use Rattle.font_model.specs.Fit.{AreGlyphCodes};
ghost use Rattle.font_project.specs.Codes as rules;
ghost use Rattle.font_project.specs.Codes.{HasCodePoints};

use basics::{NoMemory, Seq};
use glif::Drawing;
use std::alloc::Global;
use std::collections::BTreeMap;

/// Puts the code points of the glyph of this number among the others.
fn put_codes(map: &mut BTreeMap<u32, u16>, glyph: u16, own: &[u32]) -> Result<(), NoMemory>
    ensures { OnOk result (map.new.entries ≡ rules.with_codes map.old.entries glyph own.now) }
{
    for code in own {
        map.insert(*code, glyph)?;
    }
    Ok(())
}

/// The glyph of each code point, by rising code points.
#[tactic(auto, unfolding(crate::specs::Codes::codes_of))]
fn code_map(alloc: Global, drawings: &[Drawing]) -> Result<BTreeMap<u32, u16>, NoMemory>
    requires { length drawings.now ≤ 32510 }
    ensures { IfOk result (λ map. map.entries ≡ rules.codes_of drawings.now) }
{
    let mut map = BTreeMap::new(alloc);
    for (glyph, drawing) in drawings.iter().enumerate() {
        put_codes(&mut map, glyph as u16, drawing.codes.as_slice())?;
    }
    Ok(map)
}

/// Each code point with the number of its glyph, by rising code points.
pub(crate) fn codes_of(alloc: Global, drawings: &[Drawing]) -> Result<Seq<(u32, u16)>, NoMemory>
    requires few { length drawings.now ≤ 32510 }
    requires points { All HasCodePoints drawings.now }
    ensures exact { IfOk result (λ codes. codes ≡ rules.codes_of drawings.now) }
    ensures fit { IfOk result (AreGlyphCodes (length drawings.now)) }
{
    let map = code_map(alloc, drawings)?;
    let mut codes = Seq::new(alloc);
    for (code, glyph) in &map {
        codes.push((*code, *glyph))?;
    }
    Ok(codes)
}
