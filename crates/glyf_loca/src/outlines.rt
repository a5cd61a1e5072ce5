ghost use Rattle.std.specs.Prelude.{◌≡◌, length, map, IfOk, Some};
ghost use Rattle.glyf_loca.specs.Bounds.{outline_bounds};
ghost use Rattle.glyf_loca.specs.Layout.{AreWritten, contours_of};
ghost use Rattle.glyf_loca.specs.Limits.{AreFit};
ghost use Rattle.glyf_loca.specs.Slices.{glyphs_in};

use crate::extent::Bounds;
use crate::offsets::{SHORT_REACH, loca};
use crate::simple::put_glyph;
use basics::{NoMemory, Seq};
use glif::Outline;
use std::alloc::Global;

/// The tables of the outlines, and what `head` and `hmtx` tell of them.
#[derive(Drop)]
pub struct GlyfLoca {
    /// Table `glyf`: the contours of each glyph.
    pub glyf: Vec<u8>,
    /// Table `loca`: where the bytes of each glyph begin in `glyf`.
    pub loca: Vec<u8>,
    /// Whether the offsets in `loca` are long, as indexToLocFormat in `head` says.
    pub long: bool,
    /// The bounds of each glyph.
    pub bounds: Seq<Bounds>,
}

/// The tables of at most 32,510 outlines, each within limits, as simple glyphs (OpenType, "glyf" and "loca"). Every
/// point has its own flag and two 16-bit steps; a glyph without contours has no bytes, and any other is filled with zeros
/// to a multiple of four. The offsets are short where `glyf` has at most 131,070 bytes.
pub fn tables(alloc: Global, outlines: &Seq<Outline>) -> Result<GlyfLoca, NoMemory>
    requires { AreFit outlines.now }
    ensures written { IfOk result (λ tables. AreWritten (contours_of outlines.now) tables.glyf.items tables.loca.items tables.long) }
    ensures bounds { IfOk result (λ tables. tables.bounds ≡ map outline_bounds outlines.now) }
    ensures means { IfOk result (λ tables. glyphs_in tables.long (length outlines.now) tables.loca.items tables.glyf.items ≡ Some (contours_of outlines.now)) }
{
    let mut glyf = Vec::new(alloc);
    let mut offsets = Vec::new(alloc);
    let mut bounds = Seq::new(alloc);
    offsets.push(0u32)?;
    for outline in outlines.as_slice() {
        let own = put_glyph(alloc, &mut glyf, outline)?;
        bounds.push(own)?;
        offsets.push(glyf.len() as u32)?;
    }
    let long = SHORT_REACH < glyf.len();
    let loca = loca(alloc, &offsets, long)?;
    Ok(GlyfLoca {
        glyf,
        loca,
        long,
        bounds,
    })
}
