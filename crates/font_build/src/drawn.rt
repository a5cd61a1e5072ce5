ghost use Rattle.std.specs.Prelude.{◌≡◌, length, IfOk, Some};
ghost use Rattle.font_model.specs.Fit.{IsFit};
ghost use Rattle.font_tables.specs.FontFacts.{facts_of};
ghost use Rattle.font_tables.specs.Outlines.{outlines_of};
ghost use Rattle.glyf_loca.specs.Layout.{contours_of};
ghost use Rattle.glyf_loca.specs.Slices.{glyphs_in};

use basics::NoMemory;
use font_model::Project;
use font_tables::{facts, outlines};
use glyf_loca::{GlyfLoca, tables};
use plain_tables::Facts;
use std::alloc::Global;

/// The tables of the outlines, and what the font tells in those of fixed fields.
#[derive(Drop)]
pub(crate) struct Drawn {
    pub(crate) glyf: Vec<u8>,
    pub(crate) loca: Vec<u8>,
    pub(crate) facts: Facts,
}

/// The tables of the default's outlines.
pub(crate) fn draw_default(alloc: Global, project: &Project) -> Result<Drawn, NoMemory>
    requires { IsFit project.now }
    ensures facts { IfOk result (λ own. own.facts ≡ facts_of project.now) }
    ensures means { IfOk result (λ own. glyphs_in own.facts.long (length project.now.models) own.loca.items own.glyf.items ≡ Some (contours_of (outlines_of project.now))) }
{
    let outlines = outlines(alloc, &project.models)?;
    let GlyfLoca {
        glyf,
        loca,
        long,
        bounds,
    } = tables(alloc, &outlines)?;
    let facts = facts(alloc, project, &outlines, bounds, long)?;
    Ok(Drawn { glyf, loca, facts })
}
