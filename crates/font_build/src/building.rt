ghost use Rattle.std.specs.Prelude.{IfOk};
ghost use Rattle.font_build.specs.Characters.{HasCharacters};
ghost use Rattle.font_build.specs.Counts.{IsCounted};
ghost use Rattle.font_build.specs.DesignAxes.{HasAxes};
ghost use Rattle.font_build.specs.FontBytes.{file_of};
ghost use Rattle.font_build.specs.Glyphs.{HasGlyphs};
ghost use Rattle.font_build.specs.PlainFields.{HasFields};
ghost use Rattle.font_build.specs.Substitution.{HasSubstitutions};
ghost use Rattle.font_model.specs.Fit.{IsFit, names_of};

use crate::built::Built;
use crate::list::pieces_of;
use crate::tables::tables_of;
use basics::NoMemory;
use font_model::Project;
use std::alloc::Global;

/// The font of a project that is within limits, in pieces: the table directory, and each of its 14 tables, or of 15 with
/// `GSUB`, which the font has where some rule holds anywhere. The clauses are on the bytes of all pieces, one after
/// another.
pub fn build(alloc: Global, project: &Project) -> Result<Built, NoMemory>
    requires { IsFit project.now }
    // Each glyph draws what its masters do.
    ensures glyphs { IfOk result (λ built. HasGlyphs project.now (file_of built)) }
    // Each character has its glyph.
    ensures characters { IfOk result (λ built. HasCharacters project.now (file_of built)) }
    // The axes and the named instances, their names and their maps.
    ensures axes { IfOk result (λ built. HasAxes project.now.design (file_of built)) }
    // What stands in place of each glyph, and where.
    ensures substitutions { IfOk result (λ built. HasSubstitutions project.now.design (names_of project.now.names.entries) (file_of built)) }
    // It is a font file of exactly these tables, with these fields and names.
    ensures fields { IfOk result (λ built. HasFields project.now (file_of built)) }
    // What the summary tells.
    ensures counts { IfOk result (IsCounted project.now) }
{
    let tables = tables_of(alloc, project)?;
    let tuples = tables.varied.tuples;
    let explicit = tables.varied.explicit;
    let points = tables.varied.points;
    let pieces = pieces_of(alloc, tables)?;
    Ok(Built {
        pieces,
        tuples,
        explicit,
        points,
    })
}
