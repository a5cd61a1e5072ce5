ghost use Rattle.std.specs.Prelude.{IfOk};
ghost use Rattle.font_build.specs.TableSteps.{AreTablesOf};
ghost use Rattle.font_model.specs.Fit.{IsFit};

use crate::advances::move_advances;
use crate::design_tables::{DesignTables, tell_design};
use crate::drawn::{Drawn, draw_default};
use crate::fixed_tables::{FixedTables, tell_facts};
use crate::variations::{Varied, vary};
use basics::NoMemory;
use cmap_name::cmap;
use feature_var::gsub;
use font_model::Project;
use std::alloc::Global;

/// All tables of a font.
#[derive(Drop)]
pub(crate) struct Tables {
    pub(crate) glyf: Vec<u8>,
    pub(crate) loca: Vec<u8>,
    pub(crate) fixed: FixedTables,
    pub(crate) design: DesignTables,
    pub(crate) cmap: Vec<u8>,
    /// None where no rule holds anywhere.
    pub(crate) gsub: Option<Vec<u8>>,
    pub(crate) hvar: Vec<u8>,
    pub(crate) varied: Varied,
}

/// The tables of the font of a project.
pub(crate) fn tables_of(alloc: Global, project: &Project) -> Result<Tables, NoMemory>
    requires { IsFit project.now }
    ensures { IfOk result (AreTablesOf project.now) }
{
    let Drawn { glyf, loca, facts } = draw_default(alloc, project)?;
    let fixed = tell_facts(alloc, &facts)?;
    let design = tell_design(alloc, project)?;
    let cmap = cmap(alloc, &project.codes)?;
    let gsub = gsub(alloc, &project.cells, &project.subs, project.design.last)?;
    let hvar = move_advances(alloc, project)?;
    let varied = vary(alloc, project)?;
    Ok(Tables {
        glyf,
        loca,
        fixed,
        design,
        cmap,
        gsub,
        hvar,
        varied,
    })
}
