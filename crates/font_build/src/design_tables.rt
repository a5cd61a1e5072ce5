ghost use Rattle.std.specs.Prelude.{IfOk};
ghost use Rattle.font_build.specs.TableSteps.{AreDesign};
ghost use Rattle.font_model.specs.Fit.{IsFit};

use avar_fvar::{avar, fvar};
use basics::NoMemory;
use cmap_name::name;
use font_model::Project;
use font_tables::{axis_records, instance_records, names};
use std::alloc::Global;

/// The first id that a font may give to names of its own (OpenType, "name", "Name IDs").
const FIRST: u16 = 256;

/// The tables of the axes, and of the names that they refer to.
#[derive(Drop)]
pub(crate) struct DesignTables {
    pub(crate) avar: Vec<u8>,
    pub(crate) fvar: Vec<u8>,
    pub(crate) name: Vec<u8>,
}

/// These tables, of the axes and the named instances of a project.
pub(crate) fn tell_design(alloc: Global, project: &Project) -> Result<DesignTables, NoMemory>
    requires { IsFit project.now }
    ensures { IfOk result (AreDesign project.now) }
{
    let axes = axis_records(alloc, &project.design.axes)?;
    let first = FIRST + project.design.axes.len() as u16;
    let instances = instance_records(alloc, first, &project.design.instances)?;
    let names = names(alloc, project)?;
    let avar = avar(alloc, &axes)?;
    let fvar = fvar(alloc, &axes, &instances)?;
    let name = name(alloc, &names)?;
    Ok(DesignTables { avar, fvar, name })
}
