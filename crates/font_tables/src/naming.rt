ghost use Rattle.std.specs.Prelude.{◌≡◌, ◌+◌, ◌≤◌, [], ◌∷◌, ◌++◌, length, map, IfOk, OnOk};
ghost use Rattle.cmap_name.specs.Names.{AreNames};
ghost use Rattle.fontinfo.specs.FontInfo.{AreTextsWithin};
ghost use Rattle.font_model.specs.Fit.{IsFit};
ghost use Rattle.font_tables.specs.FontNames as rules;
ghost use Rattle.font_tables.specs.ShortNames.{AreShort};

use crate::postscript::postscript_name;
use crate::texts::{FIRST, full_name, unique_name};
use basics::{Name, NoMemory, Seq};
use designspace::{Axis, Instance};
use font_model::Project;
use fontinfo::Info;
use std::alloc::Global;

/// The names of the font of a project (OpenType, "name"): those of the font information, 0 to 6, and from 256 on the
/// label of each axis and the name of each instance.
pub fn names(alloc: Global, project: &Project) -> Result<Seq<(u16, Name)>, NoMemory>
    requires { IsFit project.now }
    ensures value { IfOk result (λ names. names ≡ rules.names_of project.now) }
    ensures writable { IfOk result AreNames }
{
    let axes = project.design.axes.as_slice();
    let instances = project.design.instances.as_slice();
    let mut names = Seq::new(alloc);
    push_copyright(alloc, &mut names, &project.info.copyright)?;
    push_info(alloc, &mut names, &project.info)?;
    push_labels(alloc, &mut names, axes)?;
    push_instances(alloc, &mut names, FIRST + axes.len() as u16, instances)?;
    Ok(names)
}

/// Adds an equal text under an id.
fn push_text(
    alloc: Global,
    names: &mut Seq<(u16, Name)>,
    id: u16,
    text: &Name,
) -> Result<(), NoMemory>
    ensures { OnOk result (names.new ≡ names.old ++ (id, text.now) ∷ []) }
{
    let copy = text.try_copy(alloc)?;
    names.push((id, copy))
}

/// Adds the copyright, where there is one.
fn push_copyright(
    alloc: Global,
    names: &mut Seq<(u16, Name)>,
    copyright: &Option<Name>,
) -> Result<(), NoMemory>
    ensures { OnOk result (names.new ≡ names.old ++ rules.copyright_name copyright.now) }
{
    match copyright {
        Some(text) => push_text(alloc, names, 0, text),
        None => Ok(()),
    }
}

/// Adds the names of the font information.
fn push_info(alloc: Global, names: &mut Seq<(u16, Name)>, info: &Info) -> Result<(), NoMemory>
    requires { AreTextsWithin info.now }
    ensures value { OnOk result (names.new ≡ names.old ++ rules.info_names info.now) }
    ensures short { OnOk result (AreShort info.now) }
{
    let postscript = postscript_name(alloc, info)?;
    let unique = unique_name(alloc, info, &postscript)?;
    let full = full_name(alloc, info)?;
    push_text(alloc, names, 1, &info.family)?;
    push_text(alloc, names, 2, &info.style)?;
    names.push((3, unique))?;
    names.push((4, full))?;
    push_text(alloc, names, 5, &info.version)?;
    names.push((6, postscript))
}

/// Adds the labels of the axes.
fn push_labels(alloc: Global, names: &mut Seq<(u16, Name)>, axes: &[Axis]) -> Result<(), NoMemory>
    requires { length axes.now ≤ 8 }
    ensures { OnOk result (names.new ≡ names.old ++ rules.texts_from rules.FIRST (map (λ axis. axis.label) axes.now)) }
{
    let mut id = FIRST;
    for axis in axes {
        push_text(alloc, names, id, &axis.label)?;
        id += 1;
    }
    Ok(())
}

/// Adds the names of the instances, whose ids run on from this one.
fn push_instances(
    alloc: Global,
    names: &mut Seq<(u16, Name)>,
    first: u16,
    instances: &[Instance],
) -> Result<(), NoMemory>
    requires first { first ≤ 264 }
    requires few { length instances.now ≤ 256 }
    ensures { OnOk result (names.new ≡ names.old ++ rules.texts_from first (map (λ instance. instance.name) instances.now)) }
{
    let mut id = first;
    for instance in instances {
        push_text(alloc, names, id, &instance.name)?;
        id += 1;
    }
    Ok(())
}
