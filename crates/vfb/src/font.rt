ghost use Rattle.std.specs.Prelude.{◌≡◌, length, map, All, IfOk, string_bytes};
ghost use Rattle.commands.specs.Command.{build};
ghost use Rattle.commands.specs.Words.{asked_build};
ghost use Rattle.font_build.specs.declared.built.Built.{Built};
ghost use Rattle.font_model.specs.Fit.{IsFit};
ghost use Rattle.font_model.specs.Fonts.{Font, IsProjectOf};
ghost use Rattle.glif.specs.Limits.{IsWithinLimits};
ghost use Rattle.source_files.specs.Stops.{Reads};
ghost use Rattle.vfb.specs.BuiltFont.{MakesFont};
ghost use Rattle.vfb.specs.Lines.{design_lines, summary, variation_lines};
ghost use Rattle.vfb.specs.Making.{Makes, shown_product};
ghost use Rattle.vfb.specs.Work.{IsReadBy};

use crate::product::{File, Product};
use basics::NoMemory;
use commands::Build;
use filters::GlyphFilter;
use font_build::{Built, build};
use font_model::Project;
use font_project::project;
use outside::Sources;
use source_files::ReadStop;
use std::alloc::Global;

/// The lines of how many glyphs, masters and axes a font has.
fn design_lines(alloc: Global, project: &Project) -> Result<String, NoMemory>
    ensures { IfOk result (λ text. string_bytes text ≡ design_lines (length project.now.names.entries) (length project.now.sorted) (length project.now.design.axes)) }
{
    let glyphs = project.names.len();
    let masters = project.sorted.len();
    let axes = project.design.axes.len();
    Ok(format!(in alloc; "glyphs {glyphs}\nmasters {masters}\naxes {axes}\n")?)
}

/// The lines of how many tuples it has, and how many points these name among all.
fn variation_lines(alloc: Global, built: &Built) -> Result<String, NoMemory>
    ensures { IfOk result (λ text. string_bytes text ≡ variation_lines built.now.tuples built.now.explicit built.now.points) }
{
    let Built {
        tuples,
        explicit,
        points,
        ..
    } = built;
    Ok(format!(in alloc; "tuples {tuples}\nexplicit {explicit} of {points}\n")?)
}

/// The five lines that are said of a font.
fn summary_of(alloc: Global, project: &Project, built: &Built) -> Result<String, NoMemory>
    ensures { IfOk result (λ text. string_bytes text ≡ summary (length project.now.names.entries) (length project.now.sorted) (length project.now.design.axes) built.now.tuples built.now.explicit built.now.points) }
{
    let design = design_lines(alloc, project)?;
    let variations = variation_lines(alloc, built)?;
    Ok(format!(in alloc; "{design}{variations}")?)
}

/// The font of a project, as one file, and its summary.
fn font_of<'a>(alloc: Global, out: &'a str, project: &Project) -> Result<Product<'a>, NoMemory>
    requires { IsFit project.now }
    ensures { IfOk result (λ product. (font : Font) → All (All IsWithinLimits) font.glyphs → IsProjectOf font project.now → MakesFont font out.now (shown_product product)) }
{
    let built = build(alloc, project)?;
    let text = summary_of(alloc, project, &built)?;
    let files = vec![in alloc;
        File {
            path: out,
            pieces: built.pieces.into_vec()
        },
    ]?;
    Ok(Product { files, text })
}

/// Makes the font of a designspace document and its sources, through the filters in order.
pub(crate) fn make_font<'a, S: Sources>(
    alloc: Global,
    command: &Build<'a>,
    mut filters: Vec<Box<dyn GlyphFilter>>,
    sources: &mut S,
) -> Result<Product<'a>, ReadStop>
    ensures { Reads (S.state sources.old) (S.state sources.new) (IsReadBy (S.state sources.old).tells (S.state sources.old).files (build (asked_build command.now))) (Makes (S.state sources.old).files (record { command = build (asked_build command.now); images = map (λ filter. image filter (setting filter)) filters.items }) result) result }
{
    let project = project(alloc, sources, command.design, &mut filters)?;
    Ok(font_of(alloc, command.out, &project)?)
}
