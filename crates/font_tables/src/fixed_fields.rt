ghost use Rattle.std.specs.Prelude.{◌≡◌, ℕ, ◌+◌, ◌≤◌, length, map, sum_by, All, IfOk};
ghost use Rattle.delta_solve.specs.Outlines.{advance_of};
ghost use Rattle.font_model.specs.Fit.{names_of};
ghost use Rattle.font_tables.specs.FontFacts.{facts_with, has_substitutions};
ghost use Rattle.font_tables.specs.Outlines.{lengths_of, needs_long_offsets};
ghost use Rattle.glif.specs.Limits.{IsWithinLimits};
ghost use Rattle.glyf_loca.specs.Bounds.{outline_bounds};

use crate::info::copied_info;
use basics::{Name, NoMemory, Seq};
use font_model::Project;
use glif::{Outline, Point};
use glyf_loca::Bounds;
use indexmap::IndexMap;
use plain_tables::Facts;
use rule_boxes::Cell;
use std::alloc::Global;

/// What the font of a project tells in its tables of fixed fields, which draws these outlines with these bounds, and
/// whose table `loca` has long offsets or short ones.
pub fn facts(
    alloc: Global,
    project: &Project,
    outlines: &Seq<Outline>,
    bounds: Seq<Bounds>,
    long: bool,
) -> Result<Facts, NoMemory>
    requires within { All IsWithinLimits outlines.now }
    requires bounds { bounds ≡ map outline_bounds outlines.now }
    requires long { long ≡ needs_long_offsets outlines.now }
    ensures { IfOk result (λ facts. facts ≡ facts_with project.now outlines.now) }
{
    let info = copied_info(alloc, &project.info)?;
    let names = glyph_names(alloc, &project.names)?;
    let advances = advances(alloc, outlines.as_slice())?;
    let lengths = lengths(alloc, outlines.as_slice())?;
    let codes = Vec::from_slice(alloc, project.codes.as_slice())?;
    Ok(Facts {
        info,
        names,
        advances,
        bounds,
        lengths,
        codes: Seq::from_vec(codes),
        long,
        substitutes: has_substitutions(&project.cells),
    })
}

/// Whether some rule holds anywhere.
fn has_substitutions(cells: &Seq<Cell>) -> bool
    ensures { result ≡ has_substitutions cells.now }
{
    !cells.is_empty()
}

/// The names of the glyphs, in glyph order.
fn glyph_names(alloc: Global, names: &IndexMap<Name, u16>) -> Result<Seq<Name>, NoMemory>
    ensures { IfOk result (λ list. list ≡ names_of names.now.entries) }
{
    let mut list = Seq::new(alloc);
    for name in names.keys() {
        let copy = name.try_copy(alloc)?;
        list.push(copy)?;
    }
    Ok(list)
}

/// The advance widths.
fn advances(alloc: Global, outlines: &[Outline]) -> Result<Seq<i32>, NoMemory>
    ensures { IfOk result (λ advances. advances ≡ map advance_of outlines.now) }
{
    let mut advances = Seq::new(alloc);
    for outline in outlines {
        advances.push(outline.advance)?;
    }
    Ok(advances)
}

/// How many points and how many contours each outline has.
fn lengths(alloc: Global, outlines: &[Outline]) -> Result<Seq<(u16, u16)>, NoMemory>
    requires { All IsWithinLimits outlines.now }
    ensures { IfOk result (λ lengths. lengths ≡ map lengths_of outlines.now) }
{
    let mut lengths = Seq::new(alloc);
    for outline in outlines {
        lengths.push(lengths_of(outline))?;
    }
    Ok(lengths)
}

/// How many points an outline has, and how many contours.
fn lengths_of(outline: &Outline) -> (u16, u16)
    requires { IsWithinLimits outline.now }
    ensures { result ≡ lengths_of outline.now }
{
    let contours = outline.contours.as_slice();
    (point_count(contours) as u16, contours.len() as u16)
}

/// How many points contours have.
fn point_count(contours: &[Seq<Point>]) -> usize
    requires { sum_by length contours.now ≤ 4000 }
    ensures { result ≡ sum_by length contours.now }
{
    let mut count = 0;
    for contour in contours {
        count += contour.len();
    }
    count
}
