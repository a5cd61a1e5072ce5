ghost use Rattle.std.specs.Prelude.{◌≡◌, ℕ, ◌+◌, ◌≤◌, length, map, sum_by, All, IfOk};
ghost use Rattle.font_build.specs.TableSteps.{AreFound, IsVaried, all_points, is_variable};
ghost use Rattle.font_model.specs.Fit.{IsFit, points_in};
ghost use Rattle.glyph_variations.specs.Conditions.{AreWritable, point_count};
ghost use Rattle.region_support.specs.Coordinates.{regions_in};

use basics::{NoMemory, Seq};
use delta_solve::{GlyphModel, GlyphTuple};
use font_model::Project;
use glyph_variations::variations;
use gvar_table::{Tuple, table};
use region_support::Support;
use std::alloc::Global;

/// The tuples of all glyphs, and how much they hold.
#[derive(Drop)]
pub(crate) struct Found {
    /// The tuples of each glyph.
    pub(crate) glyphs: Seq<Seq<Tuple>>,
    /// How many there are.
    pub(crate) tuples: u64,
    /// How many outline points they name.
    pub(crate) explicit: u64,
    /// How many outline points there are, added up over the tuples.
    pub(crate) points: u64,
}

/// The table of the variations, and how much it holds.
#[derive(Drop)]
pub(crate) struct Varied {
    /// Table `gvar`.
    pub(crate) bytes: Vec<u8>,
    /// How many tuples the glyphs have.
    pub(crate) tuples: u64,
    /// How many outline points they name.
    pub(crate) explicit: u64,
    /// How many outline points there are, added up over the tuples.
    pub(crate) points: u64,
}

/// The tuples of glyphs with these models.
fn find(alloc: Global, models: &[GlyphModel], supports: &Seq<Support>) -> Result<Found, NoMemory>
    requires variable { All is_variable models.now }
    requires small { sum_by points_in models.now ≤ 16777216 }
    requires writable { (axes : ℕ) × AreWritable axes supports.now }
    ensures { IfOk result (λ own. (axes : ℕ) → AreWritable axes supports.now → AreFound axes (regions_in supports.now) models.now own.glyphs own.tuples own.explicit own.points) }
{
    let mut glyphs = Seq::new(alloc);
    let mut tuples: u64 = 0;
    let mut explicit: u64 = 0;
    let mut points: u64 = 0;
    for model in models {
        let own = variations(alloc, model, supports)?;
        tuples += own.tuples.len() as u64;
        explicit += own.explicit;
        points += own.points;
        glyphs.push(own.tuples)?;
    }
    Ok(Found {
        glyphs,
        tuples,
        explicit,
        points,
    })
}

/// How many points each glyph has, with the four phantom points (OpenType, "glyf").
fn counts(alloc: Global, models: &[GlyphModel]) -> Result<Seq<u16>, NoMemory>
    requires { All is_variable models.now }
    ensures { IfOk result (λ counts. counts ≡ map all_points models.now) }
{
    let mut counts = Seq::new(alloc);
    for model in models {
        counts.push(point_count(model.tuples.as_slice()) as u16 + 4)?;
    }
    Ok(counts)
}

/// How many points the default's outline has.
fn point_count(tuples: &[GlyphTuple]) -> usize
    ensures { result ≡ point_count tuples.now }
{
    match tuples {
        [default, ..] => default.deltas.len(),
        [] => 0,
    }
}

/// The table of the variations of all glyphs.
pub(crate) fn vary(alloc: Global, project: &Project) -> Result<Varied, NoMemory>
    requires { IsFit project.now }
    ensures { IfOk result (λ own. IsVaried (length project.now.design.axes) (regions_in project.now.supports) project.now.models own.bytes.items own.tuples own.explicit own.points) }
{
    let models = project.models.as_slice();
    let found = find(alloc, models, &project.supports)?;
    let counts = counts(alloc, models)?;
    let axes = project.design.axes.len() as u32;
    let bytes = table(alloc, axes, &counts, &found.glyphs)?;
    Ok(Varied {
        bytes,
        tuples: found.tuples,
        explicit: found.explicit,
        points: found.points,
    })
}
