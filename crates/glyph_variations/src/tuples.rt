ghost use Rattle.std.specs.Prelude.{◌≡◌, ℕ, ◌+◌, IfOk, map};
ghost use Rattle.gvar_table.specs.Tuples.{AreTuplesOf, variation_of};
ghost use Rattle.region_support.specs.Coordinates.{regions_in};
ghost use Rattle.explicit_points.specs.ExplicitPoints.{IsGlyph};
ghost use Rattle.glyph_variations.specs.Conditions.{AreWritable, IsVariable, default_points, point_count};
ghost use Rattle.glyph_variations.specs.Variations.{AreVariations, IsVariation, explicit_points, outline_points};

use crate::deltas::{all_deltas, are_still, explicit_in, picked};
use basics::{NoMemory, Seq};
use delta_solve::{GlyphModel, GlyphTuple};
use explicit_points::explicit_points;
use fixpoint::Pair;
use gvar_table::Tuple;
use region_support::Support;
use std::alloc::Global;

/// The tuple variations of a glyph, and what they hold.
#[derive(Drop)]
pub struct GlyphVariations {
    /// The tuples, one for each master after the default that moves something, in the order of masters.
    pub tuples: Seq<Tuple>,
    /// How many outline points the tuples name, added up over them.
    pub explicit: u64,
    /// How many outline points there are, added up over the tuples.
    pub points: u64,
}

// The outline's points stand where the default has them.
fn default_points(masters: &[GlyphTuple]) -> &[Pair]
    ensures { result.now ≡ default_points masters.now }
{
    match masters {
        [default, ..] => default.deltas.as_slice(),
        [] => &[],
    }
}

// A master's tuple variation, of a glyph with contours of so many points, these points in the default's drawing, and
// these deltas of all points.
fn tuple_of(
    alloc: Global,
    lengths: &[u16],
    points: &[Pair],
    support: &Support,
    deltas: &[Pair],
) -> Result<Tuple, NoMemory>
    requires { IsGlyph lengths.now points.now deltas.now }
    ensures { IfOk result (λ tuple. IsVariation lengths.now points.now support.now.items deltas.now (variation_of tuple)) }
{
    let named = explicit_points(alloc, lengths, points, deltas)?;
    let deltas = picked(alloc, deltas, named.as_slice())?;
    Ok(Tuple {
        support: support.clone()?,
        points: named,
        deltas,
    })
}

// The tuple variations of masters with these regions.
fn moving(
    alloc: Global,
    lengths: &[u16],
    masters: &[GlyphTuple],
    supports: &[Support],
) -> Result<GlyphVariations, NoMemory>
    requires { IsVariable lengths.now masters.now }
    ensures tuples { IfOk result (λ found. AreVariations lengths.now (regions_in supports.now) masters.now (map variation_of found.tuples)) }
    ensures explicit { IfOk result (λ found. found.explicit ≡ explicit_points (point_count masters.now) (map variation_of found.tuples)) }
    ensures points { IfOk result (λ found. found.points ≡ outline_points (point_count masters.now) (map variation_of found.tuples)) }
    ensures writable { IfOk result (λ found. (axes : ℕ) → AreWritable axes supports.now → AreTuplesOf axes (point_count masters.now + 4) found.tuples) }
{
    let points = default_points(masters);
    let mut tuples = Vec::new(alloc);
    let mut explicit: u64 = 0;
    for master in 1..masters.len().min(supports.len()) {
        let deltas = all_deltas(alloc, &masters[master])?;
        if !are_still(&deltas) {
            let tuple = tuple_of(alloc, lengths, points, &supports[master], &deltas)?;
            explicit += explicit_in(points.len(), tuple.points.as_slice());
            tuples.push(tuple)?;
        }
    }
    let points = points.len() as u64 * tuples.len() as u64;
    Ok(GlyphVariations {
        tuples: Seq::from_vec(tuples),
        explicit,
        points,
    })
}

/// The tuple variations that draw the model of a glyph (OpenType, "gvar"), where the regions are those of its masters in
/// their order: a tuple for each master after the default whose deltas aren't all zero. It names on each contour the
/// least set of points from which readers infer all deltas, and the phantom points that move. The model has at most 128
/// masters, contours of 1 to 1,024 points, and at most 4,000 points in all.
pub fn variations(
    alloc: Global,
    model: &GlyphModel,
    supports: &Seq<Support>,
) -> Result<GlyphVariations, NoMemory>
    requires { IsVariable model.now.lengths model.now.tuples }
    ensures tuples { IfOk result (λ found. AreVariations model.now.lengths (regions_in supports.now) model.now.tuples (map variation_of found.tuples)) }
    ensures explicit { IfOk result (λ found. found.explicit ≡ explicit_points (point_count model.now.tuples) (map variation_of found.tuples)) }
    ensures points { IfOk result (λ found. found.points ≡ outline_points (point_count model.now.tuples) (map variation_of found.tuples)) }
    ensures writable { IfOk result (λ found. (axes : ℕ) → AreWritable axes supports.now → AreTuplesOf axes (point_count model.now.tuples + 4) found.tuples) }
{
    moving(
        alloc,
        model.lengths.as_slice(),
        model.tuples.as_slice(),
        supports.as_slice(),
    )
}
