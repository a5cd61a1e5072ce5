ghost use Rattle.std.specs.Prelude.{◌≡◌, ◌≤◌, IfOk, length};
ghost use Rattle.std.specs.List.{list_all};
ghost use Rattle.explicit_points.specs.ExplicitPoints.{is_still};
ghost use Rattle.glyph_variations.specs.Variations.{all_deltas, explicit_in, picked};

use basics::{NoMemory, Seq};
use delta_solve::GlyphTuple;
use fixpoint::Pair;
use std::alloc::Global;

/// No movement.
const STILL: Pair = Pair { x: 0, y: 0 };

/// The deltas of all points of a glyph, the four phantom points after the outline's; the second of these stands at
/// the advance (OpenType, "glyf").
pub(crate) fn all_deltas(alloc: Global, tuple: &GlyphTuple) -> Result<Vec<Pair>, NoMemory>
    ensures { IfOk result (λ deltas. deltas.items ≡ all_deltas tuple.now) }
{
    let advance = Pair {
        x: tuple.advance,
        y: 0,
    };
    let mut deltas = Vec::from_slice(alloc, tuple.deltas.as_slice())?;
    deltas.extend_from_slice(&[STILL, advance, STILL, STILL])?;
    Ok(deltas)
}

/// Whether nothing moves.
pub(crate) fn are_still(deltas: &[Pair]) -> bool
    ensures { result ≡ list_all is_still deltas.now }
{
    deltas.iter().all(|delta| delta.x == 0 && delta.y == 0)
}

/// The deltas of these points.
pub(crate) fn picked(alloc: Global, deltas: &[Pair], points: &[u16]) -> Result<Seq<Pair>, NoMemory>
    ensures { IfOk result (λ some. some ≡ picked deltas.now points.now) }
{
    let mut some = Vec::new(alloc);
    for point in points {
        let delta = match deltas.get(usize::from(*point)) {
            Some(delta) => *delta,
            None => STILL,
        };
        some.push(delta)?;
    }
    Ok(Seq::from_vec(some))
}

/// How many of the points are the outline's, of which there are so many.
pub(crate) fn explicit_in(outline: usize, points: &[u16]) -> u64
    requires { length points.now ≤ 4004 }
    ensures value { result ≡ explicit_in outline points.now }
    ensures most { result ≤ length points.now }
{
    points
        .iter()
        .filter(|point| usize::from(**point) < outline)
        .count() as u64
}
