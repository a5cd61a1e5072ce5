ghost use Rattle.std.specs.Prelude.{◌↔◌, IsTrue, All};
ghost use Rattle.variation_rules.specs.FontUnits.{AreFWords, IsFWord};
ghost use Rattle.variation_rules.specs.declared.tuple.TupleVariation.{TupleVariation};

use super::several::{one_point, outcome};
use super::*;
use fixpoint::{Fix, Pair};
use variation_decoder::read_tuples;
use variation_rules::{TupleVariation, draw};

/// Whether both numbers of a delta fit 16 bits.
fn are_words(delta: &Pair) -> bool
    ensures { IsTrue result ↔ AreFWords delta.now }
{
    (-32_768..=32_767).contains(&delta.x) && (-32_768..=32_767).contains(&delta.y)
}

/// Whether those of all deltas of the tuple do.
fn has_words(tuple: &TupleVariation) -> bool
    ensures { IsTrue result ↔ All AreFWords tuple.now.deltas }
{
    tuple.deltas.as_slice().iter().all(are_words)
}

/// Whether those of all these tuples do.
fn have_words(tuples: &[TupleVariation]) -> bool
    ensures { IsTrue result ↔ All (λ (tuple : TupleVariation). All AreFWords tuple.deltas) tuples.now }
{
    tuples.iter().all(has_words)
}

/// The corners of the first triangle.
const CORNERS: [Pair; 3] = [
    Pair { x: 100, y: 0 },
    Pair { x: 200, y: 0 },
    Pair { x: 100, y: 100 },
];

/// Where on the axis, and where the first corner then is.
const FIRST_CORNER: [(i32, i64); 4] = [(-16_384, 100), (0, 100), (8_192, 125), (16_384, 150)];

/// The data that are written, read back by the plain reader, draw the way from one triangle to the other.
#[test]
fn draws_the_way_between(rt: HostRuntime) -> Result<(), Fail> {
    let alloc = rt.alloc();
    let tuples = read_tuples(alloc, 1, 7, &Seq::new(alloc), MOVED_DATA)?.ok_or("a reading")?;
    assert_eq!(rt; tuples.len(), 1);
    assert!(rt; have_words(tuples.as_slice()));
    for (at, x) in FIRST_CORNER {
        let glyph = draw(alloc, &[3], &CORNERS, 300, &tuples, &[Fix::from_raw(at)])?.ok_or(
            "a drawing",
        )?;
        let points = glyph.points.as_slice();
        assert_eq!(rt; points.len(), 3);
        assert_eq!(rt; points[0].x, 65_536 * x);
        assert_eq!(rt; points[0].y, 0);
        assert_eq!(rt; glyph.advance, 65_536 * 300);
    }
    Ok(())
}

/// The locations of four masters on two axes, the last on both.
const LOCATIONS: [&str; 4] = ["0,0", "16384,0", "0,16384", "8192,16384"];

/// The first coordinate of each, and in 65,536ths what is drawn at the last location: with the values 0, 1, 0
/// and 1 the deltas are 0, 1, 0 and 0, since the half that is left is rounded down, and with 0 in place of
/// the last they are 0, 1, 0 and -1.
const HALVES: [([i32; 4], i64); 2] = [([0, 1, 0, 1], 32_768), ([0, 1, 0, 0], -32_768)];

/// What is drawn at a master's location lies half a unit off at most, so that it is the master's once rounded
/// with a tie going up.
#[test]
fn draws_halves_at_a_master(rt: HostRuntime) -> Result<(), Fail> {
    let alloc = rt.alloc();
    for (xs, drawn) in HALVES {
        let mut drawings = Vec::new(alloc);
        for x in xs {
            drawings.push(one_point(alloc, x, 0)?)?;
        }
        let (status, _, held) = outcome(alloc, &LOCATIONS, drawings.as_slice())?;
        assert_eq!(rt; status, 0);
        let held = held.ok_or("a file")?;
        let tuples = read_tuples(alloc, 2, 5, &Seq::new(alloc), held.as_slice())?.ok_or(
            "a reading",
        )?;
        assert!(rt; have_words(tuples.as_slice()));
        let at = [Fix::from_raw(8_192), Fix::from_raw(16_384)];
        let glyph = draw(alloc, &[1], &[Pair { x: 0, y: 0 }], 100, &tuples, &at)?.ok_or(
            "a drawing",
        )?;
        let points = glyph.points.as_slice();
        assert_eq!(rt; points.len(), 1);
        assert_eq!(rt; points[0].x, drawn);
    }
    Ok(())
}
