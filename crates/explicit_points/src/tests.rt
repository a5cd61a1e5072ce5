ghost use Rattle.std.specs.Prelude.{◌≡◌, ◌+◌, ◌≤◌, All, IfOk, OnOk, length};
ghost use Rattle.variation_rules.specs.FontUnits.{AreFWords};
ghost use Rattle.explicit_points.specs.ExplicitPoints.{IsOutline};

use crate::explicit_points;
use basics::{NoMemory, Seq};
use fixpoint::Pair;
use std::alloc::Global;
use std::test::Fail;

// The deltas in x of four points, which don't move in y.
type Moves = (i16, i16, i16, i16);

const STILL: Moves = (0, 0, 0, 0);

// The right side of a square moves.
const WIDER: Moves = (0, 50, 50, 0);

fn push_pairs(pairs: &mut Vec<Pair>, numbers: &[(i16, i16)]) -> Result<(), NoMemory>
    requires { All AreFWords pairs.old.items }
    ensures fit { OnOk result (All AreFWords pairs.new.items) }
    ensures count { OnOk result (length pairs.new.items ≡ length pairs.old.items + length numbers.now) }
{
    for (x, y) in numbers {
        pairs.push(Pair {
            x: i32::from(*x),
            y: i32::from(*y),
        })?;
    }
    Ok(())
}

fn push_moves(deltas: &mut Vec<Pair>, moves: Moves) -> Result<(), NoMemory>
    requires { All AreFWords deltas.old.items }
    ensures fit { OnOk result (All AreFWords deltas.new.items) }
    ensures count { OnOk result (length deltas.new.items ≡ length deltas.old.items + 4) }
{
    push_pairs(
        deltas,
        &[(moves.0, 0), (moves.1, 0), (moves.2, 0), (moves.3, 0)],
    )
}

// Squares, one for each four deltas: the lengths of the contours, the points and their deltas.
fn squares(alloc: Global, contours: &[Moves]) -> Result<(Vec<u16>, Vec<Pair>, Vec<Pair>), NoMemory>
    requires { length contours.now ≤ 1000 }
    ensures { IfOk result (λ outline. IsOutline outline.0.items outline.1.items outline.2.items) }
{
    let mut lengths = Vec::new(alloc);
    let mut points = Vec::new(alloc);
    let mut deltas = Vec::new(alloc);
    for moves in contours {
        lengths.push(4)?;
        push_pairs(&mut points, &[(0, 0), (100, 0), (100, 100), (0, 100)])?;
        push_moves(&mut deltas, *moves)?;
    }
    Ok((lengths, points, deltas))
}

// The points named for squares and the phantom points.
fn named(alloc: Global, contours: &[Moves], phantom: Moves) -> Result<Seq<u16>, NoMemory>
    requires { length contours.now ≤ 1000 }
{
    let (lengths, points, mut deltas) = squares(alloc, contours)?;
    push_moves(&mut deltas, phantom)?;
    explicit_points(alloc, &lengths, &points, &deltas)
}

#[test]
fn points_by_hand(rt: HostRuntime) -> Result<(), Fail> {
    let alloc = rt.alloc();
    assert_eq!(rt;
        named(alloc, &[WIDER], STILL)?.as_slice(),
        [0, 1].as_slice()
    );
    assert_eq!(rt;
        named(alloc, &[WIDER, WIDER], STILL)?.as_slice(),
        [0, 1, 4, 5].as_slice()
    );
    assert_eq!(rt;
        named(alloc, &[WIDER, STILL, WIDER], STILL)?.as_slice(),
        [0, 1, 8, 9].as_slice()
    );
    // The second phantom point, whose delta is that of the advance.
    assert_eq!(rt;
        named(alloc, &[STILL], (0, 30, 0, 0))?.as_slice(),
        [5].as_slice()
    );
    assert_eq!(rt;
        named(alloc, &[WIDER], (0, 30, 0, -10))?.as_slice(),
        [0, 1, 5, 7].as_slice()
    );
    assert_eq!(rt;
        named(alloc, &[STILL, STILL], STILL)?.as_slice(),
        [].as_slice()
    );
    // A glyph without an outline.
    assert_eq!(rt;
        named(alloc, &[], (0, 30, 0, 0))?.as_slice(),
        [1].as_slice()
    );
    Ok(())
}
