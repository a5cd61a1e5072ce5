//! Answers worked out by hand.

ghost use Rattle.std.specs.Prelude.{IfOk};
ghost use Rattle.font_tables.specs.Drawable.{IsDrawable};

use crate::drawings::outline_of;
use crate::postscript::plain_text;
use basics::{NoMemory, Seq};
use delta_solve::{GlyphModel, GlyphTuple};
use fixpoint::Pair;
use glif::Point;
use std::alloc::Global;
use std::process::Abort;
use std::test::Fail;

/// Texts, and what of them a PostScript name has.
const PLAIN: [(&str, &str); 5] = [
    ("", ""),
    ("Box-Regular", "Box-Regular"),
    ("A b(c)[d]{e}<f>/g%h", "Abcdefgh"),
    ("é~😀!\u{7F}", "~!"),
    (
        "0123456789-0123456789-0123456789-0123456789-0123456789-01234567 89",
        "0123456789-0123456789-0123456789-0123456789-0123456789-01234567",
    ),
];

#[test]
fn leaves_marks_out(rt: HostRuntime) -> Result<(), Fail> {
    for (text, plain) in PLAIN {
        let found = plain_text(rt.alloc(), text)?;
        assert_eq!(rt; found.as_str(), plain, "{text}");
    }
    Ok(())
}

// A square whose first point is off the curve, with the default alone.
fn square(alloc: Global) -> Result<GlyphModel, NoMemory>
    ensures { IfOk result IsDrawable }
{
    let default = GlyphTuple {
        deltas: Seq::from_vec(Vec::from_array(
            alloc,
            [
                Pair { x: 0, y: 0 },
                Pair { x: 100, y: 0 },
                Pair { x: 100, y: 90 },
                Pair { x: 0, y: 90 },
            ],
        )?),
        advance: 120,
    };
    let tuples = Seq::from_vec(Vec::from_array(alloc, [default])?);
    let lengths = Seq::from_vec(Vec::from_array(alloc, [4])?);
    let on = Seq::from_vec(Vec::from_array(alloc, [false, true, true, true])?);
    Ok(GlyphModel {
        lengths,
        on,
        tuples,
    })
}

#[test]
fn draws_default(rt: HostRuntime) -> Result<(), Fail> {
    let model = square(rt.alloc())?;
    let outline = outline_of(rt.alloc(), &model)?;
    let corners = [
        (0, 0, false),
        (100, 0, true),
        (100, 90, true),
        (0, 90, true),
    ];
    assert_eq!(rt; outline.advance, 120);
    assert_eq!(rt; outline.contours.len(), 1);
    for contour in outline.contours.as_slice() {
        assert_eq!(rt; contour.len(), 4);
        for (point, (x, y, on)) in contour.as_slice().iter().zip(corners) {
            assert!(rt; *point == Point { x, y, on });
        }
    }
    Ok(())
}
