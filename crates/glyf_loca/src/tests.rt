ghost use Rattle.std.specs.Prelude.{◌≡◌, pos, negsuc, true, false, [], ◌∷◌, IsTrue, Some};
ghost use Rattle.glyf_loca.specs.Limits.{AreFit};
ghost use Rattle.glyf_loca.specs.SimpleGlyphs.{glyph_in};

use crate::slow_reader::{Dot, dots, offset};
use crate::{GlyfLoca, tables};
use basics::Seq;
use glif::{Outline, Point, within};
use std::alloc::Global;
use std::test::Fail;

/// The points of a glyph, and its bounds: xMin, yMin, xMax, yMax.
#[derive(Clone, Copy)]
struct Glyph {
    dots: &'static [Dot],
    bounds: (i16, i16, i16, i16),
}

/// No contour.
const EMPTY: Glyph = Glyph {
    dots: &[],
    bounds: (0, 0, 0, 0),
};

const TRIANGLE: Glyph = Glyph {
    dots: &[
        (0, 0, true, false),
        (100, 0, true, false),
        (50, 80, true, true),
    ],
    bounds: (0, 0, 100, 80),
};

/// Two contours, the second of which reaches further, also by points off the curve.
const TWO: Glyph = Glyph {
    dots: &[
        (-10, -20, true, false),
        (-10, 300, false, true),
        (-16384, 16383, true, false),
        (16383, 7, false, false),
        (0, -16384, false, true),
    ],
    bounds: (-16384, -16384, 16383, 16383),
};

/// By hand: the number of contours, the bounds, the last points, no instructions, the flags, the steps in x and in y.
const GLYF: [u8; 76] = [
    // TRIANGLE: 29 bytes, filled with three
    0x00, 0x01, 0x00, 0x00, 0x00, 0x00, 0x00, 0x64, 0x00, 0x50, 0x00, 0x02, 0x00, 0x00, 0x01, 0x01,
    0x01, 0x00, 0x00, 0x00, 0x64, 0xFF, 0xCE, 0x00, 0x00, 0x00, 0x00, 0x00, 0x50, 0x00, 0x00, 0x00,
    // TWO: 41 bytes, filled with three
    0x00, 0x02, 0xC0, 0x00, 0xC0, 0x00, 0x3F, 0xFF, 0x3F, 0xFF, 0x00, 0x01, 0x00, 0x04, 0x00, 0x00,
    0x01, 0x00, 0x01, 0x00, 0x00, 0xFF, 0xF6, 0x00, 0x00, 0xC0, 0x0A, 0x7F, 0xFF, 0xC0, 0x01, 0xFF,
    0xEC, 0x01, 0x40, 0x3E, 0xD3, 0xC0, 0x08, 0xBF, 0xF9, 0x00, 0x00, 0x00,
];

/// Half of 0, 0, 32, 32, 76.
const LOCA: [u8; 10] = [0, 0, 0, 0, 0, 16, 0, 16, 0, 38];

fn outline(alloc: Global, dots: &[Dot]) -> Option<Outline> {
    let mut contours = Seq::new(alloc);
    let mut points = Seq::new(alloc);
    for (x, y, on, last) in dots {
        let point = Point {
            x: *x,
            y: *y,
            on: *on,
        };
        points.push(point).ok()?;
        if *last {
            contours.push(points).ok()?;
            points = Seq::new(alloc);
        }
    }
    Some(Outline {
        advance: 500,
        contours,
    })
}

/// Whether `tables` may be called.
fn are_fit(outlines: &[Outline]) -> bool
    ensures { IsTrue result → AreFit outlines.now }
{
    if outlines.len() > 32_510 {
        return false;
    }
    for outline in outlines {
        if within(outline).is_some() {
            return false;
        }
    }
    true
}

fn made(alloc: Global, rows: &[&[Dot]]) -> Option<GlyfLoca> {
    let mut outlines = Seq::new(alloc);
    for dots in rows {
        outlines.push(outline(alloc, dots)?).ok()?;
    }
    if !are_fit(outlines.as_slice()) {
        return None;
    }
    tables(alloc, &outlines).ok()
}

/// The points of a glyph, as the slow reader finds them.
fn read(alloc: Global, made: &GlyfLoca, glyph: usize) -> Option<Vec<Dot>> {
    let from = offset(&made.loca, made.long, glyph)?;
    let to = offset(&made.loca, made.long, glyph.checked_add(1)?)?;
    dots(alloc, made.glyf.get(from..to)?)
}

#[test]
fn tables_by_hand(rt: HostRuntime) -> Result<(), Fail> {
    let glyphs = [&EMPTY, &TRIANGLE, &EMPTY, &TWO];
    let rows = [EMPTY.dots, TRIANGLE.dots, EMPTY.dots, TWO.dots];
    let made = made(rt.alloc(), &rows).expect(&rt, "no tables");
    assert_eq!(rt; made.glyf.as_slice(), GLYF.as_slice());
    assert_eq!(rt; made.loca.as_slice(), LOCA.as_slice());
    assert!(rt; !made.long);
    for (i, glyph) in glyphs.iter().enumerate() {
        let own = made.bounds.as_slice().get(i).expect(&rt, "no bounds");
        assert_eq!(rt; (own.x_min, own.y_min, own.x_max, own.y_max), glyph.bounds);
        let back = read(rt.alloc(), &made, i).expect(&rt, "not read");
        assert_eq!(rt; back.as_slice(), glyph.dots);
    }
    Ok(())
}

/// A contour of so many points, which go far and turn often.
fn zigzag(alloc: Global, count: i32) -> Option<Vec<Dot>> {
    let mut dots = Vec::new(alloc);
    for i in 0..count {
        let x = if i % 2 == 0 { i } else { -16384 };
        dots.push((x, 16383 - i % 512, i % 3 != 0, i + 1 == count))
            .ok()?;
    }
    Some(dots)
}

/// How many points the last two of 27 glyphs have, the others having 1,024; the size of `glyf`; whether that is above
/// 131,070; and the last offset.
const SIZES: [(i32, i32, usize, bool, &[u8]); 2] = [
    (526, 2, 131_068, false, &[0xFF, 0xFE]),
    (527, 1, 131_072, true, &[0x00, 0x02, 0x00, 0x00]),
];

#[test]
fn forms_of_offsets(rt: HostRuntime) -> Result<(), Fail> {
    let alloc = rt.alloc();
    let great = zigzag(alloc, 1024).expect(&rt, "no points");
    for (count, least, size, long, last) in SIZES {
        let other = zigzag(alloc, count).expect(&rt, "no points");
        let small = zigzag(alloc, least).expect(&rt, "no points");
        let mut rows = Vec::new(alloc);
        for _ in 0..25 {
            rows.push(great.as_slice())?;
        }
        rows.push(other.as_slice())?;
        rows.push(small.as_slice())?;
        let made = made(alloc, &rows).expect(&rt, "no tables");
        assert_eq!(rt; made.glyf.len(), size);
        assert_eq!(rt; made.long, long);
        assert!(rt; made.loca.ends_with(last));
        for (i, row) in rows.iter().enumerate() {
            let back = read(alloc, &made, i).expect(&rt, "not read");
            assert_eq!(rt; back.as_slice(), *row);
        }
    }
    Ok(())
}

/// A record with a repeated flag, steps in one byte and none at all, and two bytes of instructions.
const SHORT: [u8; 38] = [
    // numberOfContours, xMin, yMin, xMax, yMax
    0x00, 0x02, 0xFF, 0xFB, 0xFE, 0xD4, 0x00, 0x1E, 0x00, 0x28,
    // endPtsOfContours, instructionLength, instructions
    0x00, 0x02, 0x00, 0x06, 0x00, 0x02, 0x4F, 0x4F,
    // flags, the last one repeated twice
    0x37, 0x35, 0x32, 0x23, 0x19, 0x02,
    // x: 10, the same, 20 further, 35 back, and the same three times
    0x0A, 0x14, 0x23,
    // y: 20, 20 further, the same twice, 340 back, 300 further, 1 back
    0x14, 0x14, 0xFE, 0xAC, 0x01, 0x2C, 0xFF, 0xFF,
    // filling
    0x00, 0x00, 0x00,
];

const SHORT_DOTS: [Dot; 7] = [
    (10, 20, true, false),
    (10, 40, true, false),
    (30, 40, false, true),
    (-5, 40, true, false),
    (-5, -300, true, false),
    (-5, 0, true, false),
    (-5, -1, true, true),
];

/// The definition reads these bytes too.
fn short_record() -> [u8; 38]
    ensures { glyph_in result ≡ Some (
        (record { x = pos 10; y = pos 20; on = true } ∷ record { x = pos 10; y = pos 40; on = true } ∷ record { x = pos 30; y = pos 40; on = false } ∷ []) ∷
        (record { x = negsuc 4; y = pos 40; on = true } ∷ record { x = negsuc 4; y = negsuc 299; on = true } ∷ record { x = negsuc 4; y = pos 0; on = true } ∷ record { x = negsuc 4; y = negsuc 0; on = true } ∷ []) ∷ []) }
{
    SHORT
}

#[test]
fn repeats_and_short_steps(rt: HostRuntime) -> Result<(), Fail> {
    let back = dots(rt.alloc(), &short_record()).expect(&rt, "not read");
    assert_eq!(rt; back.as_slice(), SHORT_DOTS.as_slice());
    Ok(())
}
