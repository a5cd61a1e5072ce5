//! What no clause says: that calls succeed where there is enough memory, and answers worked out by hand.

ghost use Rattle.std.specs.Prelude.{IsTrue};
ghost use Rattle.glif.specs.Limits.{IsWithinLimits};

use crate::Mirror;
use basics::Seq;
use filters::{FilterRefusal, GlyphFilter};
use glif::{Outline, Point, within};
use std::alloc::{AllocError, Global};
use std::fmt::Write;
use std::test::Fail;

/// Texts that `mirror` takes, and what it then makes of the points (0, 0) and, off the curve, (100, 7), or the number that
/// is out of limits then.
const IMAGES: [(&str, &str); 6] = [
    ("0", "500 (0,0) !(-100,7)"),
    ("100", "500 (100,0) !(0,7)"),
    (" +500.0 ", "500 (500,0) !(400,7)"),
    ("-16384", "Range -16484"),
    ("16384", "Range 16384"),
    ("32766", "Range 32766"),
];

/// Texts that it doesn't take.
const REFUSED: [&str; 6] = ["", "1:2", "0.5", "32767", "-32769", "wide"];

/// Whether a filter may be applied to the outline.
fn is_fit(outline: &Outline) -> bool
    ensures { IsTrue result → IsWithinLimits outline.now }
{
    within(outline).is_none()
}

/// One contour of two points.
fn outline(alloc: Global) -> Result<Outline, Fail> {
    let mut points = Seq::new(alloc);
    points.push(Point {
        x: 0,
        y: 0,
        on: true,
    })?;
    points.push(Point {
        x: 100,
        y: 7,
        on: false,
    })?;
    let mut contours = Seq::new(alloc);
    contours.push(points)?;
    Ok(Outline {
        advance: 500,
        contours,
    })
}

/// An outline as text: its advance width and its points, `!` before one off the curve.
fn shown(alloc: Global, outline: &Outline) -> Result<String, AllocError> {
    let mut text = String::new(alloc);
    write!(text, "{}", outline.advance)?;
    for contour in outline.contours.as_slice() {
        for point in contour.as_slice() {
            let mark = if point.on { "" } else { "!" };
            write!(text, " {mark}({},{})", point.x, point.y)?;
        }
    }
    Ok(text)
}

/// What the filter answers of the outline, as text.
fn answer(alloc: Global, filter: &mut Mirror, outline: &Outline) -> Result<String, AllocError> {
    if !is_fit(outline) {
        return String::from_str(alloc, "unfit");
    }
    match filter.apply(alloc, outline) {
        Ok(image) => shown(alloc, &image),
        Err(FilterRefusal::Range(number)) => format!(in alloc; "Range {number}"),
        Err(FilterRefusal::NoMemory) => String::from_str(alloc, "no memory"),
    }
}

#[test]
fn mirrors(rt: HostRuntime) -> Result<(), Fail> {
    let alloc = rt.alloc();
    let outline = outline(alloc)?;
    for (text, wanted) in IMAGES {
        let mut filter = Mirror::new();
        assert!(rt; filter.configure(text), "{text}");
        let found = answer(alloc, &mut filter, &outline)?;
        assert_eq!(rt; found.as_str(), wanted, "{text}");
        assert_eq!(rt; filter.touched(), 1, "{text}");
    }
    Ok(())
}

#[test]
fn takes_widths_alone(rt: HostRuntime) -> Result<(), Fail> {
    let mut filter = Mirror::new();
    assert_eq!(rt; filter.name(), "mirror");
    for text in REFUSED {
        assert!(rt; !filter.configure(text), "{text}");
    }
    assert_eq!(rt; filter.touched(), 0);
    Ok(())
}
