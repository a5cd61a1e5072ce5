//! What no clause says: that `flatten` succeeds where there is enough memory, and answers worked out by hand.

ghost use Rattle.std.specs.Prelude.{◌≡◌, IsTrue, All};
ghost use Rattle.compat.specs.Flattened.{AreFit};
ghost use Rattle.glif.specs.Limits.{IsOffsetWithin};

use crate::{Difference, compare, flatten, same_bases};
use basics::{Kind, Name, NoMemory, Seq, Stop};
use glif::{Component, Drawing, Outline, Point, within};
use std::alloc::{AllocError, Global};
use std::fmt::Write;
use std::test::Fail;

/// A point, as its coordinates and whether it is on the curve.
type Dot = (i32, i32, bool);

/// A component, as its base and its offset.
type Part<'a> = (&'a str, i32, i32);

/// A drawing, as its name, its contours and its components. The advance width is 7.
type Sketch<'a> = (&'a str, &'a [&'a [Dot]], &'a [Part<'a>]);

const SQUARE: &[Dot] = &[
    (0, 0, true),
    (100, 0, true),
    (100, 100, true),
    (0, 100, true),
];

const OWN: &[Dot] = &[(0, 0, true)];

const DOT: &[Dot] = &[(1, 2, false)];

const FAR: &[Dot] = &[(16383, 0, true), (0, -16384, true)];

fn outline(alloc: Global, contours: &[&[Dot]]) -> Result<Outline, NoMemory> {
    let mut all = Seq::new(alloc);
    for dots in contours {
        let mut points = Seq::new(alloc);
        for (x, y, on) in *dots {
            points.push(Point {
                x: *x,
                y: *y,
                on: *on,
            })?;
        }
        all.push(points)?;
    }
    Ok(Outline {
        advance: 7,
        contours: all,
    })
}

fn drawing(alloc: Global, sketch: &Sketch) -> Result<Drawing, NoMemory> {
    let (name, contours, parts) = sketch;
    let mut components = Seq::new(alloc);
    for (base, dx, dy) in *parts {
        components.push(Component {
            base: Name::from_str(alloc, base)?,
            dx: *dx,
            dy: *dy,
        })?;
    }
    Ok(Drawing {
        name: Name::from_str(alloc, name)?,
        outline: outline(alloc, contours)?,
        components,
        codes: Seq::new(alloc),
    })
}

/// Whether an offset is within limits.
fn is_near(component: &Component) -> bool
    ensures { IsTrue result → IsOffsetWithin component.now }
{
    -16384 <= component.dx
        && component.dx <= 16383
        && -16384 <= component.dy
        && component.dy <= 16383
}

/// Whether all offsets are within limits.
fn are_near(components: &[Component]) -> bool
    ensures { IsTrue result → All IsOffsetWithin components.now }
{
    for component in components {
        if !is_near(component) {
            return false;
        }
    }
    true
}

/// Whether `flatten` may be called.
fn are_fit(drawings: &[Drawing]) -> bool
    ensures { IsTrue result → AreFit drawings.now }
{
    if drawings.len() > 32_510 {
        return false;
    }
    for drawing in drawings {
        if within(&drawing.outline).is_some() || !are_near(drawing.components.as_slice()) {
            return false;
        }
    }
    true
}

/// What `flatten` answers, as text: the outlines, or the number of a drawing and its fault.
fn answer(alloc: Global, drawings: &Seq<Drawing>) -> Result<String, AllocError> {
    let mut text = String::new(alloc);
    if !are_fit(drawings.as_slice()) {
        text.push_str("not fit")?;
        return Ok(text);
    }
    match flatten(alloc, drawings) {
        Ok(outlines) => {
            for outline in outlines.as_slice() {
                write!(text, "{}", outline.advance)?;
                for contour in outline.contours.as_slice() {
                    text.push_str(" [")?;
                    for point in contour.as_slice() {
                        let mark = if point.on { "" } else { "!" };
                        write!(text, "{mark}({},{})", point.x, point.y)?;
                    }
                    text.push_str("]")?;
                }
                text.push_str(";")?;
            }
        }
        Err((_, Stop::NoMemory)) => text.push_str("NoMemory")?,
        Err((number, Stop::At(spot))) => {
            write!(
                text,
                "{number} {} {} ",
                spot.kind.name(),
                spot.item.as_str()
            )?;
            write!(
                text,
                "{} {} {} {}",
                spot.at, spot.also, spot.first, spot.second
            )?;
        }
    }
    Ok(text)
}

/// What `flatten` answers of the drawings of these sketches.
fn flattened(alloc: Global, sketches: &[Sketch]) -> Result<String, Fail> {
    let mut drawings = Seq::new(alloc);
    for sketch in sketches {
        drawings.push(drawing(alloc, sketch)?)?;
    }
    Ok(answer(alloc, &drawings)?)
}

#[test]
fn differences(rt: HostRuntime) -> Result<(), Fail> {
    let alloc = rt.alloc();
    let square = outline(alloc, &[SQUARE])?;
    let two = outline(alloc, &[SQUARE, &[(0, 0, true), (1, 1, true)]])?;
    let less = outline(alloc, &[&[(0, 0, false)], &[(0, 0, true), (1, 1, true)]])?;
    let curved = outline(alloc, &[SQUARE, &[(5, 5, true), (6, 6, false)]])?;
    let none = outline(alloc, &[])?;
    assert_eq!(rt; compare(&none, &none), None);
    assert_eq!(rt; compare(&two, &two), None);
    let difference = |kind, contour, point, first, second| {
        Some(Difference {
            kind,
            contour,
            point,
            first,
            second,
        })
    };
    assert_eq!(rt;
        compare(&two, &square),
        difference(Kind::ContourCount, 0, 0, 2, 1)
    );
    assert_eq!(rt;
        compare(&two, &less),
        difference(Kind::PointCount, 0, 0, 4, 1)
    );
    assert_eq!(rt;
        compare(&two, &curved),
        difference(Kind::PointKind, 1, 1, 1, 0)
    );
    assert_eq!(rt;
        compare(&curved, &two),
        difference(Kind::PointKind, 1, 1, 0, 1)
    );
    let parts = drawing(alloc, &("a", &[], &[("b", 0, 0), ("c", 1, 2)]))?;
    let fewer = drawing(alloc, &("a", &[], &[("b", 9, 9)]))?;
    let other = drawing(alloc, &("a", &[], &[("x", 0, 0), ("c", 1, 2)]))?;
    assert_eq!(rt; same_bases(&parts, &parts), None);
    assert_eq!(rt;
        same_bases(&parts, &fewer),
        difference(Kind::ComponentShape, 0, 1, 2, 1)
    );
    assert_eq!(rt;
        same_bases(&parts, &other),
        difference(Kind::ComponentShape, 0, 0, 2, 2)
    );
    Ok(())
}

/// Drawings without a fault, and their flattened outlines.
const OUTLINES: ([Sketch; 4], &str) = (
    [
        ("pair", &[OWN], &[("twice", 100, 0), ("dot", 0, 10)]),
        ("twice", &[], &[("dot", 0, 0), ("dot", 5, -5)]),
        ("dot", &[DOT], &[]),
        ("empty", &[], &[]),
    ],
    "7 [(0,0)] [!(101,2)] [!(106,-3)] [!(1,12)];7 [!(1,2)] [!(6,-3)];7 [!(1,2)];7;",
);

/// Drawings, and their first fault.
const FAULTS: [(&[Sketch], &str); 9] = [
    (&[], ""),
    (
        &[
            ("a", &[], &[("b", 0, 0), ("x", 0, 0)]),
            ("b", &[], &[("y", 0, 0)]),
        ],
        "0 DanglingComponent a 1 0 0 0",
    ),
    (
        &[("a", &[], &[("a", 0, 0)]), ("b", &[], &[("y", 0, 0)])],
        "1 DanglingComponent b 0 0 0 0",
    ),
    (
        &[
            ("a", &[], &[("c", 0, 0)]),
            ("b", &[], &[("a", 0, 0)]),
            ("c", &[], &[("d", 0, 0)]),
            ("d", &[], &[("c", 0, 0)]),
        ],
        "2 ComponentCycle c 0 0 0 0",
    ),
    (
        &[
            ("a", &[], &[("b", 1, 0)]),
            ("b", &[FAR], &[]),
            ("c", &[], &[("c", 0, 0)]),
        ],
        "2 ComponentCycle c 0 0 0 0",
    ),
    // Between two cycles stand drawings that are on none.
    (
        &[
            ("between", &[], &[("late", 0, 0), ("alone", 0, 0)]),
            ("alone", &[OWN], &[]),
            ("next", &[], &[("between", 0, 0), ("alone", 0, 0)]),
            ("late", &[], &[("alone", 0, 0), ("later", 0, 0)]),
            ("later", &[], &[("late", 0, 0)]),
            ("early", &[], &[("earlier", 0, 0), ("next", 0, 0)]),
            ("earlier", &[], &[("early", 0, 0)]),
        ],
        "3 ComponentCycle late 0 0 0 0",
    ),
    (
        &[("a", &[], &[("b", 1, -1)]), ("b", &[FAR], &[])],
        "0 CoordinateRange a 0 0 16384 0",
    ),
    (
        &[("a", &[], &[("b", 0, -1)]), ("b", &[FAR], &[])],
        "0 CoordinateRange a 0 0 -16385 0",
    ),
    // A base that is out of range, and moved back by the glyph before it.
    (
        &[
            ("a", &[], &[("b", -5, 0)]),
            ("b", &[], &[("c", 5, 0)]),
            ("c", &[FAR], &[]),
        ],
        "1 CoordinateRange b 0 0 16388 0",
    ),
];

#[test]
fn outlines(rt: HostRuntime) -> Result<(), Fail> {
    let alloc = rt.alloc();
    let (sketches, wanted) = OUTLINES;
    let text = flattened(alloc, &sketches)?;
    assert_eq!(rt; text.as_str(), wanted);
    Ok(())
}

#[test]
fn faults(rt: HostRuntime) -> Result<(), Fail> {
    let alloc = rt.alloc();
    for (sketches, wanted) in FAULTS {
        let text = flattened(alloc, sketches)?;
        assert_eq!(rt; text.as_str(), wanted);
    }
    Ok(())
}

/// Drawings of which each has two components, both of the one before it. The first has no component.
fn doubled(alloc: Global, contours: &[&[Dot]], count: u32) -> Result<Seq<Drawing>, NoMemory> {
    let mut drawings = Seq::new(alloc);
    drawings.push(drawing(alloc, &("0", contours, &[]))?)?;
    for number in 1..count {
        let name = format!(in alloc; "{number}")?;
        let base = format!(in alloc; "{}", number - 1)?;
        let part = (base.as_str(), 0, 0);
        drawings.push(drawing(alloc, &(name.as_str(), &[], &[part, part]))?)?;
    }
    Ok(drawings)
}

#[test]
fn counts(rt: HostRuntime) -> Result<(), Fail> {
    let alloc = rt.alloc();
    let text = answer(alloc, &doubled(alloc, &[], 40)?)?;
    assert_eq!(rt; text.len(), 80);
    let text = answer(alloc, &doubled(alloc, &[SQUARE], 11)?)?;
    assert_eq!(rt; text.as_str(), "10 TooManyPoints 10 0 0 4096 0");
    let text = answer(alloc, &doubled(alloc, &[SQUARE], 10)?)?;
    assert!(rt;
        text.as_str()
            .starts_with("7 [(0,0)(100,0)(100,100)(0,100)];7 [(0,0)")
    );
    // A glyph with too many points stands before its base, which has too many of its own.
    let mut drawings = Seq::new(alloc);
    drawings.push(drawing(alloc, &("all", &[], &[("39", 0, 0)]))?)?;
    for drawing in doubled(alloc, &[SQUARE], 40)?.into_vec() {
        drawings.push(drawing)?;
    }
    let text = answer(alloc, &drawings)?;
    assert_eq!(rt; text.as_str(), "0 TooManyPoints all 0 0 1000000000 0");
    Ok(())
}

/// Drawings of which each has the one after it as a component, moved to the right by a step; the last has one
/// point.
fn chain(alloc: Global, last: u32, step: i32) -> Result<Seq<Drawing>, NoMemory> {
    let mut drawings = Seq::new(alloc);
    for number in 0..last {
        let name = format!(in alloc; "{number}")?;
        let base = format!(in alloc; "{}", u64::from(number) + 1)?;
        drawings.push(drawing(alloc, &(name.as_str(), &[], &[(base.as_str(), step, 0)]))?)?;
    }
    let name = format!(in alloc; "{last}")?;
    drawings.push(drawing(alloc, &(name.as_str(), &[&[(0, 0, true)]], &[]))?)?;
    Ok(drawings)
}

#[test]
fn long_chains(rt: HostRuntime) -> Result<(), Fail> {
    let alloc = rt.alloc();
    let text = answer(alloc, &chain(alloc, 4_000, 4)?)?;
    assert!(rt; text.as_str().starts_with("7 [(16000,0)];7 [(15996,0)];"));
    // As many drawings as there may be.
    let text = answer(alloc, &chain(alloc, 32_509, 1)?)?;
    assert_eq!(rt; text.as_str(), "0 CoordinateRange 0 0 0 32509 0");
    Ok(())
}

/// Drawings of which each has ten components of the one after it, and the last of the one of the number `back`.
fn ring(alloc: Global, last: u32, back: u32) -> Result<Seq<Drawing>, NoMemory> {
    let mut drawings = Seq::new(alloc);
    for number in 0..=last {
        let next = if number < last { number + 1 } else { back };
        let name = format!(in alloc; "{number}")?;
        let base = format!(in alloc; "{next}")?;
        let parts = [(base.as_str(), 0, 0); 10];
        drawings.push(drawing(alloc, &(name.as_str(), &[], &parts))?)?;
    }
    Ok(drawings)
}

#[test]
fn long_cycles(rt: HostRuntime) -> Result<(), Fail> {
    let alloc = rt.alloc();
    for (last, back, wanted) in [
        (0, 0, "0 ComponentCycle 0 0 0 0 0"),
        (2, 0, "0 ComponentCycle 0 0 0 0 0"),
        (2, 1, "1 ComponentCycle 1 0 0 0 0"),
        (32_509, 0, "0 ComponentCycle 0 0 0 0 0"),
        (32_509, 16_000, "16000 ComponentCycle 16000 0 0 0 0"),
        (32_509, 32_509, "32509 ComponentCycle 32509 0 0 0 0"),
    ] {
        let text = answer(alloc, &ring(alloc, last, back)?)?;
        assert_eq!(rt; text.as_str(), wanted);
    }
    Ok(())
}
