//! What no clause says: that calls succeed where there is enough memory, answers worked out by hand, and filters of the
//! tests' own behind the trait.

ghost use Rattle.std.specs.Prelude.{◌≡◌, ◌+ℤ◌, pos, [], codes, IfOk, IsTrue, None};
ghost use Rattle.glif.specs.Limits.{IsWithinLimits};
ghost use Rattle.glif.specs.declared.shape.Outline.{Outline};

mod lists;

use crate::{FilterRefusal, GlyphFilter, Reverse, Shift, limited};
use basics::{NoMemory, Seq};
use glif::{Outline, Point, within};
use std::alloc::{AllocError, Global};
use std::fmt::Write;
use std::test::Fail;

/// A point, as its coordinates and whether it is on the curve.
type Dot = (i32, i32, bool);

/// Texts that `shift` takes, and what it then makes of the point 0, 0.
const SETTINGS: [(&str, &str); 5] = [
    ("0:0", "500 [(0,0)]"),
    ("1:-2", "500 [(1,-2)]"),
    ("-16384:16383", "500 [(-16384,16383)]"),
    ("16383:-16384", "500 [(16383,-16384)]"),
    (" +1 :\t2.0\n", "500 [(1,2)]"),
];

/// Texts that it doesn't take.
const NO_SETTINGS: [&str; 16] = [
    "",
    "1",
    ":",
    "1:",
    ":1",
    "1:2:3",
    "1:2:",
    "1::2",
    "1;2",
    "1.5:0",
    "0:1.5",
    "16384:0",
    "0:16384",
    "-16385:0",
    "0:-16385",
    "99999999999:0",
];

/// A filter that makes the advance width one unit wider, and wants memory at one of its calls.
#[derive(Drop)]
struct Widen {
    wants_at: u64,
    calls: u64,
}

impl GlyphFilter for Widen {
    ghost called = { λ _. codes "widen" };

    ghost setting = { λ _. [] };

    ghost setting_of = { λ _ _. None };

    ghost image = { λ _ _ outline. record outline { advance = outline.advance +ℤ pos 1 } };

    ghost kinds = { λ _ _ kinds. kinds };

    ghost touches = { λ filter. filter.calls };

    fn name(&self) -> &str {
        "widen"
    }

    fn configure(&mut self, _text: &str) -> bool {
        false
    }

    fn apply(&mut self, alloc: Global, outline: &Outline) -> Result<Outline, FilterRefusal> {
        self.calls = self.calls.saturating_add(1);
        if self.calls == self.wants_at {
            return Err(FilterRefusal::NoMemory);
        }
        limited(Outline {
            advance: outline.advance + 1,
            contours: copied(alloc, outline.contours.as_slice())?,
        })
    }

    fn touched(&self) -> u64 {
        self.calls
    }
}

/// The same contours once more.
fn copied(alloc: Global, contours: &[Seq<Point>]) -> Result<Seq<Seq<Point>>, NoMemory>
    ensures { IfOk result (λ copy. copy ≡ contours.now) }
{
    let mut copy = Vec::new(alloc);
    for contour in contours {
        copy.push(Seq::from_vec(Vec::from_slice(alloc, contour.as_slice())?))?;
    }
    Ok(Seq::from_vec(copy))
}

/// An outline of these contours.
fn outline(alloc: Global, advance: i32, contours: &[&[Dot]]) -> Result<Outline, NoMemory> {
    let mut all = Seq::new(alloc);
    for dots in contours {
        let mut points = Seq::new(alloc);
        for (x, y, on) in *dots {
            points.push(Point {
                x: *x,
                y: *y,
                on: *on,
            })?;
        }
        all.push(points)?;
    }
    Ok(Outline {
        advance,
        contours: all,
    })
}

/// Whether a filter may be applied to the outline.
fn is_fit(outline: &Outline) -> bool
    ensures { IsTrue result → IsWithinLimits outline.now }
{
    within(outline).is_none()
}

/// An outline as text: its advance width and its points, `!` before one off the curve.
fn shown(alloc: Global, outline: &Outline) -> Result<String, AllocError> {
    let mut text = String::new(alloc);
    write!(text, "{}", outline.advance)?;
    for contour in outline.contours.as_slice() {
        text.push_str(" [")?;
        for point in contour.as_slice() {
            let mark = if point.on { "" } else { "!" };
            write!(text, "{mark}({},{})", point.x, point.y)?;
        }
        text.push_str("]")?;
    }
    Ok(text)
}

/// What a filter answers, as text.
fn answer(
    alloc: Global,
    filter: &mut Box<dyn GlyphFilter>,
    outline: &Outline,
) -> Result<String, AllocError> {
    if !is_fit(outline) {
        return String::from_str(alloc, "not fit");
    }
    match filter.apply(alloc, outline) {
        Ok(image) => shown(alloc, &image),
        Err(FilterRefusal::NoMemory) => String::from_str(alloc, "NoMemory"),
        Err(FilterRefusal::Range(number)) => format!(in alloc; "Range {number}"),
    }
}

/// Whether the filter has the name, and takes the setting of the text.
fn configured<F: GlyphFilter>(filter: &mut F, name: &str, text: &str) -> bool {
    filter.name() == name && filter.configure(text)
}

#[test]
fn settings_of_shift(rt: HostRuntime) -> Result<(), Fail> {
    let alloc = rt.alloc();
    let origin = outline(alloc, 500, &[&[(0, 0, true)]])?;
    let mut filter: Box<dyn GlyphFilter> = Box::new(alloc, Shift::new())?;
    assert_eq!(rt;
        answer(alloc, &mut filter, &origin)?.as_str(),
        "500 [(0,0)]"
    );
    for (text, want) in SETTINGS {
        assert!(rt; filter.configure(text), "{text}");
        assert_eq!(rt;
            answer(alloc, &mut filter, &origin)?.as_str(),
            want,
            "{text}"
        );
    }
    assert!(rt; filter.configure("7:8"));
    for text in NO_SETTINGS {
        assert!(rt; !filter.configure(text), "{text}");
        assert_eq!(rt;
            answer(alloc, &mut filter, &origin)?.as_str(),
            "500 [(7,8)]",
            "{text}"
        );
    }
    assert_eq!(rt; filter.touched(), 22);
    Ok(())
}

#[test]
fn settings_of_reverse(rt: HostRuntime) {
    for (text, is_taken) in [("", true), (" ", false), ("0:0", false)] {
        let mut filter = Reverse::new();
        assert_eq!(rt;
            configured(&mut filter, "reverse", text),
            is_taken,
            "{text}"
        );
        assert_eq!(rt; filter.touched(), 0);
    }
}

/// What `reverse` makes of an outline of these contours, as text.
fn turned(alloc: Global, contours: &[&[Dot]]) -> Result<String, Fail> {
    let mut filter: Box<dyn GlyphFilter> = Box::new(alloc, Reverse::new())?;
    let drawn = outline(alloc, 500, contours)?;
    Ok(answer(alloc, &mut filter, &drawn)?)
}

#[test]
fn reversed_contours(rt: HostRuntime) -> Result<(), Fail> {
    let alloc = rt.alloc();
    let a = (1, 2, true);
    let b = (3, 4, false);
    let c = (5, 6, true);
    let d = (7, 8, false);
    let e = (9, -9, true);
    assert_eq!(rt; turned(alloc, &[])?.as_str(), "500");
    assert_eq!(rt; turned(alloc, &[&[b]])?.as_str(), "500 [!(3,4)]");
    assert_eq!(rt; turned(alloc, &[&[a, b]])?.as_str(), "500 [(1,2)!(3,4)]");
    assert_eq!(rt;
        turned(alloc, &[&[a, b, c]])?.as_str(),
        "500 [(1,2)(5,6)!(3,4)]"
    );
    assert_eq!(rt;
        turned(alloc, &[&[a, b, c, d, e]])?.as_str(),
        "500 [(1,2)(9,-9)!(7,8)(5,6)!(3,4)]"
    );
    assert_eq!(rt;
        turned(alloc, &[&[d, a, c], &[e]])?.as_str(),
        "500 [!(7,8)(5,6)(1,2)] [(9,-9)]"
    );
    Ok(())
}

// Each row: a text, a point beside 0, 0, and what `shift` answers.
#[test]
fn shifted_out_of_range(rt: HostRuntime) -> Result<(), Fail> {
    let alloc = rt.alloc();
    let rows = [
        ("1:0", (16382, 0, false), "16383 [(1,0)] [!(16383,0)]"),
        ("1:0", (16383, 0, false), "Range 16384"),
        ("-1:0", (-16383, 0, true), "16383 [(-1,0)] [(-16384,0)]"),
        ("-1:0", (-16384, 0, true), "Range -16385"),
        ("0:1", (0, 16383, true), "Range 16384"),
        ("0:-1", (0, -16384, true), "Range -16385"),
        ("2:3", (16383, 16383, true), "Range 16385"),
        ("-16384:-16384", (-16384, -16384, true), "Range -32768"),
        ("16383:16383", (5, 16383, true), "Range 16388"),
    ];
    for (text, dot, want) in rows {
        let mut filter: Box<dyn GlyphFilter> = Box::new(alloc, Shift::new())?;
        let drawn = outline(alloc, 16383, &[&[(0, 0, true)], &[dot]])?;
        assert!(rt; filter.configure(text));
        assert_eq!(rt;
            answer(alloc, &mut filter, &drawn)?.as_str(),
            want,
            "{text}"
        );
        assert_eq!(rt; filter.touched(), 1, "{text}");
    }
    Ok(())
}

// A filter that wants memory at its second call, and whose image of the widest outline is out of range.
#[test]
fn filter_of_the_test(rt: HostRuntime) -> Result<(), Fail> {
    let alloc = rt.alloc();
    let mut filter: Box<dyn GlyphFilter> = Box::new(
        alloc,
        Widen {
            wants_at: 2,
            calls: 0,
        },
    )?;
    let narrow = outline(alloc, 16382, &[&[(1, 2, false)]])?;
    let wide = outline(alloc, 16383, &[])?;
    assert!(rt; !filter.configure(""));
    assert_eq!(rt;
        answer(alloc, &mut filter, &narrow)?.as_str(),
        "16383 [!(1,2)]"
    );
    assert_eq!(rt; answer(alloc, &mut filter, &narrow)?.as_str(), "NoMemory");
    assert_eq!(rt; answer(alloc, &mut filter, &wide)?.as_str(), "Range 16384");
    assert_eq!(rt;
        answer(alloc, &mut filter, &narrow)?.as_str(),
        "16383 [!(1,2)]"
    );
    assert_eq!(rt; filter.touched(), 4);
    Ok(())
}
