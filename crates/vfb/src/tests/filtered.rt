//! Fonts whose outlines go through filters, and words that ask for filters that can't be had.

ghost use Rattle.std.specs.Prelude.{◌≡◌, ◌+ℤ◌, pos, [], codes, IfOk, Some};

use super::fonts::{BOLD_BOX, DOCUMENT, LIGHT_BOX, SOURCES, SUMMARY};
use super::*;
use filters::{FilterRefusal, GlyphFilter, Reverse, Shift, limited};
use glif::{Outline, Point};

/// The square, drawn the other way round, and moved by 10 to the right.
const TURNED_LIGHT: &str =
    r#"<glyph name="box" format="2"><advance width="120"/><unicode hex="25A1"/><outline><contour>
<point x="10" y="0" type="line"/><point x="10" y="100" type="line"/>
<point x="110" y="100" type="line"/><point x="110" y="0" type="line"/>
</contour></outline></glyph>
"#;

/// The same of the wide one.
const TURNED_BOLD: &str =
    r#"<glyph name="box" format="2"><advance width="170"/><unicode hex="25A1"/><outline><contour>
<point x="10" y="0" type="line"/><point x="10" y="100" type="line"/>
<point x="160" y="100" type="line"/><point x="160" y="0" type="line"/>
</contour></outline></glyph>
"#;

/// The square, drawn the other way round.
const REVERSED_LIGHT: &str =
    r#"<glyph name="box" format="2"><advance width="120"/><unicode hex="25A1"/><outline><contour>
<point x="0" y="0" type="line"/><point x="0" y="100" type="line"/>
<point x="100" y="100" type="line"/><point x="100" y="0" type="line"/>
</contour></outline></glyph>
"#;

/// The same of the wide one.
const REVERSED_BOLD: &str =
    r#"<glyph name="box" format="2"><advance width="170"/><unicode hex="25A1"/><outline><contour>
<point x="0" y="0" type="line"/><point x="0" y="100" type="line"/>
<point x="150" y="100" type="line"/><point x="150" y="0" type="line"/>
</contour></outline></glyph>
"#;

/// The square with the greatest advance width.
const WIDEST_BOX: &str =
    r#"<glyph name="box" format="2"><advance width="16383"/><unicode hex="25A1"/><outline><contour>
<point x="0" y="0" type="line"/><point x="100" y="0" type="line"/>
<point x="100" y="100" type="line"/><point x="0" y="100" type="line"/>
</contour></outline></glyph>
"#;

/// Words after `build s.designspace o.ttf`, and the squares that give the same font without filters.
const IMAGES: [(&[&str], &'static str, &'static str); 6] = [
    (&["--filter", "reverse"], REVERSED_LIGHT, REVERSED_BOLD),
    (&["--filter=reverse:"], REVERSED_LIGHT, REVERSED_BOLD),
    (
        &["--filter", "reverse", "--filter", "shift:10:0"],
        TURNED_LIGHT,
        TURNED_BOLD,
    ),
    (
        &["--filter=shift:10:0", "--filter=reverse"],
        TURNED_LIGHT,
        TURNED_BOLD,
    ),
    (&["--filter", "shift:0:0"], LIGHT_BOX, BOLD_BOX),
    (&[], LIGHT_BOX, BOLD_BOX),
];

/// Such words where there is no font, and the status and what is said.
const REFUSED: [(&[&str], u8, &str); 14] = [
    (
        &["--filter", "shift:16383:0"],
        1,
        "refused FilterRange L.ufo box 0 0 16483 0\n",
    ),
    (
        &["--filter", "reverse", "--filter", "shift:0:-16384"],
        0,
        SUMMARY,
    ),
    (
        &["--filter", "reverse", "--filter", "shift:16240:0"],
        1,
        "refused FilterRange B.ufo box 1 0 16390 0\n",
    ),
    (&["--filter", "turn"], 2, "usage filter turn\n"),
    (&["--filter", "shif:1:1"], 2, "usage filter shif\n"),
    (&["--filter", "shiftt:1:1"], 2, "usage filter shiftt\n"),
    (&["--filter", "SHIFT:1:1"], 2, "usage filter SHIFT\n"),
    (&["--filter", "shift"], 2, "usage filter shift\n"),
    (&["--filter", "reverse:x"], 2, "usage filter reverse\n"),
    (&["--filter", "shift:1:2:"], 2, "usage filter shift\n"),
    (&["--filter", ":x"], 2, "usage filter \n"),
    (
        &["--filter=shift:1:1", "--filter=shift:2:2"],
        2,
        "usage filter shift\n",
    ),
    // The first word that can't have its filter counts, but words of no command come before.
    (
        &["--filter=reverse", "--filter=b", "--filter=a"],
        2,
        "usage filter b\n",
    ),
    (&["--filter=a", "more"], 2, "usage words\n"),
];

/// A filter that makes the advance width one unit wider, and wants memory at one of its calls.
#[derive(Drop)]
struct Widen {
    wants_at: u64,
    calls: u64,
}

impl GlyphFilter for Widen {
    ghost called = { λ _. codes "widen" };

    ghost setting = { λ _. [] };

    ghost setting_of = { λ _ text. Some [] };

    ghost image = { λ _ _ outline. record outline { advance = outline.advance +ℤ pos 1 } };

    ghost kinds = { λ _ _ kinds. kinds };

    ghost touches = { λ filter. filter.calls };

    fn name(&self) -> &str {
        "widen"
    }

    fn configure(&mut self, _text: &str) -> bool {
        true
    }

    fn apply(&mut self, alloc: Global, outline: &Outline) -> Result<Outline, FilterRefusal> {
        self.calls = self.calls.saturating_add(1);
        if self.calls == self.wants_at {
            return Err(FilterRefusal::NoMemory);
        }
        limited(Outline {
            advance: outline.advance + 1,
            contours: copied(alloc, outline.contours.as_slice())?,
        })
    }

    fn touched(&self) -> u64 {
        self.calls
    }
}

/// The same contours once more.
fn copied(alloc: Global, contours: &[Seq<Point>]) -> Result<Seq<Seq<Point>>, NoMemory>
    ensures { IfOk result (λ copy. copy ≡ contours.now) }
{
    let mut copy = Vec::new(alloc);
    for contour in contours {
        copy.push(Seq::from_vec(Vec::from_slice(alloc, contour.as_slice())?))?;
    }
    Ok(Seq::from_vec(copy))
}

/// The words of `build` with more words.
fn words_with(alloc: Global, more: &[&str]) -> Result<Vec<String>, Fail> {
    let mut words = owned(alloc, &["vfb", "build", "s.designspace", "o.ttf"])?;
    for word in more {
        words.push(String::from_str(alloc, word)?)?;
    }
    Ok(words)
}

/// How a run ended, what it said, and what `o.ttf` holds.
#[derive(Drop)]
struct Ended {
    status: u8,
    said: Vec<u8>,
    held: Option<Vec<u8>>,
}

/// A run over the two sources with these squares.
fn run_over(
    alloc: Global,
    more: &[&str],
    squares: (&'static str, &'static str),
    filters: Vec<Box<dyn GlyphFilter>>,
) -> Result<Ended, Fail> {
    let mut texts = Vec::new(alloc);
    texts.push(("s.designspace", DOCUMENT))?;
    for (path, text) in SOURCES {
        texts.push(match path {
            "L.ufo/glyphs/box.glif" => (path, squares.0),
            "B.ufo/glyphs/box.glif" => (path, squares.1),
            _ => (path, text),
        })?;
    }
    let words = words_with(alloc, more)?;
    let mut sources = SureSources::new(files(alloc, texts.as_slice())?);
    let mut outputs = SureOutputs::new(alloc, room(alloc, "o.ttf", 9_999)?)?;
    let mut say = SureSay::new(alloc, 99)?;
    let status = run(alloc, &words, filters, &mut sources, &mut outputs, &mut say).number();
    let said = Vec::from_slice(alloc, say.said())?;
    let held = match outputs.held("o.ttf") {
        Some(bytes) => Some(Vec::from_slice(alloc, bytes)?),
        None => None,
    };
    Ok(Ended { status, said, held })
}

/// The squares of the sources as they stand.
const SQUARES: (&str, &str) = (LIGHT_BOX, BOLD_BOX);

#[test]
fn builds_images(rt: HostRuntime) -> Result<(), Fail> {
    let alloc = rt.alloc();
    for (more, light, bold) in IMAGES {
        let mut filters: Vec<Box<dyn GlyphFilter>> = Vec::new(alloc);
        filters.push(Box::new(alloc, Shift::new())?)?;
        filters.push(Box::new(alloc, Reverse::new())?)?;
        let found = run_over(alloc, more, SQUARES, filters)?;
        let wanted = run_over(alloc, &[], (light, bold), Vec::new(alloc))?;
        assert_eq!(rt; found.status, 0, "{more:?}");
        assert_eq!(rt; found.said.as_slice(), SUMMARY.as_bytes(), "{more:?}");
        assert!(rt; found.held.is_some(), "{more:?}");
        assert!(rt; found.held == wanted.held, "{more:?}");
    }
    Ok(())
}

#[test]
fn refuses_filters(rt: HostRuntime) -> Result<(), Fail> {
    let alloc = rt.alloc();
    for (more, status, said) in REFUSED {
        let mut filters: Vec<Box<dyn GlyphFilter>> = Vec::new(alloc);
        filters.push(Box::new(alloc, Reverse::new())?)?;
        filters.push(Box::new(alloc, Shift::new())?)?;
        let found = run_over(alloc, more, SQUARES, filters)?;
        assert_eq!(rt; found.status, status, "{more:?}");
        assert_eq!(rt; found.said.as_slice(), said.as_bytes(), "{more:?}");
        assert_eq!(rt; found.held.is_some(), status == 0, "{more:?}");
    }
    Ok(())
}

/// Two filters of one name may be handed in where the name isn't called for. A filter of the caller's own is used like
/// the others; where it wants memory, or makes one glyph too wide, no file is begun.
#[test]
fn uses_filters_of_others(rt: HostRuntime) -> Result<(), Fail> {
    let alloc = rt.alloc();
    let rows: [(&[&str], u64, &'static str, u8, &str); 5] = [
        (
            &["--filter=reverse"],
            0,
            BOLD_BOX,
            2,
            "usage filter reverse\n",
        ),
        (&[], 1, BOLD_BOX, 0, SUMMARY),
        (&["--filter=widen"], 0, BOLD_BOX, 0, SUMMARY),
        (&["--filter=widen"], 4, BOLD_BOX, 5, "no memory\n"),
        (
            &["--filter=widen"],
            0,
            WIDEST_BOX,
            1,
            "refused FilterRange B.ufo box 0 0 16384 0\n",
        ),
    ];
    for (more, wants_at, bold, status, said) in rows {
        let mut filters: Vec<Box<dyn GlyphFilter>> = Vec::new(alloc);
        filters.push(Box::new(alloc, Reverse::new())?)?;
        filters.push(Box::new(alloc, Widen { wants_at, calls: 0 })?)?;
        filters.push(Box::new(alloc, Reverse::new())?)?;
        let found = run_over(alloc, more, (LIGHT_BOX, bold), filters)?;
        assert_eq!(rt; found.status, status, "{more:?}");
        assert_eq!(rt; found.said.as_slice(), said.as_bytes(), "{more:?}");
        assert_eq!(rt; found.held.is_some(), status == 0, "{more:?}");
    }
    Ok(())
}
