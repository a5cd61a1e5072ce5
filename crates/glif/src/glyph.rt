ghost use Rattle.std.specs.Prelude.{◌≡◌, false, List, ℕ, map, codes, All, IfOk, option_map};
ghost use Rattle.basics.specs.Reading.{Gives, in_turn};
ghost use Rattle.markup_rules.specs.Tree.{attribute_of};
ghost use Rattle.markup.specs.Plain.{plain};
ghost use Rattle.glif.specs.Glyphs.{advance_seen, child_of, drawing_of, drawn, format_of, is_version, nothing_seen, version_of};
ghost use Rattle.glif.specs.Texts.{drawing_of_text};
ghost use Rattle.glif.specs.Opened.{is_first_outline, opened};
ghost use Rattle.glif.specs.Limits.{AreDistinct, IsCodePoint, IsOffsetWithin, IsWithinLimits};
ghost use Rattle.glif.specs.declared.shape.Drawing.{Drawing};

use crate::code::{Codes, read_code};
use crate::numbers::width;
use crate::outline::{Shapes, read_outline};
use crate::part::read_drawing_text;
use crate::shape::{Drawing, Outline};
use attributes::{fault, needed};
use basics::{Kind, Name, Stop, stop_at};
use fixpoint::parse_whole;
use markup::{Element, Tagged};
use std::alloc::Global;

/// What the elements of a `glyph` have given so far.
#[derive(Drop)]
pub(crate) struct Seen {
    /// The advance width of the first `advance`, 0 where it has none.
    pub(crate) width: Option<i32>,
    /// The code points, each once.
    pub(crate) codes: Codes,
    /// What the one `outline` draws.
    pub(crate) shapes: Option<Shapes>,
}

impl Seen {
    /// No element has given anything.
    pub(crate) fn new(alloc: Global) -> Seen
        ensures { result ≡ nothing_seen }
    {
        Seen {
            width: None,
            codes: Codes::new(alloc),
            shapes: None,
        }
    }
}

/// What is seen with an `advance`, the first of which counts.
fn read_advance<T: Tagged>(alloc: Global, mut seen: Seen, advance: &T) -> Result<Seen, Stop>
    ensures { Gives (λ seen. seen) result (advance_seen (T.tree advance.now) seen seen.width) }
{
    if seen.width.is_none() {
        seen.width = Some(width(alloc, advance)?);
    }
    Ok(seen)
}

/// What is seen with one more element of the glyph that is not its first `outline`.
#[tactic(auto, unfolding(crate::specs::Glyphs::child_of))]
pub(crate) fn read_other_child<T: Tagged>(
    alloc: Global,
    seen: Seen,
    element: &T,
) -> Result<Seen, Stop>
    requires { is_first_outline seen (T.tree element.now) ≡ false }
    ensures { Gives (λ seen. seen) result (child_of seen (T.tree element.now)) }
{
    if element.is_named("advance") {
        read_advance(alloc, seen, element)
    } else if element.is_named("unicode") {
        let code = read_code(alloc, element)?;
        Ok(Seen {
            codes: seen.codes.with(code)?,
            ..seen
        })
    } else if element.is_named("outline") {
        Err(fault(alloc, Kind::NotGlif, element))
    } else {
        Ok(seen)
    }
}

/// Whether the element is the first `outline` of a glyph of which this was seen before.
pub(crate) fn is_first_outline<T: Tagged>(seen: &Seen, element: &T) -> bool
    ensures { result ≡ is_first_outline seen.now (T.tree element.now) }
{
    seen.shapes.is_none() && element.is_named("outline")
}

/// What is seen with one more element of the glyph.
#[tactic(auto, using(crate::proofs::Opening::first_outline))]
fn read_child(alloc: Global, mut seen: Seen, element: &Element) -> Result<Seen, Stop>
    ensures { Gives (λ seen. seen) result (child_of seen (plain element.now)) }
{
    if is_first_outline(&seen, element) {
        seen.shapes = Some(read_outline(alloc, element)?);
        return Ok(seen);
    }
    read_other_child(alloc, seen, element)
}

/// What is seen of all elements of a glyph.
fn read_children(alloc: Global, elements: &[Element]) -> Result<Seen, Stop>
    ensures { Gives (λ seen. seen) result (in_turn child_of nothing_seen (map plain elements.now)) }
{
    let mut seen = Seen::new(alloc);
    for element in elements {
        seen = read_child(alloc, seen, element)?;
    }
    Ok(seen)
}

/// The version that a text tells, or -1 where it tells none.
fn version_of(format: Option<&str>) -> i64
    ensures { result ≡ version_of (option_map (λ text. text.now) format.entry) }
{
    match format {
        Some(text) => match parse_whole(text) {
            Ok(version) => i64::from(version),
            Err(_) => -1,
        },
        None => -1,
    }
}

/// Whether the text is a version of the format that is read.
fn is_version(format: Option<&str>) -> bool
    ensures { result ≡ is_version (option_map (λ text. text.now) format.entry) }
{
    match format {
        Some(text) => text == "1" || text == "2",
        None => false,
    }
}

/// Tests that the glyph is of a version of the format that is read.
#[tactic(auto, unfolding(crate::specs::Glyphs::format_of))]
fn check_format<T: Tagged>(alloc: Global, glyph: &T) -> Result<(), Stop>
    ensures { Gives (λ _. tt) result (format_of (T.tree glyph.now)) }
{
    let format = glyph.attribute("format");
    if is_version(format) {
        Ok(())
    } else {
        Err(stop_at(alloc, Kind::FormatVersion, "", 0, version_of(format)))
    }
}

/// The drawing of a glyph of this name.
pub(crate) fn drawn(alloc: Global, name: Name, seen: Seen) -> Drawing
    ensures { result ≡ drawn name seen }
{
    let Seen {
        width,
        codes,
        shapes,
    } = seen;
    let shapes = match shapes {
        Some(shapes) => shapes,
        None => Shapes::new(alloc),
    };
    Drawing {
        name,
        outline: Outline {
            advance: width.unwrap_or(0),
            contours: shapes.contours,
        },
        components: shapes.components,
        codes: codes.into_seq(),
    }
}

/// The name that the tag of a glyph tells, where it is one of a version of the format that is read.
#[tactic(auto, unfolding(crate::specs::Opened::opened))]
pub(crate) fn open_glyph<T: Tagged>(alloc: Global, glyph: &T) -> Result<Name, Stop>
    ensures { Gives (λ name. name) result (opened (T.tree glyph.now)) }
{
    if !glyph.is_named("glyph") {
        return Err(fault(alloc, Kind::NotGlif, glyph));
    }
    check_format(alloc, glyph)?;
    let name = needed(alloc, "name", glyph)?;
    Ok(Name::from_str(alloc, name)?)
}

/// The drawing that a tree means.
#[tactic(auto, using(crate::proofs::Opening::drawing_by))]
fn read_drawing(alloc: Global, tree: &Element) -> Result<Drawing, Stop>
    ensures { Gives (λ drawing. drawing) result (drawing_of (plain tree.now)) }
{
    let name = open_glyph(alloc, tree)?;
    let seen = read_children(alloc, tree.children())?;
    Ok(drawn(alloc, name, seen))
}

/// Reads a drawing off the tree of a GLIF, the file of one glyph (UFO 3, "GLIF", formats 1 and 2).
///
/// Of the root `glyph` its `name` is read; of its elements the `width` of the first `advance`, which is 0
/// where either is absent, the `hex` of each `unicode`, and the one `outline`. A code point that stands twice is
/// kept once, where it stands first. Of the outline each `contour` and each `component` are read, in their order;
/// an outline may be absent.
///
/// Numbers are in font units. An advance width is 0 to 16,383; a coordinate, or an offset of a component, is
/// −16,384 to 16,383. All are whole, and are written as decimal texts: `12.0` and ` +12 ` are 12.
///
/// A `point` is on the curve where its `type` is `line` or `qcurve`, and off it where the type is `offcurve` or
/// absent. All points of a contour may be off the curve. A contour without points, and one whose only point is
/// of the type `move`, with which editors of old wrote an anchor, is passed over unread.
///
/// A component draws its base as it is, but moved by `xOffset` and `yOffset`, each 0 where it is absent. Its
/// `xScale` and `yScale`, where they are there, are 1, and its `xyScale` and `yxScale` 0, when they are rounded
/// to 16 binary places.
///
/// Other elements of the glyph, attributes that aren't named here, and texts are passed over.
///
/// # Errors
///
/// `Stop::NoMemory` where memory ran out, or else `Stop::At` with the first fault. Its `at` is the offset in
/// bytes of the element that is named here, `item` and `first` are what is said here, and all else is empty or
/// 0. A number that is faulty is NotNumber, NotWhole or NumberRange, or CoordinateRange with the number as
/// `first`; its item is the attribute. Tested are, in this order:
///
/// 1. the root: NotGlif where it isn't a `glyph`; FormatVersion where `format` isn't the text `1` or `2`, with `at`
///    0 and as `first` the whole number that it writes, or −1 where it writes none or is absent; MissingAttribute
///    of the item `name`;
/// 2. the elements of the glyph in their order, each with all that is in it: the number `width` of the first
///    `advance`; BadCode at a `unicode` whose `hex` is absent, isn't one to six hexadecimal digits, or is past
///    10FFFF, a surrogate or FFFF; NotGlif at a second `outline`, before what is in it;
/// 3. the elements of the outline in their order: NotGlif at one that is no `contour` and no `component`;
/// 4. the elements of a contour in their order: NotGlif at one that is no `point`; MissingAttribute of the item
///    `x`, the number `x`, and the same of `y`; then the type: Curve where it is `curve`, NotGlif where it is
///    `move` and the point isn't the first, or another text;
/// 5. after its points the contour: TooManyPoints where there are more than 1,024, with their number as `first`;
///    OpenContour where the first point is a `move`; LineAfterOff at the first `line` that comes after a point
///    off the curve, where the last point stands before the first;
/// 6. a component: MissingAttribute of the item `base`; `xScale`, `yScale`, `xyScale` and `yxScale`, each the number
///    and then ScaledComponent where it has another value; the numbers `xOffset` and `yOffset`;
/// 7. after its elements the outline: TooManyPoints where its contours have more than 4,000 in all, with their
///    number as `first`.
pub fn read(alloc: Global, tree: &Element) -> Result<Drawing, Stop>
    // Which drawing it is, and which fault.
    ensures exact { Gives (λ drawing. drawing) result (drawing_of (plain tree.now)) }
    // What is read is within limits.
    ensures limits { IfOk result (λ drawing. IsWithinLimits drawing.outline) }
    ensures offsets { IfOk result (λ (drawing : Drawing). All IsOffsetWithin drawing.components) }
    ensures codes { IfOk result (λ (drawing : Drawing). All IsCodePoint drawing.codes) }
    ensures once { IfOk result (λ (drawing : Drawing). AreDistinct drawing.codes) }
{
    read_drawing(alloc, tree)
}

/// Reads a drawing off the text of a GLIF, as [`markup::read`] and [`read`] do one after the other. No tree is made, and
/// nothing is kept of what is passed over: it takes the memory of the drawing, and of one tag at a time.
///
/// # Errors
///
/// `Stop::NoMemory` where memory ran out, or else `Stop::At` with the fault of the text, or, where it has none, with the
/// first fault of its tree.
pub fn read_text(alloc: Global, text: &[u8]) -> Result<Drawing, Stop>
    // Which drawing it is, and which fault.
    ensures exact { Gives (λ drawing. drawing) result (drawing_of_text text.now) }
    // What is read is within limits.
    ensures limits { IfOk result (λ drawing. IsWithinLimits drawing.outline) }
    ensures offsets { IfOk result (λ (drawing : Drawing). All IsOffsetWithin drawing.components) }
    ensures codes { IfOk result (λ (drawing : Drawing). All IsCodePoint drawing.codes) }
    ensures once { IfOk result (λ (drawing : Drawing). AreDistinct drawing.codes) }
{
    read_drawing_text(alloc, text)
}
