use crate::{Drawing, Outline, Point, coordinate_outside, read, read_text, within};
use basics::{NoMemory, Seq, Spot, Stop};
use std::alloc::{AllocError, Global};
use std::fmt::Write;
use std::process::Abort;
use std::test::Fail;

// A row is a text, and what reading it answers: the drawing, or the kind of the fault, its item and its value.
// The fault's offset is that of the mark `@`, which isn't part of the text, or 0 where no mark stands.

/// Whole files that have a fault at their root.
const ROOTS: [(&str, &str); 22] = [
    // A fault of the text comes before one of its tree.
    ("<glyph name='a' format='3'>@", "Unfinished - 0"),
    ("@<glif name='a' format='2'/>", "NotGlif - 0"),
    ("\n@<Glyph name='a' format='2'/>", "NotGlif - 0"),
    ("\n<glyph name='a'/>", "FormatVersion - -1"),
    ("\n<glyph name='a' format=''/>", "FormatVersion - -1"),
    ("\n<glyph name='a' format='two'/>", "FormatVersion - -1"),
    ("\n<glyph name='a' format='2.5'/>", "FormatVersion - -1"),
    (
        "\n<glyph name='a' format='99999999999'/>",
        "FormatVersion - -1",
    ),
    ("\n<glyph name='a' format='3'/>", "FormatVersion - 3"),
    ("\n<glyph name='a' format='2.0'/>", "FormatVersion - 2"),
    ("\n<glyph name='a' format=' 2'/>", "FormatVersion - 2"),
    ("\n<glyph name='a' format='01'/>", "FormatVersion - 1"),
    ("\n<glyph name='a' format='-7'/>", "FormatVersion - -7"),
    ("\n@<glyph format='1'/>", "MissingAttribute name 0"),
    ("\n@<glyph Name='a' format='1'/>", "MissingAttribute name 0"),
    // Two faults, of which the first counts.
    ("\n@<glif format='3'/>", "NotGlif - 0"),
    ("\n<glyph format='3'/>", "FormatVersion - 3"),
    (
        "\n@<glyph format='2'><unicode/></glyph>",
        "MissingAttribute name 0",
    ),
    (
        "<glyph name='a' format='2'>@<unicode/><advance width='q'/></glyph>",
        "BadCode - 0",
    ),
    (
        "<glyph name='a' format='2'><advance/>@<unicode/><outline><x/></outline></glyph>",
        "BadCode - 0",
    ),
    (
        "<glyph name='a' format='2'><outline>@<x/></outline><unicode/></glyph>",
        "NotGlif - 0",
    ),
    (
        "<glyph name='a' format='2'><outline/>@<outline><x/></outline><unicode/></glyph>",
        "NotGlif - 0",
    ),
];

/// Texts of a `width`, and the fault of its `advance`.
const WIDTHS: [(&str, &str); 11] = [
    ("", "NotNumber width 0"),
    ("12x", "NotNumber width 0"),
    ("1e3", "NotNumber width 0"),
    ("12.5", "NotWhole width 0"),
    ("2147483648", "NumberRange width 0"),
    ("2147483647", "CoordinateRange width 2147483647"),
    ("16384", "CoordinateRange width 16384"),
    ("-1", "CoordinateRange width -1"),
    // Two faults, of which the first counts.
    ("99999999999.5x", "NotNumber width 0"),
    ("99999999999.5", "NotWhole width 0"),
    ("-99999999999", "NumberRange width 0"),
];

/// Texts of a `hex` that are no code points.
const BAD_CODES: [&str; 13] = [
    "", "0000041", "G1", "+41", "-41", " 41", "0x41", "110000", "FFFFFF", "D800", "dfff", "FFFF",
    "\u{664}",
];

/// What stands in an outline, and its fault.
const OUTLINES: [(&str, &str); 42] = [
    ("@<point x='1' y='2'/>", "NotGlif - 0"),
    ("<contour/>@<Contour/>", "NotGlif - 0"),
    ("@<component/>", "MissingAttribute base 0"),
    ("@<component base='b' xScale=''/>", "NotNumber xScale 0"),
    (
        "@<component base='b' yScale='32768'/>",
        "NumberRange yScale 0",
    ),
    (
        "@<component base='b' xScale='1.00001'/>",
        "ScaledComponent - 0",
    ),
    ("@<component base='b' yScale='-1'/>", "ScaledComponent - 0"),
    (
        "@<component base='b' xyScale='0.00001'/>",
        "ScaledComponent - 0",
    ),
    ("@<component base='b' yxScale='1'/>", "ScaledComponent - 0"),
    ("@<component base='b' xOffset='q'/>", "NotNumber xOffset 0"),
    ("@<component base='b' xOffset='0.5'/>", "NotWhole xOffset 0"),
    (
        "@<component base='b' yOffset='9999999999'/>",
        "NumberRange yOffset 0",
    ),
    (
        "@<component base='b' xOffset='-16385'/>",
        "CoordinateRange xOffset -16385",
    ),
    (
        "@<component base='b' yOffset='16384'/>",
        "CoordinateRange yOffset 16384",
    ),
    (
        "@<contour><point x='1' y='2' type='move'/><point x='3' y='4' type='line'/></contour>",
        "OpenContour - 0",
    ),
    (
        "<contour><point x='1' y='2'/>@<point x='3' y='4' type='line'/></contour>",
        "LineAfterOff - 0",
    ),
    (
        "<contour>@<point x='1' y='2' type='line'/><point x='3' y='4'/></contour>",
        "LineAfterOff - 0",
    ),
    (
        "<contour><point x='1' y='2' type='line'/><point x='3' y='4' type='offcurve'/>@<point x='5' y='6' type='line'/><point x='7' y='8' type='qcurve'/></contour>",
        "LineAfterOff - 0",
    ),
    // Two faults, of which the first counts.
    ("@<components><x/></components><x/>", "NotGlif - 0"),
    ("@<component/><x/>", "MissingAttribute base 0"),
    (
        "@<component/><contour><point x='1'/></contour>",
        "MissingAttribute base 0",
    ),
    (
        "<contour>@<point x='1'/></contour><component/>",
        "MissingAttribute y 0",
    ),
    ("@<component xScale='2'/>", "MissingAttribute base 0"),
    (
        "@<component base='b' yScale='q' xScale='99999'/>",
        "NumberRange xScale 0",
    ),
    (
        "@<component base='b' yScale='q' xScale='2'/>",
        "ScaledComponent - 0",
    ),
    (
        "@<component base='b' xyScale='q' yScale='99999'/>",
        "NumberRange yScale 0",
    ),
    (
        "@<component base='b' xyScale='q' yScale='2'/>",
        "ScaledComponent - 0",
    ),
    (
        "@<component base='b' yxScale='q' xyScale='99999'/>",
        "NumberRange xyScale 0",
    ),
    (
        "@<component base='b' yxScale='q' xyScale='2'/>",
        "ScaledComponent - 0",
    ),
    (
        "@<component base='b' xOffset='0.5' yxScale='q'/>",
        "NotNumber yxScale 0",
    ),
    (
        "@<component base='b' xOffset='q' yxScale='2'/>",
        "ScaledComponent - 0",
    ),
    (
        "@<component base='b' yOffset='q' xOffset='16384'/>",
        "CoordinateRange xOffset 16384",
    ),
    (
        "<contour><point x='1' y='2' type='move'/>@<point x='3' y='4' type='curve'/></contour>",
        "Curve - 0",
    ),
    (
        "<contour><point x='1' y='2' type='move'/>@<point x='3' y='4' type='move'/></contour>",
        "NotGlif - 0",
    ),
    (
        "<contour><point x='1' y='2' type='move'/>@<x/><point x='3' y='4'/></contour>",
        "NotGlif - 0",
    ),
    (
        "<contour><point x='1' y='2'/><point x='3' y='4' type='line'/>@<point x='5'/></contour>",
        "MissingAttribute y 0",
    ),
    (
        "@<contour><point x='1' y='2' type='move'/><point x='3' y='4'/><point x='5' y='6' type='line'/></contour>",
        "OpenContour - 0",
    ),
    (
        "<contour>@<point x='1' y='2' type='line'/><point x='3' y='4'/><point x='5' y='6' type='line'/><point x='7' y='8'/></contour>",
        "LineAfterOff - 0",
    ),
    (
        "<contour><point x='1' y='2'/>@<point x='3' y='4' type='line'/></contour><x/>",
        "LineAfterOff - 0",
    ),
    (
        "@<contour><point x='1' y='2' type='move'/><point x='3' y='4'/></contour><x/>",
        "OpenContour - 0",
    ),
    (
        "@<x/><contour><point x='1' y='2'/><point x='3' y='4' type='line'/></contour>",
        "NotGlif - 0",
    ),
    ("<contour>@<x/><point/></contour>", "NotGlif - 0"),
];

/// What stands in a contour, and its fault.
const POINTS: [(&str, &str); 30] = [
    ("@<anchor/><point x='1' y='2'/>", "NotGlif - 0"),
    ("<point x='1' y='2'/>@<Point x='1' y='2'/>", "NotGlif - 0"),
    ("@<point y='2'/>", "MissingAttribute x 0"),
    ("@<point x='2'/>", "MissingAttribute y 0"),
    ("@<point x='1O' y='2'/>", "NotNumber x 0"),
    ("@<point x='0.5' y='2'/>", "NotWhole x 0"),
    ("@<point x='4294967297' y='2'/>", "NumberRange x 0"),
    ("@<point x='16384' y='2'/>", "CoordinateRange x 16384"),
    ("@<point x='-16385' y='2'/>", "CoordinateRange x -16385"),
    ("@<point x='1' y=''/>", "NotNumber y 0"),
    ("@<point x='1' y='-0.5'/>", "NotWhole y 0"),
    ("@<point x='1' y='-2147483648'/>", "NumberRange y 0"),
    ("@<point x='1' y='16384.0'/>", "CoordinateRange y 16384"),
    ("@<point x='1' y='-16385'/>", "CoordinateRange y -16385"),
    ("@<point x='1' y='2' type='curve'/>", "Curve - 0"),
    ("@<point x='1' y='2' type=''/>", "NotGlif - 0"),
    ("@<point x='1' y='2' type='Line'/>", "NotGlif - 0"),
    ("@<point x='1' y='2' type=' line'/>", "NotGlif - 0"),
    ("@<point x='1' y='2' type='oncurve'/>", "NotGlif - 0"),
    (
        "<point x='1' y='2'/>@<point x='3' y='4' type='move'/>",
        "NotGlif - 0",
    ),
    // Two faults, of which the first counts.
    ("@<Point x='q'/><point/>", "NotGlif - 0"),
    ("@<point y='q'/>", "MissingAttribute x 0"),
    ("@<point x='q'/>", "NotNumber x 0"),
    ("@<point y='q' x='16384'/>", "CoordinateRange x 16384"),
    ("@<point x='1' type='curve'/>", "MissingAttribute y 0"),
    ("@<point type='curve' x='1' y='q'/>", "NotNumber y 0"),
    (
        "@<point type='Line' x='1' y='99999'/>",
        "CoordinateRange y 99999",
    ),
    ("@<point x='1' y='2' type='curve'/><point/>", "Curve - 0"),
    (
        "<point x='1' y='2'/>@<point x='3' y='4' type='move'/><x/>",
        "NotGlif - 0",
    ),
    ("@<point x='1'/><x/>", "MissingAttribute y 0"),
];

/// Right files.
const FILES: [(&str, &str); 5] = [
    ("<glyph format='1' name='a'/>", "a 0"),
    ("<glyph name='' format='2'/>", " 0"),
    (
        "<?xml version='1.0' encoding='UTF-8'?>\n<glyph name='A.sc' formatMinor='1' format='2'>\n</glyph>\n",
        "A.sc 0",
    ),
    (
        "<glyph x='' name='\u{e4} &lt;' format='2'>text<advance height='q' width='12.0'/>text</glyph>",
        "\u{e4} < 12",
    ),
    (
        "<glyph name='all' format='2'><outline>text<component base='b'/><contour><point x='1' y='2'/></contour><component base='c'/><contour><point x='3' y='4'/></contour></outline><unicode hex='7A'/><advance width='5'/></glyph>",
        "all 5 [!(1,2)] [!(3,4)] {b 0 0} {c 0 0} #122",
    ),
];

/// What stands in a right glyph of the name `a`.
const GLYPHS: [(&str, &str); 24] = [
    // What stands in elements that have nothing to read in them is passed over.
    (
        "<advance width='3'><outline><x/></outline></advance><unicode hex='41'><note>text</note></unicode>",
        "a 3 #65",
    ),
    (
        "<outline><contour><point x='1' y='2'><point x='q'/></point></contour><component base='b'><contour><x/></contour></component></outline>",
        "a 0 [!(1,2)] {b 0 0}",
    ),
    ("<advance width='+5'/>", "a 5"),
    ("<advance width='\n 0005.000\t\r'/>", "a 5"),
    ("<advance width='-0'/>", "a 0"),
    ("<advance width='16383'/>", "a 16383"),
    ("<advance/>", "a 0"),
    ("<advance/><advance width='7'/>", "a 0"),
    ("<advance width='7'/><advance width='junk'/>", "a 7"),
    (
        "<unicode hex='0041'/><unicode hex='10FFFF'/><unicode hex='41'/><unicode hex='fFfE'/>",
        "a 0 #65 #1114111 #65534",
    ),
    (
        "<unicode hex='E000'/><unicode hex='0'/><unicode hex='010000'/><unicode hex='d7ff'/><unicode hex='00E000'/>",
        "a 0 #57344 #0 #65536 #55295",
    ),
    ("<outline/>", "a 0"),
    (
        "<note>text</note><image/><guideline x='q'/><anchor/><lib><dict><outline/><unicode/></dict></lib><Outline/><Advance width='3'/>",
        "a 0",
    ),
    (
        "<outline><contour><point type='qcurve' y='2' x='1'/><point smooth='q' x='4' type='line' y='-3' name='n'/><point x='5' y='6' type='offcurve'/><point x='7' y='8'/></contour></outline>",
        "a 0 [(1,2)(4,-3)!(5,6)!(7,8)]",
    ),
    (
        "<outline><contour><point x='0' y='0'/><point x='+16383' y='-16384' type='offcurve'/></contour></outline>",
        "a 0 [!(0,0)!(16383,-16384)]",
    ),
    (
        "<outline><contour><point x='-16384' y='16383.00' type='line'/></contour></outline>",
        "a 0 [(-16384,16383)]",
    ),
    (
        "<outline><contour><point x='1' y='2' type='line'/><point x='3' y='4' type='line'/><point x='5' y='6'/><point x='7' y='8' type='qcurve'/></contour></outline>",
        "a 0 [(1,2)(3,4)!(5,6)(7,8)]",
    ),
    (
        "<outline><contour/><contour>text</contour></outline>",
        "a 0",
    ),
    (
        "<outline><contour><anchor x='q'/><outline/></contour><contour><point x='1' y='2'/></contour></outline>",
        "a 0 [!(1,2)]",
    ),
    (
        "<outline><contour><point type='move'/></contour></outline>",
        "a 0",
    ),
    (
        "<outline><contour><x/><point type='move' x='q'/><x><point type='line'/></x></contour></outline>",
        "a 0",
    ),
    (
        "<outline><component base='b c'/></outline>",
        "a 0 {b c 0 0}",
    ),
    (
        "<outline><component yOffset='-16384' xOffset='16383.0' rotate='5' base=''/></outline>",
        "a 0 { 16383 -16384}",
    ),
    (
        "<outline><component base='b' xScale='1.000001' yScale=' +1.0 ' xyScale='0.000001' yxScale='-0'/></outline>",
        "a 0 {b 0 0}",
    ),
];

/// How an outline and its contours begin, how many contours it has and how often each has the point `(5,-6)`
/// off the curve, and what follows the contours.
const LONG: [(&str, &str, u32, u32, &str, &str); 12] = [
    (
        "<outline>",
        "<contour>",
        1,
        1_024,
        "</outline>",
        "a 0 [1024]",
    ),
    (
        "<outline>",
        "@<contour>",
        1,
        1_025,
        "</outline>",
        "TooManyPoints - 1025",
    ),
    (
        "<outline>",
        "<contour>",
        4,
        1_000,
        "</outline>",
        "a 0 [1000] [1000] [1000] [1000]",
    ),
    (
        "<outline>",
        "<contour>",
        4,
        1_000,
        "<contour/><contour><point type='move'/></contour></outline>",
        "a 0 [1000] [1000] [1000] [1000]",
    ),
    (
        "@<outline>",
        "<contour>",
        4,
        1_000,
        "<contour><point x='1' y='2'/></contour></outline>",
        "TooManyPoints - 4001",
    ),
    (
        "@<outline>",
        "<contour>",
        5,
        1_024,
        "</outline>",
        "TooManyPoints - 5120",
    ),
    // Two faults, of which the first counts.
    (
        "<outline>",
        "@<contour><point x='1' y='2' type='move'/>",
        1,
        1_024,
        "</outline>",
        "TooManyPoints - 1025",
    ),
    (
        "<outline>",
        "@<contour><point x='1' y='2' type='line'/>",
        1,
        1_024,
        "<x/></outline>",
        "TooManyPoints - 1025",
    ),
    (
        "<outline>",
        "<contour>@<point x='1' y='2' type='curve'/>",
        1,
        1_025,
        "</outline>",
        "Curve - 0",
    ),
    (
        "<outline>",
        "<contour>",
        4,
        1_000,
        "<contour><point x='1' y='2'/></contour>@<component/></outline>",
        "MissingAttribute base 0",
    ),
    (
        "@<outline>",
        "<contour>",
        4,
        1_001,
        "</outline><unicode/>",
        "TooManyPoints - 4004",
    ),
    (
        "<outline>",
        "<contour>",
        4,
        1_000,
        "</outline>@<unicode/>",
        "BadCode - 0",
    ),
];

/// The name, the width and two points of plain drawings, whose contours are one of both points and one of the
/// second alone.
const PRINTED: [(&str, &str, [&str; 4], &str); 5] = [
    (
        "a",
        "300",
        ["100", "0", "200", "-50"],
        "a 300 [(100,0)(200,-50)] [(200,-50)]",
    ),
    (
        "Zz",
        "-0",
        ["-0", "007", "00012", "-00034"],
        "Zz 0 [(0,7)(12,-34)] [(12,-34)]",
    ),
    (
        "a",
        "007",
        ["-16384", "16383", "16383", "-16384"],
        "a 7 [(-16384,16383)(16383,-16384)] [(16383,-16384)]",
    ),
    (
        "n",
        "16383",
        ["0", "0", "0", "0"],
        "n 16383 [(0,0)(0,0)] [(0,0)]",
    ),
    (
        "abcdefghijklmnopqrstuvwxyzABCDEFGHIJKLMNOPQRSTUVWXYZabcdefghijk",
        "00001",
        ["-00001", "00000", "9", "-9"],
        "abcdefghijklmnopqrstuvwxyzABCDEFGHIJKLMNOPQRSTUVWXYZabcdefghijk 1 [(-1,0)(9,-9)] [(9,-9)]",
    ),
];

/// An advance width, so many contours of so many points, the coordinates of each point, and the first number
/// that is out of limits.
const LIMITS: [(i32, u32, u32, i32, i32, Option<i64>); 17] = [
    (0, 0, 0, 0, 0, None),
    (16_383, 1, 1, -16_384, 16_383, None),
    (1, 1, 1_024, 16_383, -16_384, None),
    (1, 4, 1_000, 0, 0, None),
    (1, 4_000, 1, 0, 0, None),
    (-1, 0, 0, 0, 0, Some(-1)),
    (16_384, 0, 0, 0, 0, Some(16_384)),
    (-2_147_483_648, 1, 0, 0, 0, Some(-2_147_483_648)),
    (0, 1, 0, 0, 0, Some(0)),
    (0, 2, 1_025, 16_384, 0, Some(1_025)),
    (0, 1, 1, 16_384, 0, Some(16_384)),
    (0, 1, 1, -16_385, 16_384, Some(-16_385)),
    (0, 1, 1, 0, 16_385, Some(16_385)),
    (0, 1, 1, 0, -16_385, Some(-16_385)),
    (0, 4_001, 1, 0, 0, Some(4_001)),
    (0, 5, 1_024, 0, 0, Some(5_120)),
    (0, 4_001, 1, 0, 16_384, Some(16_384)),
];

/// The name and the advance width, each contour in brackets with `!` before a point off the curve, or its number
/// of points where it has many, each component in braces, and each code point after `#`.
fn shown(alloc: Global, drawing: &Drawing) -> Result<String, AllocError> {
    let mut shown = String::from_str(alloc, drawing.name.as_str())?;
    write!(shown, " {}", drawing.outline.advance)?;
    for contour in drawing.outline.contours.as_slice() {
        if contour.len() > 9 {
            write!(shown, " [{}]", contour.len())?;
        } else {
            shown.push_str(" [")?;
            for point in contour.as_slice() {
                let mark = if point.on { "" } else { "!" };
                write!(shown, "{mark}({},{})", point.x, point.y)?;
            }
            shown.push_str("]")?;
        }
    }
    for component in drawing.components.as_slice() {
        let base = component.base.as_str();
        write!(shown, " {{{base} {} {}}}", component.dx, component.dy)?;
    }
    for code in drawing.codes.as_slice() {
        write!(shown, " #{code}")?;
    }
    Ok(shown)
}

/// The kind, the item and the value of a fault, where its offset is this one and all else is 0.
fn shown_fault(alloc: Global, spot: &Spot, at: usize) -> Result<String, AllocError> {
    if spot.at != at as u64 || spot.also != 0 || spot.second != 0 {
        return format!(in alloc; "at {} {} {}", spot.at, spot.also, spot.second);
    }
    let item = spot.item.as_str();
    let item = if item.is_empty() { "-" } else { item };
    format!(in alloc; "{} {item} {}", spot.kind.name(), spot.first)
}

/// The drawing that the tree of a text means.
fn read_tree(alloc: Global, text: &str) -> Result<Drawing, Stop> {
    let tree = markup::read(alloc, text.as_bytes())?;
    read(alloc, &tree)
}

/// An answer as text, where a fault is at this offset.
fn shown_answer(
    alloc: Global,
    answer: Result<Drawing, Stop>,
    at: usize,
) -> Result<String, AllocError> {
    match answer {
        Ok(drawing) => shown(alloc, &drawing),
        Err(Stop::NoMemory) => String::from_str(alloc, "NoMemory"),
        Err(Stop::At(spot)) => shown_fault(alloc, &spot, at),
    }
}

/// What reading a text without its mark answers, as text: by its tree and at once the same.
fn answer(alloc: Global, marked: &str) -> Result<String, AllocError> {
    let (before, after) = marked.split_once('@').unwrap_or(("", marked));
    let text = format!(in alloc; "{before}{after}")?;
    let by_tree = shown_answer(alloc, read_tree(alloc, text.as_str()), before.len())?;
    let at_once = shown_answer(alloc, read_text(alloc, text.as_bytes()), before.len())?;
    if at_once.as_str() == by_tree.as_str() {
        Ok(at_once)
    } else {
        format!(in alloc; "{at_once}, but {by_tree} by the tree")
    }
}

/// Stops the test where reading answers something else.
fn expect(rt: &impl Abort, alloc: Global, marked: &str, wanted: &str) -> Result<(), AllocError> {
    let answer = answer(alloc, marked)?;
    assert_eq!(rt; answer.as_str(), wanted, "{marked}");
    Ok(())
}

/// The same of what stands in a glyph.
fn expect_inside(
    rt: &impl Abort,
    alloc: Global,
    inside: &str,
    wanted: &str,
) -> Result<(), AllocError> {
    let text = format!(in alloc; "<glyph name='a' format='2'>{inside}</glyph>")?;
    expect(rt, alloc, text.as_str(), wanted)
}

/// So many times the same text between two others.
fn repeated(
    alloc: Global,
    first: &str,
    text: &str,
    count: u32,
    last: &str,
) -> Result<String, AllocError> {
    let mut all = String::from_str(alloc, first)?;
    for _ in 0..count {
        all.push_str(text)?;
    }
    all.push_str(last)?;
    Ok(all)
}

/// So many contours of so many points.
fn contours(
    alloc: Global,
    contours: u32,
    points: u32,
    point: Point,
) -> Result<Seq<Seq<Point>>, NoMemory> {
    let mut all = Seq::new(alloc);
    for _ in 0..contours {
        let mut contour = Seq::new(alloc);
        for _ in 0..points {
            contour.push(point)?;
        }
        all.push(contour)?;
    }
    Ok(all)
}

#[test]
fn faults(rt: HostRuntime) -> Result<(), Fail> {
    for (text, wanted) in &ROOTS {
        expect(&rt, rt.alloc(), text, wanted)?;
    }
    for (width, wanted) in &WIDTHS {
        let inside = format!(in rt.alloc(); "<advance/>@<advance width='{width}'/>")?;
        expect_inside(&rt, rt.alloc(), inside.as_str(), "a 0")?;
        let inside = format!(in rt.alloc(); "<note/>@<advance width='{width}'/>")?;
        expect_inside(&rt, rt.alloc(), inside.as_str(), wanted)?;
    }
    for hex in &BAD_CODES {
        let inside = format!(in rt.alloc(); "<unicode hex='41'/>@<unicode hex='{hex}'/>")?;
        expect_inside(&rt, rt.alloc(), inside.as_str(), "BadCode - 0")?;
    }
    for (text, wanted) in &OUTLINES {
        let inside = format!(in rt.alloc(); "<outline>{text}</outline>")?;
        expect_inside(&rt, rt.alloc(), inside.as_str(), wanted)?;
    }
    for (text, wanted) in &POINTS {
        let inside = format!(in rt.alloc(); "<outline><contour>{text}</contour></outline>")?;
        expect_inside(&rt, rt.alloc(), inside.as_str(), wanted)?;
    }
    Ok(())
}

#[test]
fn right_files(rt: HostRuntime) -> Result<(), Fail> {
    for (text, wanted) in &FILES {
        expect(&rt, rt.alloc(), text, wanted)?;
    }
    for (inside, wanted) in &GLYPHS {
        expect_inside(&rt, rt.alloc(), inside, wanted)?;
    }
    for (name, width, [x, y, second_x, second_y], wanted) in &PRINTED {
        let second = format!(in rt.alloc();
            "<point x=\"{second_x}\" y=\"{second_y}\" type=\"line\"/>\n</contour>\n"
        )?;
        let text = format!(in rt.alloc();
            "<glyph name=\"{name}\" format=\"2\">\n<advance width=\"{width}\"/>\n<outline>\n<contour>\n<point x=\"{x}\" y=\"{y}\" type=\"line\"/>\n{second}<contour>\n{second}</outline>\n</glyph>\n"
        )?;
        expect(&rt, rt.alloc(), text.as_str(), wanted)?;
    }
    Ok(())
}

#[test]
fn many_points(rt: HostRuntime) -> Result<(), Fail> {
    for (outline, contour, contours, points, rest, wanted) in &LONG {
        let point = "<point x='5' y='-6'/>";
        let contour = repeated(rt.alloc(), contour, point, *points, "</contour>")?;
        let inside = repeated(rt.alloc(), outline, contour.as_str(), *contours, rest)?;
        expect_inside(&rt, rt.alloc(), inside.as_str(), wanted)?;
    }
    Ok(())
}

#[test]
fn limits(rt: HostRuntime) -> Result<(), Fail> {
    for (advance, count, points, x, y, wanted) in &LIMITS {
        let point = Point {
            x: *x,
            y: *y,
            on: true,
        };
        let outline = Outline {
            advance: *advance,
            contours: contours(rt.alloc(), *count, *points, point)?,
        };
        assert_eq!(rt;
            within(&outline),
            *wanted,
            "{advance} {count} {points} {x} {y}"
        );
    }
    let points = [(0, 0), (1, 16_384), (16_385, 0)].map(|(x, y)| Point { x, y, on: false });
    assert_eq!(rt; coordinate_outside(&points), Some(16_384));
    Ok(())
}
