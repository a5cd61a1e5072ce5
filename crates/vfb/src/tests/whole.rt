//! Whole drawings: GLIF files as editors write them, and their faults.

use super::*;

/// The words of one drawing.
const ALONE: &[&str] = &["vfb", "tuples", "o.bin", "a.glif@0"];

/// The triangle that the README shows, as an editor writes it.
const WRITTEN: &str = "\u{feff}<?xml version='1.0' encoding='UTF-8'?>\r
<!DOCTYPE glyph>\r
<glyph name='a' format='2'>\r
\t<!-- the default -->\r
\t<advance height='9' width='300'/>\r
\t<unicode hex='0061'/>\r
\t<outline>\r
\t\t<contour>\r
\t\t\t<point type='line' y='0' x='100.0' smooth='yes'/>\r
\t\t\t<point x=' +200' y='-0' type='line'/>\r
\t\t\t<point x='100' y='&#49;00' type='line'><x/></point>\r
\t\t</contour>\r
\t\t<contour>\r
\t\t\t<point x='1' y='1' type='move' name='top'/>\r
\t\t</contour>\r
\t\t<contour/>\r
\t</outline>\r
\t<anchor x='1' y='2' name='top'/>\r
\t<lib><dict/></lib>\r
</glyph>\r
";

/// A contour of two points, the second off the curve.
const CURVED: &str =
    "<glyph name=\"a\" format=\"1\"><outline><contour><point x=\"0\" y=\"0\" type=\"qcurve\"/><point x=\"9\" y=\"9\"/></contour></outline></glyph>";

/// A contour of two points on the curve.
const STRAIGHT: &str =
    "<glyph name=\"b\" format=\"1\"><outline><contour><point x=\"0\" y=\"0\" type=\"qcurve\"/><point x=\"9\" y=\"9\" type=\"line\"/></contour></outline></glyph>";

/// Two contours, of one point and of two.
const PAIR: &str =
    "<glyph name=\"c\" format=\"2\"><outline><contour><point x=\"0\" y=\"0\"/></contour><contour><point x=\"0\" y=\"0\"/><point x=\"9\" y=\"9\"/></contour></outline></glyph>";

/// Two contours, of one point each.
const ONES: &str =
    "<glyph name=\"d\" format=\"2\"><outline><contour><point x=\"0\" y=\"0\"/></contour><contour><point x=\"0\" y=\"0\"/></contour></outline></glyph>";

/// A component of the glyph `b`.
const ACCENTED: &str =
    "<glyph name=\"e\" format=\"2\"><outline><component base=\"b\"/></outline></glyph>";

/// The file breaks off in the x of a point, after 56 bytes.
const BROKEN_OFF: &str = "<glyph name=\"a\" format=\"2\"><outline><contour><point x=\"1";

/// A point at half a unit; its `<` stands after 45 bytes.
const HALF: &str =
    "<glyph name=\"a\" format=\"2\"><outline><contour><point x=\"12.5\" y=\"0\"/></contour></outline></glyph>";

/// One drawing or two, and what is said.
const WHOLE: [Case; 13] = [
    Case {
        words: WORDS,
        files: &[("a.glif", WRITTEN), ("b.glif", MOVED)],
        status: 0,
        said: MOVED_SAID,
        held: Some(MOVED_DATA),
    },
    Case {
        words: WORDS,
        files: &[("a.glif", CURVED), ("b.glif", CURVED)],
        status: 0,
        said: "tuples 0 explicit 0 of 0\n",
        held: Some(b""),
    },
    Case {
        words: ALONE,
        files: &[("a.glif", BROKEN_OFF)],
        status: 1,
        said: "refused Unfinished a.glif - 56 0 0 0\n",
        held: None,
    },
    Case {
        words: ALONE,
        files: &[("a.glif", HALF)],
        status: 1,
        said: "refused NotWhole a.glif x 45 0 0 0\n",
        held: None,
    },
    Case {
        words: ALONE,
        files: &[("a.glif", "<plist/>")],
        status: 1,
        said: "refused NotGlif a.glif - 0 0 0 0\n",
        held: None,
    },
    Case {
        words: ALONE,
        files: &[("a.glif", "<glyph format=\"3\"/>")],
        status: 1,
        said: "refused FormatVersion a.glif - 0 0 3 0\n",
        held: None,
    },
    Case {
        words: &["vfb", "tuples", "o.bin", "two.glif@0", "one.glif@16384"],
        files: &[("two.glif", PARTED), ("one.glif", TRIANGLE)],
        status: 1,
        said: "refused ContourCount one.glif a 0 0 2 1\n",
        held: None,
    },
    Case {
        words: WORDS,
        files: &[("a.glif", PAIR), ("b.glif", ONES)],
        status: 1,
        said: "refused PointCount b.glif c 1 0 2 1\n",
        held: None,
    },
    Case {
        words: WORDS,
        files: &[("a.glif", CURVED), ("b.glif", STRAIGHT)],
        status: 1,
        said: "refused PointKind b.glif a 0 1 0 1\n",
        held: None,
    },
    // The default is the second word's, and the first differs from it.
    Case {
        words: &["vfb", "tuples", "o.bin", "a.glif@16384", "b.glif@0"],
        files: &[("a.glif", CURVED), ("b.glif", STRAIGHT)],
        status: 1,
        said: "refused PointKind a.glif b 0 1 1 0\n",
        held: None,
    },
    // A component is told before the next file is read, and after the faults of its own.
    Case {
        words: WORDS,
        files: &[("a.glif", ACCENTED)],
        status: 1,
        said: "refused DanglingComponent a.glif e 0 0 0 0\n",
        held: None,
    },
    Case {
        words: WORDS,
        files: &[("a.glif", TRIANGLE), ("b.glif", ACCENTED)],
        status: 1,
        said: "refused DanglingComponent b.glif e 0 0 0 0\n",
        held: None,
    },
    Case {
        words: ALONE,
        files: &[(
            "a.glif",
            "<glyph name=\"e\" format=\"2\"><outline><component base=\"b\"/></outline><outline/></glyph>",
        )],
        status: 1,
        said: "refused NotGlif a.glif - 67 0 0 0\n",
        held: None,
    },
];

#[test]
fn reads_whole_drawings(rt: HostRuntime) -> Result<(), Fail> {
    for case in &WHOLE {
        check_case(&rt, rt.alloc(), case)?;
    }
    Ok(())
}
