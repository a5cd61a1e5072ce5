use super::*;

/// A glyph named `p` of one point.
pub(super) fn one_point(alloc: Global, x: i32, y: i32) -> Result<String, Fail> {
    Ok(format!(in alloc;
        "<glyph name=\"p\" format=\"2\">\n<advance width=\"100\"/>\n<outline>\n<contour>\n<point x=\"{x}\" y=\"{y}\" type=\"line\"/>\n</contour>\n</outline>\n</glyph>\n"
    )?)
}

/// A glyph named `p` without contours.
fn blank(alloc: Global, width: i32) -> Result<String, Fail> {
    Ok(format!(in alloc;
        "<glyph name=\"p\" format=\"2\">\n<advance width=\"{width}\"/>\n<outline>\n</outline>\n</glyph>\n"
    )?)
}

/// The words of `tuples` for drawings at these locations, the first in the file `0`, and so on.
fn words_at(alloc: Global, listed: &[&str]) -> Result<Vec<String>, Fail> {
    let mut words = owned(alloc, &["vfb", "tuples", "o.bin"])?;
    for (number, location) in listed.iter().enumerate() {
        words.push(format!(in alloc; "{number}@{location}")?)?;
    }
    Ok(words)
}

/// What a run over the drawings at these locations says, with its status, and what `o.bin` holds.
pub(super) fn outcome(
    alloc: Global,
    listed: &[&str],
    drawings: &[String],
) -> Result<(u8, Vec<u8>, Option<Vec<u8>>), Fail> {
    let words = words_at(alloc, listed)?;
    let mut texts = Seq::new(alloc);
    for (number, drawing) in drawings.iter().enumerate() {
        let path = format!(in alloc; "{number}")?;
        let bytes = Vec::from_slice(alloc, drawing.as_bytes())?;
        texts.push((Name::from_str(alloc, path.as_str())?, bytes))?;
    }
    let mut sources = SureSources::new(texts);
    let mut outputs = SureOutputs::new(alloc, room(alloc, "o.bin", 999)?)?;
    let mut say = SureSay::new(alloc, 99)?;
    let status = run(
        alloc,
        &words,
        Vec::new(alloc),
        &mut sources,
        &mut outputs,
        &mut say,
    )
    .number();
    let said = Vec::from_slice(alloc, say.said())?;
    let held = match outputs.held("o.bin") {
        Some(bytes) => Some(Vec::from_slice(alloc, bytes)?),
        None => None,
    };
    Ok((status, said, held))
}

/// The locations of the default and of the corners of two axes.
const CORNERS: [&str; 4] = ["0,0", "16384,0", "0,16384", "16384,16384"];

/// The points of a one-point glyph there, and what is refused: 16383 - (-32767) - (-32767) - 16383 = 65534.
const TOO_FAR: [([(i32, i32); 4], &str); 2] = [
    (
        [(16_383, 0), (-16_384, 0), (-16_384, 0), (16_383, 0)],
        "refused DeltaRange - p 0 0 3 65534\n",
    ),
    (
        [(0, 16_383), (0, -16_384), (0, -16_384), (0, 16_383)],
        "refused DeltaRange - p 0 1 3 65534\n",
    ),
];

#[test]
fn refuses_deltas_of_more_than_16_bits(rt: HostRuntime) -> Result<(), Fail> {
    let alloc = rt.alloc();
    for (points, line) in TOO_FAR {
        let mut drawings = Vec::new(alloc);
        for (x, y) in points {
            drawings.push(one_point(alloc, x, y)?)?;
        }
        let (status, said, held) = outcome(alloc, &CORNERS, drawings.as_slice())?;
        assert_eq!(rt; status, 1);
        assert_eq!(rt; said.as_slice(), line.as_bytes());
        assert_eq!(rt; held, None);
    }
    // A glyph without points: 0 - 3 * 16383, and the advance is the second phantom point.
    let mut drawings = Vec::new(alloc);
    for width in [0, 16_383, 16_383, 16_383, 0] {
        drawings.push(blank(alloc, width)?)?;
    }
    let listed = ["0,0,0", "9,0,0", "0,9,0", "0,0,9", "9,9,9"];
    let (status, said, _) = outcome(alloc, &listed, drawings.as_slice())?;
    assert_eq!(rt; status, 1);
    assert_eq!(rt;
        said.as_slice(),
        b"refused DeltaRange - p 1 0 4 -49149\n".as_slice()
    );
    Ok(())
}

/// A drawing that isn't like the default is refused before a delta that doesn't fit.
#[test]
fn compares_contours_before_deltas(rt: HostRuntime) -> Result<(), Fail> {
    let alloc = rt.alloc();
    let mut drawings = Vec::new(alloc);
    for x in [16_383, -16_384, -16_384, 16_383] {
        drawings.push(one_point(alloc, x, 0)?)?;
    }
    drawings.push(blank(alloc, 100)?)?;
    let listed = ["0,0", "16384,0", "0,16384", "16384,16384", "1,0"];
    let (status, said, _) = outcome(alloc, &listed, drawings.as_slice())?;
    assert_eq!(rt; status, 1);
    assert_eq!(rt;
        said.as_slice(),
        b"refused ContourCount 4 p 0 0 1 0\n".as_slice()
    );
    Ok(())
}

/// 128 drawings are a command, and one more aren't.
#[test]
fn counts_the_drawings(rt: HostRuntime) -> Result<(), Fail> {
    let alloc = rt.alloc();
    let (status, said, _) = outcome(alloc, &["0"; 128], &[])?;
    assert_eq!(rt; status, 1);
    assert_eq!(rt;
        said.as_slice(),
        b"refused MissingFile 0 - 0 0 0 0\n".as_slice()
    );
    let (status, said, _) = outcome(alloc, &["0"; 129], &[])?;
    assert_eq!(rt; status, 2);
    assert_eq!(rt; said.as_slice(), b"usage words\n".as_slice());
    Ok(())
}

/// The data of three masters on one axis, with the first coordinate 0, 10 and 30: the second region reaches
/// from 0 over 8,192 to 16,384, the third from 8,192 to 16,384, and so each header has start and end.
const THREE: &[u8] = &[
    0x00, 0x02, 0x00, 0x18, 0x00, 0x06, 0xE0, 0x00, 0x20, 0x00, 0x00, 0x00, 0x40, 0x00, 0x00, 0x06,
    0xE0, 0x00, 0x40, 0x00, 0x20, 0x00, 0x40, 0x00, 0x01, 0x00, 0x00, 0x00, 0x0A, 0x80, 0x01, 0x00,
    0x00, 0x00, 0x1E, 0x80,
];

#[test]
fn writes_three_masters_in_their_order(rt: HostRuntime) -> Result<(), Fail> {
    let alloc = rt.alloc();
    let mut drawings = Vec::new(alloc);
    for x in [30, 0, 10] {
        drawings.push(one_point(alloc, x, 0)?)?;
    }
    let (status, said, held) = outcome(alloc, &["16384", "0", "8192"], drawings.as_slice())?;
    assert_eq!(rt; status, 0);
    assert_eq!(rt; said.as_slice(), b"tuples 2 explicit 2 of 2\n".as_slice());
    let held = held.ok_or("a file")?;
    assert_eq!(rt; held.as_slice(), THREE);
    Ok(())
}
