use crate::conditions::are_glyphs_of;
use crate::glyph_tests::{Expected, reads_back, tuples_of};
use crate::{Tuple, table};
use basics::{NoMemory, Seq};
use std::alloc::Global;
use std::test::*;

/// A glyph: the number of its points, the four phantom points among them, and its tuples.
struct Glyph {
    count: u16,
    tuples: &'static [Expected],
}

/// Glyphs and their table, worked out by hand, with the offset of each glyph's data and the end.
struct Case {
    name: &'static str,
    axes: u16,
    glyphs: &'static [Glyph],
    bytes: &'static [u8],
    offsets: &'static [usize],
}

const NO_TUPLES: Glyph = Glyph {
    count: 4,
    tuples: &[],
};

/// The second phantom point alone.
const WIDER: Glyph = Glyph {
    count: 4,
    tuples: &[Expected {
        region: &[(0, 16384, 16384)],
        points: &[(1, 60, 0)],
    }],
};

/// All three points move, the phantom points don't.
const MOVED: Glyph = Glyph {
    count: 7,
    tuples: &[Expected {
        region: &[(0, 16384, 16384)],
        points: &[
            (0, 50, 0),
            (1, 50, 0),
            (2, 50, 0),
            (3, 0, 0),
            (4, 0, 0),
            (5, 0, 0),
            (6, 0, 0),
        ],
    }],
};

const CASES: [Case; 3] = [
    Case {
        name: "no glyphs",
        axes: 2,
        glyphs: &[],
        bytes: &[
            0x00, 0x01, 0x00, 0x00, 0x00, 0x02, 0x00, 0x00, 0x00, 0x00, 0x00, 0x18, 0x00, 0x00,
            0x00, 0x01, 0x00, 0x00, 0x00, 0x18, 0x00, 0x00, 0x00, 0x00,
        ],
        offsets: &[24],
    },
    Case {
        name: "glyphs without tuples",
        axes: 8,
        glyphs: &[NO_TUPLES, NO_TUPLES],
        bytes: &[
            0x00, 0x01, 0x00, 0x00, 0x00, 0x08, 0x00, 0x00, 0x00, 0x00, 0x00, 0x20, 0x00, 0x02,
            0x00, 0x01, 0x00, 0x00, 0x00, 0x20, 0x00, 0x00, 0x00, 0x00, 0x00, 0x00, 0x00, 0x00,
            0x00, 0x00, 0x00, 0x00,
        ],
        offsets: &[32, 32, 32],
    },
    Case {
        name: "a glyph without tuples before two others, the last of 17 bytes and not filled",
        axes: 1,
        glyphs: &[NO_TUPLES, WIDER, MOVED],
        bytes: &[
            0x00, 0x01, 0x00, 0x00, 0x00, 0x01, 0x00, 0x00, 0x00, 0x00, 0x00, 0x24, 0x00, 0x03,
            0x00, 0x01, 0x00, 0x00, 0x00, 0x24, 0x00, 0x00, 0x00, 0x00, 0x00, 0x00, 0x00, 0x00,
            0x00, 0x00, 0x00, 0x10, 0x00, 0x00, 0x00, 0x21, 0x00, 0x01, 0x00, 0x0A, 0x00, 0x06,
            0xA0, 0x00, 0x40, 0x00, 0x01, 0x00, 0x01, 0x00, 0x3C, 0x80, 0x00, 0x01, 0x00, 0x0A,
            0x00, 0x07, 0xA0, 0x00, 0x40, 0x00, 0x00, 0x02, 0x32, 0x32, 0x32, 0x83, 0x86,
        ],
        offsets: &[36, 36, 52, 69],
    },
];

/// The counts of the glyphs.
fn counts_of(alloc: Global, glyphs: &[Glyph]) -> Result<Seq<u16>, NoMemory> {
    let mut counts = Seq::new(alloc);
    for glyph in glyphs {
        counts.push(glyph.count)?;
    }
    Ok(counts)
}

/// The tuples of the glyphs.
fn glyphs_of(alloc: Global, glyphs: &[Glyph]) -> Result<Seq<Seq<Tuple>>, NoMemory> {
    let mut tuples = Seq::new(alloc);
    for glyph in glyphs {
        tuples.push(tuples_of(alloc, glyph.tuples)?)?;
    }
    Ok(tuples)
}

#[test]
fn tables_by_hand(rt: HostRuntime) -> Result<(), Fail> {
    for case in &CASES {
        let counts = counts_of(rt.alloc(), case.glyphs)?;
        let glyphs = glyphs_of(rt.alloc(), case.glyphs)?;
        let axes = u32::from(case.axes);
        assert!(rt; are_glyphs_of(axes, counts.as_slice(), glyphs.as_slice()));
        let bytes = table(rt.alloc(), axes, &counts, &glyphs)?;
        assert_eq!(rt; bytes.as_slice(), case.bytes, "{}", case.name);
        for (i, glyph) in case.glyphs.iter().enumerate() {
            let start = *case.offsets.get(i).ok_or("no offset")?;
            let end = *case.offsets.get(i + 1).ok_or("no end")?;
            let slice = bytes.get(start..end).ok_or("no slice")?;
            let tuples = tuples_of(rt.alloc(), glyph.tuples)?;
            reads_back(
                &rt,
                rt.alloc(),
                case.axes,
                glyph.count,
                tuples.as_slice(),
                slice,
            )?;
        }
    }
    Ok(())
}
