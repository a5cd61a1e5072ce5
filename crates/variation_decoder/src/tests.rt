use crate::read_tuples;
use basics::{NoMemory, Seq};
use fixpoint::Fix;
use std::alloc::Global;
use std::process::Abort;
use std::test::*;
use variation_rules::TupleVariation;

/// A tuple as it is expected: each axis with its start, peak and end, and each point with its number
/// and its delta.
struct Expected {
    region: &'static [(i32, i32, i32)],
    points: &'static [(u16, i32, i32)],
}

/// Glyph variation data worked out by hand, with the tuples that they mean, None where they mean
/// nothing.
struct Case {
    name: &'static str,
    axes: u16,
    total: u16,
    bytes: &'static [u8],
    tuples: Option<&'static [Expected]>,
}

/// One axis and seven points: three move by 50, the phantom points stay.
const ALL_POINTS: [u8; 17] = [
    0x00, 0x01, 0x00, 0x0A, 0x00, 0x07, 0xA0, 0x00, 0x40, 0x00, 0x00, 0x02, 0x32, 0x32, 0x32, 0x83,
    0x86,
];

/// One axis and the points 5 and 305, with their count in two bytes and their differences in words.
const FAR_POINTS: [u8; 21] = [
    0x00, 0x01, 0x00, 0x0A, 0x00, 0x0B, 0xA0, 0x00, 0xC0, 0x00, 0x80, 0x02, 0x81, 0x00, 0x05, 0x01,
    0x2C, 0x01, 0x01, 0x02, 0x81,
];

const CASES: [Case; 14] = [
    Case {
        name: "no bytes",
        axes: 1,
        total: 7,
        bytes: &[],
        tuples: Some(&[]),
    },
    Case {
        name: "no tuple",
        axes: 1,
        total: 7,
        bytes: &[0x00, 0x00, 0x00, 0x04],
        tuples: Some(&[]),
    },
    Case {
        name: "all points",
        axes: 1,
        total: 7,
        bytes: &ALL_POINTS,
        tuples: Some(&[Expected {
            region: &[(0, 16384, 16384)],
            points: &[
                (0, 50, 0),
                (1, 50, 0),
                (2, 50, 0),
                (3, 0, 0),
                (4, 0, 0),
                (5, 0, 0),
                (6, 0, 0),
            ],
        }]),
    },
    Case {
        name: "points of the tuple's own",
        axes: 1,
        total: 4,
        bytes: &[
            0x00, 0x01, 0x00, 0x0A, 0x00, 0x06, 0xA0, 0x00, 0x40, 0x00, 0x01, 0x00, 0x01, 0x00,
            0x3C, 0x80,
        ],
        tuples: Some(&[Expected {
            region: &[(0, 16384, 16384)],
            points: &[(1, 60, 0)],
        }]),
    },
    Case {
        name: "shared points, a shared and an embedded peak",
        axes: 2,
        total: 5,
        bytes: &[
            0x80, 0x02, 0x00, 0x10, 0x00, 0x04, 0x00, 0x01, 0x00, 0x02, 0x80, 0x00, 0xC0, 0x00,
            0x20, 0x00, 0x02, 0x01, 0x00, 0x03, 0x01, 0x05, 0xFB, 0x81, 0x81, 0x81,
        ],
        tuples: Some(&[
            Expected {
                region: &[(0, 16384, 16384), (-8192, -8192, 0)],
                points: &[(0, 5, 0), (3, -5, 0)],
            },
            Expected {
                region: &[(-16384, -16384, 0), (0, 8192, 8192)],
                points: &[(0, 0, 0), (3, 0, 0)],
            },
        ]),
    },
    Case {
        name: "an intermediate region, words and bytes",
        axes: 1,
        total: 2,
        bytes: &[
            0x00, 0x01, 0x00, 0x0E, 0x00, 0x09, 0xE0, 0x00, 0x20, 0x00, 0x10, 0x00, 0x30, 0x00,
            0x00, 0x41, 0x01, 0x2C, 0xFE, 0xD4, 0x01, 0x7F, 0x80,
        ],
        tuples: Some(&[Expected {
            region: &[(4096, 8192, 12288)],
            points: &[(0, 300, 127), (1, -300, -128)],
        }]),
    },
    Case {
        name: "a count in two bytes, differences in words",
        axes: 1,
        total: 306,
        bytes: &FAR_POINTS,
        tuples: Some(&[Expected {
            region: &[(-16384, -16384, 0)],
            points: &[(5, 1, 0), (305, 2, 0)],
        }]),
    },
    Case {
        name: "a point past the total",
        axes: 1,
        total: 305,
        bytes: &FAR_POINTS,
        tuples: None,
    },
    Case {
        name: "points that don't rise",
        axes: 1,
        total: 4,
        bytes: &[
            0x00, 0x01, 0x00, 0x0A, 0x00, 0x06, 0xA0, 0x00, 0x40, 0x00, 0x02, 0x01, 0x01, 0x00,
            0x81, 0x81,
        ],
        tuples: None,
    },
    Case {
        name: "a count of 0 in two bytes",
        axes: 1,
        total: 4,
        bytes: &[
            0x00, 0x01, 0x00, 0x0A, 0x00, 0x02, 0xA0, 0x00, 0x40, 0x00, 0x80, 0x00,
        ],
        tuples: None,
    },
    Case {
        name: "no list of shared points",
        axes: 1,
        total: 4,
        bytes: &[
            0x00, 0x01, 0x00, 0x0A, 0x00, 0x02, 0x80, 0x00, 0x40, 0x00, 0x80, 0x80,
        ],
        tuples: None,
    },
    Case {
        name: "no shared peak of the index",
        axes: 2,
        total: 4,
        bytes: &[
            0x00, 0x01, 0x00, 0x08, 0x00, 0x03, 0x20, 0x02, 0x00, 0x83, 0x83,
        ],
        tuples: None,
    },
    Case {
        name: "a shared peak of another number of axes",
        axes: 2,
        total: 4,
        bytes: &[
            0x00, 0x01, 0x00, 0x08, 0x00, 0x03, 0x20, 0x00, 0x00, 0x83, 0x83,
        ],
        tuples: None,
    },
    Case {
        name: "a run from x into y",
        axes: 1,
        total: 7,
        bytes: &[
            0x00, 0x01, 0x00, 0x0A, 0x00, 0x02, 0xA0, 0x00, 0x40, 0x00, 0x00, 0x8D,
        ],
        tuples: None,
    },
];

/// Changes of one byte after which the data of all points mean nothing.
const FAULTS: [(usize, u8, &str); 8] = [
    (0, 0x10, "a reserved bit of the count"),
    (3, 0x0B, "an offset past the header"),
    (5, 0x06, "a part too short"),
    (6, 0xB0, "a reserved bit of the tupleIndex"),
    (7, 0x01, "an index beside an embedded peak"),
    (11, 0xC2, "both high bits of a control byte"),
    (15, 0x84, "a run too long"),
    (16, 0x85, "a value too few"),
];

/// Shared peaks: one of one axis, and one of two.
fn shared_peaks(alloc: Global) -> Result<Seq<Seq<Fix<14>>>, NoMemory> {
    let mut one = Seq::new(alloc);
    one.push(Fix::from_raw(16384))?;
    let mut two = Seq::new(alloc);
    two.push(Fix::from_raw(16384))?;
    two.push(Fix::from_raw(-8192))?;
    let mut peaks = Seq::new(alloc);
    peaks.push(one)?;
    peaks.push(two)?;
    Ok(peaks)
}

fn check(rt: &impl Abort, tuple: &TupleVariation, expected: &Expected) {
    assert_eq!(rt; tuple.region.len(), expected.region.len());
    for (read, axis) in tuple.region.as_slice().iter().zip(expected.region) {
        assert_eq!(rt; (read.start.raw(), read.peak.raw(), read.end.raw()), *axis);
    }
    assert_eq!(rt; tuple.points.len(), expected.points.len());
    for (read, point) in tuple.points.as_slice().iter().zip(expected.points) {
        assert_eq!(rt; *read, point.0);
    }
    assert_eq!(rt; tuple.deltas.len(), expected.points.len());
    for (read, point) in tuple.deltas.as_slice().iter().zip(expected.points) {
        assert_eq!(rt; (read.x, read.y), (point.1, point.2));
    }
}

#[test]
fn reads_by_hand(rt: HostRuntime) -> Result<(), Fail> {
    let peaks = shared_peaks(rt.alloc()).ok().ok_or("memory")?;
    for case in &CASES {
        let found = read_tuples(rt.alloc(), case.axes, case.total, &peaks, case.bytes);
        let found = found.ok().ok_or("memory")?;
        let count = found.as_ref().map(|tuples| tuples.len());
        assert_eq!(rt;
            count,
            case.tuples.map(|expected| expected.len()),
            "{}",
            case.name
        );
        if let (Some(tuples), Some(expected)) = (&found, case.tuples) {
            for (tuple, expected) in tuples.as_slice().iter().zip(expected) {
                check(&rt, tuple, expected);
            }
        }
    }
    Ok(())
}

#[test]
fn refuses_faults(rt: HostRuntime) {
    let peaks = Seq::new(rt.alloc());
    for (at, byte, name) in FAULTS {
        let mut bytes = ALL_POINTS;
        if let Some(old) = bytes.get_mut(at) {
            *old = byte;
        }
        let found = read_tuples(rt.alloc(), 1, 7, &peaks, &bytes);
        assert!(rt; matches!(found, Ok(None)), "{name}");
    }
    for end in 1..ALL_POINTS.len() {
        let found = read_tuples(rt.alloc(), 1, 7, &peaks, &ALL_POINTS[..end]);
        assert!(rt; matches!(found, Ok(None)), "cut at {end}");
    }
    let mut longer = [0; 18];
    longer[..17].copy_from_slice(&ALL_POINTS);
    let found = read_tuples(rt.alloc(), 1, 7, &peaks, &longer);
    assert!(rt; matches!(found, Ok(None)), "a byte after the data");
}
