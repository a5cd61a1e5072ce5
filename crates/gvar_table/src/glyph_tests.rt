use crate::conditions::are_tuples_of;
use crate::{Tuple, glyph_data, spelling_law};
use arrayvec::ArrayVec;
use basics::{NoMemory, Seq};
use fixpoint::{Fix, Pair};
use std::alloc::Global;
use std::process::Abort;
use std::test::*;
use variation_decoder::read_tuples;
use variation_rules::{Triple, TupleVariation};

/// A tuple: start, peak and end of each axis, and the points, each with its number and its delta.
pub(crate) struct Expected {
    pub(crate) region: &'static [(i32, i32, i32)],
    pub(crate) points: &'static [(u16, i32, i32)],
}

/// Tuples and their bytes, worked out by hand.
struct Case {
    name: &'static str,
    axes: u16,
    count: u16,
    tuples: &'static [Expected],
    bytes: &'static [u8],
}

const CASES: [Case; 8] = [
    Case {
        name: "no tuples",
        axes: 1,
        count: 7,
        tuples: &[],
        bytes: &[],
    },
    Case {
        name: "all points, the phantom points don't move",
        axes: 1,
        count: 7,
        tuples: &[Expected {
            region: &[(0, 16384, 16384)],
            points: &[
                (0, 50, 0),
                (1, 50, 0),
                (2, 50, 0),
                (3, 0, 0),
                (4, 0, 0),
                (5, 0, 0),
                (6, 0, 0),
            ],
        }],
        bytes: &[
            0x00, 0x01, 0x00, 0x0A, 0x00, 0x07, 0xA0, 0x00, 0x40, 0x00, 0x00, 0x02, 0x32, 0x32,
            0x32, 0x83, 0x86,
        ],
    },
    Case {
        name: "the second phantom point alone",
        axes: 1,
        count: 4,
        tuples: &[Expected {
            region: &[(0, 16384, 16384)],
            points: &[(1, 60, 0)],
        }],
        bytes: &[
            0x00, 0x01, 0x00, 0x0A, 0x00, 0x06, 0xA0, 0x00, 0x40, 0x00, 0x01, 0x00, 0x01, 0x00,
            0x3C, 0x80,
        ],
    },
    Case {
        name: "two points of four",
        axes: 1,
        count: 8,
        tuples: &[Expected {
            region: &[(0, 16384, 16384)],
            points: &[(0, 0, 0), (1, 50, 0)],
        }],
        bytes: &[
            0x00, 0x01, 0x00, 0x0A, 0x00, 0x08, 0xA0, 0x00, 0x40, 0x00, 0x02, 0x01, 0x00, 0x01,
            0x80, 0x00, 0x32, 0x81,
        ],
    },
    Case {
        name: "a negative peak, and deltas of words",
        axes: 1,
        count: 5,
        tuples: &[Expected {
            region: &[(-16384, -16384, 0)],
            points: &[(0, -200, 300)],
        }],
        bytes: &[
            0x00, 0x01, 0x00, 0x0A, 0x00, 0x09, 0xA0, 0x00, 0xC0, 0x00, 0x01, 0x00, 0x00, 0x40,
            0xFF, 0x38, 0x40, 0x01, 0x2C,
        ],
    },
    Case {
        name: "a region between the default and the end, on the first of two axes",
        axes: 2,
        count: 5,
        tuples: &[Expected {
            region: &[(0, 8192, 16384), (0, 0, 0)],
            points: &[(0, 10, -10)],
        }],
        // one tuple, headers to 4 + 4 + 4 + 4 + 4 = 20; size 3 + 2 + 2; peaks, starts, ends
        bytes: &[
            0x00, 0x01, 0x00, 0x14, 0x00, 0x07, 0xE0, 0x00, 0x20, 0x00, 0x00, 0x00, 0x00, 0x00,
            0x00, 0x00, 0x40, 0x00, 0x00, 0x00, 0x01, 0x00, 0x00, 0x00, 0x0A, 0x00, 0xF6,
        ],
    },
    Case {
        name: "a region that ends early, on the second of two axes",
        axes: 2,
        count: 5,
        tuples: &[Expected {
            region: &[(0, 16384, 16384), (-12288, -8192, -4096)],
            points: &[(4, 1, 2)],
        }],
        bytes: &[
            0x00, 0x01, 0x00, 0x14, 0x00, 0x07, 0xE0, 0x00, 0x40, 0x00, 0xE0, 0x00, 0x00, 0x00,
            0xD0, 0x00, 0x40, 0x00, 0xF0, 0x00, 0x01, 0x00, 0x04, 0x00, 0x01, 0x00, 0x02,
        ],
    },
    Case {
        name: "two tuples, headers first",
        axes: 1,
        count: 4,
        tuples: &[
            Expected {
                region: &[(0, 8192, 16384)],
                points: &[(1, 60, 0)],
            },
            Expected {
                region: &[(0, 16384, 16384)],
                points: &[(0, 0, 1), (1, 2, 0), (2, 0, 0), (3, 0, 0)],
            },
        ],
        // headers to 4 + 10 + 6 = 20
        bytes: &[
            0x00, 0x02, 0x00, 0x14, 0x00, 0x06, 0xE0, 0x00, 0x20, 0x00, 0x00, 0x00, 0x40, 0x00,
            0x00, 0x08, 0xA0, 0x00, 0x40, 0x00, 0x01, 0x00, 0x01, 0x00, 0x3C, 0x80, 0x00, 0x80,
            0x00, 0x02, 0x81, 0x00, 0x01, 0x82,
        ],
    },
];

/// The tuple that is expected.
fn tuple_of(alloc: Global, expected: &Expected) -> Result<Tuple, NoMemory> {
    let mut support = ArrayVec::new();
    for &(start, peak, end) in expected.region {
        if support.len() < 8 {
            support.push(Triple {
                start: Fix::from_raw(start),
                peak: Fix::from_raw(peak),
                end: Fix::from_raw(end),
            });
        }
    }
    let mut points = Seq::new(alloc);
    let mut deltas = Seq::new(alloc);
    for &(point, x, y) in expected.points {
        points.push(point)?;
        deltas.push(Pair { x, y })?;
    }
    Ok(Tuple {
        support,
        points,
        deltas,
    })
}

/// The tuples that are expected.
pub(crate) fn tuples_of(alloc: Global, expected: &[Expected]) -> Result<Seq<Tuple>, NoMemory> {
    let mut tuples = Seq::new(alloc);
    for tuple in expected {
        tuples.push(tuple_of(alloc, tuple)?)?;
    }
    Ok(tuples)
}

/// The slow reader finds the tuples in the bytes.
pub(crate) fn reads_back(
    rt: &impl Abort,
    alloc: Global,
    axes: u16,
    count: u16,
    tuples: &[Tuple],
    bytes: &[u8],
) -> Result<(), Fail> {
    let peaks = Seq::new(alloc);
    let read = read_tuples(alloc, axes, count, &peaks, bytes)?.ok_or("no reading")?;
    assert_eq!(rt; read.len(), tuples.len());
    for (read, written) in read.as_slice().iter().zip(tuples) {
        assert_eq!(rt; read.region.as_slice(), written.support.as_slice());
        assert_eq!(rt; read.points.as_slice(), written.points.as_slice());
        assert_eq!(rt; read.deltas.as_slice(), written.deltas.as_slice());
    }
    Ok(())
}

#[test]
fn bytes_by_hand(rt: HostRuntime) -> Result<(), Fail> {
    for case in &CASES {
        let tuples = tuples_of(rt.alloc(), case.tuples)?;
        let axes = u32::from(case.axes);
        assert!(rt; are_tuples_of(axes, case.count, tuples.as_slice()));
        let bytes = glyph_data(rt.alloc(), axes, case.count, &tuples)?;
        assert_eq!(rt; bytes.as_slice(), case.bytes, "{}", case.name);
        reads_back(
            &rt,
            rt.alloc(),
            case.axes,
            case.count,
            tuples.as_slice(),
            &bytes,
        )?;
    }
    Ok(())
}

/// One tuple that names so many points of 4,004 on eight axes, each with a word in x and in y.
fn many_points(alloc: Global, count: u16) -> Result<Tuple, NoMemory> {
    let mut support = ArrayVec::new();
    for _ in 0..8 {
        if support.len() < 8 {
            support.push(Triple {
                start: Fix::from_raw(0),
                peak: Fix::from_raw(8192),
                end: Fix::from_raw(16384),
            });
        }
    }
    let mut points = Seq::new(alloc);
    let mut deltas = Seq::new(alloc);
    for point in 0..count {
        points.push(point)?;
        deltas.push(Pair { x: 300, y: -300 })?;
    }
    Ok(Tuple {
        support,
        points,
        deltas,
    })
}

#[test]
fn as_many_points_as_there_may_be(rt: HostRuntime) -> Result<(), Fail> {
    for count in [4003, 4004] {
        let mut tuples = Seq::new(rt.alloc());
        tuples.push(many_points(rt.alloc(), count)?)?;
        assert!(rt; are_tuples_of(8, 4004, tuples.as_slice()));
        let bytes = glyph_data(rt.alloc(), 8, 4004, &tuples)?;
        // 4 + 4 + 3 * 16 before the packed part; 63 runs of words for each of x and y; 4,003 points are
        // listed in two bytes and 32 runs of bytes, 4,004 are all
        let points = if count == 4003 { 2 + 4003 + 32 } else { 1 };
        let len = 56 + points + 2 * (2 * usize::from(count) + 63);
        assert_eq!(rt; bytes.len(), len);
        reads_back(&rt, rt.alloc(), 8, 4004, tuples.as_slice(), &bytes)?;
    }
    Ok(())
}

#[test]
fn one_spelling_is_a_law() {
    spelling_law();
}
