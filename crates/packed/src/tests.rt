ghost use Rattle.std.specs.Prelude.{◌↔◌, ◌^◌, IsTrue, All, FitsSigned};
ghost use Rattle.std.specs.Int.{w16};
ghost use Rattle.variation_rules.specs.PackedPoints.{RisesWithin};

use crate::{pack_deltas, pack_points, spelling_law};
use basics::NoMemory;
use std::alloc::Global;
use std::test::*;

/// Whether the number has 16 bits.
fn is_word(value: i32) -> bool
    ensures { IsTrue result ↔ FitsSigned w16 value }
{
    (-32768..=32767).contains(&value)
}

/// Whether all numbers have 16 bits.
fn are_words(values: &[i32]) -> bool
    ensures { IsTrue result → All (FitsSigned w16) values.now }
{
    for &value in values {
        if !is_word(value) {
            return false;
        }
    }
    true
}

/// Whether the points rise.
fn rise(points: &[u16]) -> bool
    ensures { IsTrue result → RisesWithin 0 (2 ^ 16) points.now }
{
    let mut low = 0u32;
    let mut rest = points;
    while let [point, after @ ..] = rest {
        if u32::from(*point) < low {
            return false;
        }
        low = u32::from(*point) + 1;
        rest = after;
    }
    true
}

/// Points or deltas, and their bytes, worked out by hand.
struct Case<T: 'static> {
    name: &'static str,
    values: &'static [T],
    bytes: &'static [u8],
}

const POINTS: [Case<u16>; 8] = [
    Case {
        name: "the first point",
        values: &[0],
        bytes: &[0x01, 0x00, 0x00],
    },
    Case {
        name: "two points",
        values: &[0, 1],
        bytes: &[0x02, 0x01, 0x00, 0x01],
    },
    Case {
        name: "the last point that there may be",
        values: &[4003],
        bytes: &[0x01, 0x80, 0x0F, 0xA3],
    },
    Case {
        name: "the greatest difference of a byte",
        values: &[255],
        bytes: &[0x01, 0x00, 0xFF],
    },
    Case {
        name: "the least difference of a word",
        values: &[256],
        bytes: &[0x01, 0x80, 0x01, 0x00],
    },
    Case {
        name: "a byte, then a word",
        values: &[255, 511],
        bytes: &[0x02, 0x00, 0xFF, 0x80, 0x01, 0x00],
    },
    Case {
        name: "two words in a run",
        values: &[300, 600],
        bytes: &[0x02, 0x81, 0x01, 0x2C, 0x01, 0x2C],
    },
    Case {
        name: "a byte between words",
        values: &[300, 301, 700],
        bytes: &[0x03, 0x80, 0x01, 0x2C, 0x00, 0x01, 0x80, 0x01, 0x8F],
    },
];

const DELTAS: [Case<i32>; 9] = [
    Case {
        name: "no values",
        values: &[],
        bytes: &[],
    },
    Case {
        name: "zeros",
        values: &[0, 0, 0],
        bytes: &[0x82],
    },
    Case {
        name: "the ends of bytes",
        values: &[-128, 127, -1, 1],
        bytes: &[0x03, 0x80, 0x7F, 0xFF, 0x01],
    },
    Case {
        name: "the least words",
        values: &[-129, 128],
        bytes: &[0x41, 0xFF, 0x7F, 0x00, 0x80],
    },
    Case {
        name: "the greatest words",
        values: &[32767, -32768],
        bytes: &[0x41, 0x7F, 0xFF, 0x80, 0x00],
    },
    Case {
        name: "bytes between words",
        values: &[-129, -128, 127, 128],
        bytes: &[0x40, 0xFF, 0x7F, 0x01, 0x80, 0x7F, 0x40, 0x00, 0x80],
    },
    Case {
        name: "a word between bytes, and a zero",
        values: &[1, 300, 2, 0],
        bytes: &[0x00, 0x01, 0x40, 0x01, 0x2C, 0x00, 0x02, 0x80],
    },
    Case {
        name: "a zero between bytes",
        values: &[1, 0, 2],
        bytes: &[0x00, 0x01, 0x80, 0x00, 0x02],
    },
    Case {
        name: "a zero between words",
        values: &[300, 0, 300],
        bytes: &[0x40, 0x01, 0x2C, 0x80, 0x40, 0x01, 0x2C],
    },
];

#[test]
fn points_by_hand(rt: HostRuntime) -> Result<(), Fail> {
    for case in &POINTS {
        let points = case.values;
        assert!(rt; !points.is_empty() && points.len() <= 4004 && rise(points));
        let bytes = pack_points(rt.alloc(), points)?;
        assert_eq!(rt; bytes.as_slice(), case.bytes, "{}", case.name);
    }
    Ok(())
}

#[test]
fn deltas_by_hand(rt: HostRuntime) -> Result<(), Fail> {
    for case in &DELTAS {
        let deltas = case.values;
        assert!(rt; are_words(deltas));
        let bytes = pack_deltas(rt.alloc(), deltas)?;
        assert_eq!(rt; bytes.as_slice(), case.bytes, "{}", case.name);
    }
    Ok(())
}

/// So many points from the first one on, with one difference, and the prefix, the back and the number of
/// their bytes.
struct ManyPoints {
    name: &'static str,
    first: u16,
    difference: u16,
    count: usize,
    prefix: &'static [u8],
    back: &'static [u8],
    len: usize,
}

const MANY_POINTS: [ManyPoints; 5] = [
    ManyPoints {
        name: "the greatest count in one byte",
        first: 0,
        difference: 1,
        count: 127,
        prefix: &[0x7F, 0x7E, 0x00, 0x01],
        back: &[0x01],
        len: 129,
    },
    ManyPoints {
        name: "the least count in two bytes, and a full run",
        first: 0,
        difference: 1,
        count: 128,
        prefix: &[0x80, 0x80, 0x7F, 0x00, 0x01],
        back: &[0x01, 0x01],
        len: 131,
    },
    ManyPoints {
        name: "one more byte than a run holds",
        first: 0,
        difference: 1,
        count: 129,
        prefix: &[0x80, 0x81, 0x7F, 0x00, 0x01],
        back: &[0x01, 0x00, 0x01],
        len: 133,
    },
    ManyPoints {
        name: "one more word than a run holds",
        first: 256,
        difference: 256,
        count: 129,
        prefix: &[0x80, 0x81, 0xFF, 0x01, 0x00],
        back: &[0x01, 0x00, 0x80, 0x01, 0x00],
        len: 262,
    },
    ManyPoints {
        name: "as many points as there may be",
        first: 0,
        difference: 1,
        count: 4004,
        prefix: &[0x8F, 0xA4, 0x7F, 0x00, 0x01],
        back: &[0x01, 0x01],
        len: 4038,
    },
];

/// So many points from the first one on.
fn points_from(
    alloc: Global,
    first: u16,
    difference: u16,
    count: usize,
) -> Result<Vec<u16>, NoMemory> {
    let mut points = Vec::new(alloc);
    let mut point = first;
    for _ in 0..count {
        points.push(point)?;
        point = point.wrapping_add(difference);
    }
    Ok(points)
}

#[test]
fn many_points_by_hand(rt: HostRuntime) -> Result<(), Fail> {
    for case in &MANY_POINTS {
        let points = points_from(rt.alloc(), case.first, case.difference, case.count)?;
        assert!(rt; !points.is_empty() && points.len() <= 4004 && rise(&points));
        let bytes = pack_points(rt.alloc(), &points)?;
        assert_eq!(rt; bytes.len(), case.len, "{}", case.name);
        assert!(rt; bytes.starts_with(case.prefix), "{}", case.name);
        assert!(rt; bytes.ends_with(case.back), "{}", case.name);
    }
    Ok(())
}

/// One value so many times, and the prefix, the back and the number of their bytes.
struct ManyDeltas {
    name: &'static str,
    value: i32,
    count: usize,
    prefix: &'static [u8],
    back: &'static [u8],
    len: usize,
}

const MANY_DELTAS: [ManyDeltas; 6] = [
    ManyDeltas {
        name: "a full run of zeros",
        value: 0,
        count: 64,
        prefix: &[0xBF],
        back: &[0xBF],
        len: 1,
    },
    ManyDeltas {
        name: "one more zero than a run holds",
        value: 0,
        count: 65,
        prefix: &[0xBF, 0x80],
        back: &[0xBF, 0x80],
        len: 2,
    },
    ManyDeltas {
        name: "a full run of bytes",
        value: 1,
        count: 64,
        prefix: &[0x3F, 0x01],
        back: &[0x01, 0x01],
        len: 65,
    },
    ManyDeltas {
        name: "one more byte than a run holds",
        value: 1,
        count: 65,
        prefix: &[0x3F, 0x01],
        back: &[0x01, 0x00, 0x01],
        len: 67,
    },
    ManyDeltas {
        name: "one more word than a run holds",
        value: 300,
        count: 65,
        prefix: &[0x7F, 0x01, 0x2C],
        back: &[0x01, 0x2C, 0x40, 0x01, 0x2C],
        len: 132,
    },
    ManyDeltas {
        name: "as many words as a glyph may have points",
        value: 300,
        count: 4004,
        prefix: &[0x7F, 0x01, 0x2C],
        back: &[0x01, 0x2C, 0x01, 0x2C],
        len: 8071,
    },
];

#[test]
fn many_deltas_by_hand(rt: HostRuntime) -> Result<(), Fail> {
    for case in &MANY_DELTAS {
        let deltas: Vec<i32> = [case.value]
            .iter()
            .copied()
            .cycle()
            .take(case.count)
            .collect(rt.alloc())?;
        assert!(rt; are_words(&deltas));
        let bytes = pack_deltas(rt.alloc(), &deltas)?;
        assert_eq!(rt; bytes.len(), case.len, "{}", case.name);
        assert!(rt; bytes.starts_with(case.prefix), "{}", case.name);
        assert!(rt; bytes.ends_with(case.back), "{}", case.name);
    }
    Ok(())
}

#[test]
fn one_spelling_is_a_law() {
    spelling_law();
}
