use crate::Field::{Int16, Int32, Int64, Tag, Uint8, Uint16, Uint32};
use crate::{put_bytes, put_fields, put_i16, put_i32, put_i64, put_u8, put_u16, put_u32, sum32};
use std::test::*;

#[test]
fn fields_by_hand(rt: HostRuntime) -> Result<(), Fail> {
    let mut out = Vec::new(rt.alloc());
    put_u8(&mut out, 0xFE)?;
    put_u16(&mut out, 0x1234)?;
    put_i16(&mut out, -2)?;
    put_u32(&mut out, 0x89AB_CDEF)?;
    put_i32(&mut out, -256)?;
    put_i64(&mut out, -1_000_000_000_000)?;
    put_bytes(&mut out, b"gvar")?;
    let by_hand = [
        0xFE, 0x12, 0x34, 0xFF, 0xFE, 0x89, 0xAB, 0xCD, 0xEF, 0xFF, 0xFF, 0xFF, 0x00, 0xFF, 0xFF,
        0xFF, 0x17, 0x2B, 0x5A, 0xF0, 0x00, 0x67, 0x76, 0x61, 0x72,
    ];
    assert_eq!(rt; out.as_slice(), by_hand.as_slice());

    let mut listed = Vec::new(rt.alloc());
    let fields = [
        Uint8(0xFE),
        Uint16(0x1234),
        Int16(-2),
        Uint32(0x89AB_CDEF),
        Int32(-256),
        Int64(-1_000_000_000_000),
        Tag(*b"gvar"),
    ];
    put_fields(&mut listed, &fields)?;
    assert_eq!(rt; listed.as_slice(), by_hand.as_slice());
    Ok(())
}

/// Bytes and their sum, worked out by hand.
struct Case {
    bytes: &'static [u8],
    sum: u32,
}

const CASES: [Case; 8] = [
    Case { bytes: &[], sum: 0 },
    Case {
        bytes: &[0x12],
        sum: 0x1200_0000,
    },
    Case {
        bytes: &[0x12, 0x34],
        sum: 0x1234_0000,
    },
    Case {
        bytes: &[0x12, 0x34, 0x56],
        sum: 0x1234_5600,
    },
    Case {
        bytes: &[0x12, 0x34, 0x56, 0x78],
        sum: 0x1234_5678,
    },
    Case {
        bytes: &[0x12, 0x34, 0x56, 0x78, 0x01],
        sum: 0x1334_5678,
    },
    Case {
        bytes: &[0xFF, 0xFF, 0xFF, 0xFF, 0x00, 0x00, 0x00, 0x02],
        sum: 1,
    },
    Case {
        bytes: &[0xFF, 0xFF, 0xFF, 0xFE, 0x03],
        sum: 0x02FF_FFFE,
    },
];

#[test]
fn sums_by_hand(rt: HostRuntime) -> Result<(), Fail> {
    for case in &CASES {
        assert_eq!(rt; sum32(case.bytes), case.sum);
    }
    Ok(())
}
