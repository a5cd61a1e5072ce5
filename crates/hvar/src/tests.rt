//! The bytes of tables, worked out by hand.

use crate::table;
use arrayvec::ArrayVec;
use basics::{NoMemory, Seq};
use fixpoint::Fix;
use item_var_store::are_rows;
use region_support::{Support, Triple};
use std::alloc::Global;
use std::test::*;

/// A table over regions on one axis, of each start, peak and end: the rows of the glyphs, and the bytes.
struct Case {
    regions: &'static [(i32, i32, i32)],
    rows: &'static [&'static [i32]],
    bytes: &'static [u8],
}

const CASES: [Case; 2] = [
    Case {
        regions: &[(0, 16384, 16384)],
        rows: &[&[0], &[50], &[60]],
        bytes: &[
            0x00, 0x01, 0x00, 0x00, 0x00, 0x00, 0x00, 0x14, 0x00, 0x00, 0x00, 0x00, 0x00, 0x00,
            0x00, 0x00, 0x00, 0x00, 0x00, 0x00, 0x00, 0x01, 0x00, 0x00, 0x00, 0x0C, 0x00, 0x01,
            0x00, 0x00, 0x00, 0x16, 0x00, 0x01, 0x00, 0x01, 0x00, 0x00, 0x40, 0x00, 0x40, 0x00,
            0x00, 0x03, 0x00, 0x01, 0x00, 0x01, 0x00, 0x00, 0x00, 0x00, 0x00, 0x32, 0x00, 0x3C,
        ],
    },
    Case {
        regions: &[(-16384, -16384, 0), (0, 16384, 16384)],
        rows: &[&[-20, 300]],
        bytes: &[
            0x00, 0x01, 0x00, 0x00, 0x00, 0x00, 0x00, 0x14, 0x00, 0x00, 0x00, 0x00, 0x00, 0x00,
            0x00, 0x00, 0x00, 0x00, 0x00, 0x00, 0x00, 0x01, 0x00, 0x00, 0x00, 0x0C, 0x00, 0x01,
            0x00, 0x00, 0x00, 0x1C, 0x00, 0x01, 0x00, 0x02, 0xC0, 0x00, 0xC0, 0x00, 0x00, 0x00,
            0x00, 0x00, 0x40, 0x00, 0x40, 0x00, 0x00, 0x01, 0x00, 0x02, 0x00, 0x02, 0x00, 0x00,
            0x00, 0x01, 0xFF, 0xEC, 0x01, 0x2C,
        ],
    },
];

fn regions_of(alloc: Global, case: &Case) -> Result<Seq<Support>, NoMemory> {
    let mut regions = Seq::new(alloc);
    for (start, peak, end) in case.regions {
        let mut support = ArrayVec::new();
        support.push(Triple {
            start: Fix::from_raw(*start),
            peak: Fix::from_raw(*peak),
            end: Fix::from_raw(*end),
        });
        regions.push(support)?;
    }
    Ok(regions)
}

fn rows_of(alloc: Global, case: &Case) -> Result<Seq<Seq<i32>>, NoMemory> {
    let mut rows = Seq::new(alloc);
    for numbers in case.rows {
        let mut row = Seq::new(alloc);
        for number in *numbers {
            row.push(*number)?;
        }
        rows.push(row)?;
    }
    Ok(rows)
}

#[test]
fn tables_by_hand(rt: HostRuntime) -> Result<(), Fail> {
    for case in &CASES {
        let regions = regions_of(rt.alloc(), case)?;
        let rows = rows_of(rt.alloc(), case)?;
        assert!(rt; are_rows(1, &regions, &rows));
        let bytes = table(rt.alloc(), 1, &regions, &rows)?;
        assert_eq!(rt; bytes.as_slice(), case.bytes);
    }
    Ok(())
}
