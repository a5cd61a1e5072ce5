//! The bytes of stores, worked out by hand, and what a plain reader finds in them.

use crate::{are_rows, store};
use arrayvec::ArrayVec;
use basics::{NoMemory, Seq};
use fixpoint::Fix;
use region_support::{Support, Triple};
use std::alloc::Global;
use std::test::*;

/// A store: of each region and axis start, peak and end, the rows, and the bytes.
struct Case {
    axes: u16,
    regions: &'static [&'static [(i16, i16, i16)]],
    rows: &'static [&'static [i16]],
    bytes: &'static [u8],
}

const CASES: [Case; 4] = [
    Case {
        axes: 1,
        regions: &[&[(0, 16384, 16384)]],
        rows: &[&[0], &[50], &[60]],
        bytes: &[
            0x00, 0x01, 0x00, 0x00, 0x00, 0x0C, 0x00, 0x01, 0x00, 0x00, 0x00, 0x16, 0x00, 0x01,
            0x00, 0x01, 0x00, 0x00, 0x40, 0x00, 0x40, 0x00, 0x00, 0x03, 0x00, 0x01, 0x00, 0x01,
            0x00, 0x00, 0x00, 0x00, 0x00, 0x32, 0x00, 0x3C,
        ],
    },
    Case {
        axes: 2,
        regions: &[
            &[(0, 8192, 16384), (0, 0, 0)],
            &[(-16384, -16384, 0), (-12288, -8192, -1)],
            &[(0, 1, 2), (0, 16384, 16384)],
        ],
        rows: &[&[-200, 300, 1], &[32767, -32768, -1]],
        // the region list has 4 + 3 * 2 * 6 bytes from 12 on
        bytes: &[
            0x00, 0x01, 0x00, 0x00, 0x00, 0x0C, 0x00, 0x01, 0x00, 0x00, 0x00, 0x34, 0x00, 0x02,
            0x00, 0x03, 0x00, 0x00, 0x20, 0x00, 0x40, 0x00, 0x00, 0x00, 0x00, 0x00, 0x00, 0x00,
            0xC0, 0x00, 0xC0, 0x00, 0x00, 0x00, 0xD0, 0x00, 0xE0, 0x00, 0xFF, 0xFF, 0x00, 0x00,
            0x00, 0x01, 0x00, 0x02, 0x00, 0x00, 0x40, 0x00, 0x40, 0x00, 0x00, 0x02, 0x00, 0x03,
            0x00, 0x03, 0x00, 0x00, 0x00, 0x01, 0x00, 0x02, 0xFF, 0x38, 0x01, 0x2C, 0x00, 0x01,
            0x7F, 0xFF, 0x80, 0x00, 0xFF, 0xFF,
        ],
    },
    Case {
        axes: 8,
        regions: &[],
        rows: &[&[], &[]],
        bytes: &[
            0x00, 0x01, 0x00, 0x00, 0x00, 0x0C, 0x00, 0x01, 0x00, 0x00, 0x00, 0x10, 0x00, 0x08,
            0x00, 0x00, 0x00, 0x02, 0x00, 0x00, 0x00, 0x00,
        ],
    },
    Case {
        axes: 1,
        regions: &[&[(-16384, -16384, 0)]],
        rows: &[],
        bytes: &[
            0x00, 0x01, 0x00, 0x00, 0x00, 0x0C, 0x00, 0x01, 0x00, 0x00, 0x00, 0x16, 0x00, 0x01,
            0x00, 0x01, 0xC0, 0x00, 0xC0, 0x00, 0x00, 0x00, 0x00, 0x00, 0x00, 0x01, 0x00, 0x01,
            0x00, 0x00,
        ],
    },
];

/// A region, of which the first eight axes are taken.
fn support_of(axes: &[(i16, i16, i16)]) -> Support {
    let mut support = ArrayVec::new();
    for (start, peak, end) in axes {
        if support.len() < 8 {
            support.push(Triple {
                start: Fix::from_raw(i32::from(*start)),
                peak: Fix::from_raw(i32::from(*peak)),
                end: Fix::from_raw(i32::from(*end)),
            });
        }
    }
    support
}

fn supports_of(alloc: Global, case: &Case) -> Result<Seq<Support>, NoMemory> {
    let mut supports = Seq::new(alloc);
    for region in case.regions {
        supports.push(support_of(region))?;
    }
    Ok(supports)
}

fn rows_of(alloc: Global, case: &Case) -> Result<Seq<Seq<i32>>, NoMemory> {
    let mut rows = Seq::new(alloc);
    for numbers in case.rows {
        let mut row = Seq::new(alloc);
        for number in *numbers {
            row.push(i32::from(*number))?;
        }
        rows.push(row)?;
    }
    Ok(rows)
}

/// What is left of the bytes of a table.
#[derive(Drop)]
struct Rest<'a>(&'a [u8]);

impl<'a> Rest<'a> {
    /// The bytes from an offset on.
    fn after(bytes: &'a [u8], offset: u32) -> Option<Rest<'a>> {
        let offset = offset as usize;
        if offset <= bytes.len() {
            Some(Rest(&bytes[offset..]))
        } else {
            None
        }
    }

    fn word(&mut self) -> Option<u16> {
        match self.0 {
            [a, b, rest @ ..] => {
                self.0 = rest;
                Some(u16::from_be_bytes([*a, *b]))
            }
            _ => None,
        }
    }

    fn long(&mut self) -> Option<u32> {
        match self.0 {
            [a, b, c, d, rest @ ..] => {
                self.0 = rest;
                Some(u32::from_be_bytes([*a, *b, *c, *d]))
            }
            _ => None,
        }
    }

    /// Whether the next word is this number.
    fn is_next(&mut self, number: i16) -> bool {
        self.word() == Some(u16::from_be_bytes(number.to_be_bytes()))
    }
}

/// Whether the region list has the regions of the case.
fn has_regions(mut list: Rest<'_>, case: &Case) -> bool {
    if list.word() != Some(case.axes) || list.word().map(usize::from) != Some(case.regions.len()) {
        return false;
    }
    for region in case.regions {
        for (start, peak, end) in *region {
            if !(list.is_next(*start) && list.is_next(*peak) && list.is_next(*end)) {
                return false;
            }
        }
    }
    true
}

/// Whether the item variation data has the rows of the case, each with a word for each region, and ends there.
fn has_rows(mut own: Rest<'_>, case: &Case) -> bool {
    let counts = [case.rows.len(), case.regions.len(), case.regions.len()];
    for count in counts {
        if own.word().map(usize::from) != Some(count) {
            return false;
        }
    }
    for index in 0..case.regions.len() {
        if own.word().map(usize::from) != Some(index) {
            return false;
        }
    }
    for row in case.rows {
        for number in *row {
            if !own.is_next(*number) {
                return false;
            }
        }
    }
    own.0.is_empty()
}

/// Whether the store has what the case has, by its offsets.
fn reads_back(bytes: &[u8], case: &Case) -> Option<bool> {
    let mut header = Rest(bytes);
    let format = header.word()?;
    let list = Rest::after(bytes, header.long()?)?;
    let count = header.word()?;
    let own = Rest::after(bytes, header.long()?)?;
    Some(format == 1 && count == 1 && has_regions(list, case) && has_rows(own, case))
}

#[test]
fn stores_by_hand(rt: HostRuntime) -> Result<(), Fail> {
    for case in &CASES {
        let regions = supports_of(rt.alloc(), case)?;
        let rows = rows_of(rt.alloc(), case)?;
        let axes = u32::from(case.axes);
        assert!(rt; are_rows(axes, &regions, &rows));
        let bytes = store(rt.alloc(), axes, &regions, &rows)?;
        assert_eq!(rt; bytes.as_slice(), case.bytes);
        assert_eq!(rt; reads_back(&bytes, case), Some(true));
    }
    Ok(())
}
