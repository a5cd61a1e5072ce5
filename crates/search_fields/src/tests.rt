use crate::{SearchFields, search_fields};
use std::test::*;

/// So many records of a size, and their three fields, worked out by hand.
struct Case {
    size: u16,
    count: u16,
    fields: (u16, u16, u16),
}

const CASES: [Case; 9] = [
    Case {
        size: 16,
        count: 1,
        fields: (16, 0, 0),
    },
    Case {
        size: 16,
        count: 2,
        fields: (32, 1, 0),
    },
    Case {
        size: 16,
        count: 3,
        fields: (32, 1, 16),
    },
    Case {
        size: 16,
        count: 14,
        fields: (128, 3, 96),
    },
    Case {
        size: 16,
        count: 32,
        fields: (512, 5, 0),
    },
    // The example of OpenType, "cmap", format 4.
    Case {
        size: 2,
        count: 39,
        fields: (64, 5, 14),
    },
    Case {
        size: 2,
        count: 8189,
        fields: (8192, 12, 8186),
    },
    Case {
        size: 2,
        count: 32767,
        fields: (32768, 14, 32766),
    },
    Case {
        size: 1,
        count: 65535,
        fields: (32768, 15, 32767),
    },
];

#[test]
fn fields_by_hand(rt: HostRuntime) {
    for case in &CASES {
        let (search_range, entry_selector, range_shift) = case.fields;
        let expected = SearchFields {
            search_range,
            entry_selector,
            range_shift,
        };
        if case.count == 0 || 65535 < u32::from(case.size) * u32::from(case.count) {
            continue;
        }
        assert_eq!(rt; search_fields(case.size, case.count), expected);
    }
}
