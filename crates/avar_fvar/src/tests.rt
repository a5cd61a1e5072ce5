//! The bytes of both tables, worked out by hand.
ghost use Rattle.std.specs.Prelude.{◌≡◌, length, IsTrue, All};

use crate::{AxisRecord, InstanceRecord, avar, fvar};
use basics::Seq;
use fixpoint::Fix;
use norm_loc::{AxisMap, Span};
use std::alloc::Global;

/// The raw number of a whole value.
const ONE: i32 = 65536;

/// An axis by raw numbers: its least value, default and greatest value, and the nodes of its map.
struct Axis {
    tag: &'static [u8; 4],
    limits: (i32, i32, i32),
    nodes: &'static [(i32, i32)],
    hidden: bool,
    name_id: u16,
}

/// An instance by raw numbers.
struct Instance {
    name_id: u16,
    user: &'static [i32],
}

/// A font's axes and instances, and both tables.
struct Case {
    axes: &'static [Axis],
    instances: &'static [Instance],
    avar: &'static [u8],
    fvar: &'static [u8],
}

/// 700 is 3/5 of the way from 400 to 900, so 9830, and 150 is 70/120 of the way from 80 to 200, so 9557.
const WEIGHT: Axis = Axis {
    tag: b"wght",
    limits: (100 * ONE, 400 * ONE, 900 * ONE),
    nodes: &[
        (100 * ONE, 20 * ONE),
        (400 * ONE, 80 * ONE),
        (700 * ONE, 150 * ONE),
        (900 * ONE, 200 * ONE),
    ],
    hidden: false,
    name_id: 256,
};

/// No map, and no values above the default.
const SLANT: Axis = Axis {
    tag: b"slnt",
    limits: (-20 * ONE, 0, 0),
    nodes: &[],
    hidden: true,
    name_id: 257,
};

/// Nodes on both sides, two of them off the axis: the design span is -10.488, 100, 450. 60.5 is 0.79 of the way from
/// 100 to 50, so -12943, and 10 is 0.81457 of the way from 100 to -10.488, so -13346; 150 is half of the way to 200, so
/// 8192, and 400 is 6/7 of the way to 450, so 14043.
const WIDTH: Axis = Axis {
    tag: b"XWD ",
    limits: (50 * ONE, 100 * ONE, 200 * ONE),
    nodes: &[
        (40 * ONE, -30 * ONE),
        (60 * ONE + ONE / 2, 10 * ONE),
        (100 * ONE, 100 * ONE),
        (150 * ONE, 400 * ONE),
        (250 * ONE, 500 * ONE),
    ],
    hidden: false,
    name_id: 65535,
};

const CASES: [Case; 3] = [
    Case {
        axes: &[WEIGHT],
        instances: &[],
        avar: &[
            0x00, 0x01, 0x00, 0x00, 0x00, 0x00, 0x00, 0x01, 0x00, 0x04, 0xC0, 0x00, 0xC0, 0x00,
            0x00, 0x00, 0x00, 0x00, 0x26, 0x66, 0x25, 0x55, 0x40, 0x00, 0x40, 0x00,
        ],
        fvar: &[
            0x00, 0x01, 0x00, 0x00, 0x00, 0x10, 0x00, 0x02, 0x00, 0x01, 0x00, 0x14, 0x00, 0x00,
            0x00, 0x08, 0x77, 0x67, 0x68, 0x74, 0x00, 0x64, 0x00, 0x00, 0x01, 0x90, 0x00, 0x00,
            0x03, 0x84, 0x00, 0x00, 0x00, 0x00, 0x01, 0x00,
        ],
    },
    Case {
        axes: &[WEIGHT, SLANT],
        instances: &[
            Instance {
                name_id: 258,
                user: &[700 * ONE, -12 * ONE - 1],
            },
            Instance {
                name_id: 2,
                user: &[i32::MIN, i32::MAX],
            },
        ],
        avar: &[
            0x00, 0x01, 0x00, 0x00, 0x00, 0x00, 0x00, 0x02, 0x00, 0x04, 0xC0, 0x00, 0xC0, 0x00,
            0x00, 0x00, 0x00, 0x00, 0x26, 0x66, 0x25, 0x55, 0x40, 0x00, 0x40, 0x00, 0x00, 0x03,
            0xC0, 0x00, 0xC0, 0x00, 0x00, 0x00, 0x00, 0x00, 0x40, 0x00, 0x40, 0x00,
        ],
        fvar: &[
            0x00, 0x01, 0x00, 0x00, 0x00, 0x10, 0x00, 0x02, 0x00, 0x02, 0x00, 0x14, 0x00, 0x02,
            0x00, 0x0C, 0x77, 0x67, 0x68, 0x74, 0x00, 0x64, 0x00, 0x00, 0x01, 0x90, 0x00, 0x00,
            0x03, 0x84, 0x00, 0x00, 0x00, 0x00, 0x01, 0x00, 0x73, 0x6C, 0x6E, 0x74, 0xFF, 0xEC,
            0x00, 0x00, 0x00, 0x00, 0x00, 0x00, 0x00, 0x00, 0x00, 0x00, 0x00, 0x01, 0x01, 0x01,
            0x01, 0x02, 0x00, 0x00, 0x02, 0xBC, 0x00, 0x00, 0xFF, 0xF3, 0xFF, 0xFF, 0x00, 0x02,
            0x00, 0x00, 0x80, 0x00, 0x00, 0x00, 0x7F, 0xFF, 0xFF, 0xFF,
        ],
    },
    Case {
        axes: &[WIDTH],
        instances: &[],
        avar: &[
            0x00, 0x01, 0x00, 0x00, 0x00, 0x00, 0x00, 0x01, 0x00, 0x05, 0xC0, 0x00, 0xC0, 0x00,
            0xCD, 0x71, 0xCB, 0xDE, 0x00, 0x00, 0x00, 0x00, 0x20, 0x00, 0x36, 0xDB, 0x40, 0x00,
            0x40, 0x00,
        ],
        fvar: &[
            0x00, 0x01, 0x00, 0x00, 0x00, 0x10, 0x00, 0x02, 0x00, 0x01, 0x00, 0x14, 0x00, 0x00,
            0x00, 0x08, 0x58, 0x57, 0x44, 0x20, 0x00, 0x32, 0x00, 0x00, 0x00, 0x64, 0x00, 0x00,
            0x00, 0xC8, 0x00, 0x00, 0x00, 0x00, 0xFF, 0xFF,
        ],
    },
];

fn axis_of(alloc: Global, row: &Axis) -> Option<AxisRecord> {
    let (min, default, max) = row.limits;
    let user = Span::new(
        Fix::from_raw(min),
        Fix::from_raw(default),
        Fix::from_raw(max),
    )?;
    let mut nodes = Seq::new(alloc);
    for (user, design) in row.nodes {
        let node = (Fix::from_raw(*user), Fix::from_raw(*design));
        nodes.push(node).ok()?;
    }
    Some(AxisRecord {
        tag: *row.tag,
        map: AxisMap::new(alloc, user, nodes).ok()?,
        hidden: row.hidden,
        name_id: row.name_id,
    })
}

fn instance_of(alloc: Global, row: &Instance) -> Option<InstanceRecord> {
    let mut user = Seq::new(alloc);
    for value in row.user {
        user.push(Fix::from_raw(*value)).ok()?;
    }
    Some(InstanceRecord {
        name_id: row.name_id,
        user,
    })
}

/// Whether each instance has one user value an axis.
fn is_each(instances: &[InstanceRecord], axes: usize) -> bool
    ensures { IsTrue result → All (λ instance. length instance.user ≡ axes) instances.now }
{
    for instance in instances {
        if instance.user.len() != axes {
            return false;
        }
    }
    true
}

/// Both tables of a font.
fn tables_of(alloc: Global, case: &Case) -> Option<(Vec<u8>, Vec<u8>)> {
    let mut axes = Seq::new(alloc);
    for row in case.axes {
        axes.push(axis_of(alloc, row)?).ok()?;
    }
    let mut instances = Seq::new(alloc);
    for row in case.instances {
        instances.push(instance_of(alloc, row)?).ok()?;
    }
    if axes.is_empty() || 8 < axes.len() || 256 < instances.len() {
        return None;
    }
    if !is_each(instances.as_slice(), axes.len()) {
        return None;
    }
    let first = avar(alloc, &axes).ok()?;
    Some((first, fvar(alloc, &axes, &instances).ok()?))
}

#[test]
fn tables_by_hand(rt: HostRuntime) {
    for case in &CASES {
        let tables = tables_of(rt.alloc(), case).expect(&rt, "no tables");
        assert_eq!(rt; tables.0.as_slice(), case.avar);
        assert_eq!(rt; tables.1.as_slice(), case.fvar);
    }
}
