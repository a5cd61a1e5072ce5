//! Small fonts, whose bytes fontTools and a program apart from it make too; and a plain reader, which follows the
//! directory.
ghost use Rattle.std.specs.Prelude.{◌≤◌, length, map, IfOk};
ghost use Rattle.sfnt_write.specs.Tables.{CanBeFont, IsPlainHead, slice_of};

use crate::{Table, assemble, head_law, tables_law};
use basics::{NoMemory, Seq};
use be_bytes::Field::{Int16, Int64, Uint16, Uint32};
use be_bytes::put_fields;
use std::alloc::Global;
use std::test::Fail;

/// The bytes of the tables `OS/2` and `post` and the scale of `head`, and the pieces of the font.
struct Case {
    first: &'static [u8],
    scale: u32,
    last: &'static [u8],
    pieces: [&'static [u8]; 4],
}

const CASES: [Case; 3] = [
    Case {
        first: &[0x00, 0x04, 0xFF, 0xFE, 0x80, 0x01, 0x02],
        scale: 0x00010000,
        last: &[],
        pieces: [
            &[
                0x00, 0x01, 0x00, 0x00, 0x00, 0x03, 0x00, 0x20, 0x00, 0x01, 0x00, 0x10, 0x4F, 0x53,
                0x2F, 0x32, 0x80, 0x06, 0x01, 0xFE, 0x00, 0x00, 0x00, 0x3C, 0x00, 0x00, 0x00, 0x07,
                0x68, 0x65, 0x61, 0x64, 0x63, 0x15, 0x43, 0xAC, 0x00, 0x00, 0x00, 0x44, 0x00, 0x00,
                0x00, 0x36, 0x70, 0x6F, 0x73, 0x74, 0x00, 0x00, 0x00, 0x00, 0x00, 0x00, 0x00, 0x7C,
                0x00, 0x00, 0x00, 0x00,
            ],
            &[0x00, 0x04, 0xFF, 0xFE, 0x80, 0x01, 0x02, 0x00],
            &[
                0x00, 0x01, 0x00, 0x00, 0x00, 0x01, 0x00, 0x00, 0xC3, 0x4D, 0x1E, 0xF3, 0x5F, 0x0F,
                0x3C, 0xF5, 0x00, 0x03, 0x03, 0xE8, 0x00, 0x00, 0x00, 0x00, 0x00, 0x00, 0x00, 0x00,
                0x00, 0x00, 0x00, 0x00, 0x00, 0x00, 0x00, 0x00, 0xFF, 0xF4, 0xFF, 0x33, 0x04, 0x0A,
                0x03, 0x96, 0x00, 0x00, 0x00, 0x06, 0x00, 0x02, 0x00, 0x00, 0x00, 0x00, 0x00, 0x00,
            ],
            &[],
        ],
    },
    Case {
        first: &[0xFF, 0xFF, 0xFF, 0xFF, 0xFF, 0xFF, 0xFF, 0xFF, 0xFF],
        scale: 0x00018000,
        last: &[0xFE, 0xDC, 0xBA, 0x98, 0x76, 0x54],
        pieces: [
            &[
                0x00, 0x01, 0x00, 0x00, 0x00, 0x03, 0x00, 0x20, 0x00, 0x01, 0x00, 0x10, 0x4F, 0x53,
                0x2F, 0x32, 0xFE, 0xFF, 0xFF, 0xFE, 0x00, 0x00, 0x00, 0x3C, 0x00, 0x00, 0x00, 0x09,
                0x68, 0x65, 0x61, 0x64, 0x63, 0x15, 0xC3, 0xAC, 0x00, 0x00, 0x00, 0x48, 0x00, 0x00,
                0x00, 0x36, 0x70, 0x6F, 0x73, 0x74, 0x75, 0x30, 0xBA, 0x98, 0x00, 0x00, 0x00, 0x80,
                0x00, 0x00, 0x00, 0x06,
            ],
            &[
                0xFF, 0xFF, 0xFF, 0xFF, 0xFF, 0xFF, 0xFF, 0xFF, 0xFF, 0x00, 0x00, 0x00,
            ],
            &[
                0x00, 0x01, 0x00, 0x00, 0x00, 0x01, 0x80, 0x00, 0xDA, 0xF6, 0xAD, 0xB3, 0x5F, 0x0F,
                0x3C, 0xF5, 0x00, 0x03, 0x03, 0xE8, 0x00, 0x00, 0x00, 0x00, 0x00, 0x00, 0x00, 0x00,
                0x00, 0x00, 0x00, 0x00, 0x00, 0x00, 0x00, 0x00, 0xFF, 0xF4, 0xFF, 0x33, 0x04, 0x0A,
                0x03, 0x96, 0x00, 0x00, 0x00, 0x06, 0x00, 0x02, 0x00, 0x00, 0x00, 0x00, 0x00, 0x00,
            ],
            &[0xFE, 0xDC, 0xBA, 0x98, 0x76, 0x54, 0x00, 0x00],
        ],
    },
    Case {
        first: &[],
        scale: 0x0002E666,
        last: &[0x00, 0x02, 0x00, 0x00, 0xFF, 0x9C, 0x00, 0x32],
        pieces: [
            &[
                0x00, 0x01, 0x00, 0x00, 0x00, 0x03, 0x00, 0x20, 0x00, 0x01, 0x00, 0x10, 0x4F, 0x53,
                0x2F, 0x32, 0x00, 0x00, 0x00, 0x00, 0x00, 0x00, 0x00, 0x3C, 0x00, 0x00, 0x00, 0x00,
                0x68, 0x65, 0x61, 0x64, 0x63, 0x17, 0x2A, 0x12, 0x00, 0x00, 0x00, 0x3C, 0x00, 0x00,
                0x00, 0x36, 0x70, 0x6F, 0x73, 0x74, 0xFF, 0x9E, 0x00, 0x32, 0x00, 0x00, 0x00, 0x74,
                0x00, 0x00, 0x00, 0x08,
            ],
            &[],
            &[
                0x00, 0x01, 0x00, 0x00, 0x00, 0x02, 0xE6, 0x66, 0xC4, 0x19, 0x55, 0xCE, 0x5F, 0x0F,
                0x3C, 0xF5, 0x00, 0x03, 0x03, 0xE8, 0x00, 0x00, 0x00, 0x00, 0x00, 0x00, 0x00, 0x00,
                0x00, 0x00, 0x00, 0x00, 0x00, 0x00, 0x00, 0x00, 0xFF, 0xF4, 0xFF, 0x33, 0x04, 0x0A,
                0x03, 0x96, 0x00, 0x00, 0x00, 0x06, 0x00, 0x02, 0x00, 0x00, 0x00, 0x00, 0x00, 0x00,
            ],
            &[0x00, 0x02, 0x00, 0x00, 0xFF, 0x9C, 0x00, 0x32],
        ],
    },
];

/// The font of `head` alone, with scale 1.
const HEAD_ALONE: [&[u8]; 2] = [
    &[
        0x00, 0x01, 0x00, 0x00, 0x00, 0x01, 0x00, 0x10, 0x00, 0x00, 0x00, 0x00, 0x68, 0x65, 0x61,
        0x64, 0x63, 0x15, 0x43, 0xAC, 0x00, 0x00, 0x00, 0x1C, 0x00, 0x00, 0x00, 0x36,
    ],
    &[
        0x00, 0x01, 0x00, 0x00, 0x00, 0x01, 0x00, 0x00, 0x83, 0x1E, 0xC6, 0x9C, 0x5F, 0x0F, 0x3C,
        0xF5, 0x00, 0x03, 0x03, 0xE8, 0x00, 0x00, 0x00, 0x00, 0x00, 0x00, 0x00, 0x00, 0x00, 0x00,
        0x00, 0x00, 0x00, 0x00, 0x00, 0x00, 0xFF, 0xF4, 0xFF, 0x33, 0x04, 0x0A, 0x03, 0x96, 0x00,
        0x00, 0x00, 0x06, 0x00, 0x02, 0x00, 0x00, 0x00, 0x00, 0x00, 0x00,
    ],
];

/// The tags of the tables, and one that isn't there.
const OS2: u32 = 0x4F53_2F32;

const HEAD: u32 = 0x6865_6164;

const POST: u32 = 0x706F_7374;

const GLYF: u32 = 0x676C_7966;

/// A table `head` with this revision.
fn head_of(alloc: Global, scale: u32) -> Result<Vec<u8>, NoMemory>
    ensures { IfOk result (λ bytes. IsPlainHead bytes.items) }
{
    let mut bytes = Vec::new(alloc);
    let fields = [
        Uint16(1),
        Uint16(0),
        Uint32(scale),
        Uint32(0),
        Uint32(0x5F0F_3CF5),
        Uint16(3),
        Uint16(1000),
        Int64(0),
        Int64(0),
        Int16(-12),
        Int16(-205),
        Int16(1034),
        Int16(918),
        Uint16(0),
        Uint16(6),
        Int16(2),
        Int16(0),
        Int16(0),
    ];
    put_fields(&mut bytes, &fields)?;
    Ok(bytes)
}

/// Three tables of a font.
fn three(
    alloc: Global,
    first: Vec<u8>,
    head: Vec<u8>,
    last: Vec<u8>,
) -> Result<Seq<Table>, NoMemory>
    requires first { length first.items ≤ 1000 }
    requires head { IsPlainHead head.items }
    requires last { length last.items ≤ 1000 }
    ensures { IfOk result (λ tables. CanBeFont (map slice_of tables)) }
{
    let tables = vec![in alloc;
        Table {
            tag: *b"OS/2",
            bytes: first
        },
        Table {
            tag: *b"head",
            bytes: head
        },
        Table {
            tag: *b"post",
            bytes: last
        },
    ]?;
    Ok(Seq::from_vec(tables))
}

/// The one table of a font.
fn alone(alloc: Global, head: Vec<u8>) -> Result<Seq<Table>, NoMemory>
    requires { IsPlainHead head.items }
    ensures { IfOk result (λ tables. CanBeFont (map slice_of tables)) }
{
    let tables = vec![in alloc;
        Table {
            tag: *b"head",
            bytes: head
        },
    ]?;
    Ok(Seq::from_vec(tables))
}

/// The pieces of a font.
fn pieces_of(alloc: Global, case: &Case) -> Option<Seq<Vec<u8>>> {
    if 1000 < case.first.len() || 1000 < case.last.len() {
        return None;
    }
    let first = case.first.to_vec(alloc).ok()?;
    let last = case.last.to_vec(alloc).ok()?;
    let head = head_of(alloc, case.scale).ok()?;
    let tables = three(alloc, first, head, last).ok()?;
    assemble(alloc, tables).ok()
}

#[test]
fn pieces_by_hand(rt: HostRuntime) {
    for case in &CASES {
        let pieces = pieces_of(rt.alloc(), case).expect(&rt, "no pieces");
        assert_eq!(rt; pieces.len(), 4);
        for (index, piece) in pieces.as_slice().iter().enumerate() {
            let expected = case.pieces.get(index).expect(&rt, "a piece too many");
            assert_eq!(rt; piece.as_slice(), *expected);
        }
    }
}

#[test]
fn head_alone(rt: HostRuntime) -> Result<(), Fail> {
    let head = head_of(rt.alloc(), 0x0001_0000)?;
    let pieces = assemble(rt.alloc(), alone(rt.alloc(), head)?)?;
    assert_eq!(rt; pieces.len(), 2);
    for (index, piece) in pieces.as_slice().iter().enumerate() {
        let expected = HEAD_ALONE.get(index).expect(&rt, "a piece too many");
        assert_eq!(rt; piece.as_slice(), *expected);
    }
    Ok(())
}

/// The long number at an offset.
fn long_at(file: &[u8], offset: usize) -> Option<u32> {
    match file.get(offset..)? {
        [a, b, c, d, ..] => Some(u32::from_be_bytes([*a, *b, *c, *d])),
        _ => None,
    }
}

/// The table of a tag, by the directory.
fn table_of(file: &[u8], tag: u32) -> Option<&[u8]> {
    let count = long_at(file, 4)? >> 16;
    for index in 0..count as usize {
        let record = 12 + 16 * index;
        if long_at(file, record)? == tag {
            let offset = long_at(file, record + 8)? as usize;
            let size = long_at(file, record + 12)? as usize;
            return file.get(offset..offset + size);
        }
    }
    None
}

/// The sum of the words of a file, byte by byte.
fn sum_of(file: &[u8]) -> u32 {
    let mut sum = 0u32;
    for (index, byte) in file.iter().enumerate() {
        let word = match index % 4 {
            0 => u32::from(*byte) << 24,
            1 => u32::from(*byte) << 16,
            2 => u32::from(*byte) << 8,
            _ => u32::from(*byte),
        };
        sum = sum.wrapping_add(word);
    }
    sum
}

/// Whether the reader finds the tables of the row, and `head` but for its adjustment.
fn has_tables(file: &[u8], case: &Case, head: &[u8]) -> Option<bool> {
    let own = table_of(file, HEAD)?;
    let others = table_of(file, OS2)? == case.first
        && table_of(file, POST)? == case.last
        && table_of(file, GLYF).is_none();
    let same = own.get(..8)? == head.get(..8)? && own.get(12..)? == head.get(12..)?;
    Some(others && same)
}

/// The bytes of all pieces.
fn file_of(alloc: Global, case: &Case) -> Option<Vec<u8>> {
    let mut file = Vec::new(alloc);
    for piece in pieces_of(alloc, case)?.as_slice() {
        file.extend_from_slice(piece).ok()?;
    }
    Some(file)
}

#[test]
fn tables_by_the_directory(rt: HostRuntime) -> Result<(), Fail> {
    for case in &CASES {
        let file = file_of(rt.alloc(), case).expect(&rt, "no file");
        let head = head_of(rt.alloc(), case.scale)?;
        assert_eq!(rt; sum_of(&file), 0xB1B0_AFBA);
        assert_eq!(rt; has_tables(&file, case, &head), Some(true));
    }
    Ok(())
}

#[test]
fn what_is_given_is_there_is_a_law() {
    tables_law();
    head_law();
}
