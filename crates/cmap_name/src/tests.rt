//! Small tables worked out by hand, and large ones read by a slow reader of the character map.
ghost use Rattle.std.specs.Prelude.{◌≡◌, ◌+◌, ◌*◌, ◌≤◌, length, All, IsTrue};
ghost use Rattle.std.specs.List.{sum_by};
ghost use Rattle.font_text.specs.Utf16.{utf16_length};
ghost use Rattle.cmap_name.specs.Codes.{AreCodes, IsCharacter, Rise};

use crate::{cmap, name};
use basics::{Name, Seq};
use font_text::utf16_length;
use std::alloc::Global;
use std::test::*;

/// Characters with their glyphs, and their table.
struct Map {
    codes: &'static [(u32, u16)],
    table: &'static [u8],
}

const MAPS: [Map; 3] = [
    // No character: the last segment alone.
    Map {
        codes: &[],
        table: &[
            0x00, 0x00, 0x00, 0x01, 0x00, 0x03, 0x00, 0x01, 0x00, 0x00, 0x00, 0x0C, 0x00, 0x04,
            0x00, 0x18, 0x00, 0x00, 0x00, 0x02, 0x00, 0x02, 0x00, 0x00, 0x00, 0x00, 0xFF, 0xFF,
            0x00, 0x00, 0xFF, 0xFF, 0x00, 0x01, 0x00, 0x00,
        ],
    },
    // A to C go together; U+0044 has a glyph that doesn't follow: 1 - 0x41, 9 - 0x44 and 10 - 0x3B1.
    Map {
        codes: &[(0x41, 1), (0x42, 2), (0x43, 3), (0x44, 9), (0x3B1, 10)],
        table: &[
            0x00, 0x00, 0x00, 0x01, 0x00, 0x03, 0x00, 0x01, 0x00, 0x00, 0x00, 0x0C, 0x00, 0x04,
            0x00, 0x30, 0x00, 0x00, 0x00, 0x08, 0x00, 0x08, 0x00, 0x02, 0x00, 0x00, 0x00, 0x43,
            0x00, 0x44, 0x03, 0xB1, 0xFF, 0xFF, 0x00, 0x00, 0x00, 0x41, 0x00, 0x44, 0x03, 0xB1,
            0xFF, 0xFF, 0xFF, 0xC0, 0xFF, 0xC5, 0xFC, 0x59, 0x00, 0x01, 0x00, 0x00, 0x00, 0x00,
            0x00, 0x00, 0x00, 0x00,
        ],
    },
    // Both subtables: 5 - 0x41, and 7 - 0xFFFE, which is 9 modulo 65536.
    Map {
        codes: &[
            (0x41, 5),
            (0x42, 6),
            (0xFFFE, 7),
            (0x1_0000, 8),
            (0x1_0001, 9),
            (0x10_FFFF, 65535),
        ],
        table: &[
            0x00, 0x00, 0x00, 0x02, 0x00, 0x03, 0x00, 0x01, 0x00, 0x00, 0x00, 0x14, 0x00, 0x03,
            0x00, 0x0A, 0x00, 0x00, 0x00, 0x3C, 0x00, 0x04, 0x00, 0x28, 0x00, 0x00, 0x00, 0x06,
            0x00, 0x04, 0x00, 0x01, 0x00, 0x02, 0x00, 0x42, 0xFF, 0xFE, 0xFF, 0xFF, 0x00, 0x00,
            0x00, 0x41, 0xFF, 0xFE, 0xFF, 0xFF, 0xFF, 0xC4, 0x00, 0x09, 0x00, 0x01, 0x00, 0x00,
            0x00, 0x00, 0x00, 0x00, 0x00, 0x0C, 0x00, 0x00, 0x00, 0x00, 0x00, 0x40, 0x00, 0x00,
            0x00, 0x00, 0x00, 0x00, 0x00, 0x04, 0x00, 0x00, 0x00, 0x41, 0x00, 0x00, 0x00, 0x42,
            0x00, 0x00, 0x00, 0x05, 0x00, 0x00, 0xFF, 0xFE, 0x00, 0x00, 0xFF, 0xFE, 0x00, 0x00,
            0x00, 0x07, 0x00, 0x01, 0x00, 0x00, 0x00, 0x01, 0x00, 0x01, 0x00, 0x00, 0x00, 0x08,
            0x00, 0x10, 0xFF, 0xFF, 0x00, 0x10, 0xFF, 0xFF, 0x00, 0x00, 0xFF, 0xFF,
        ],
    },
];

/// Names, and their table.
struct Names {
    names: &'static [(u16, &'static str)],
    table: &'static [u8],
}

const NAMES: [Names; 3] = [
    Names {
        names: &[],
        table: &[0x00, 0x00, 0x00, 0x00, 0x00, 0x06],
    },
    // Equal texts stand twice.
    Names {
        names: &[(1, "Q"), (6, "Q")],
        table: &[
            0x00, 0x00, 0x00, 0x02, 0x00, 0x1E, 0x00, 0x03, 0x00, 0x01, 0x04, 0x09, 0x00, 0x01,
            0x00, 0x02, 0x00, 0x00, 0x00, 0x03, 0x00, 0x01, 0x04, 0x09, 0x00, 0x06, 0x00, 0x02,
            0x00, 0x02, 0x00, 0x51, 0x00, 0x51,
        ],
    },
    // Latin, Cyrillic, and U+1F600 as the surrogates 0xD83D and 0xDE00.
    Names {
        names: &[(1, "Aé"), (2, "Жук"), (256, "a😀")],
        table: &[
            0x00, 0x00, 0x00, 0x03, 0x00, 0x2A, 0x00, 0x03, 0x00, 0x01, 0x04, 0x09, 0x00, 0x01,
            0x00, 0x04, 0x00, 0x00, 0x00, 0x03, 0x00, 0x01, 0x04, 0x09, 0x00, 0x02, 0x00, 0x06,
            0x00, 0x04, 0x00, 0x03, 0x00, 0x01, 0x04, 0x09, 0x01, 0x00, 0x00, 0x06, 0x00, 0x0A,
            0x00, 0x41, 0x00, 0xE9, 0x04, 0x16, 0x04, 0x43, 0x04, 0x3A, 0x00, 0x61, 0xD8, 0x3D,
            0xDE, 0x00,
        ],
    },
];

/// Whether the characters rise from this one on, and can all be in a map.
fn can_be_map(least: u32, codes: &[(u32, u16)]) -> bool
    ensures rise { IsTrue result → Rise least codes.now }
    ensures each { IsTrue result → All IsCharacter codes.now }
{
    match codes {
        [] => true,
        [(code, _), others @ ..] => {
            if *code < least || 0x10_FFFF < *code || *code == 0xFFFF {
                return false;
            }
            can_be_map(*code + 1, others)
        }
    }
}

/// Whether the ids rise from this one on, and the texts have room.
fn can_be_names(least: u32, room: usize, names: &[(u16, Name)]) -> bool
    ensures rise { IsTrue result → Rise least names.now }
    ensures small { IsTrue result → sum_by (λ own. 2 * utf16_length own.1) names.now ≤ room }
{
    match names {
        [] => true,
        [(id, text), others @ ..] => {
            let size = 2 * utf16_length(text.as_str());
            let id = u32::from(*id);
            if id < least || room < size {
                return false;
            }
            can_be_names(id + 1, room - size, others)
        }
    }
}

fn map_of(alloc: Global, codes: &Seq<(u32, u16)>) -> Option<Vec<u8>> {
    if !can_be_map(0, codes.as_slice()) {
        return None;
    }
    cmap(alloc, codes).ok()
}

fn names_of(alloc: Global, rows: &[(u16, &str)]) -> Option<Vec<u8>> {
    let mut names = Seq::new(alloc);
    for (id, text) in rows {
        names.push((*id, Name::from_str(alloc, text).ok()?)).ok()?;
    }
    if 1000 < names.len() || !can_be_names(0, 65535, names.as_slice()) {
        return None;
    }
    name(alloc, &names).ok()
}

/// A field of 16 bits, and one of 32.
fn word(bytes: &[u8], offset: usize) -> Option<u32> {
    let high = *bytes.get(offset)?;
    let low = *bytes.get(offset.checked_add(1)?)?;
    Some(u32::from(high) * 256 + u32::from(low))
}

fn long(bytes: &[u8], offset: usize) -> Option<u32> {
    let high = word(bytes, offset)?;
    let low = word(bytes, offset.checked_add(2)?)?;
    high.checked_mul(65536)?.checked_add(low)
}

/// Where the subtable of an encoding of Windows begins, or 0 where it isn't there.
fn subtable(bytes: &[u8], encoding: u32) -> Option<usize> {
    let count = word(bytes, 2)?;
    let mut offset = 4usize;
    for _ in 0..count {
        if word(bytes, offset)? == 3 && word(bytes, offset.checked_add(2)?)? == encoding {
            return Some(long(bytes, offset.checked_add(4)?)? as usize);
        }
        offset = offset.checked_add(8)?;
    }
    Some(0)
}

/// The glyph of a character by format 4, from the arrays one by one.
fn by_format_4(bytes: &[u8], start: usize, character: u32) -> Option<u32> {
    let doubled = word(bytes, start.checked_add(6)?)? as usize;
    let mut end = start.checked_add(14)?;
    for _ in 0..doubled / 2 {
        if character <= word(bytes, end)? {
            let first = end.checked_add(doubled)?.checked_add(2)?;
            let delta = first.checked_add(doubled)?;
            if character < word(bytes, first)? {
                return Some(0);
            }
            return Some(character.checked_add(word(bytes, delta)?)? % 65536);
        }
        end = end.checked_add(2)?;
    }
    Some(0)
}

/// The glyph of a character by format 12, group by group.
fn by_format_12(bytes: &[u8], start: usize, character: u32) -> Option<u32> {
    let count = long(bytes, start.checked_add(12)?)?;
    let mut group = start.checked_add(16)?;
    for _ in 0..count {
        let first = long(bytes, group)?;
        if first <= character && character <= long(bytes, group.checked_add(4)?)? {
            return long(bytes, group.checked_add(8)?)?.checked_add(character - first);
        }
        group = group.checked_add(12)?;
    }
    Some(0)
}

/// The glyphs of a character by each subtable that is there.
fn glyphs_of(bytes: &[u8], character: u32) -> Option<(Option<u32>, Option<u32>)> {
    let basic = subtable(bytes, 1)?;
    let whole = subtable(bytes, 10)?;
    let first = if basic == 0 {
        None
    } else {
        Some(by_format_4(bytes, basic, character)?)
    };
    let second = if whole == 0 {
        None
    } else {
        Some(by_format_12(bytes, whole, character)?)
    };
    Some((first, second))
}

/// The glyph of a character among these, or 0.
fn glyph_of(codes: &[(u32, u16)], character: u32) -> u32 {
    for (code, glyph) in codes {
        if *code == character {
            return u32::from(*glyph);
        }
    }
    0
}

/// Whether each subtable that is there gives a character this glyph, that of format 4 up to U+FFFE.
fn is_read(table: &[u8], character: u32, glyph: u32) -> bool {
    match glyphs_of(table, character) {
        Some((first, second)) => {
            let basic = if character <= 0xFFFE { glyph } else { 0 };
            first.unwrap_or(basic) == basic && second.unwrap_or(glyph) == glyph
        }
        None => false,
    }
}

#[test]
fn maps_by_hand(rt: HostRuntime) -> Result<(), Fail> {
    for row in &MAPS {
        let mut codes = Seq::new(rt.alloc());
        for code in row.codes {
            codes.push(*code)?;
        }
        let table = map_of(rt.alloc(), &codes).expect(&rt, "no table");
        assert_eq!(rt; table.as_slice(), row.table);
        for character in 0..0x400 {
            let glyph = glyph_of(row.codes, character);
            assert!(rt; is_read(&table, character, glyph), "{character}");
        }
        for (code, _) in row.codes {
            let around = [code.saturating_sub(1), *code, code.saturating_add(1)];
            for character in around {
                let glyph = glyph_of(row.codes, character);
                assert!(rt; is_read(&table, character, glyph), "{character}");
            }
        }
    }
    Ok(())
}

/// A map of so many characters none of which follows another: 0x20, 0x22 and so on, with the glyphs 0, 1 and so on.
fn apart(alloc: Global, count: u16) -> Option<Vec<u8>> {
    let mut codes = Seq::new(alloc);
    for glyph in 0..count {
        codes.push((2 * u32::from(glyph) + 0x20, glyph)).ok()?;
    }
    map_of(alloc, &codes)
}

/// The glyph of a character of that map.
fn glyph_apart(character: u32, count: u16) -> u32 {
    if character < 0x20 || character % 2 == 1 {
        return 0;
    }
    let glyph = (character - 0x20) / 2;
    if glyph < u32::from(count) { glyph } else { 0 }
}

/// All characters that format 4 names, each with its glyph, segment by segment.
fn named_by_format_4(alloc: Global, bytes: &[u8], start: usize) -> Option<Vec<(u32, u32)>> {
    let doubled = word(bytes, start.checked_add(6)?)? as usize;
    let mut named = Vec::new(alloc);
    let mut end = start.checked_add(14)?;
    for _ in 0..doubled / 2 {
        let first = end.checked_add(doubled)?.checked_add(2)?;
        let delta = word(bytes, first.checked_add(doubled)?)?;
        for character in word(bytes, first)?..word(bytes, end)?.checked_add(1)? {
            let glyph = character.checked_add(delta)? % 65536;
            named.push((character, glyph)).ok()?;
        }
        end = end.checked_add(2)?;
    }
    Some(named)
}

/// All characters that format 12 names, each with its glyph, group by group.
fn named_by_format_12(alloc: Global, bytes: &[u8], start: usize) -> Option<Vec<(u32, u32)>> {
    let count = long(bytes, start.checked_add(12)?)?;
    let mut named = Vec::new(alloc);
    let mut group = start.checked_add(16)?;
    for _ in 0..count {
        let first = long(bytes, group)?;
        let glyph = long(bytes, group.checked_add(8)?)?;
        for character in first..long(bytes, group.checked_add(4)?)?.checked_add(1)? {
            let own = glyph.checked_add(character.checked_sub(first)?)?;
            named.push((character, own)).ok()?;
        }
        group = group.checked_add(12)?;
    }
    Some(named)
}

/// Whether these are so many characters that stand apart, and then the others.
fn are_apart(named: &[(u32, u32)], count: u16, others: &[(u32, u32)]) -> bool {
    for glyph in 0..count {
        let expected = (2 * u32::from(glyph) + 0x20, u32::from(glyph));
        if named.get(usize::from(glyph)) != Some(&expected) {
            return false;
        }
    }
    named.get(usize::from(count)..) == Some(others)
}

#[test]
fn many_segments(rt: HostRuntime) {
    let alloc = rt.alloc();
    let most = apart(alloc, 8188).expect(&rt, "no table");
    assert!(rt; subtable(&most, 1) == Some(12) && subtable(&most, 10) == Some(0));
    let named = named_by_format_4(alloc, &most, 12).expect(&rt, "no segments");
    assert!(rt; are_apart(&named, 8188, &[(0xFFFF, 0)]));

    let more = apart(alloc, 8189).expect(&rt, "no table");
    assert!(rt; subtable(&more, 1) == Some(0) && subtable(&more, 10) == Some(12));
    let named = named_by_format_12(alloc, &more, 12).expect(&rt, "no groups");
    assert!(rt; are_apart(&named, 8189, &[]));

    for step in 0..8u32 {
        // From both ends of the characters, to beyond them.
        for character in [0x1E + step, 2345 * step, 16412 - step] {
            let glyph = Some(glyph_apart(character, 8188));
            assert!(rt;
                glyphs_of(&most, character) == Some((glyph, None)),
                "{character}"
            );
            let glyph = Some(glyph_apart(character, 8189));
            assert!(rt;
                glyphs_of(&more, character) == Some((None, glyph)),
                "{character}"
            );
        }
    }
}

#[test]
fn names_by_hand(rt: HostRuntime) {
    for row in &NAMES {
        let table = names_of(rt.alloc(), row.names).expect(&rt, "no table");
        assert_eq!(rt; table.as_slice(), row.table);
    }
}
