//! A plain reader of the tables, written from the standard's words alone, for the tests to compare with.

use std::alloc::Global;

/// A point by its coordinates, whether it is on the curve, and whether it is the last of its contour.
pub(crate) type Dot = (i32, i32, bool, bool);

const ON_CURVE: u8 = 0x01;

const X_SHORT: u8 = 0x02;

const Y_SHORT: u8 = 0x04;

const REPEAT: u8 = 0x08;

const X_SAME: u8 = 0x10;

const Y_SAME: u8 = 0x20;

fn byte(bytes: &[u8]) -> Option<(u8, &[u8])> {
    let [first, rest @ ..] = bytes else {
        return None;
    };
    Some((*first, rest))
}

fn word(bytes: &[u8]) -> Option<(u16, &[u8])> {
    let [high, low, rest @ ..] = bytes else {
        return None;
    };
    Some((u16::from_be_bytes([*high, *low]), rest))
}

/// The words from the start, so many.
fn words(alloc: Global, bytes: &[u8], count: u16) -> Option<(Vec<u16>, &[u8])> {
    let mut words = Vec::new(alloc);
    let mut rest = bytes;
    for _ in 0..count {
        let (next, after) = word(rest)?;
        words.push(next).ok()?;
        rest = after;
    }
    Some((words, rest))
}

/// A flag, and how often it is repeated.
fn flag(bytes: &[u8]) -> Option<(u8, u8, &[u8])> {
    let (flag, rest) = byte(bytes)?;
    if flag & REPEAT == 0 {
        return Some((flag, 0, rest));
    }
    let (repeats, rest) = byte(rest)?;
    Some((flag, repeats, rest))
}

fn flags(alloc: Global, bytes: &[u8], count: usize) -> Option<(Vec<u8>, &[u8])> {
    let mut flags = Vec::new(alloc);
    let mut rest = bytes;
    let mut current = 0;
    let mut repeats = 0u8;
    for _ in 0..count {
        if repeats > 0 {
            repeats -= 1;
        } else {
            let (next, more, after) = flag(rest)?;
            current = next;
            repeats = more;
            rest = after;
        }
        flags.push(current).ok()?;
    }
    Some((flags, rest))
}

fn step(bytes: &[u8], short: bool, same: bool) -> Option<(i32, &[u8])> {
    if short {
        let (size, rest) = byte(bytes)?;
        let size = i32::from(size);
        return Some((if same { size } else { -size }, rest));
    }
    if same {
        return Some((0, bytes));
    }
    let [high, low, rest @ ..] = bytes else {
        return None;
    };
    Some((i32::from(i16::from_be_bytes([*high, *low])), rest))
}

fn coordinates<'a>(
    alloc: Global,
    bytes: &'a [u8],
    flags: &[u8],
    bits: (u8, u8),
) -> Option<(Vec<i32>, &'a [u8])> {
    let (short, same) = bits;
    let mut coordinates = Vec::new(alloc);
    let mut rest = bytes;
    let mut at = 0i32;
    for flag in flags {
        let (further, after) = step(rest, *flag & short != 0, *flag & same != 0)?;
        at = at.wrapping_add(further);
        rest = after;
        coordinates.push(at).ok()?;
    }
    Some((coordinates, rest))
}

/// The points of a glyph by its bytes.
pub(crate) fn dots(alloc: Global, bytes: &[u8]) -> Option<Vec<Dot>> {
    let mut dots = Vec::new(alloc);
    if bytes.is_empty() {
        return Some(dots);
    }
    let (contours, _) = word(bytes)?;
    let (lasts, rest) = words(alloc, bytes.get(10..)?, contours)?;
    let (size, rest) = word(rest)?;
    let count = lasts.last().map_or(0, |last| usize::from(*last) + 1);
    let (flags, rest) = flags(alloc, rest.get(usize::from(size)..)?, count)?;
    let (xs, rest) = coordinates(alloc, rest, &flags, (X_SHORT, X_SAME))?;
    let (ys, _) = coordinates(alloc, rest, &flags, (Y_SHORT, Y_SAME))?;
    for (i, flag) in flags.iter().enumerate() {
        let last = lasts.iter().any(|last| usize::from(*last) == i);
        let on = *flag & ON_CURVE != 0;
        dots.push((*xs.get(i)?, *ys.get(i)?, on, last)).ok()?;
    }
    Some(dots)
}

/// An offset of `loca`.
pub(crate) fn offset(loca: &[u8], long: bool, glyph: usize) -> Option<usize> {
    if long {
        let [a, b, c, d, ..] = loca.get(glyph.checked_mul(4)?..)? else {
            return None;
        };
        return Some(u32::from_be_bytes([*a, *b, *c, *d]) as usize);
    }
    let (half, _) = word(loca.get(glyph.checked_mul(2)?..)?)?;
    Some(usize::from(half) * 2)
}
