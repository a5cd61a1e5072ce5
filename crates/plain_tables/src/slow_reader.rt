//! A plain reader of the tables with a record a glyph, written from the standard's words alone, for the tests to
//! compare with.

/// The number of two bytes at an offset.
fn word(bytes: &[u8], offset: usize) -> Option<u16> {
    let after = bytes.get(offset..)?;
    let [high, low, ..] = after else {
        return None;
    };
    Some(u16::from_be_bytes([*high, *low]))
}

/// The advance width and the left side bearing of a glyph, where `hmtx` has a record for each.
pub(crate) fn metric(hmtx: &[u8], glyph: u16) -> Option<(u16, i16)> {
    let offset = 4 * usize::from(glyph);
    let advance = word(hmtx, offset)?;
    let bearing = word(hmtx, offset + 2)?;
    Some((advance, i16::from_be_bytes(bearing.to_be_bytes())))
}

/// The name of a glyph in `post`, after its index among the names in the table.
pub(crate) fn name(post: &[u8], glyph: u16) -> Option<&[u8]> {
    let glyphs = usize::from(word(post, 32)?);
    let index = word(post, 34 + 2 * usize::from(glyph))?;
    let mut rest = post.get(34 + 2 * glyphs..)?;
    for _ in 0..index.checked_sub(258)? {
        let [size, after @ ..] = rest else {
            return None;
        };
        rest = after.get(usize::from(*size)..)?;
    }
    let [size, after @ ..] = rest else {
        return None;
    };
    after.get(..usize::from(*size))
}
