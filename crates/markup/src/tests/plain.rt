//! A reader as plain and slow as can be, after the words on source texts alone: the tree by descent through
//! the grammar, and the fault of a text without a tree item by item.

use std::alloc::{AllocError, Global};
use std::fmt::Write;

fn before(text: &[u8], at: usize) -> &[u8] {
    text.get(..at).unwrap_or(text)
}

fn beyond(text: &[u8], at: usize) -> &[u8] {
    text.get(at..).unwrap_or(&[])
}

// The first index of a mark, from an index on.
fn find(mark: &[u8], text: &[u8], start: usize) -> Option<usize> {
    for at in start..text.len() {
        if beyond(text, at).starts_with(mark) {
            return Some(at);
        }
    }
    None
}

fn is_blank(byte: u8) -> bool {
    matches!(byte, b' ' | b'\t' | b'\n' | b'\r')
}

fn is_name_start(byte: u8) -> bool {
    matches!(byte, b'A'..=b'Z' | b'a'..=b'z' | b'_' | b':' | 128..=255)
}

fn is_name_byte(byte: u8) -> bool {
    is_name_start(byte) || matches!(byte, b'0'..=b'9' | b'-' | b'.')
}

fn is_text(bytes: &[u8]) -> bool {
    bytes.iter().all(|byte| *byte >= 32 || is_blank(*byte)) && str::from_utf8(bytes).is_ok()
}

fn after_blanks(text: &[u8]) -> &[u8] {
    for (at, byte) in text.iter().enumerate() {
        if !is_blank(*byte) {
            return beyond(text, at);
        }
    }
    &[]
}

// The name at the start, and what follows it.
fn name(text: &[u8]) -> Option<(&str, &[u8])> {
    if !is_name_start(*text.first()?) {
        return None;
    }
    let mut end = text.len();
    for (at, byte) in text.iter().enumerate().rev() {
        if !is_name_byte(*byte) {
            end = at;
        }
    }
    Some((str::from_utf8(before(text, end)).ok()?, beyond(text, end)))
}

// What follows a comment or an instruction.
fn after_aside(text: &[u8]) -> Option<&[u8]> {
    if text.starts_with(b"<!--") {
        let end = find(b"-->", text, 4)?;
        if find(b"--", before(text, end), 4).is_some() {
            return None;
        }
        return Some(beyond(text, end.saturating_add(3)));
    }
    if !text.starts_with(b"<?") {
        return None;
    }
    Some(beyond(text, find(b"?>", text, 2)?.saturating_add(2)))
}

fn after_misc(text: &[u8]) -> &[u8] {
    let mut rest = after_blanks(text);
    for _ in 0..text.len() {
        match after_aside(rest) {
            Some(more) => rest = after_blanks(more),
            None => return rest,
        }
    }
    rest
}

// What follows a document type.
fn after_doctype(text: &[u8]) -> Option<&[u8]> {
    if !text.starts_with(b"<!DOCTYPE") || !is_blank(*text.get(9)?) {
        return None;
    }
    for (at, byte) in text.iter().enumerate().skip(9) {
        match *byte {
            b'>' => return Some(beyond(text, at.saturating_add(1))),
            b'<' | b'[' => return None,
            _ => {}
        }
    }
    None
}

fn digit(byte: u8, radix: u32) -> Option<u32> {
    let value = match byte {
        b'0'..=b'9' => byte - b'0',
        b'a'..=b'f' => byte - b'a' + 10,
        b'A'..=b'F' => byte - b'A' + 10,
        _ => 255,
    };
    if u32::from(value) < radix {
        Some(u32::from(value))
    } else {
        None
    }
}

fn number(digits: &[u8], radix: u32) -> Option<char> {
    let mut number: u32 = 0;
    for byte in digits {
        number = number
            .checked_mul(radix)?
            .checked_add(digit(*byte, radix)?)?;
    }
    if number >= 32 || matches!(number, 9 | 10 | 13) {
        return char::from_u32(number);
    }
    None
}

// The character of what stands between `&` and `;`.
fn character(body: &[u8]) -> Option<char> {
    match body {
        b"amp" => Some('&'),
        b"lt" => Some('<'),
        b"gt" => Some('>'),
        b"quot" => Some('"'),
        b"apos" => Some('\''),
        [b'#', b'x', digits @ ..] => number(digits, 16),
        [b'#', digits @ ..] => number(digits, 10),
        _ => None,
    }
}

// Writes what characters and references mean, and answers whether each reference is one.
fn write_meaning(out: &mut String, bytes: &[u8]) -> Result<bool, AllocError> {
    let mut rest = bytes;
    for _ in 0..bytes.len() {
        let Some(start) = find(b"&", rest, 0) else {
            break;
        };
        let Some(end) = find(b";", rest, start) else {
            return Ok(false);
        };
        let Some(c) = character(beyond(before(rest, end), start.saturating_add(1))) else {
            return Ok(false);
        };
        out.push_str(str::from_utf8(before(rest, start)).unwrap_or("?"))?;
        out.push(c)?;
        rest = beyond(rest, end.saturating_add(1));
    }
    out.push_str(str::from_utf8(rest).unwrap_or("?"))?;
    Ok(true)
}

// The name and the value of an attribute as they stand, and what follows.
fn attribute(text: &[u8]) -> Option<(&str, &[u8], &[u8])> {
    let (name, rest) = name(text)?;
    let rest = after_blanks(after_blanks(rest).strip_prefix(b"=")?);
    let quote = *rest.first()?;
    if quote != b'"' && quote != b'\'' {
        return None;
    }
    let end = find(&[quote], rest, 1)?;
    let value = beyond(before(rest, end), 1);
    if find(b"<", value, 0).is_some() {
        return None;
    }
    Some((name, value, beyond(rest, end.saturating_add(1))))
}

// Writes the attributes after a tag's name, of those with one name the first, and gives what follows.
fn write_attributes<'a>(
    alloc: Global,
    out: &mut String,
    text: &'a [u8],
) -> Result<Option<&'a [u8]>, AllocError> {
    let mut seen = Vec::new(alloc);
    let mut rest = text;
    for _ in 0..text.len() {
        let more = after_blanks(rest);
        if more.len() == rest.len() || matches!(more.first(), None | Some(b'/' | b'>')) {
            return Ok(Some(more));
        }
        let Some((name, value, after)) = attribute(more) else {
            return Ok(None);
        };
        let mut meaning = String::new(alloc);
        if !write_meaning(&mut meaning, value)? {
            return Ok(None);
        }
        if !seen.contains(&name) {
            seen.push(name)?;
            write!(out, " {name}={meaning}")?;
        }
        rest = after;
    }
    Ok(Some(rest))
}

// A start tag: its name, its attributes as they are written, whether the element is empty, and what follows.
#[derive(Drop)]
struct Tag<'a> {
    name: &'a str,
    attributes: String,
    is_empty: bool,
    rest: &'a [u8],
}

fn start_tag(alloc: Global, text: &[u8]) -> Result<Option<Tag<'_>>, AllocError> {
    let Some((name, rest)) = name(beyond(text, 1)) else {
        return Ok(None);
    };
    let mut attributes = String::new(alloc);
    let Some(rest) = write_attributes(alloc, &mut attributes, rest)? else {
        return Ok(None);
    };
    let is_empty = rest.starts_with(b"/");
    let rest = if is_empty { beyond(rest, 1) } else { rest };
    match rest {
        [b'>', rest @ ..] => Ok(Some(Tag {
            name,
            attributes,
            is_empty,
            rest,
        })),
        _ => Ok(None),
    }
}

// What follows an end tag of this name.
fn after_end<'a>(wanted: &str, text: &'a [u8]) -> Option<&'a [u8]> {
    let (name, rest) = name(text.strip_prefix(b"</")?)?;
    if name != wanted {
        return None;
    }
    after_blanks(rest).strip_prefix(b">")
}

// Writes an element of a text of so many bytes and with room for so many, one in another; gives what follows.
fn write_element<'a>(
    alloc: Global,
    room: usize,
    total: usize,
    text: &'a [u8],
    out: &mut String,
) -> Result<Option<&'a [u8]>, AllocError> {
    if room == 0 || !text.starts_with(b"<") {
        return Ok(None);
    }
    let Some(tag) = start_tag(alloc, text)? else {
        return Ok(None);
    };
    write!(
        out,
        "{}@{}{}|",
        tag.name,
        total.saturating_sub(text.len()),
        tag.attributes
    )?;
    if tag.is_empty {
        out.push_str("|{}")?;
        return Ok(Some(tag.rest));
    }
    let mut children = String::new(alloc);
    let mut rest = tag.rest;
    for _ in 0..text.len() {
        let next = if let Some(after) = after_end(tag.name, rest) {
            write!(out, "|{{{children}}}")?;
            return Ok(Some(after));
        } else if let Some(after) = after_aside(rest) {
            Some(after)
        } else if rest.starts_with(b"<") {
            write_element(alloc, room - 1, total, rest, &mut children)?
        } else if let Some(end) = find(b"<", rest, 0) {
            let is_right = write_meaning(out, before(rest, end))?;
            if is_right {
                Some(beyond(rest, end))
            } else {
                None
            }
        } else {
            None
        };
        match next {
            Some(after) => rest = after,
            None => return Ok(None),
        }
    }
    Ok(None)
}

// The text after the byte order mark.
fn after_mark(text: &[u8]) -> &[u8] {
    text.strip_prefix(b"\xEF\xBB\xBF").unwrap_or(text)
}

// The tree of a text as a line, if it has one.
fn tree(alloc: Global, text: &[u8]) -> Result<Option<String>, AllocError> {
    let mut rest = after_misc(after_mark(text));
    if let Some(after) = after_doctype(rest) {
        rest = after_misc(after);
    }
    let mut line = String::new(alloc);
    match write_element(alloc, 64, text.len(), rest, &mut line)? {
        Some(after) if after_misc(after).is_empty() && is_text(after_mark(text)) => Ok(Some(line)),
        _ => Ok(None),
    }
}

// Where the item at the start ends.
fn item_end(text: &[u8], is_inside: bool) -> Option<usize> {
    if text.starts_with(b"<!--") {
        return Some(find(b"-->", text, 4)?.saturating_add(3));
    }
    if text.starts_with(b"<?") {
        return Some(find(b"?>", text, 2)?.saturating_add(2));
    }
    if text.starts_with(b"<!") {
        return Some(find(b">", text, 2)?.saturating_add(1));
    }
    if text.starts_with(b"<") {
        return tag_end(text);
    }
    match find(b"<", text, 0) {
        None if !is_inside => Some(text.len()),
        end => end,
    }
}

// Where a tag ends: `>` stands for no open quote.
fn tag_end(text: &[u8]) -> Option<usize> {
    let mut quote = b'>';
    for (at, byte) in text.iter().enumerate().skip(1) {
        if *byte == b'<' {
            return Some(at);
        }
        if *byte == b'>' && quote == b'>' {
            return Some(at.saturating_add(1));
        }
        if *byte == quote {
            quote = b'>';
        } else if quote == b'>' && matches!(*byte, b'"' | b'\'') {
            quote = *byte;
        }
    }
    None
}

// The names of the open elements, and whether the root has ended and a document type has stood.
#[derive(Drop)]
struct Context<'a> {
    names: Vec<&'a str>,
    is_rooted: bool,
    is_declared: bool,
}

// Whether a tag is of a right form and may stand here, and where the next item stands.
fn takes_tag<'a>(
    alloc: Global,
    index: &mut Context<'a>,
    item: &'a [u8],
) -> Result<bool, AllocError> {
    if item.starts_with(b"</") {
        let is_right = match index.names.pop() {
            Some(name) => matches!(after_end(name, item), Some([])),
            None => false,
        };
        index.is_rooted = index.names.is_empty();
        return Ok(is_right);
    }
    match start_tag(alloc, item)? {
        Some(tag) if tag.rest.is_empty() && !index.is_rooted => {
            if !tag.is_empty {
                index.names.push(tag.name)?;
            }
            index.is_rooted = index.names.is_empty();
            Ok(true)
        }
        _ => Ok(false),
    }
}

// The same of any item.
fn takes<'a>(alloc: Global, index: &mut Context<'a>, item: &'a [u8]) -> Result<bool, AllocError> {
    let is_outside = index.names.is_empty();
    if !is_text(item) {
        Ok(false)
    } else if item.starts_with(b"<!--") || item.starts_with(b"<?") {
        Ok(matches!(after_aside(item), Some([])))
    } else if item.starts_with(b"<!") {
        let may_stand = is_outside && !index.is_rooted && !index.is_declared;
        index.is_declared = true;
        Ok(may_stand && matches!(after_doctype(item), Some([])))
    } else if item.starts_with(b"<") {
        takes_tag(alloc, index, item)
    } else if is_outside {
        Ok(after_blanks(item).is_empty())
    } else {
        write_meaning(&mut String::new(alloc), item)
    }
}

// The kind and the offset of the fault of a text without a tree.
fn fault(alloc: Global, text: &[u8]) -> Result<(&'static str, usize), AllocError> {
    let mut index = Context {
        names: Vec::new(alloc),
        is_rooted: false,
        is_declared: false,
    };
    let mut rest = after_mark(text);
    for _ in 0..text.len() {
        let at = text.len().saturating_sub(rest.len());
        let begins = matches!(rest, [b'<', next, ..] if is_name_start(*next));
        if begins && index.names.len() >= 64 {
            return Ok(("TooDeep", at));
        }
        if rest.is_empty() {
            break;
        }
        let Some(end) = item_end(rest, !index.names.is_empty()) else {
            break;
        };
        if !takes(alloc, &mut index, before(rest, end))? {
            return Ok(("BadText", at));
        }
        rest = beyond(rest, end);
    }
    Ok(("Unfinished", text.len()))
}

/// The tree of a text, or its fault, as a line.
pub(super) fn read_slowly(alloc: Global, text: &[u8]) -> Result<String, AllocError> {
    match tree(alloc, text)? {
        Some(line) => Ok(line),
        None => {
            let (kind, at) = fault(alloc, text)?;
            format!(in alloc; "{kind} {at}")
        }
    }
}
