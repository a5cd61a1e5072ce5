ghost use Rattle.std.specs.Prelude.{◌≡◌, ◌<◌, ◌≤◌, ◌+◌, length, IfSome, codes, drop};
ghost use Rattle.markup_rules.specs.Reading as rules;
ghost use Rattle.markup_rules.specs.Reading.{body_by, comment, instruction, declaration, tag_before, tag_by, data_by};
ghost use Rattle.markup.specs.Views.{item_view};
ghost use Rattle.basics.specs.Bytes.{begins, first_index, index_of};

use crate::bytes::starts_name;
use crate::searches::{begins, first_index, index_of};

/// An item of a source text, as a first look cuts it off.
#[derive(Clone, Copy)]
pub(crate) enum Item<'a> {
    /// What stands between `<!--` and `-->`.
    Comment(&'a [u8]),
    /// What stands between `<?` and `?>`.
    Instruction(&'a [u8]),
    /// What stands between any other `<!` and `>`.
    Declaration(&'a [u8]),
    /// What stands between any other `<` and the `>` outside quotes.
    Tag(&'a [u8]),
    /// A tag that the next `<` breaks off.
    Broken,
    /// An item that the end of the text breaks off.
    Unended,
    /// Characters up to a `<`.
    DataBetween(&'a [u8]),
    /// Characters up to the end of the text.
    DataToEnd(&'a [u8]),
}

/// A comment after `<!--`, and what follows it.
fn comment_at(bytes: &[u8]) -> (Item<'_>, &[u8])
    ensures { body_by comment 3 bytes.now (first_index (begins (codes "-->")) bytes.now) ≡ (item_view result.0, result.1.now) }
{
    match first_index(b"-->", bytes) {
        Some(end) => (Item::Comment(&bytes[..end]), &bytes[end + 3..]),
        None => (Item::Unended, &[]),
    }
}

/// An instruction after `<?`, and what follows it.
fn instruction_at(bytes: &[u8]) -> (Item<'_>, &[u8])
    ensures { body_by instruction 2 bytes.now (first_index (begins (codes "?>")) bytes.now) ≡ (item_view result.0, result.1.now) }
{
    match first_index(b"?>", bytes) {
        Some(end) => (Item::Instruction(&bytes[..end]), &bytes[end + 2..]),
        None => (Item::Unended, &[]),
    }
}

/// A declaration after `<!`, and what follows it.
fn declaration_at(bytes: &[u8]) -> (Item<'_>, &[u8])
    ensures { body_by declaration 1 bytes.now (index_of 62 bytes.now) ≡ (item_view result.0, result.1.now) }
{
    match index_of(b'>', bytes) {
        Some(end) => (Item::Declaration(&bytes[..end]), &bytes[end + 1..]),
        None => (Item::Unended, &[]),
    }
}

/// The quote that is open after one byte more.
fn quote_after(quote: Option<u8>, byte: u8) -> Option<u8>
    ensures { result ≡ rules.quote_after quote byte }
{
    match quote {
        None => {
            if byte == b'"' || byte == b'\'' {
                Some(byte)
            } else {
                None
            }
        }
        Some(open) => { if byte == open { None } else { Some(open) } }
    }
}

/// Whether the byte ends a tag, where this quote is open.
fn ends_tag(quote: Option<u8>, byte: u8) -> bool
    ensures { result ≡ rules.ends_tag quote byte }
{
    byte == b'<' || (byte == b'>' && quote.is_none())
}

/// The offset of the byte that ends a tag, after its `<`: the first `>` outside quotes, or the first `<`.
fn tag_end(bytes: &[u8]) -> Option<usize>
    ensures index { result ≡ rules.tag_end None bytes.now }
    ensures within { IfSome result (λ index. index < length bytes.now) }
{
    let mut quote = None;
    for (index, byte) in bytes.iter().enumerate() {
        if ends_tag(quote, *byte) {
            return Some(index);
        }
        quote = quote_after(quote, *byte);
    }
    None
}

/// A tag whose body is known, and what follows it.
fn tag_before<'a>(body: &'a [u8], bytes: &'a [u8]) -> (Item<'a>, &'a [u8])
    ensures { tag_before body.now bytes.now ≡ (item_view result.0, result.1.now) }
{
    match bytes {
        [] => (Item::Unended, &[]),
        [byte, rest @ ..] => {
            if *byte == b'<' {
                (Item::Broken, bytes)
            } else {
                (Item::Tag(body), rest)
            }
        }
    }
}

/// A tag after its `<`, and what follows it.
fn tag_at(bytes: &[u8]) -> (Item<'_>, &[u8])
    ensures { tag_by bytes.now (rules.tag_end None bytes.now) ≡ (item_view result.0, result.1.now) }
{
    match tag_end(bytes) {
        Some(end) => {
            let (body, rest) = bytes.split_at(end);
            tag_before(body, rest)
        }
        None => (Item::Unended, &[]),
    }
}

/// The item after a `<`, and what follows it.
#[tactic(auto, unfolding(markup_rules::specs::Reading::markup_at))]
fn markup_at(bytes: &[u8]) -> (Item<'_>, &[u8])
    ensures { rules.markup_at bytes.now ≡ (item_view result.0, result.1.now) }
{
    if begins(b"!--", bytes) {
        comment_at(&bytes[3..])
    } else if begins(b"?", bytes) {
        instruction_at(&bytes[1..])
    } else if begins(b"!", bytes) {
        declaration_at(&bytes[1..])
    } else {
        tag_at(bytes)
    }
}

/// Characters up to the next `<` or the end, and what follows them.
fn data_at(bytes: &[u8]) -> (Item<'_>, &[u8])
    ensures { data_by bytes.now (index_of 60 bytes.now) ≡ (item_view result.0, result.1.now) }
{
    match index_of(b'<', bytes) {
        Some(end) => {
            let (data, rest) = bytes.split_at(end);
            (Item::DataBetween(data), rest)
        }
        None => (Item::DataToEnd(bytes), &[]),
    }
}

/// The item at the start, and what follows it.
#[inline(always)]
#[tactic(auto, unfolding(markup_rules::specs::Reading::item_at))]
pub(crate) fn item_at(bytes: &[u8]) -> (Item<'_>, &[u8])
    ensures { rules.item_at bytes.now ≡ (item_view result.0, result.1.now) }
{
    match bytes {
        [] => (Item::Unended, &[]),
        [byte, rest @ ..] => {
            if *byte == b'<' {
                markup_at(rest)
            } else {
                data_at(bytes)
            }
        }
    }
}

/// Whether the bytes are `<` and a byte with which names begin.
pub(crate) fn opens(bytes: &[u8]) -> bool
    ensures { result ≡ rules.opens bytes.now }
{
    match bytes {
        [] => false,
        [byte, rest @ ..] => *byte == b'<' && starts_name(rest),
    }
}
