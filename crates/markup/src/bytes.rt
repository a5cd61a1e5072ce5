ghost use Rattle.std.specs.Prelude.{◌≡◌, ◌≤◌, length, IfSome, Some};
ghost use Rattle.std.specs.List.{list_all};
ghost use Rattle.basics.specs.Bytes as runs;
ghost use Rattle.markup_rules.specs.Bytes as rules;
ghost use Rattle.std.specs.Char.{is_ascii};
ghost use Rattle.markup_rules.specs.Reading.{content_of};
ghost use Rattle.markup.specs.Views.{is_plain_ascii, is_unquoted, utf8_of};
ghost use Rattle.basics.specs.Bytes.{after_run, run_at};
ghost use Rattle.basics.specs.Optional.{Agrees};

// A byte that stands for itself in content.
const PLAIN: u8 = 1;

// A byte with which names begin.
const NAME_START: u8 = 2;

// A byte with which names go on.
const NAME: u8 = 4;

// A byte of ASCII that stands for itself in content.
const PLAIN_ASCII: u8 = 8;

// The same, but for the two quotes.
const UNQUOTED: u8 = 16;

// For each byte a character, whose low five bits are the flags above.
static CLASS: [u8; 256] = *b"\
    @@@@@@@@@YY@@Y@@@@@@@@@@@@@@@@@@\
    YYIYYY@IYYYYY]]Y]]]]]]]]]]_Y@YYY\
    Y__________________________YYYY_\
    Y__________________________YYYYY\
    GGGGGGGGGGGGGGGGGGGGGGGGGGGGGGGG\
    GGGGGGGGGGGGGGGGGGGGGGGGGGGGGGGG\
    GGGGGGGGGGGGGGGGGGGGGGGGGGGGGGGG\
    GGGGGGGGGGGGGGGGGGGGGGGGGGGGGGGG";

/// Whether the byte is a space, tab, line feed or carriage return.
pub(crate) fn is_blank(byte: u8) -> bool
    ensures { result ≡ runs.is_blank byte }
{
    byte == b' ' || byte == b'\t' || byte == b'\n' || byte == b'\r'
}

/// Whether the byte may stand in a source text: none below the space but the other three blanks.
pub(crate) fn is_character(byte: u8) -> bool
    ensures { result ≡ rules.is_character byte }
{
    byte >= b' ' || byte == b'\t' || byte == b'\n' || byte == b'\r'
}

/// Whether the byte stands for itself in content.
pub(crate) fn is_literal(byte: u8) -> bool
    ensures { result ≡ rules.is_literal byte }
{
    CLASS[byte as usize] & PLAIN != 0
}

/// Whether a name may begin with the byte.
pub(crate) fn is_name_start(byte: u8) -> bool
    ensures { result ≡ rules.is_name_start byte }
{
    CLASS[byte as usize] & NAME_START != 0
}

/// Whether a name may go on with the byte.
pub(crate) fn is_name_byte(byte: u8) -> bool
    ensures { result ≡ rules.is_name_byte byte }
{
    CLASS[byte as usize] & NAME != 0
}

/// Whether the byte may stand in a document type after its keyword.
fn is_doctype_byte(byte: u8) -> bool
    ensures { result ≡ rules.is_doctype_byte byte }
{
    is_character(byte) && byte != b'<' && byte != b'>' && byte != b'['
}

/// The most bytes that are told to be ASCII one by one. More are faster in whole words.
const SHORT: usize = 16;

/// Whether each byte is ASCII.
fn are_ascii(bytes: &[u8]) -> bool
    ensures { result ≡ list_all is_ascii bytes.now }
{
    bytes.iter().all(|byte| byte.is_ascii())
}

/// The bytes as text, if they are UTF-8.
#[tactic(auto, using(markup_rules::proofs::Utf8::utf8_true, markup_rules::proofs::Utf8::utf8_false, crate::proofs::Ascii::ascii_utf8))]
pub(crate) fn as_text(bytes: &[u8]) -> Option<&str>
    ensures { Agrees (λ text. text.now) result (utf8_of bytes.now) }
{
    if bytes.len() <= SHORT && are_ascii(bytes) {
        // ASCII is UTF-8.
        return Some(unsafe { str::from_utf8_unchecked(bytes) });
    }
    match str::from_utf8(bytes) {
        Ok(text) => Some(text),
        Err(_) => None,
    }
}

/// Whether the bytes are UTF-8.
#[tactic(auto, using(markup_rules::proofs::Utf8::utf8_true, markup_rules::proofs::Utf8::utf8_false))]
pub(crate) fn is_utf8(bytes: &[u8]) -> bool
    ensures { result ≡ Rattle.std.specs.Str.is_utf8 bytes.now }
{
    match str::from_utf8(bytes) {
        Ok(_) => true,
        Err(_) => false,
    }
}

/// Whether each byte may stand in a source text.
fn are_characters(bytes: &[u8]) -> bool
    ensures { result ≡ list_all rules.is_character bytes.now }
{
    bytes.iter().all(|byte| is_character(*byte))
}

/// Whether the bytes are characters of a source text.
pub(crate) fn is_text(bytes: &[u8]) -> bool
    ensures { result ≡ rules.is_text bytes.now }
{
    are_characters(bytes) && is_utf8(bytes)
}

/// Whether each byte is blank.
pub(crate) fn are_blanks(bytes: &[u8]) -> bool
    ensures { result ≡ list_all runs.is_blank bytes.now }
{
    bytes.iter().all(|byte| is_blank(*byte))
}

/// Whether a blank stands at the start.
pub(crate) fn starts_blank(bytes: &[u8]) -> bool
    ensures { result ≡ rules.starts_blank bytes.now }
{
    match bytes {
        [] => false,
        [byte, ..] => is_blank(*byte),
    }
}

/// Whether a byte with which names begin stands at the start.
pub(crate) fn starts_name(bytes: &[u8]) -> bool
    ensures { result ≡ rules.starts_name bytes.now }
{
    match bytes {
        [] => false,
        [byte, ..] => is_name_start(*byte),
    }
}

/// Whether each byte may stand in a document type.
fn are_doctype_bytes(bytes: &[u8]) -> bool
    ensures { result ≡ list_all rules.is_doctype_byte bytes.now }
{
    bytes.iter().all(|byte| is_doctype_byte(*byte))
}

/// Whether the bytes are what stands in a document type after its keyword.
pub(crate) fn is_doctype(bytes: &[u8]) -> bool
    ensures { result ≡ rules.is_doctype bytes.now }
{
    starts_blank(bytes) && are_doctype_bytes(bytes) && is_utf8(bytes)
}

/// The bytes without the blanks at their prefix.
pub(crate) fn after_blanks(bytes: &[u8]) -> &[u8]
    ensures { result.now ≡ after_run runs.is_blank bytes.now }
{
    for (index, byte) in bytes.iter().enumerate() {
        if !is_blank(*byte) {
            return &bytes[index..];
        }
    }
    &[]
}

/// How many bytes of names stand at the start.
fn name_length(bytes: &[u8]) -> usize
    ensures count { result ≡ length (run_at rules.is_name_byte bytes.now) }
    ensures within { result ≤ length bytes.now }
{
    for (index, byte) in bytes.iter().enumerate() {
        if !is_name_byte(*byte) {
            return index;
        }
    }
    bytes.len()
}

/// The bytes of names at the start, and what follows them.
#[tactic(auto, using(basics::proofs::Runs::prefix_of_run, basics::proofs::Runs::rest_of_run))]
pub(crate) fn split_name(bytes: &[u8]) -> (&[u8], &[u8])
    ensures prefix { result.0.now ≡ run_at rules.is_name_byte bytes.now }
    ensures rest { result.1.now ≡ after_run rules.is_name_byte bytes.now }
{
    let (prefix, rest) = bytes.split_at(name_length(bytes));
    (prefix, rest)
}

/// Whether the byte is ASCII and stands for itself in content.
fn is_plain_ascii(byte: u8) -> bool
    ensures { result ≡ is_plain_ascii byte }
{
    CLASS[byte as usize] & PLAIN_ASCII != 0
}

/// Whether the byte is ASCII, stands for itself in content, and is no quote.
fn is_unquoted(byte: u8) -> bool
    ensures { result ≡ is_unquoted byte }
{
    CLASS[byte as usize] & UNQUOTED != 0
}

/// How many bytes of ASCII that stand for themselves and are no quotes are at the start.
fn unquoted_length(bytes: &[u8]) -> usize
    ensures count { result ≡ length (run_at is_unquoted bytes.now) }
    ensures within { result ≤ length bytes.now }
{
    for (index, byte) in bytes.iter().enumerate() {
        if !is_unquoted(*byte) {
            return index;
        }
    }
    bytes.len()
}

/// The ASCII that stands for itself, without quotes, at the start, and what follows it.
#[tactic(auto, using(basics::proofs::Runs::prefix_of_run, basics::proofs::Runs::rest_of_run, crate::proofs::PlainValues::unquoted_utf8))]
pub(crate) fn split_unquoted(bytes: &[u8]) -> (&str, &[u8])
    ensures prefix { result.0.now ≡ run_at is_unquoted bytes.now }
    ensures rest { result.1.now ≡ after_run is_unquoted bytes.now }
{
    let (prefix, rest) = bytes.split_at(unquoted_length(bytes));
    // ASCII is UTF-8.
    (unsafe { str::from_utf8_unchecked(prefix) }, rest)
}

/// Whether each byte is ASCII and stands for itself.
fn are_plain_ascii(bytes: &[u8]) -> bool
    ensures { result ≡ list_all is_plain_ascii bytes.now }
{
    bytes.iter().all(|byte| is_plain_ascii(*byte))
}

/// The bytes as text, if each is ASCII and stands for itself.
#[tactic(auto, using(crate::proofs::PlainRuns::plain_utf8, crate::proofs::PlainRuns::content_plain))]
pub(crate) fn plain_text(bytes: &[u8]) -> Option<&str>
    ensures { IfSome result (λ text. content_of bytes.now ≡ Some text.now) }
{
    if are_plain_ascii(bytes) {
        // ASCII is UTF-8.
        Some(unsafe { str::from_utf8_unchecked(bytes) })
    } else {
        None
    }
}

/// How many bytes that stand for themselves are at the start.
fn literal_length(bytes: &[u8]) -> usize
    ensures count { result ≡ length (run_at rules.is_literal bytes.now) }
    ensures within { result ≤ length bytes.now }
{
    for (index, byte) in bytes.iter().enumerate() {
        if !is_literal(*byte) {
            return index;
        }
    }
    bytes.len()
}

/// The bytes at the start that stand for themselves, and what follows them.
#[tactic(auto, using(basics::proofs::Runs::prefix_of_run, basics::proofs::Runs::rest_of_run))]
pub(crate) fn split_literal(bytes: &[u8]) -> (&[u8], &[u8])
    ensures prefix { result.0.now ≡ run_at rules.is_literal bytes.now }
    ensures rest { result.1.now ≡ after_run rules.is_literal bytes.now }
{
    let (prefix, rest) = bytes.split_at(literal_length(bytes));
    (prefix, rest)
}
