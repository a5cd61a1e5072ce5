ghost use Rattle.std.specs.Prelude.{◌≡◌, ◌≤◌, ◌^◌, ◌<◌, ◌+◌, ◌*◌, length, min, IfOk, option_map};
ghost use Rattle.std.specs.Prelude.{encode_utf8};
ghost use Rattle.std.specs.Char.{digit_value, is_ascii_digit, is_ascii_hexdigit};
ghost use Rattle.std.specs.List.{list_all};
ghost use Rattle.std.specs.Str.Parse.{digits_value};
ghost use Rattle.markup_rules.specs.Reading.{allowed, character_of, content_of, number_of, number_reference, numbered, piece_at, reference_at, run_of};
ghost use Rattle.markup.specs.Views.{piece_bytes, text_bytes};
ghost use Rattle.basics.specs.Optional.{Agrees};

use crate::bytes::{as_text, plain_text, split_literal};
use crate::searches::index_of;
use crate::text::{Piece, Text};
use basics::NoMemory;
use std::alloc::Global;

/// One past the greatest character: where a number stops to count.
const CAP: u32 = 0x11_0000;

/// What a digit stands for, in any radix: 36 for a byte that is no digit.
fn digit_value(digit: u8) -> u32
    ensures { result ≡ digit_value digit }
{
    match digit {
        b'0'..=b'9' => u32::from(digit - b'0'),
        b'A'..=b'Z' => u32::from(digit - b'A') + 10,
        b'a'..=b'z' => u32::from(digit - b'a') + 10,
        _ => 36,
    }
}

/// The number with one more digit, or `CAP` where it is greater.
fn with_digit(number: u32, radix: u32, digit: u8) -> u32
    requires size { number ≤ 0x11_0000 }
    requires small { radix ≤ 16 }
    ensures { result ≡ min (number * radix + digit_value digit) 0x11_0000 }
{
    (number * radix + digit_value(digit)).min(CAP)
}

/// The number that digits write, or `CAP` where it is greater.
fn number_up_to_cap(radix: u32, digits: &[u8]) -> u32
    requires some { 1 ≤ radix }
    requires small { radix ≤ 16 }
    ensures { result ≡ min (digits_value radix digits.now) 0x11_0000 }
{
    let mut number = 0;
    for digit in digits {
        number = with_digit(number, radix, *digit);
    }
    number
}

/// The character of a number, if it may stand in a source text: no control and no surrogate.
#[tactic(auto, unfolding(markup_rules::specs::Reading::allowed))]
fn allowed(number: u32) -> Option<char>
    ensures { Agrees (λ c. c) result (allowed number) }
{
    if number < 32 && number != 9 && number != 10 && number != 13 {
        return None;
    }
    char::from_u32(number)
}

/// Whether each byte is a decimal digit.
fn are_digits(bytes: &[u8]) -> bool
    ensures { result ≡ list_all is_ascii_digit bytes.now }
{
    bytes.iter().all(|byte| byte.is_ascii_digit())
}

/// Whether each byte is a hexadecimal digit.
fn are_hexadecimal_digits(bytes: &[u8]) -> bool
    ensures { result ≡ list_all is_ascii_hexdigit bytes.now }
{
    bytes.iter().all(|byte| byte.is_ascii_hexdigit())
}

/// The character whose number these decimal digits write.
#[tactic(auto, using(markup_rules::proofs::Numbers::allowed_capped), unfolding(markup_rules::specs::Reading::numbered))]
fn decimal(digits: &[u8]) -> Option<char>
    ensures { Agrees (λ c. c) result (numbered 10 is_ascii_digit digits.now) }
{
    if digits.is_empty() || !are_digits(digits) {
        return None;
    }
    allowed(number_up_to_cap(10, digits))
}

/// The character whose number these hexadecimal digits write.
#[tactic(auto, using(markup_rules::proofs::Numbers::allowed_capped), unfolding(markup_rules::specs::Reading::numbered))]
fn hexadecimal(digits: &[u8]) -> Option<char>
    ensures { Agrees (λ c. c) result (numbered 16 is_ascii_hexdigit digits.now) }
{
    if digits.is_empty() || !are_hexadecimal_digits(digits) {
        return None;
    }
    allowed(number_up_to_cap(16, digits))
}

/// The character of a number after `#`, in hexadecimal digits after `x`.
#[tactic(auto, unfolding(markup_rules::specs::Reading::number_of))]
fn number_of(bytes: &[u8]) -> Option<char>
    ensures { Agrees (λ c. c) result (number_of bytes.now) }
{
    match bytes {
        [] => None,
        [byte, digits @ ..] => {
            if *byte == b'x' {
                hexadecimal(digits)
            } else {
                decimal(bytes)
            }
        }
    }
}

/// The character of a reference by number.
#[tactic(auto, unfolding(markup_rules::specs::Reading::number_reference))]
fn number_reference(bytes: &[u8]) -> Option<char>
    ensures { Agrees (λ c. c) result (number_reference bytes.now) }
{
    match bytes {
        [] => None,
        [byte, number @ ..] => {
            if *byte == b'#' {
                number_of(number)
            } else {
                None
            }
        }
    }
}

/// The character of what stands between `&` and `;`.
#[tactic(auto, unfolding(markup_rules::specs::Reading::character_of))]
fn character_of(body: &[u8]) -> Option<char>
    ensures { Agrees (λ c. c) result (character_of body.now) }
{
    if body == b"amp".as_slice() {
        Some('&')
    } else if body == b"lt".as_slice() {
        Some('<')
    } else if body == b"gt".as_slice() {
        Some('>')
    } else if body == b"quot".as_slice() {
        Some('"')
    } else if body == b"apos".as_slice() {
        Some('\'')
    } else {
        number_reference(body)
    }
}

/// The character of the reference whose `&` stood before these bytes, and what follows its `;`.
#[tactic(auto, unfolding(markup_rules::specs::Reading::reference_at))]
fn reference_at(bytes: &[u8]) -> Option<(char, &[u8])>
    ensures { Agrees (λ found. (encode_utf8 found.0, found.1.now)) result (reference_at bytes.now) }
{
    let end = index_of(b';', bytes)?;
    let c = character_of(&bytes[..end])?;
    Some((c, &bytes[end + 1..]))
}

/// The run of characters at the start, one at least, and what follows it.
#[tactic(auto, unfolding(markup_rules::specs::Reading::run_of))]
fn run_of(bytes: &[u8]) -> Option<(&str, &[u8])>
    ensures { Agrees (λ found. (found.0.now, found.1.now)) result (run_of bytes.now) }
{
    let (run, rest) = split_literal(bytes);
    if run.is_empty() {
        return None;
    }
    let run = as_text(run)?;
    Some((run, rest))
}

/// The run or the reference at the start, and what follows it.
#[tactic(auto, unfolding(markup_rules::specs::Reading::piece_at))]
fn piece_at(bytes: &[u8]) -> Option<(Piece<'_>, &[u8])>
    ensures { Agrees (λ found. (piece_bytes found.0, found.1.now)) result (piece_at bytes.now) }
{
    match bytes {
        [] => None,
        [byte, rest @ ..] => {
            if *byte == b'&' {
                let (c, rest) = reference_at(rest)?;
                Some((Piece::Character(c), rest))
            } else {
                let (run, rest) = run_of(bytes)?;
                Some((Piece::Run(run), rest))
            }
        }
    }
}

/// What characters and references mean, piece by piece.
#[tactic(auto, unfolding(markup_rules::specs::Reading::content_of))]
fn content_by_pieces(alloc: Global, bytes: &[u8]) -> Result<Option<Text<'_>>, NoMemory>
    ensures { IfOk result (λ found. Agrees text_bytes found (content_of bytes.now)) }
{
    let mut text = Text::new();
    let mut rest = bytes;
    while !rest.is_empty() {
        let Some((piece, after)) = piece_at(rest) else {
            return Ok(None);
        };
        text.push_piece(alloc, piece)?;
        rest = after;
    }
    Ok(Some(text))
}

/// What characters and references mean, or None where a part is neither. It is borrowed where no reference
/// stands in it.
pub(crate) fn content_of(alloc: Global, bytes: &[u8]) -> Result<Option<Text<'_>>, NoMemory>
    ensures { IfOk result (λ found. Agrees text_bytes found (content_of bytes.now)) }
{
    match plain_text(bytes) {
        Some(text) => Ok(Some(Text::Borrowed(text))),
        None => content_by_pieces(alloc, bytes),
    }
}
