ghost use Rattle.fixpoint.specs.Rounding.{round_up};
ghost use Rattle.std.specs.Prelude.{take, slice_index_or, ◌≡◌, ◌↔◌, ℕ, pos, List, Some, min, length, ◌≤◌, ◌^◌, ◌+◌, ◌-◌, ◌*◌};
ghost use Rattle.std.specs.List.{list_all};
ghost use Rattle.std.specs.Char.{is_ascii_digit};
ghost use Rattle.fixpoint.specs.PartsView.{parts_view};
ghost use Rattle.fixpoint.specs.DecimalText.{Decimal, Spells, decimal_of, decimals_at, digits_at, filled, fix16_of, scaled, is_zero, number_after, signed_of, unsigned_of, whole_of, with_sign};
ghost use Rattle.basics.specs.Optional.{Agrees};
ghost use Rattle.basics.specs.Bytes.{after_run, is_blank, run_at};

use crate::number::Fix;
use basics::{after_blanks, are_blanks};

/// Why a text is no number of the kind that was asked for.
#[derive(Clone, Copy, Debug, PartialEq, Eq)]
pub enum NumberFault {
    /// The text isn't a decimal text.
    NotNumber,
    /// A decimal text with a decimal other than 0, where a whole number was asked for.
    NotWhole,
    /// The number is too great in size.
    NumberRange,
}

/// A number as it is written: the digits before the point and those after it, each an ASCII digit.
#[derive(Clone, Copy)]
struct Parts<'a> {
    is_negative: bool,
    whole: &'a [u8],
    decimals: &'a [u8],
}

/// Where the digits of a whole number stop to count: every greater number is out of range.
const CAP: u64 = 1 << 40;

/// How many decimals are read.
const DECIMALS: usize = 18;

/// The number 1 where 18 decimals are whole.
const ONE: u128 = 1_000_000_000_000_000_000;

/// The greatest number without its sign.
const GREATEST: u128 = 2_147_483_647;

/// How many digits stand at the start.
fn digit_count(text: &[u8]) -> usize
    ensures count { result ≡ length (run_at is_ascii_digit text.now) }
    ensures within { result ≤ length text.now }
{
    for (index, byte) in text.iter().enumerate() {
        if !byte.is_ascii_digit() {
            return index;
        }
    }
    text.len()
}

/// The digits at the start, one at least, and what follows them.
#[tactic(auto, using(basics::proofs::Runs::prefix_of_run, basics::proofs::Runs::rest_of_run), unfolding(crate::specs::DecimalText::digits_at))]
fn digits_at(text: &[u8]) -> Option<(&[u8], &[u8])>
    ensures { Agrees (λ found. (found.0.now, found.1.now)) result (digits_at text.now) }
{
    let count = digit_count(text);
    if 0 < count {
        let (digits, rest) = text.split_at(count);
        Some((digits, rest))
    } else {
        None
    }
}

/// The decimals, if a point stands at the start, and what follows them.
#[tactic(auto, unfolding(crate::specs::DecimalText::decimals_at))]
fn decimals_at(text: &[u8]) -> Option<(&[u8], &[u8])>
    ensures { Agrees (λ found. (found.0.now, found.1.now)) result (decimals_at text.now) }
{
    match text {
        [b'.', rest @ ..] => digits_at(rest),
        _ => Some((&[], text)),
    }
}

/// A number after its sign, with blanks alone after it.
#[tactic(auto, unfolding(crate::specs::DecimalText::unsigned_of))]
fn unsigned_of(is_negative: bool, text: &[u8]) -> Option<Parts<'_>>
    ensures { Agrees (λ found. parts_view found) result (unsigned_of is_negative text.now) }
{
    let (whole, rest) = digits_at(text)?;
    let (decimals, rest) = decimals_at(rest)?;
    if are_blanks(rest) {
        Some(Parts {
            is_negative,
            whole,
            decimals,
        })
    } else {
        None
    }
}

/// A number without blanks before it.
#[tactic(auto, unfolding(crate::specs::DecimalText::signed_of))]
fn signed_of(text: &[u8]) -> Option<Parts<'_>>
    ensures { Agrees parts_view result (signed_of text.now) }
{
    match text {
        [] => None,
        [b'-', rest @ ..] => unsigned_of(true, rest),
        [b'+', rest @ ..] => unsigned_of(false, rest),
        _ => unsigned_of(false, text),
    }
}

/// The number that a text writes, if it is a decimal text.
#[tactic(auto, unfolding(crate::specs::DecimalText::decimal_of))]
fn decimal_of(text: &[u8]) -> Option<Parts<'_>>
    ensures { Agrees parts_view result (decimal_of text.now) }
{
    signed_of(after_blanks(text))
}

/// The number with one more digit, or `CAP` where it is greater.
fn with_digit(number: u64, digit: u8) -> u64
    requires { number ≤ 2 ^ 40 }
    ensures { result ≡ min (number * 10 + (digit - 48)) (2 ^ 40) }
{
    (number * 10 + u64::from(digit.saturating_sub(b'0'))).min(CAP)
}

/// The number that digits write, or `CAP` where it is greater.
fn number_up_to_cap(digits: &[u8]) -> u64
    ensures value { result ≡ min (number_after 0 digits.now) (2 ^ 40) }
    ensures size { result ≤ 2 ^ 40 }
{
    let mut number: u64 = 0;
    for digit in digits {
        number = with_digit(number, *digit);
    }
    number
}

/// The decimal at an index, 0 where the decimals end before it.
fn decimal_at(decimals: &[u8], index: usize) -> u8
    ensures { result ≡ slice_index_or decimals.now index 48 }
{
    match decimals.get(index) {
        Some(digit) => *digit,
        None => b'0',
    }
}

/// The first 18 decimals as a whole number, with zeros where they end before.
fn first_decimals(decimals: &[u8]) -> u128
    ensures value { result ≡ number_after 0 (take 18 (filled decimals.now)) }
    ensures size { result ≤ 23 * 10 ^ 18 }
{
    let mut number: u128 = 0;
    for index in 0..DECIMALS {
        let digit = decimal_at(decimals, index);
        number = number * 10 + u128::from(digit.saturating_sub(b'0'));
    }
    number
}

/// A number with 16 binary places that is nearest to a whole number and so many 10^18ths.
#[tactic(auto, unfolding(crate::specs::Rounding::round_up))]
fn nearest_fix16(whole: u64, decimals: u128) -> u128
    requires whole_size { whole ≤ 2 ^ 40 }
    requires decimals_size { decimals ≤ 23 * 10 ^ 18 }
    ensures { pos result ≡ round_up (pos ((whole * 10 ^ 18 + decimals) * 65536)) (10 ^ 18) }
{
    let scaled = u128::from(whole) * ONE + decimals;
    (2 * (scaled * 65_536) + ONE) / (2 * ONE)
}

/// The sign put on a number of at most 31 bits.
#[tactic(auto, unfolding(crate::specs::DecimalText::with_sign))]
fn with_sign(is_negative: bool, number: u128) -> Result<i32, NumberFault>
    ensures { result ≡ with_sign is_negative (pos number) }
{
    if GREATEST < number {
        return Err(NumberFault::NumberRange);
    }
    let number = number as i32;
    Ok(if is_negative { -number } else { number })
}

/// Whether there are zeros alone.
fn are_zeros(digits: &[u8]) -> bool
    ensures { result ≡ list_all is_zero digits.now }
{
    digits.iter().all(|digit| *digit == b'0')
}

/// The whole number that a decimal text writes. A decimal text is an optional `+` or `-`, one or more
/// digits, and optionally `.` with one or more digits; spaces, tabs, line feeds and carriage returns may
/// stand at both ends. It is whole where its decimals are all zero. Any number of digits is read.
///
/// # Errors
///
/// `NotNumber` where the text isn't a decimal text, else `NotWhole` where a decimal isn't zero, else
/// `NumberRange` where the number without its sign exceeds 2,147,483,647.
#[tactic(auto, using(crate::proofs::Numbers::with_sign_capped), unfolding(crate::specs::DecimalText::whole_by))]
pub fn parse_whole(text: &str) -> Result<i32, NumberFault>
    ensures { result ≡ whole_of text.now }
{
    let Some(number) = decimal_of(text.as_bytes()) else {
        return Err(NumberFault::NotNumber);
    };
    if !are_zeros(number.decimals) {
        return Err(NumberFault::NotWhole);
    }
    let size = u128::from(number_up_to_cap(number.whole));
    with_sign(number.is_negative, size)
}

/// The raw number of 16.16 nearest to a number.
fn raw_of(number: Parts<'_>) -> Result<i32, NumberFault>
    ensures { result ≡ with_sign number.entry.is_negative (round_up (pos (scaled (parts_view number.entry) * 65536)) (10 ^ 18)) }
{
    let whole = number_up_to_cap(number.whole);
    let decimals = first_decimals(number.decimals);
    let size = nearest_fix16(whole, decimals);
    with_sign(number.is_negative, size)
}

/// The number of 16.16 nearest to what a decimal text writes: a decimal text is read as by
/// [`parse_whole`], with any decimals. Of these the first 18 count. A tie goes away from 0.
///
/// # Errors
///
/// `NotNumber` where the text isn't a decimal text, else `NumberRange` where the raw number without its
/// sign, after rounding, exceeds 2,147,483,647. So -32768 is out of range, though its raw number fits.
#[tactic(auto, unfolding(crate::specs::DecimalText::fix16_by))]
pub fn parse_fix16(text: &str) -> Result<Fix<16>, NumberFault>
    ensures { result ≡ fix16_of text.now }
{
    let Some(number) = decimal_of(text.as_bytes()) else {
        return Err(NumberFault::NotNumber);
    };
    let raw = raw_of(number)?;
    Ok(Fix::from_raw(raw))
}

/// The reading finds a number exactly where the text is written as that number: so the words on what is
/// read left to right, which other clauses cite, and the grammar are one.
pub fn decimal_law()
    ensures { (text : List ℕ) (number : Decimal) → (decimal_of text ≡ Some number) ↔ Spells text number }
{}

#[cfg(test)]
mod tests {
    use super::*;

    // Each row: a text, and its whole number or why it has none.
    #[test]
    fn reads_whole_numbers(rt: HostRuntime) {
        let rows = [
            ("12", Ok(12)),
            ("-3", Ok(-3)),
            ("12.0", Ok(12)),
            ("+007.000", Ok(7)),
            (" \t\r\n-0 \t\r\n", Ok(0)),
            ("2147483647", Ok(2147483647)),
            ("-2147483647", Ok(-2147483647)),
            ("2147483648", Err(NumberFault::NumberRange)),
            ("-2147483648", Err(NumberFault::NumberRange)),
            ("18446744073709551617", Err(NumberFault::NumberRange)),
            ("0000000000000000000000000000000000005", Ok(5)),
            ("12.5", Err(NumberFault::NotWhole)),
            ("99999999999.5", Err(NumberFault::NotWhole)),
            ("1.0000000000000000001", Err(NumberFault::NotWhole)),
            ("", Err(NumberFault::NotNumber)),
            (" ", Err(NumberFault::NotNumber)),
            ("-", Err(NumberFault::NotNumber)),
            ("+-1", Err(NumberFault::NotNumber)),
            ("- 1", Err(NumberFault::NotNumber)),
            ("1 2", Err(NumberFault::NotNumber)),
            (".5", Err(NumberFault::NotNumber)),
            ("5.", Err(NumberFault::NotNumber)),
            ("5. ", Err(NumberFault::NotNumber)),
            ("1.0.0", Err(NumberFault::NotNumber)),
            ("1e3", Err(NumberFault::NotNumber)),
            ("1,5", Err(NumberFault::NotNumber)),
            ("0x10", Err(NumberFault::NotNumber)),
            ("\u{b}1", Err(NumberFault::NotNumber)),
            ("\u{a0}1", Err(NumberFault::NotNumber)),
            ("١", Err(NumberFault::NotNumber)),
        ];
        for (text, want) in rows {
            assert_eq!(rt; parse_whole(text), want, "{text}");
        }
    }

    // Each row: a text, and the raw number of its 16.16 or why it has none. A 65536th is 0.0000152587890625,
    // and half of it a tie.
    #[test]
    fn reads_fixed_numbers(rt: HostRuntime) {
        let rows = [
            ("1", Ok(65536)),
            ("-0.5", Ok(-32768)),
            ("+12.25", Ok(802816)),
            ("0.000007629394531249", Ok(0)),
            ("0.000007629394531250", Ok(1)),
            ("-0.000007629394531250", Ok(-1)),
            ("0.0000076293945312499999", Ok(0)),
            ("0.0000228881835937500", Ok(2)),
            ("32767.99999", Ok(2147483647)),
            ("32767.999992370605468749", Ok(2147483647)),
            ("32767.999992370605468750", Err(NumberFault::NumberRange)),
            ("-32768", Err(NumberFault::NumberRange)),
            (
                "99999999999999999999999999.5",
                Err(NumberFault::NumberRange),
            ),
            ("00000000000000000000000001.5", Ok(98304)),
            ("0.99999999999999999999999999", Ok(65536)),
            ("1.", Err(NumberFault::NotNumber)),
            ("1e3", Err(NumberFault::NotNumber)),
            ("inf", Err(NumberFault::NotNumber)),
        ];
        for (text, want) in rows {
            assert_eq!(rt; parse_fix16(text).map(|fix| fix.raw()), want, "{text}");
        }
    }
}
