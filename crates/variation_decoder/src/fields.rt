ghost use Rattle.variation_decoder.specs.Reading.{Gives, byte_at, word_at, signed_byte_at, signed_word_at};
ghost use Rattle.variation_decoder.specs.Tuples.{coordinates_at};

use crate::refusal::Refusal;
use basics::Seq;
use fixpoint::Fix;
use std::alloc::Global;

/// The `uint8` at the start, and the bytes after it.
pub fn byte_at(bytes: &[u8]) -> Result<(u8, &[u8]), Refusal>
    ensures { Gives (λ x. (x.0, x.1.now)) result (byte_at bytes.now) }
{
    match bytes {
        [] => Err(Refusal::NoReading),
        [byte, rest @ ..] => Ok((*byte, rest)),
    }
}

/// The `uint16` at the start, and the bytes after it.
pub fn word_at(bytes: &[u8]) -> Result<(u16, &[u8]), Refusal>
    ensures { Gives (λ x. (x.0, x.1.now)) result (word_at bytes.now) }
{
    match bytes {
        [] | [_] => Err(Refusal::NoReading),
        [high, low, rest @ ..] => Ok((u16::from_be_bytes([*high, *low]), rest)),
    }
}

/// The `int8` at the start, and the bytes after it.
#[tactic(auto, unfolding(crate::specs::Reading::signed_byte_at))]
pub fn signed_byte_at(bytes: &[u8]) -> Result<(i32, &[u8]), Refusal>
    ensures { Gives (λ x. (x.0, x.1.now)) result (signed_byte_at bytes.now) }
{
    let (byte, rest) = byte_at(bytes)?;
    Ok((i32::from(byte.cast_signed()), rest))
}

/// The `int16` at the start, and the bytes after it.
#[tactic(auto, unfolding(crate::specs::Reading::signed_word_at))]
pub fn signed_word_at(bytes: &[u8]) -> Result<(i32, &[u8]), Refusal>
    ensures { Gives (λ x. (x.0, x.1.now)) result (signed_word_at bytes.now) }
{
    let (word, rest) = word_at(bytes)?;
    Ok((i32::from(word.cast_signed()), rest))
}

/// One F2DOT14 coordinate for each of so many axes, and the bytes after them.
pub fn coordinates_at(
    alloc: Global,
    axes: u16,
    bytes: &[u8],
) -> Result<(Seq<Fix<14>>, &[u8]), Refusal>
    ensures { Gives (λ x. (x.0, x.1.now)) result (coordinates_at axes bytes.now) }
{
    let mut coordinates = Seq::new(alloc);
    let mut rest = bytes;
    for _ in 0..axes {
        let (raw, after) = signed_word_at(rest)?;
        coordinates.push(Fix::from_raw(raw))?;
        rest = after;
    }
    Ok((coordinates, rest))
}
