ghost use Rattle.std.specs.Prelude.{◌≡◌, ◌^◌, ◌<◌, ◌≤◌, length, IfOk};
ghost use Rattle.std.specs.Io.{ReadsAtMost, WritesAtMost};
ghost use Rattle.std.specs.Io.KnownBytes.{ReadConsumes, WriteAppends};
ghost use Rattle.outside.specs.Found.{IsWithin};
ghost use Rattle.outside.specs.Stream.{FindsKnown, IsCounted, CountsKnown, AppendsPrefix};

use crate::traits::{Failed, Found, ReadError};
use std::alloc::Global;
use std::io::{ErrorKind, Read, Write};

/// The most bytes of a stream that are counted.
const MOST_COUNTED: u64 = 4_294_967_296;

// One read, tried again where a signal breaks it off.
fn read_some<F: Read>(reader: &mut F, buffer: &mut [u8]) -> Result<usize, Failed>
    ensures bound { ReadsAtMost result buffer.new }
    ensures bytes { ReadConsumes (F.remaining reader.old) (F.remaining reader.new) result buffer.new }
{
    for _ in 0..u64::MAX {
        match reader.read(buffer) {
            Ok(count) => return Ok(count),
            Err(error) if error.kind() == ErrorKind::Interrupted => {}
            Err(_) => return Err(Failed),
        }
    }
    Err(Failed)
}

// One write, tried again where a signal breaks it off.
fn write_some<W: Write>(writer: &mut W, bytes: &[u8]) -> Result<usize, Failed>
    ensures bound { WritesAtMost result bytes.now }
    ensures bytes { WriteAppends (W.contents writer.old) (W.contents writer.new) result bytes.now }
{
    for _ in 0..u64::MAX {
        match writer.write(bytes) {
            Ok(count) => return Ok(count),
            Err(error) if error.kind() == ErrorKind::Interrupted => {}
            Err(_) => return Err(Failed),
        }
    }
    Err(Failed)
}

// Counts the bytes that are left, after `before` that were read already, each read into the buffer.
fn count_rest<F: Read>(reader: &mut F, buffer: &mut [u8], before: u64) -> Result<u64, Failed>
    requires some { 0 < length buffer.now }
    ensures least { IfOk result (λ n. before ≤ n) }
    ensures most { IfOk result (λ n. n ≤ 2 ^ 32) }
    ensures known { IfOk result (CountsKnown before (F.remaining reader.old)) }
{
    let mut total = before;
    for _ in 0..u64::MAX {
        if total > MOST_COUNTED {
            return Err(Failed);
        }
        let count = read_some(reader, buffer)?;
        if count == 0 {
            return Ok(total);
        }
        total += count as u64;
    }
    Err(Failed)
}

/// Reads what a stream has left, if that is at most `limit` bytes. Beyond the limit the bytes are
/// counted and not kept, and one with more than 4,294,967,296 fails. Each read asks for as many bytes as the
/// buffer has.
pub(crate) fn read_within<F: Read>(
    reader: &mut F,
    alloc: Global,
    buffer: &mut [u8],
    limit: usize,
) -> Result<Found, ReadError>
    requires some { 0 < length buffer.now }
    ensures within { IfOk result (IsWithin limit) }
    ensures counted { IfOk result IsCounted }
    ensures known { IfOk result (FindsKnown (F.remaining reader.old) limit) }
{
    let mut bytes = Vec::new(alloc);
    for _ in 0..u64::MAX {
        let Ok(count) = read_some(reader, buffer) else {
            return Err(ReadError::Failed);
        };
        if count == 0 {
            return Ok(Found::Bytes(bytes));
        }
        if count > limit - bytes.len() {
            let before = bytes.len() as u64 + count as u64;
            drop(bytes);
            return match count_rest(reader, buffer, before) {
                Ok(total) => Ok(Found::TooLong(total)),
                Err(Failed) => Err(ReadError::Failed),
            };
        }
        if bytes.extend_from_slice(&buffer[..count]).is_err() {
            return Err(ReadError::NoMemory);
        }
    }
    Err(ReadError::Failed)
}

/// Writes all of the bytes, or fails after a prefix of them.
pub(crate) fn write_whole<W: Write>(writer: &mut W, bytes: &[u8]) -> Result<(), Failed>
    ensures { AppendsPrefix (W.contents writer.old) (W.contents writer.new) bytes.now result }
{
    let mut rest = bytes;
    while !rest.is_empty() {
        match write_some(writer, rest)? {
            0 => return Err(Failed),
            count => rest = &rest[count..],
        }
    }
    Ok(())
}
