//! What no clause says: that calls which take memory succeed where there is enough, and the answers
//! of the forms over memory, worked out by hand.

use crate::{
    Found, MemoryOutputs, MemorySay, MemorySources, Name, NoMemory, Outputs, ReadError, Say, Seq,
    Sources, SureOutputs, SureSay, SureSources,
};
use std::alloc::{AllocError, Global};
use std::process::Abort;
use std::test::Fail;

/// A list of these numbers.
fn numbers(alloc: Global, numbers: &[u64]) -> Result<Seq<u64>, AllocError> {
    Ok(Seq::from_vec(Vec::from_slice(alloc, numbers)?))
}

/// Three files, two of them with one path.
fn files(alloc: Global) -> Result<Seq<(Name, Vec<u8>)>, Fail> {
    let mut files = Seq::new(alloc);
    for (path, bytes) in [("a", b"one".as_slice()), ("b", b""), ("a", b"again")] {
        files.push((Name::from_str(alloc, path)?, Vec::from_slice(alloc, bytes)?))?;
    }
    Ok(files)
}

/// The path of a read, its limit, and its answer: a word, a length and the bytes.
const READS: [(&str, usize, (&str, u64, &[u8])); 5] = [
    ("a", 3, ("bytes", 3, b"one")),
    ("a", 2, ("too long", 3, b"")),
    ("b", 0, ("bytes", 0, b"")),
    ("c", 9, ("absent", 0, b"")),
    ("a", 9, ("bytes", 3, b"one")),
];

/// What a read answered: a word, a length and the bytes.
fn shown(answer: &Result<Found, ReadError>) -> (&str, u64, &[u8]) {
    match answer {
        Ok(Found::Bytes(bytes)) => ("bytes", bytes.len() as u64, bytes.as_slice()),
        Ok(Found::Absent) => ("absent", 0, b""),
        Ok(Found::TooLong(length)) => ("too long", *length, b""),
        Err(ReadError::Failed) => ("failed", 0, b""),
        Err(ReadError::NoMemory) => ("no memory", 0, b""),
    }
}

/// Reads as the table says, but that the reads with these numbers fail.
fn read_all<S: Sources>(rt: &impl Abort, alloc: Global, sources: &mut S, failing: &[usize]) {
    for (number, (path, limit, answer)) in READS.iter().enumerate() {
        let found = sources.read(alloc, path, *limit);
        let expected = if failing.contains(&number) {
            ("failed", 0, b"".as_slice())
        } else {
            *answer
        };
        assert_eq!(rt; shown(&found), expected, "read {number}");
    }
}

#[test]
fn sure_sources(rt: HostRuntime) -> Result<(), Fail> {
    let alloc = rt.alloc();
    let mut sources = SureSources::new(files(alloc)?);
    read_all(&rt, alloc, &mut sources, &[]);
    Ok(())
}

#[test]
fn memory_sources(rt: HostRuntime) -> Result<(), Fail> {
    let alloc = rt.alloc();
    for number in 0..READS.len() {
        let failing = numbers(alloc, &[number as u64, 7])?;
        let mut sources = MemorySources::new(files(alloc)?, failing);
        read_all(&rt, alloc, &mut sources, &[number]);
    }
    Ok(())
}

/// Rooms for three files, two of them with one path.
fn rooms(alloc: Global) -> Result<Seq<(Name, u64)>, NoMemory> {
    let mut rooms = Seq::new(alloc);
    for (path, size) in [("a", 5), ("b", 1), ("a", 9)] {
        rooms.push((Name::from_str(alloc, path)?, size))?;
    }
    Ok(rooms)
}

/// Begins the path, adds two pieces and ends the file, and tells which of the first three calls went well.
fn write<O: Outputs>(outputs: &mut O, path: &str, first: &[u8], second: &[u8]) -> [bool; 3] {
    let went = match outputs.begin(path) {
        Ok(()) => {
            let first = outputs.append(first).is_ok();
            let second = outputs.append(second).is_ok();
            [true, first, second]
        }
        Err(_) => [false; 3],
    };
    outputs.end();
    went
}

/// Writes two pieces to `a`, two to `b` and then to `c`, and tells which calls went well.
fn write_all<O: Outputs>(outputs: &mut O) -> [[bool; 3]; 3] {
    let a = write(outputs, "a", b"ab", b"cdef");
    let b = write(outputs, "b", b"", b"wxyz");
    let c = write(outputs, "c", b"", b"");
    [a, b, c]
}

/// A call that fails, then which calls go well, and what `a` and `b` hold.
type Written = (
    u64,
    [[bool; 3]; 3],
    Option<&'static [u8]>,
    Option<&'static [u8]>,
);

const NOT: [bool; 3] = [false; 3];

const FULL: [bool; 3] = [true, true, false];

const WRITTEN: [Written; 8] = [
    (0, [NOT, FULL, NOT], None, Some(b"w")),
    (
        1,
        [[true, false, true], FULL, NOT],
        Some(b"acdef"),
        Some(b"w"),
    ),
    (2, [FULL, FULL, NOT], Some(b"abcd"), Some(b"w")),
    (3, [FULL, NOT, NOT], Some(b"abcde"), None),
    (
        4,
        [FULL, [true, false, false], NOT],
        Some(b"abcde"),
        Some(b"w"),
    ),
    (5, [FULL, FULL, NOT], Some(b"abcde"), Some(b"w")),
    (6, [FULL, FULL, NOT], Some(b"abcde"), Some(b"w")),
    (7, [FULL, FULL, NOT], Some(b"abcde"), Some(b"w")),
];

#[test]
fn memory_outputs(rt: HostRuntime) -> Result<(), Fail> {
    let alloc = rt.alloc();
    for (number, calls, a, b) in WRITTEN {
        let failing = numbers(alloc, &[9, number])?;
        let mut outputs = MemoryOutputs::new(alloc, rooms(alloc)?, failing)?;
        assert_eq!(rt; outputs.held("a"), None);
        let went = write_all(&mut outputs);
        assert_eq!(rt; went, calls, "call {number} fails");
        assert_eq!(rt; outputs.held("a"), a, "call {number} fails");
        assert_eq!(rt; outputs.held("b"), b, "call {number} fails");
        assert_eq!(rt; outputs.held("c"), None);
    }
    Ok(())
}

#[test]
fn sure_outputs(rt: HostRuntime) -> Result<(), Fail> {
    let alloc = rt.alloc();
    let mut outputs = SureOutputs::new(alloc, rooms(alloc)?)?;
    let went = write_all(&mut outputs);
    assert_eq!(rt; went, [FULL, FULL, NOT]);
    assert_eq!(rt; outputs.held("a"), Some(b"abcde".as_slice()));
    assert_eq!(rt; outputs.held("b"), Some(b"w".as_slice()));
    let begun = outputs.begin("a").is_ok();
    assert!(rt; begun);
    assert_eq!(rt; outputs.held("a"), Some(b"".as_slice()));
    Ok(())
}

/// Says three texts, and tells which calls went well.
fn say_all<S: Say>(say: &mut S) -> [bool; 3] {
    let first = say.say(b"ab").is_ok();
    let second = say.say(b"cdef").is_ok();
    let third = say.say(b"").is_ok();
    [first, second, third]
}

/// A call that fails, then which calls go well, and all that is said.
const SAID: [(u64, [bool; 3], &[u8]); 4] = [
    (0, [false, true, true], b"acdef"),
    (1, [true, false, true], b"abcd"),
    (2, [true, false, false], b"abcde"),
    (3, [true, false, true], b"abcde"),
];

#[test]
fn says(rt: HostRuntime) -> Result<(), Fail> {
    let alloc = rt.alloc();
    for (number, calls, said) in SAID {
        let mut say = MemorySay::new(alloc, 5, numbers(alloc, &[number])?)?;
        let went = say_all(&mut say);
        assert_eq!(rt; went, calls, "call {number} fails");
        assert_eq!(rt; say.said(), said, "call {number} fails");
    }
    let mut say = SureSay::new(alloc, 5)?;
    let went = say_all(&mut say);
    assert_eq!(rt; went, [true, false, true]);
    assert_eq!(rt; say.said(), b"abcde".as_slice());
    let too_much = SureSay::new(alloc, u64::MAX).is_err();
    assert!(rt; too_much);
    Ok(())
}
