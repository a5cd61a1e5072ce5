//! What no clause says: that calls succeed where there is enough memory, and their answers over files in
//! memory, worked out by hand.

use crate::{ReadStop, read_file, read_tree};
use basics::{Name, Seq};
use markup::Element;
use outside::{Found, MemorySources, ReadError, Sources};
use std::alloc::Global;
use std::process::Abort;
use std::test::Fail;

/// Files, two of them with one path.
const FILES: [(&str, &str); 5] = [
    ("a.glif", "<glyph name='a'><outline/></glyph>"),
    ("b.glif", "<glyph><outline></glyph>"),
    ("empty", ""),
    ("open", "<glyph>"),
    ("a.glif", "?"),
];

/// An answer as a word, the path or the root's name, the kind, the offset and the first value.
type Shown<'a> = (&'a str, &'a str, &'a str, u64, i64);

/// The paths that are read in turn, and the answers.
const READS: [(&str, Shown<'static>); 6] = [
    ("a.glif", ("read", "glyph", "", 0, 0)),
    ("b.glif", ("refused", "b.glif", "BadText", 16, 0)),
    ("empty", ("refused", "empty", "Unfinished", 0, 0)),
    ("open", ("refused", "open", "Unfinished", 7, 0)),
    ("c.glif", ("refused", "c.glif", "MissingFile", 0, 0)),
    ("", ("refused", "", "MissingFile", 0, 0)),
];

/// Why a read stopped.
fn shown_stop(stop: &ReadStop) -> Shown<'_> {
    match stop {
        ReadStop::Refused(fault) => (
            "refused",
            fault.path.as_str(),
            fault.spot.kind.name(),
            fault.spot.at,
            fault.spot.first,
        ),
        ReadStop::ReadFault(path) => ("read fault", path.as_str(), "", 0, 0),
        ReadStop::NoMemory => ("no memory", "", "", 0, 0),
    }
}

/// What a read of a tree answered.
fn shown(answer: &Result<Element, ReadStop>) -> Shown<'_> {
    match answer {
        Ok(element) => ("read", element.name(), "", element.at, 0),
        Err(stop) => shown_stop(stop),
    }
}

/// The files in memory, of which the reads with these numbers fail.
fn memory(alloc: Global, failing: &[u64]) -> Result<MemorySources, Fail> {
    let mut files = Seq::new(alloc);
    for (path, text) in FILES {
        let bytes = Vec::from_slice(alloc, text.as_bytes())?;
        files.push((Name::from_str(alloc, path)?, bytes))?;
    }
    let failing = Seq::from_vec(Vec::from_slice(alloc, failing)?);
    Ok(MemorySources::new(files, failing))
}

#[test]
fn reads_trees(rt: HostRuntime) -> Result<(), Fail> {
    let alloc = rt.alloc();
    let mut sources = memory(alloc, &[])?;
    for (path, expected) in READS {
        let answer = read_tree(alloc, &mut sources, path);
        assert_eq!(rt; shown(&answer), expected, "{path}");
    }
    Ok(())
}

/// A read that fails is told with its path, and the reads around it are answered as ever.
#[test]
fn tells_which_read_failed(rt: HostRuntime) -> Result<(), Fail> {
    let alloc = rt.alloc();
    for failing in 0..READS.len() {
        let mut sources = memory(alloc, &[failing as u64])?;
        for (number, (path, answer)) in READS.iter().enumerate() {
            let expected = if number == failing {
                ("read fault", *path, "", 0, 0)
            } else {
                *answer
            };
            let answer = read_tree(alloc, &mut sources, path);
            assert_eq!(rt; shown(&answer), expected, "{path}");
        }
    }
    Ok(())
}

/// Sources whose every file is longer than any limit by so many bytes, up to the greatest number.
#[derive(Drop)]
struct LongSources {
    beyond: u64,
}

impl Sources for LongSources {
    ghost use Rattle.std.specs.Prelude.{None};

    ghost state = { λ _. record { tells = ⊥; files = λ _. None; faults = 0; is_sure = ⊥ } };

    fn read(&mut self, _: Global, _: &str, limit: usize) -> Result<Found, ReadError> {
        match (limit as u64).saturating_add(self.beyond) {
            length if length > limit as u64 => Ok(Found::TooLong(length)),
            _ => Ok(Found::Absent),
        }
    }
}

/// How many bytes beyond the limit, and the length that is told.
const LENGTHS: [(u64, i64); 3] = [
    (1, 67_108_865),
    (9_223_372_036_787_666_943, 9_223_372_036_854_775_807),
    (9_223_372_036_787_666_944, 9_223_372_036_854_775_807),
];

#[test]
fn refuses_long_files(rt: HostRuntime) -> Result<(), Fail> {
    let alloc = rt.alloc();
    for (beyond, length) in LENGTHS {
        let expected = ("refused", "a.glif", "FileTooLong", 0, length);
        let answer = read_tree(alloc, &mut LongSources { beyond }, "a.glif");
        assert_eq!(rt; shown(&answer), expected);
    }
    Ok(())
}

#[test]
fn reads_bytes(rt: HostRuntime) -> Result<(), Fail> {
    let alloc = rt.alloc();
    let mut sources = memory(alloc, &[2])?;
    for (path, text) in [("a.glif", FILES[0].1), ("empty", "")] {
        match read_file(alloc, &mut sources, path) {
            Ok(bytes) => assert_eq!(rt; bytes.as_slice(), text.as_bytes(), "{path}"),
            Err(stop) => assert_eq!(rt; shown_stop(&stop), ("read", "", "", 0, 0), "{path}"),
        }
    }
    match read_file(alloc, &mut sources, "a.glif") {
        Ok(bytes) => assert_eq!(rt; bytes.as_slice(), b"".as_slice()),
        Err(stop) => assert_eq!(rt; shown_stop(&stop), ("read fault", "a.glif", "", 0, 0)),
    }
    Ok(())
}
