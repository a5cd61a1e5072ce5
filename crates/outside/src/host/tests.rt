ghost use Rattle.std.specs.Prelude.{◌≤◌, IfOk};

use super::*;
use std::io::{Read, Write};
use std::path::PathBuf;
use std::test::Fail;
use std::{env, process};

// What a read answered, and how many bytes it speaks of.
fn answer(found: Result<Found, ReadError>) -> (&'static str, u64) {
    match found {
        Ok(Found::Bytes(bytes)) => ("bytes", bytes.len() as u64),
        Ok(Found::Absent) => ("absent", 0),
        Ok(Found::TooLong(length)) => ("too long", length),
        Err(ReadError::Failed) => ("failed", 0),
        Err(ReadError::NoMemory) => ("no memory", 0),
    }
}

// Whether these bytes were found.
fn holds(found: Result<Found, ReadError>, bytes: &[u8]) -> bool {
    match found {
        Ok(Found::Bytes(found)) => found.as_slice() == bytes,
        _ => false,
    }
}

// A path of this test run's own.
fn temporary(rt: &HostRuntime, name: &str) -> io::Result<PathBuf> {
    let own = process::id(rt.process());
    let name = format!(in rt.alloc(); "outside-{own}-{name}")?;
    Ok(env::temp_dir(rt)?.join(rt.alloc(), name.as_str())?)
}

// Writes a file in two pieces, the first longer than one read.
fn write_pieces(outputs: &mut HostOutputs<&HostRuntime>, path: &str) -> Result<(), Failed> {
    outputs.begin(path)?;
    outputs.append(b"old")?;
    outputs.begin(path)?;
    outputs.append(&[7; 5000])?;
    outputs.append(b"end")
}

#[test]
fn writes_files_of_the_host(rt: HostRuntime) -> Result<(), Fail> {
    let path = temporary(&rt, "written")?;
    let mut outputs = HostOutputs::new(&rt);
    write_pieces(&mut outputs, path.as_str())?;
    let written = fs::read(&rt, path.as_str())?;
    fs::remove_file(&rt, path.as_str())?;
    assert_eq!(rt; written.len(), 5003);
    assert_eq!(rt; written.ends_with(&[7, b'e', b'n', b'd']), true);
    assert_eq!(rt; outputs.begin("/"), Err(Failed), "a folder isn't written");
    assert_eq!(rt; outputs.faults, 1);
    Ok(())
}

#[test]
fn ends_a_file_of_the_host(rt: HostRuntime) -> Result<(), Fail> {
    let path = temporary(&rt, "ended")?;
    let mut outputs = HostOutputs::new(&rt);
    outputs.begin(path.as_str())?;
    outputs.append(b"whole")?;
    outputs.end();
    assert!(rt; outputs.file.is_none());
    outputs.end();
    let written = fs::read(&rt, path.as_str())?;
    fs::remove_file(&rt, path.as_str())?;
    assert_eq!(rt; written.as_slice(), b"whole".as_slice());
    assert_eq!(rt; outputs.faults, 0);
    Ok(())
}

#[test]
fn reads_files_of_the_host(rt: HostRuntime) -> Result<(), Fail> {
    let path = temporary(&rt, "read")?;
    write_pieces(&mut HostOutputs::new(&rt), path.as_str())?;
    let mut sources = HostSources::new(&rt);
    for (path, limit, want) in [
        (path.as_str(), 5003, ("bytes", 5003)),
        (path.as_str(), usize::MAX, ("bytes", 5003)),
        (path.as_str(), 5002, ("too long", 5003)),
        (path.as_str(), 0, ("too long", 5003)),
        ("", 5003, ("absent", 0)),
        ("/", 5003, ("failed", 0)),
    ] {
        let found = answer(sources.read(rt.alloc(), path, limit));
        assert_eq!(rt; found, want, "at {path} within {limit}");
    }
    let written = fs::read(&rt, path.as_str())?;
    assert!(rt; holds(sources.read(rt.alloc(), path.as_str(), 6000), &written));
    fs::remove_file(&rt, path.as_str())?;
    let gone = answer(sources.read(rt.alloc(), path.as_str(), 5003));
    assert_eq!(rt; gone, ("absent", 0));
    assert_eq!(rt; sources.faults, 1);
    Ok(())
}

#[test]
fn says_text_by_the_host(rt: HostRuntime) -> Result<(), Fail> {
    let mut say = HostSay::new(&rt);
    say.say(b"said by the host\n")?;
    assert_eq!(rt; say.faults, 0);
    Ok(())
}

// A stream that takes or gives 2048 bytes at a time, is broken off at each other call, and fails after
// `left` calls that went well, or ends there.
#[derive(Drop)]
struct Halting {
    calls: u64,
    left: u64,
    fails: bool,
}

impl Halting {
    fn step(&mut self, room: usize) -> io::Result<usize>
        ensures { IfOk result (λ n. n ≤ room) }
    {
        self.calls = self.calls.wrapping_add(1);
        if self.calls % 2 == 1 {
            return Err(io::Error::from(ErrorKind::Interrupted));
        }
        if self.left == 0 && self.fails {
            return Err(io::Error::from(ErrorKind::Other));
        }
        if self.left == 0 {
            return Ok(0);
        }
        self.left -= 1;
        Ok(room.min(2048))
    }
}

impl Read for Halting {
    fn read(&mut self, buf: &mut [u8]) -> io::Result<usize> {
        self.step(buf.len())
    }
}

impl Write for Halting {
    fn write(&mut self, buf: &[u8]) -> io::Result<usize> {
        self.step(buf.len())
    }

    fn flush(&mut self) -> io::Result<()> {
        Ok(())
    }
}

fn halts_after(left: u64, fails: bool) -> Halting {
    Halting {
        calls: 0,
        left,
        fails,
    }
}

#[test]
fn takes_no_failure_for_an_end(rt: HostRuntime) -> Result<(), Fail> {
    for (left, fails, limit, want) in [
        (3, false, 6144, ("bytes", 6144)),
        (3, false, 6143, ("too long", 6144)),
        (0, false, 0, ("bytes", 0)),
        (3, true, 6144, ("failed", 0)),
        (3, true, 1000, ("failed", 0)),
        (0, true, 0, ("failed", 0)),
        // 2,097,152 reads give 4,294,967,296 bytes, the most that are counted.
        (2_097_152, false, 6144, ("too long", 4_294_967_296)),
        (2_097_153, false, 6144, ("failed", 0)),
    ] {
        let found = answer(read_within(
            &mut halts_after(left, fails),
            rt.alloc(),
            &mut [0; 4096],
            limit,
        ));
        assert_eq!(rt; found, want, "after {left} reads within {limit}");
    }
    for (left, fails, want) in [
        (3, false, Ok(())),
        (2, false, Err(Failed)),
        (2, true, Err(Failed)),
    ] {
        let written = write_whole(&mut halts_after(left, fails), &[7; 6144]);
        assert_eq!(rt; written, want, "after {left} writes");
    }
    Ok(())
}
