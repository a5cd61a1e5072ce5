use std::fs::{File, OpenOptions};
use std::io;
use std::os::fd::AsRawFd;

/// The last of the standard descriptors: 0 is the standard input, 1 the standard output, 2 the standard error.
const LAST_STANDARD: i32 = 2;

/// The null device at each standard descriptor that was closed when the program began.
///
/// A file that is opened takes the lowest descriptor that is free. Without this a file that is written could become
/// the standard output, and what is said would stand in it. Keep it until nothing is said any more.
#[derive(Drop)]
pub struct StandardStreams {
    _held: [Option<File>; 3],
}

// The null device, where it takes the place of a standard descriptor; else none was free.
fn null_at_standard(rt: &HostRuntime) -> io::Result<Option<File>> {
    let null = OpenOptions::new()
        .read(true)
        .write(true)
        .open(rt, "/dev/null")?;
    if null.as_raw_fd() <= LAST_STANDARD {
        Ok(Some(null))
    } else {
        Ok(None)
    }
}

impl StandardStreams {
    /// Opens the null device at each standard descriptor that is closed, as Rust's own runtime does. Call it before any
    /// file is opened.
    ///
    /// # Errors
    ///
    /// The host's error where the null device can't be opened; then a standard descriptor may still be closed.
    pub fn hold(rt: &HostRuntime) -> io::Result<StandardStreams> {
        Ok(StandardStreams {
            _held: [
                null_at_standard(rt)?,
                null_at_standard(rt)?,
                null_at_standard(rt)?,
            ],
        })
    }
}
