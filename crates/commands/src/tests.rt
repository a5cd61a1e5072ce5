//! How `clap` reads words, by its own program: which it takes, and which it refuses.

use super::*;
use std::alloc::Global;
use std::test::Fail;

/// Words that are those of no command.
const REFUSED: [&[&str]; 33] = [
    &[],
    &["vfb"],
    &["vfb", ""],
    &["vfb", "help"],
    &["vfb", "help", "build"],
    &["vfb", "--help"],
    &["vfb", "-h"],
    &["vfb", "--version"],
    &["vfb", "-V"],
    &["vfb", "buil", "a", "b"],
    &["vfb", "build"],
    &["vfb", "build", "a"],
    &["vfb", "build", "a", "b", "c"],
    &["vfb", "build", "--help"],
    &["vfb", "build", "a", "b", "-h"],
    &["vfb", "build", "a", "b", "--version"],
    &["vfb", "build", "-a", "b"],
    &["vfb", "build", "--design=a", "b"],
    &["vfb", "build", "a", "b", "--certificate", "c"],
    &["vfb", "--", "build", "a", "b"],
    &["vfb", "-x", "build", "a", "b"],
    &["vfb", "tuples", "-o", "a@0"],
    &["vfb", "tuples", "o", "a@0", "-b@0"],
    &["vfb", "tuples", "o", "--"],
    &["vfb", "build", "a", "b", "--filter"],
    &["vfb", "build", "a", "b", "--filter="],
    &["vfb", "build", "--filter=", "a", "b"],
    &["vfb", "build", "a", "b", "--filter", "--"],
    &["vfb", "build", "a", "b", "--filter", "-x"],
    &["vfb", "build", "a", "b", "--filte", "x"],
    &["vfb", "build", "a", "--filter", "b"],
    &["vfb", "--filter", "x", "build", "a", "b"],
    &["vfb", "tuples", "o", "a@0", "--filter", "x"],
];

/// Words of `build`, and what they name.
const TAKEN: [(&[&str], &str, &str); 8] = [
    (&["vfb", "build", "a", "b"], "a", "b"),
    (&["", "build", "a", "b"], "a", "b"),
    (&["vfb", "build", "", ""], "", ""),
    (&["vfb", "build", "-", "-"], "-", "-"),
    (&["vfb", "build", "--", "-a", "--help"], "-a", "--help"),
    (&["vfb", "build", "a", "--", "--"], "a", "--"),
    (&["vfb", "build", "a", "b", "--"], "a", "b"),
    (&["vfb", "build", "tuples", "help"], "tuples", "help"),
];

/// Words of `build` with options, and the names and texts of the filters that they ask for.
const FILTERED: [(&[&str], &[(&str, &str)]); 14] = [
    (&["vfb", "build", "a", "b"], &[]),
    (
        &["vfb", "build", "a", "b", "--filter", "shift:10:0"],
        &[("shift", "10:0")],
    ),
    (
        &["vfb", "build", "--filter", "shift:10:0", "a", "b"],
        &[("shift", "10:0")],
    ),
    (
        &["vfb", "build", "a", "--filter=shift:10:0", "b"],
        &[("shift", "10:0")],
    ),
    (
        &["vfb", "build", "--filter=x", "a", "--filter", "y", "b"],
        &[("x", ""), ("y", "")],
    ),
    (
        &["vfb", "build", "a", "b", "--filter=y", "--filter=x"],
        &[("y", ""), ("x", "")],
    ),
    (
        &["vfb", "build", "a", "b", "--filter=x", "--filter=x:1"],
        &[("x", ""), ("x", "1")],
    ),
    (&["vfb", "build", "a", "b", "--filter", ""], &[("", "")]),
    (&["vfb", "build", "a", "b", "--filter", ":"], &[("", "")]),
    (&["vfb", "build", "a", "b", "--filter=:x"], &[("", "x")]),
    (&["vfb", "build", "a", "b", "--filter==:="], &[("=", "=")]),
    (&["vfb", "build", "a", "b", "--filter", "-"], &[("-", "")]),
    (&["vfb", "build", "a", "--", "--filter="], &[]),
    (
        &["--filter=", "build", "a", "b", "--filter=x::"],
        &[("x", ":")],
    ),
];

/// Words of their own.
fn owned(alloc: Global, words: &[&str]) -> Result<Vec<String>, Fail> {
    let mut all = Vec::new(alloc);
    for word in words {
        all.push(String::from_str(alloc, word)?)?;
    }
    Ok(all)
}

#[test]
fn reads_words(rt: HostRuntime) -> Result<(), Fail> {
    let alloc = rt.alloc();
    for words in REFUSED {
        let words = owned(alloc, words)?;
        assert!(rt; parse(alloc, &words)?.is_none(), "{words:?}");
    }
    Ok(())
}

#[test]
fn reads_files(rt: HostRuntime) -> Result<(), Fail> {
    let alloc = rt.alloc();
    for (words, design, out) in TAKEN {
        let words = owned(alloc, words)?;
        match parse(alloc, &words)? {
            Some(Command::Build(command)) => {
                assert_eq!(rt; command.design, design, "{words:?}");
                assert_eq!(rt; command.out, out, "{words:?}");
            }
            _ => assert!(rt; false, "{words:?}"),
        }
    }
    Ok(())
}

/// How many drawings a command names.
fn drawing_count(command: &Command<'_>) -> usize {
    match command {
        Command::Tuples(command) => command.drawings.len(),
        Command::Build(_) => 0,
    }
}

#[test]
fn reads_drawings(rt: HostRuntime) -> Result<(), Fail> {
    let alloc = rt.alloc();
    let words = owned(alloc, &["vfb", "tuples", "o", "a@0", "--", "-b@1"])?;
    match &parse(alloc, &words)? {
        Some(command) => assert_eq!(rt; drawing_count(command), 2),
        None => assert!(rt; false),
    }
    Ok(())
}

#[test]
fn reads_filters(rt: HostRuntime) -> Result<(), Fail> {
    let alloc = rt.alloc();
    for (words, filters) in FILTERED {
        let words = owned(alloc, words)?;
        match parse(alloc, &words)? {
            Some(Command::Build(command)) => {
                assert_eq!(rt; command.filters.len(), filters.len(), "{words:?}");
                for (number, found) in command.filters.iter().enumerate() {
                    let wanted = filters.get(number);
                    assert_eq!(rt; wanted, Some(&(found.name, found.text)), "{words:?}");
                }
            }
            _ => assert!(rt; false, "{words:?}"),
        }
    }
    Ok(())
}
