//! Answers worked out by hand.

use crate::{tag_of, utf16_length};
use std::process::Abort;
use std::test::Fail;

/// Texts, and the units of UTF-16 that they take: one a character, two of those past U+FFFF.
const LENGTHS: [(&str, usize); 6] = [
    ("", 0),
    ("Weight", 6),
    ("é", 1),
    ("\u{FFFF}", 1),
    ("\u{10000}", 2),
    ("a😀b", 4),
];

/// Texts that write a tag, and others.
const TAGS: [(&str, Option<[u8; 4]>); 9] = [
    ("", None),
    ("a", Some(*b"a   ")),
    ("wd", Some(*b"wd  ")),
    ("abc", Some(*b"abc ")),
    ("wght", Some(*b"wght")),
    ("wghts", None),
    (" ~", Some(*b" ~  ")),
    ("a\u{7F}", None),
    ("é", None),
];

#[test]
fn counts_units(rt: HostRuntime) -> Result<(), Fail> {
    for (text, units) in LENGTHS {
        assert_eq!(rt; utf16_length(text), units, "{text}");
    }
    Ok(())
}

#[test]
fn fills_tags(rt: HostRuntime) -> Result<(), Fail> {
    for (text, tag) in TAGS {
        assert!(rt; tag_of(text) == tag, "{text}");
    }
    Ok(())
}
