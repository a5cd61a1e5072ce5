//! What no clause says: that calls which take memory succeed where there is enough.

use crate::{Kind, Name, Seq, Stop, after_blanks, are_blanks, is_blank, stop_at};
use std::test::Fail;

#[test]
fn names_and_lists(rt: HostRuntime) -> Result<(), Fail> {
    let alloc = rt.alloc();
    let mut names = Seq::new(alloc);
    let texts = [
        "",
        "a",
        "\u{e9}.glif",
        "public.default",
        "xx\u{1f600}yy\u{1f600}zz",
        "public.defaults",
        "yy\u{1f600}xx\u{1f600}\u{e9}zz",
        "glyphs.public.background/A_dieresis.glif",
    ];
    for text in texts {
        let name = Name::from_str(alloc, text)?;
        assert_eq!(rt; name.as_str(), text);
        let copy = name.try_copy(alloc)?;
        assert_eq!(rt; copy.as_str(), name.as_str());
        assert!(rt; copy == name);
        names.push(name)?;
    }
    assert_eq!(rt; names.len(), texts.len());
    assert_eq!(rt; names.as_slice()[1].as_str(), "a");
    Ok(())
}

#[test]
fn stops_and_blanks(rt: HostRuntime) -> Result<(), Fail> {
    let alloc = rt.alloc();
    let spot = match stop_at(alloc, Kind::NotWhole, "x", 1042, -7) {
        Stop::At(spot) => Some(spot),
        Stop::NoMemory => None,
    };
    let spot = spot.ok_or("no memory")?;
    assert_eq!(rt; spot.kind.name(), "NotWhole");
    assert_eq!(rt; spot.kind as u8, 11);
    assert_eq!(rt; spot.item.as_str(), "x");
    assert_eq!(rt;
        (spot.at, spot.also, spot.first, spot.second),
        (1042, 0, -7, 0)
    );
    // Each row: a text, what follows its blanks, and whether there is nothing else.
    let rows: [(&[u8], &[u8], bool); 4] = [
        (b"", b"", true),
        (b" \t\r\n", b"", true),
        (b"\x0B ", b"\x0B ", false),
        (b" a ", b"a ", false),
    ];
    for (text, rest, blank) in rows {
        assert_eq!(rt; after_blanks(text), rest);
        assert_eq!(rt; are_blanks(text), blank);
    }
    assert!(rt; is_blank(b'\n') && !is_blank(0));
    Ok(())
}
