//! What no clause says: that a run with ample memory doesn't give up, and what its answers are, worked
//! out by hand.

use super::*;
use basics::{Name, Seq};
use outside::{
    Found, MemoryOutputs, MemorySay, MemorySources, ReadError, Sources, SureOutputs, SureSay,
    SureSources,
};
use std::process::Abort;
use std::test::Fail;

mod drawn;
mod filtered;
mod fonts;
mod several;
mod whole;

/// A triangle with the corners (100, 0), (200, 0) and (100, 100).
const TRIANGLE: &str = r#"<glyph name="a" format="2">
<advance width="300"/>
<outline>
<contour>
<point x="100" y="0" type="line"/>
<point x="200" y="0" type="line"/>
<point x="100" y="100" type="line"/>
</contour>
</outline>
</glyph>
"#;

/// The same, moved by 50 to the right.
const MOVED: &str = r#"<glyph name="a" format="2">
<advance width="300"/>
<outline>
<contour>
<point x="150" y="0" type="line"/>
<point x="250" y="0" type="line"/>
<point x="150" y="100" type="line"/>
</contour>
</outline>
</glyph>
"#;

/// Three points as well, in two contours.
const PARTED: &str = r#"<glyph name="a" format="2">
<advance width="300"/>
<outline>
<contour>
<point x="100" y="0" type="line"/>
<point x="200" y="0" type="line"/>
</contour>
<contour>
<point x="100" y="100" type="line"/>
</contour>
</outline>
</glyph>
"#;

/// A glyph without contours.
const NARROW: &str = r#"<glyph name="space" format="2">
<advance width="200"/>
<outline>
</outline>
</glyph>
"#;

/// The same with an advance greater by 60.
const WIDE: &str = r#"<glyph name="space" format="2">
<advance width="260"/>
<outline>
</outline>
</glyph>
"#;

/// The words that ask for the data of the drawings in `a.glif` and `b.glif`.
const WORDS: &[&str] = &["vfb", "tuples", "o.bin", "a.glif@0", "b.glif@16384"];

/// The data of the triangle that moves: one tuple with its peak at 16,384, one point, which is the first,
/// its x delta 50 and its y delta 0. The other points follow it.
const MOVED_DATA: &[u8] = &[
    0x00, 0x01, 0x00, 0x0A, 0x00, 0x06, 0xA0, 0x00, 0x40, 0x00, 0x01, 0x00, 0x00, 0x00, 0x32, 0x80,
];

/// What is said of them.
const MOVED_SAID: &str = "tuples 1 explicit 1 of 3\n";

/// The data of the advance that grows: the second phantom point alone, with 60 for x.
const WIDE_DATA: &[u8] = &[
    0x00, 0x01, 0x00, 0x0A, 0x00, 0x06, 0xA0, 0x00, 0x40, 0x00, 0x01, 0x00, 0x01, 0x00, 0x3C, 0x80,
];

/// A square with the corners (0, 0), (100, 0), (100, 100) and (0, 100).
const SQUARE: &str = r#"<glyph name="box" format="2">
<advance width="120"/>
<outline>
<contour>
<point x="0" y="0" type="line"/>
<point x="100" y="0" type="line"/>
<point x="100" y="100" type="line"/>
<point x="0" y="100" type="line"/>
</contour>
</outline>
</glyph>
"#;

/// The same, wider by 50 on the right.
const BROAD: &str = r#"<glyph name="box" format="2">
<advance width="120"/>
<outline>
<contour>
<point x="0" y="0" type="line"/>
<point x="150" y="0" type="line"/>
<point x="150" y="100" type="line"/>
<point x="0" y="100" type="line"/>
</contour>
</outline>
</glyph>
"#;

/// The data of the square that grows: the first two corners, with 0 and 50 for x; the third is at the
/// coordinate of the second, and the fourth at that of the first.
const BROAD_DATA: &[u8] = &[
    0x00, 0x01, 0x00, 0x0A, 0x00, 0x08, 0xA0, 0x00, 0x40, 0x00, 0x02, 0x01, 0x00, 0x01, 0x80, 0x00,
    0x32, 0x81,
];

/// A run over files that are always read, with room for all that it writes and says: its words and its
/// files, and then its status, what it says and what `o.bin` holds.
struct Case {
    words: &'static [&'static str],
    files: &'static [(&'static str, &'static str)],
    status: u8,
    said: &'static str,
    held: Option<&'static [u8]>,
}

/// Drawings in two files.
const CASES: [Case; 14] = [
    Case {
        words: WORDS,
        files: &[("a.glif", TRIANGLE), ("b.glif", MOVED)],
        status: 0,
        said: MOVED_SAID,
        held: Some(MOVED_DATA),
    },
    Case {
        words: WORDS,
        files: &[("a.glif", TRIANGLE), ("b.glif", TRIANGLE)],
        status: 0,
        said: "tuples 0 explicit 0 of 0\n",
        held: Some(b""),
    },
    Case {
        words: WORDS,
        files: &[("a.glif", NARROW), ("b.glif", WIDE)],
        status: 0,
        said: "tuples 1 explicit 0 of 0\n",
        held: Some(WIDE_DATA),
    },
    Case {
        words: WORDS,
        files: &[("a.glif", SQUARE), ("b.glif", BROAD)],
        status: 0,
        said: "tuples 1 explicit 2 of 4\n",
        held: Some(BROAD_DATA),
    },
    Case {
        words: WORDS,
        files: &[("b.glif", "?")],
        status: 1,
        said: "refused MissingFile a.glif - 0 0 0 0\n",
        held: None,
    },
    Case {
        words: WORDS,
        files: &[("a.glif", TRIANGLE)],
        status: 1,
        said: "refused MissingFile b.glif - 0 0 0 0\n",
        held: None,
    },
    Case {
        words: WORDS,
        files: &[("a.glif", " ?")],
        status: 1,
        said: "refused BadText a.glif - 0 0 0 0\n",
        held: None,
    },
    Case {
        words: WORDS,
        files: &[("a.glif", TRIANGLE), ("b.glif", "")],
        status: 1,
        said: "refused Unfinished b.glif - 0 0 0 0\n",
        held: None,
    },
    Case {
        words: WORDS,
        files: &[("a.glif", TRIANGLE), ("b.glif", PARTED)],
        status: 1,
        said: "refused ContourCount b.glif a 0 0 1 2\n",
        held: None,
    },
    // Two faults at once, of which the earlier in the order of the work is answered.
    Case {
        words: WORDS,
        files: &[("a.glif", "?"), ("b.glif", "<")],
        status: 1,
        said: "refused BadText a.glif - 0 0 0 0\n",
        held: None,
    },
    Case {
        words: &["vfb", "tuples", "o.bin", "a.glif@1", "b.glif@1"],
        files: &[("a.glif", TRIANGLE)],
        status: 1,
        said: "refused MissingFile b.glif - 0 0 0 0\n",
        held: None,
    },
    Case {
        words: &["vfb", "tuples", "o.bin", "a.glif@1", "b.glif@1"],
        files: &[("a.glif", TRIANGLE), ("b.glif", PARTED)],
        status: 1,
        said: "refused NoDefaultSource - - 0 0 0 0\n",
        held: None,
    },
    Case {
        words: &[
            "vfb", "tuples", "o.bin", "a.glif@5", "b.glif@0", "a.glif@5", "b.glif@0",
        ],
        files: &[("a.glif", TRIANGLE), ("b.glif", PARTED)],
        status: 1,
        said: "refused SameLocation - - 0 2 0 0\n",
        held: None,
    },
    Case {
        words: &["vfb", "tuples", "o.bin", "a.glif@5", "b.glif@0"],
        files: &[("a.glif", TRIANGLE), ("b.glif", PARTED)],
        status: 1,
        said: "refused ContourCount a.glif a 0 0 2 1\n",
        held: None,
    },
];

/// Words that are those of no command.
const USAGES: [&[&str]; 16] = [
    &[],
    &["vfb"],
    &["vfb", "tuples"],
    &["vfb", "tuples", "o.bin"],
    &["vfb", "build", "o.bin", "a.glif@0", "b.glif@16384"],
    &["vfb", "tuples", "o.bin", "a.glif@0", "b.glif"],
    &["vfb", "tuples", "o.bin", "a@"],
    &["vfb", "tuples", "o.bin", "a@x"],
    &["vfb", "tuples", "o.bin", "a@0.5"],
    &["vfb", "tuples", "o.bin", "a@1,"],
    &["vfb", "tuples", "o.bin", "a@,1"],
    &["vfb", "tuples", "o.bin", "a@16385"],
    &["vfb", "tuples", "o.bin", "a@-16385"],
    &["vfb", "tuples", "o.bin", "a@0", "b@0,1"],
    &["vfb", "tuples", "o.bin", "a@0,0", "b@1"],
    &["vfb", "tuples", "o.bin", "a@0,0,0,0,0,0,0,0,0"],
];

/// Words of a command, and the path of its first drawing.
const PATHS: [(&[&str], &str); 4] = [
    (&["vfb", "tuples", "o.bin", "a@+1.0,-2.00"], "a"),
    (&["", "tuples", "o.bin", "a@b@ 0\n"], "a@b"),
    (&["", "tuples", "o.bin", "@-016384.0"], "-"),
    (
        &[
            "",
            "tuples",
            "o.bin",
            "a@0,0,0,0,0,0,0,16384",
            "b@0,0,0,0,0,0,0,0",
        ],
        "a",
    ),
];

/// Words of their own.
fn owned(alloc: Global, words: &[&str]) -> Result<Vec<String>, Fail> {
    let mut all = Vec::new(alloc);
    for word in words {
        all.push(String::from_str(alloc, word)?)?;
    }
    Ok(all)
}

/// Files with these texts.
fn files(alloc: Global, texts: &[(&str, &str)]) -> Result<Seq<(Name, Vec<u8>)>, Fail> {
    let mut all = Seq::new(alloc);
    for (path, text) in texts {
        let bytes = Vec::from_slice(alloc, text.as_bytes())?;
        all.push((Name::from_str(alloc, path)?, bytes))?;
    }
    Ok(all)
}

/// Room for this many bytes at a path.
fn room(alloc: Global, path: &str, size: u64) -> Result<Seq<(Name, u64)>, Fail> {
    let mut all = Seq::new(alloc);
    all.push((Name::from_str(alloc, path)?, size))?;
    Ok(all)
}

/// Runs the words over the files, and compares the status, what is said and what `o.bin` holds.
fn check(
    rt: &impl Abort,
    alloc: Global,
    words: &[&str],
    texts: &[(&str, &str)],
    status: u8,
    said: &str,
    held: Option<&[u8]>,
) -> Result<(), Fail> {
    let words = owned(alloc, words)?;
    let mut sources = SureSources::new(files(alloc, texts)?);
    let mut outputs = SureOutputs::new(alloc, room(alloc, "o.bin", 99)?)?;
    let mut say = SureSay::new(alloc, 99)?;
    let ended = run(
        alloc,
        &words,
        Vec::new(alloc),
        &mut sources,
        &mut outputs,
        &mut say,
    );
    assert_eq!(rt; ended.number(), status, "{said}");
    assert_eq!(rt; say.said(), said.as_bytes(), "{said}");
    assert_eq!(rt; outputs.held("o.bin"), held, "{said}");
    Ok(())
}

/// Runs as the case says, and compares what comes of it.
fn check_case(rt: &impl Abort, alloc: Global, case: &Case) -> Result<(), Fail> {
    check(
        rt,
        alloc,
        case.words,
        case.files,
        case.status,
        case.said,
        case.held,
    )
}

#[test]
fn answers_for_words_and_files(rt: HostRuntime) -> Result<(), Fail> {
    let alloc = rt.alloc();
    for case in &CASES {
        check_case(&rt, alloc, case)?;
    }
    for words in USAGES {
        check(&rt, alloc, words, &[], 2, "usage words\n", None)?;
    }
    for (words, path) in PATHS {
        let said = format!(in alloc; "refused MissingFile {path} - 0 0 0 0\n")?;
        check(&rt, alloc, words, &[], 1, said.as_str(), None)?;
    }
    Ok(())
}

/// Files that are all too long.
#[derive(Drop)]
struct LongSources;

impl Sources for LongSources {
    ghost use Rattle.std.specs.Prelude.{None};

    ghost state = { λ _. record { tells = ⊥; files = λ _. None; faults = 0; is_sure = ⊥ } };

    fn read(&mut self, _: Global, _: &str, limit: usize) -> Result<Found, ReadError> {
        match limit.checked_add(1) {
            Some(length) => Ok(Found::TooLong(length as u64)),
            None => Ok(Found::Absent),
        }
    }
}

#[test]
fn refuses_a_long_file(rt: HostRuntime) -> Result<(), Fail> {
    let alloc = rt.alloc();
    let words = owned(alloc, WORDS)?;
    let mut outputs = SureOutputs::new(alloc, room(alloc, "o.bin", 99)?)?;
    let mut say = SureSay::new(alloc, 99)?;
    let status = run(
        alloc,
        &words,
        Vec::new(alloc),
        &mut LongSources,
        &mut outputs,
        &mut say,
    );
    assert_eq!(rt; status.number(), 1);
    assert_eq!(rt;
        say.said(),
        b"refused FileTooLong a.glif - 0 0 67108865 0\n".as_slice()
    );
    Ok(())
}

/// Calls that fail in a run over the triangle that moves: reads, writes and calls that say something;
/// and then its status, what is said and what `o.bin` holds.
struct Failing {
    reads: &'static [u64],
    writes: &'static [u64],
    says: &'static [u64],
    status: u8,
    said: &'static str,
    held: Option<&'static [u8]>,
}

/// Each device in turn. The line of a fault of saying stands after the half that was said of the summary.
const FAILING: [Failing; 6] = [
    Failing {
        reads: &[2],
        writes: &[2],
        says: &[99],
        status: 0,
        said: MOVED_SAID,
        held: Some(MOVED_DATA),
    },
    Failing {
        reads: &[0],
        writes: &[],
        says: &[],
        status: 3,
        said: "read fault a.glif\n",
        held: None,
    },
    Failing {
        reads: &[1],
        writes: &[],
        says: &[],
        status: 3,
        said: "read fault b.glif\n",
        held: None,
    },
    Failing {
        reads: &[],
        writes: &[0],
        says: &[],
        status: 4,
        said: "write fault o.bin\n",
        held: None,
    },
    Failing {
        reads: &[],
        writes: &[1],
        says: &[],
        status: 4,
        said: "write fault o.bin\n",
        held: Some(&[0x00, 0x01, 0x00, 0x0A, 0x00, 0x06, 0xA0, 0x00]),
    },
    Failing {
        reads: &[],
        writes: &[],
        says: &[0],
        status: 4,
        said: "tuples 1 expwrite fault -\n",
        held: Some(MOVED_DATA),
    },
];

/// A list of these numbers.
fn numbers(alloc: Global, numbers: &[u64]) -> Result<Seq<u64>, Fail> {
    Ok(Seq::from_vec(Vec::from_slice(alloc, numbers)?))
}

/// Runs as the case says, and compares what comes of it.
fn check_failing(rt: &impl Abort, alloc: Global, case: &Failing) -> Result<(), Fail> {
    let words = owned(alloc, WORDS)?;
    let texts = files(alloc, &[("a.glif", TRIANGLE), ("b.glif", MOVED)])?;
    let mut sources = MemorySources::new(texts, numbers(alloc, case.reads)?);
    let mut outputs = MemoryOutputs::new(
        alloc,
        room(alloc, "o.bin", 99)?,
        numbers(alloc, case.writes)?,
    )?;
    let mut say = MemorySay::new(alloc, 99, numbers(alloc, case.says)?)?;
    let status = run(
        alloc,
        &words,
        Vec::new(alloc),
        &mut sources,
        &mut outputs,
        &mut say,
    );
    let said = case.said;
    assert_eq!(rt; status.number(), case.status, "{said}");
    assert_eq!(rt; say.said(), said.as_bytes(), "{said}");
    assert_eq!(rt; outputs.held("o.bin"), case.held, "{said}");
    Ok(())
}

#[test]
fn ends_where_a_device_fails(rt: HostRuntime) -> Result<(), Fail> {
    for case in &FAILING {
        check_failing(&rt, rt.alloc(), case)?;
    }
    Ok(())
}

/// Rooms for the data and for the text; and then the status, what is said, and how many bytes of the data
/// `o.bin` holds.
const ROOMS: [(u64, u64, u8, &str, usize); 5] = [
    (16, 25, 0, MOVED_SAID, 16),
    (15, 99, 4, "write fault o.bin\n", 15),
    (0, 17, 4, "write fault o.bin", 0),
    (16, 24, 4, "tuples 1 explicit 1 of 3", 16),
    (16, 0, 4, "", 16),
];

#[test]
fn ends_where_there_is_no_room(rt: HostRuntime) -> Result<(), Fail> {
    let alloc = rt.alloc();
    let words = owned(alloc, WORDS)?;
    for (data, text, status, said, held) in ROOMS {
        let texts = files(alloc, &[("a.glif", TRIANGLE), ("b.glif", MOVED)])?;
        let mut sources = SureSources::new(texts);
        let mut outputs = SureOutputs::new(alloc, room(alloc, "o.bin", data)?)?;
        let mut say = SureSay::new(alloc, text)?;
        let ended = run(
            alloc,
            &words,
            Vec::new(alloc),
            &mut sources,
            &mut outputs,
            &mut say,
        );
        assert_eq!(rt; ended.number(), status, "{said}");
        assert_eq!(rt; say.said(), said.as_bytes(), "{said}");
        assert_eq!(rt; outputs.held("o.bin"), MOVED_DATA.get(..held), "{said}");
    }
    Ok(())
}
