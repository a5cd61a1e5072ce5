mod plain;

use crate::{Element, read};
use basics::{Kind, Stop};
use plain::read_slowly;
use std::alloc::{AllocError, Global};
use std::fmt::Write;
use std::process::Abort;
use std::test::Fail;

/// Right texts, with the tree of each: name, `@` and offset, attributes, own text in bars, children in braces.
const TREES: [(&str, &str); 24] = [
    ("<a/>", "a@0||{}"),
    ("<a></a >", "a@0||{}"),
    ("\u{feff}<a/>", "a@3||{}"),
    (" \n<a/>\t", "a@2||{}"),
    ("<a b='1' c = \"2\" b='3'/>", "a@0 b=1 c=2||{}"),
    ("<a\tb\n=\r'>'\n></a>", "a@0 b=>||{}"),
    ("<a>x<b>y</b>z<c/>w</a>", "a@0|xzw|{b@4|y|{}c@13||{}}"),
    (
        "<a>&lt;&#65;&#x42;&#x1F600;&amp;&gt;&quot;&apos;</a>",
        "a@0|<AB\u{1f600}&>\"'|{}",
    ),
    ("<a b='&#9;&quot;\"'/>", "a@0 b=\t\"\"||{}"),
    ("<a>1]]>2</a>", "a@0|1]]>2|{}"),
    ("<!----><a/><!-- a --->", "a@7||{}"),
    ("<??><a/>", "a@4||{}"),
    ("<?>?><a/>", "a@5||{}"),
    ("<?xml version='1.0'?>\n<a/>\n<?z?>", "a@22||{}"),
    ("<!DOCTYPE x><a/>", "a@12||{}"),
    ("<!-- --> <!DOCTYPE \"'> <?y?><a/>", "a@28||{}"),
    ("<a><!--x-->1<?y?>2</a>", "a@0|12|{}"),
    ("<\u{e4}:b.-1/>", "\u{e4}:b.-1@0||{}"),
    ("<_/>", "_@0||{}"),
    (
        "<a>\u{7f}\u{fffe}&#xFFFE;</a>",
        "a@0|\u{7f}\u{fffe}\u{fffe}|{}",
    ),
    ("<a>&#x10FFFF;&#000000000000065;</a>", "a@0|\u{10ffff}A|{}"),
    ("<a> \r\n</a>", "a@0| \r\n|{}"),
    ("<a b=''><a b='/'/></a>", "a@0 b=||{a@8 b=/||{}}"),
    (
        "<a><b></b><b><c/></b></a>",
        "a@0||{b@3||{}b@10||{c@13||{}}}",
    ),
];

/// Texts without a tree, with the one fault of each and its offset.
const FAULTS: [(&[u8], Kind, u64); 80] = [
    (b"", Kind::Unfinished, 0),
    (b" ", Kind::Unfinished, 1),
    (b"\xEF\xBB\xBF", Kind::Unfinished, 3),
    (b"\xEF\xBB<a/>", Kind::BadText, 0),
    (b"x", Kind::BadText, 0),
    (b" x", Kind::BadText, 0),
    (b"\xEF\xBB\xBFx", Kind::BadText, 3),
    (b"<", Kind::Unfinished, 1),
    (b"<a", Kind::Unfinished, 2),
    (b"<a>x", Kind::Unfinished, 4),
    (b"<a>&", Kind::Unfinished, 4),
    (b"<a>\xFF", Kind::Unfinished, 4),
    (b"<a>&</a>", Kind::BadText, 3),
    (b"<a>\xFF</a>", Kind::BadText, 3),
    (b"<a>\x01</a>", Kind::BadText, 3),
    (b"<a b='\xC3('/>", Kind::BadText, 0),
    (b"<a\xC3/>", Kind::BadText, 0),
    (b"<a b=\"x<", Kind::BadText, 0),
    (b"<a b=\"x", Kind::Unfinished, 7),
    (b"<a b=\"x>", Kind::Unfinished, 8),
    (b"<a b=\"<\"/>", Kind::BadText, 0),
    (b"<a/><b/>", Kind::BadText, 4),
    (b"<a/>x", Kind::BadText, 4),
    (b"<a/>&#32;", Kind::BadText, 4),
    (b"&#32;<a/>", Kind::BadText, 0),
    (b"</a>", Kind::BadText, 0),
    (b"<a></b>", Kind::BadText, 3),
    (b"<a></a b>", Kind::BadText, 3),
    (b"<a></a/>", Kind::BadText, 3),
    (b"<a></ a>", Kind::BadText, 3),
    (b"<a><b></a></b>", Kind::BadText, 6),
    (b"<a></a></a>", Kind::BadText, 7),
    (b"<><a/>", Kind::BadText, 0),
    (b"< a/>", Kind::BadText, 0),
    (b"<1/>", Kind::BadText, 0),
    (b"<a/b>", Kind::BadText, 0),
    (b"<a/ >", Kind::BadText, 0),
    (b"<a b/>", Kind::BadText, 0),
    (b"<a b=c/>", Kind::BadText, 0),
    (b"<a b='1'c='2'/>", Kind::BadText, 0),
    (b"<a b='&x;'/>", Kind::BadText, 0),
    (b"<!-- -- --><a/>", Kind::BadText, 0),
    (b"<!-->", Kind::Unfinished, 5),
    (b"<!--\xFF", Kind::Unfinished, 5),
    (b"<!--\x02--><a/>", Kind::BadText, 0),
    (b"<?\xFF?><a/>", Kind::BadText, 0),
    (b"<?>", Kind::Unfinished, 3),
    (b"<!>", Kind::BadText, 0),
    (b"<!DOCTYPE><a/>", Kind::BadText, 0),
    (b"<!DOCTYPE a[]><a/>", Kind::BadText, 0),
    (b"<!doctype a><a/>", Kind::BadText, 0),
    (b"<!DOCTYPE a<b><a/>", Kind::BadText, 0),
    (b"<!DOCTYPE a><!DOCTYPE a><a/>", Kind::BadText, 12),
    (b"<a/><!DOCTYPE a>", Kind::BadText, 4),
    (b"<a><!DOCTYPE a></a>", Kind::BadText, 3),
    (b"<a><![CDATA[x]]></a>", Kind::BadText, 3),
    (b"<a>&#0;</a>", Kind::BadText, 3),
    (b"<a>&#xD800;</a>", Kind::BadText, 3),
    (b"<a>&#x110000;</a>", Kind::BadText, 3),
    (b"<a>&#4294967361;</a>", Kind::BadText, 3),
    (b"<a>&#X41;</a>", Kind::BadText, 3),
    (b"<a>&#;&#x;</a>", Kind::BadText, 3),
    (b"<a>&nope;</a>", Kind::BadText, 3),
    (b"<a>&amp</a>", Kind::BadText, 3),
    (b"<a>&x;<", Kind::BadText, 3),
    (b"<a></b><", Kind::BadText, 3),
    (b"<a><!--", Kind::Unfinished, 7),
    (b"<a><!--><", Kind::Unfinished, 9),
    (b"<a><?b?", Kind::Unfinished, 7),
    (b"<a><!b", Kind::Unfinished, 6),
    (b"<a></a><!--", Kind::Unfinished, 11),
    (b"<a>&nope;<!--", Kind::BadText, 3),
    (b"<a><b c='&nope;'/>&nope;</a>", Kind::BadText, 3),
    (b"<a>&nope;<b c='&nope;'/></a>", Kind::BadText, 3),
    (b"<a/>\n<!--\x01-->&nope;", Kind::BadText, 5),
    (b"<a/><?b?></a>", Kind::BadText, 9),
    (b"<!--b--><![CDATA[x]]><a/>", Kind::BadText, 8),
    (
        b"<!DOCTYPE a [<!ENTITY b 'c'>]><a>&b;</a>",
        Kind::BadText,
        0,
    ),
    (b"<a><b c=\"'>\"/></a><b c='\">'/>", Kind::BadText, 18),
    (b"<a><b c=\"</b></a>", Kind::BadText, 3),
];

/// Right texts of which each prefix from a length on lacks its end, with every form of item. A prefix of the
/// byte order mark isn't one.
const WHOLE: [(usize, &str); 3] = [
    (
        0,
        "<!--c--><?d?> <!DOCTYPE a \"b\"><a b=\"1\" c = '>'>x&amp;<!--c--><?d?><e f='/'/></a >",
    ),
    (3, "\u{feff}<a>\u{e4}&#x41;</a>"),
    (0, "<a><b><c/></b></a>"),
];

// Writes a tree into a line.
fn show(element: &Element, out: &mut String) -> Result<(), AllocError> {
    write!(out, "{}@{}", element.name(), element.offset())?;
    for (key, value) in element.attributes() {
        write!(out, " {}={}", key.as_str(), value.as_str())?;
    }
    write!(out, "|{}|{{", element.text())?;
    for child in &element.children {
        show(child, out)?;
    }
    out.push('}')
}

// The fault of a text, and none where it has a tree.
fn fault_of(alloc: Global, text: &[u8]) -> Option<(Kind, u64)> {
    match read(alloc, text) {
        Err(Stop::At(spot)) => Some((spot.kind, spot.at)),
        _ => None,
    }
}

#[test]
fn reads_trees(rt: HostRuntime) -> Result<(), Fail> {
    for (text, want) in TREES {
        let mut line = String::new(rt.alloc());
        match read(rt.alloc(), text.as_bytes()) {
            Ok(element) => show(&element, &mut line)?,
            Err(_) => line.push_str("refused")?,
        }
        assert_eq!(rt; line.as_str(), want, "{text}");
    }
    Ok(())
}

#[test]
fn finds_faults(rt: HostRuntime) -> Result<(), Fail> {
    for (text, kind, at) in FAULTS {
        let shown = text.escape_ascii();
        assert_eq!(rt; fault_of(rt.alloc(), text), Some((kind, at)), "{shown}");
    }
    for (first, text) in WHOLE {
        let whole = text.as_bytes();
        assert_eq!(rt; fault_of(rt.alloc(), whole), None, "{text}");
        for end in first..whole.len() {
            let at = end as u64;
            assert_eq!(rt;
                fault_of(rt.alloc(), &whole[..end]),
                Some((Kind::Unfinished, at)),
                "{text} cut at {end}"
            );
        }
    }
    Ok(())
}

// Elements 64 deep, and then this.
#[test]
fn goes_64_deep(rt: HostRuntime) -> Result<(), Fail> {
    let rows = [
        ("<b>", Some((Kind::TooDeep, 192))),
        ("<b/>", Some((Kind::TooDeep, 192))),
        ("<b", Some((Kind::TooDeep, 192))),
        ("<b$>", Some((Kind::TooDeep, 192))),
        ("<\u{e4}", Some((Kind::TooDeep, 192))),
        ("<", Some((Kind::Unfinished, 193))),
        ("</a", Some((Kind::Unfinished, 195))),
        ("<$>", Some((Kind::BadText, 192))),
        ("<!--", Some((Kind::Unfinished, 196))),
        ("x", Some((Kind::Unfinished, 193))),
        ("", Some((Kind::Unfinished, 192))),
        ("</a><b>", Some((Kind::Unfinished, 199))),
        ("&nope;<b>", Some((Kind::BadText, 192))),
        ("x<b>&nope;", Some((Kind::TooDeep, 193))),
        ("</a><b/><b><c>", Some((Kind::TooDeep, 203))),
    ];
    let mut open = String::new(rt.alloc());
    for _ in 0..64 {
        open.push_str("<a>")?;
    }
    for (last, want) in rows {
        let text = format!(in rt.alloc(); "{open}{last}")?;
        assert_eq!(rt; fault_of(rt.alloc(), text.as_bytes()), want, "{last}");
    }
    let mut whole = format!(in rt.alloc(); "{open}x<!--y-->")?;
    for _ in 0..64 {
        whole.push_str("</a>")?;
    }
    assert_eq!(rt; fault_of(rt.alloc(), whole.as_bytes()), None);
    Ok(())
}

// The value of an attribute, by its name.
#[test]
fn finds_attributes(rt: HostRuntime) -> Result<(), Fail> {
    match read(rt.alloc(), b"<a b='1' c='' bb='2'/>") {
        Ok(element) => {
            assert_eq!(rt; element.attribute("b"), Some("1"));
            assert_eq!(rt; element.attribute("bb"), Some("2"));
            assert_eq!(rt; element.attribute("c"), Some(""));
            assert_eq!(rt; element.attribute("d"), None);
            assert!(rt; element.children().is_empty());
            assert!(rt; element.is_named("a") && !element.is_named("A"));
        }
        Err(_) => assert!(rt; false, "refused"),
    }
    Ok(())
}

// What the reader makes of a text, as a line.
fn read_line(alloc: Global, text: &[u8]) -> Result<String, AllocError> {
    let mut line = String::new(alloc);
    match read(alloc, text) {
        Ok(element) => show(&element, &mut line)?,
        Err(Stop::At(spot)) => write!(line, "{} {}", spot.kind.name(), spot.at)?,
        Err(Stop::NoMemory) => line.push_str("no memory")?,
    }
    Ok(line)
}

// Ends the test where the plain reader makes something else of a text.
fn compare(rt: &impl Abort, alloc: Global, text: &[u8]) -> Result<(), AllocError> {
    let want = read_slowly(alloc, text)?;
    let line = read_line(alloc, text)?;
    let shown = text.escape_ascii();
    assert_eq!(rt; line, want, "{shown}");
    Ok(())
}

/// Items of every kind, right and wrong.
const ITEMS: [&str; 30] = [
    " ",
    "x",
    "&amp;",
    "&#0;",
    "&#xD800;",
    "&nope;",
    "]]>",
    "\u{1}",
    "\u{e4}",
    "<a>",
    "<b c='d'>",
    "</a>",
    "</b>",
    "</a\n>",
    "<a/>",
    "<e f='g' f=\"h\" />",
    "<e f=g>",
    "<e f='<'>",
    "<e f='&nope;'/>",
    "< a>",
    "<>",
    "<!---->",
    "<!-- -- -->",
    "<!-->",
    "<?x?>",
    "<?>",
    "<!DOCTYPE a>",
    "<!DOCTYPE a[]>",
    "<![CDATA[x]]>",
    "<",
];

// Each item with each other, before the root element, in it and after it.
#[test]
fn agrees_on_items(rt: HostRuntime) -> Result<(), Fail> {
    let alloc = rt.alloc();
    for first in ITEMS {
        for second in ITEMS {
            let texts = [
                format!(in alloc; "{first}{second}")?,
                format!(in alloc; "{first}{second}<r/>")?,
                format!(in alloc; "{first}<r>{second}</r>")?,
                format!(in alloc; "<r>{first}{second}</r>")?,
                format!(in alloc; "<a>{first}</a>{second}")?,
                format!(in alloc; "<r/>{first}{second}")?,
            ];
            for text in &texts {
                compare(&rt, alloc, text.as_bytes())?;
            }
        }
    }
    Ok(())
}

/// Texts with every kind of item, to be cut and spoiled.
const SPOILED: [&str; 4] = [
    "\u{feff}<?x y?><!--z--> <!DOCTYPE a \"b\"><a b=\"1\" c = '>'>x&amp;<!--c--><?d?><e f='/'/></a >\n",
    "<a>\u{e4}&#x41;&#66;<b><c d='&lt;'/></b>\t</a><!-- - -->",
    "<a b='1' b='&#50;'><b></b>x<b>]]></b></a>",
    "<a><![CDATA[x]]></a><!DOCTYPE a>",
];

/// The bytes that tell most.
const TELLING: &[u8] = b"<>/!?-&;#x'\"= \na0[\x01\x80\xC3";

// Each prefix of a text, and the text with one byte left out, put in twice, or replaced by another.
#[test]
fn agrees_on_spoiled_texts(rt: HostRuntime) -> Result<(), Fail> {
    let alloc = rt.alloc();
    for text in SPOILED {
        let whole = text.as_bytes();
        for at in 0..whole.len() {
            let (prefix, rest) = whole.split_at(at);
            compare(&rt, alloc, prefix)?;
            let mut spoiled = Vec::from_slice(alloc, prefix)?;
            spoiled.extend_from_slice(&rest[1..])?;
            compare(&rt, alloc, spoiled.as_slice())?;
            spoiled.insert(at, rest[0])?;
            compare(&rt, alloc, spoiled.as_slice())?;
            for byte in TELLING {
                spoiled[at] = *byte;
                compare(&rt, alloc, spoiled.as_slice())?;
            }
            spoiled[at] = rest[0];
            spoiled.insert(at, rest[0])?;
            compare(&rt, alloc, spoiled.as_slice())?;
        }
    }
    Ok(())
}

// Elements 62 to 66 deep, and then each item.
#[test]
fn agrees_on_depths(rt: HostRuntime) -> Result<(), Fail> {
    let alloc = rt.alloc();
    let mut prefix = String::new(alloc);
    let mut back = String::new(alloc);
    for depth in 1..67 {
        prefix.push_str("<a>")?;
        back.push_str("</a>")?;
        if depth < 62 {
            continue;
        }
        for item in ITEMS {
            let text = format!(in alloc; "{prefix}{item}{back}")?;
            compare(&rt, alloc, text.as_bytes())?;
        }
    }
    Ok(())
}

// Tags with few and with many attributes, of which each name stands once, twice or often.
#[test]
fn agrees_on_many_attributes(rt: HostRuntime) -> Result<(), Fail> {
    let alloc = rt.alloc();
    for count in [15, 16, 17, 40] {
        for names in [1, 2, 7, 40] {
            let mut text = String::from_str(alloc, "<a")?;
            for k in 0..count {
                let name = k % names;
                write!(text, " a{name}='={k}'")?;
            }
            text.push_str("/>")?;
            compare(&rt, alloc, text.as_bytes())?;
        }
    }
    Ok(())
}
