use crate::{Value, read};
use basics::{Kind, Stop};
use std::alloc::{AllocError, Global};
use std::fmt::Write;
use std::test::Fail;

/// What stands in a `plist`, with the value as a line: texts in quotes, numbers after #, arrays in brackets,
/// dictionaries in braces.
const VALUES: [(&str, &str); 28] = [
    ("<string>a</string>", "'a'"),
    ("<string/>", "''"),
    ("<string> a\n</string>", "' a\n'"),
    ("<string>&lt;&#65;&amp;</string>", "'<A&'"),
    ("<string>a<!--b-->c</string>", "'ac'"),
    ("<integer>1</integer>", "#1"),
    ("<integer>x</integer>", "#x"),
    ("<integer/>", "#"),
    ("<real> -1.5 </real>", "# -1.5 "),
    ("<true/>", "true"),
    ("<true>false</true>", "true"),
    ("<false/>", "false"),
    ("<false>true</false>", "false"),
    ("<date>2026-01-01T00:00:00Z</date>", "other"),
    ("<data>AA==</data>", "other"),
    ("<array/>", "[]"),
    ("<array>x</array>", "[]"),
    ("<dict/>", "{}"),
    ("<dict>x</dict>", "{}"),
    ("x <true/> y<!--z-->", "true"),
    ("<string a='b'>c</string>", "'c'"),
    (
        "<array>1<string>a</string>2<array><real>2</real><array/></array>3<data/>4</array>",
        "['a', [#2, []], other]",
    ),
    (
        "<dict>1<key>k</key>2<string>v</string>3<key/>4<dict><key>i</key><false/></dict>5</dict>",
        "{k: 'v', : {i: false}}",
    ),
    (
        "<dict><key>b</key><true/><key>a</key><true/><key>b</key><false/><key>a</key><false/></dict>",
        "{b: true, a: true}",
    ),
    (
        "<dict><key>a</key><true/><key>a</key><false/><key>a</key><array/></dict>",
        "{a: true}",
    ),
    (
        "<dict><key>a</key><true/><key> a</key><false/><key>A</key><data/></dict>",
        "{a: true,  a: false, A: other}",
    ),
    (
        "<dict><key>A&amp;</key><true/><key>&#65;&#38;</key><false/></dict>",
        "{A&: true}",
    ),
    (
        "<array><dict><key>a</key><true/></dict><dict><key>a</key><false/></dict></array>",
        "[{a: true}, {a: false}]",
    ),
];

/// Texts that aren't property lists, with the offset of the fault.
const FAULTS: [(&str, u64); 25] = [
    ("<dict/>", 0),
    ("<Plist><true/></Plist>", 0),
    ("\u{feff}<!--c--><string>a</string>", 11),
    ("<plist/>", 0),
    ("<plist>x</plist>", 0),
    (" <plist></plist>", 1),
    ("<plist><true/><true/></plist>", 14),
    ("<plist><set/></plist>", 7),
    ("<plist><String/></plist>", 7),
    ("<plist><plist><true/></plist></plist>", 7),
    ("<plist><key>a</key></plist>", 7),
    ("<plist><array><true/><key/></array></plist>", 21),
    ("<plist><array><true/><x/></array></plist>", 21),
    ("<plist><dict><true/></dict></plist>", 13),
    ("<plist><dict><string/><true/></dict></plist>", 13),
    ("<plist><dict><Key/><true/></dict></plist>", 13),
    ("<plist><dict><key><true/></key><true/></dict></plist>", 18),
    ("<plist><dict><key/><key/></dict></plist>", 19),
    ("<plist><dict><key/><x/></dict></plist>", 19),
    ("<plist><dict><key/><true/><true/></dict></plist>", 26),
    ("<plist><dict><key/></dict></plist>", 7),
    ("<plist><dict><key/><true/><key/></dict></plist>", 7),
    ("<plist><array><dict><key/></dict></array></plist>", 14),
    ("<plist><dict><key/><dict><key/></dict></dict></plist>", 19),
    (
        "<plist><dict><key>a</key><true/><key>a</key><x/></dict></plist>",
        44,
    ),
];

/// Texts with two faults that are next to each other in the order of tests, with the offset of the first.
const FIRST_OF_TWO: [(&str, u64); 20] = [
    // A name, and what is in it.
    ("<list><x/></list>", 0),
    ("<plist><x><y/></x></plist>", 7),
    ("<plist><true/><x><y/></x></plist>", 14),
    ("<plist><dict><x><y/></x><true/></dict></plist>", 13),
    ("<plist><dict><key/><x><y/></x></dict></plist>", 19),
    // A child, and the next one.
    ("<plist><x/><true/></plist>", 7),
    ("<plist><true/><x/><y/></plist>", 14),
    ("<plist><string><x/><y/></string></plist>", 15),
    ("<plist><array><x/><y/></array></plist>", 14),
    ("<plist><dict><x/><y/></dict></plist>", 13),
    ("<plist><dict><key/><x/><y/></dict></plist>", 19),
    // What is in a child, and the next child.
    ("<plist><array><x/></array><true/></plist>", 14),
    ("<plist><array><array><x/></array><y/></array></plist>", 21),
    ("<plist><dict><key><x/></key><y/></dict></plist>", 18),
    (
        "<plist><dict><key/><array><x/></array><y/></dict></plist>",
        26,
    ),
    ("<plist><array><dict><key/></dict><x/></array></plist>", 14),
    // The last child, or what is in it, and a missing value.
    ("<plist><dict><x/></dict></plist>", 13),
    ("<plist><dict><key><x/></key></dict></plist>", 18),
    ("<plist><dict><key/><x/><key/></dict></plist>", 19),
    (
        "<plist><dict><key/><dict><key/></dict><key/></dict></plist>",
        19,
    ),
];

// Writes a value into a line.
fn show(value: &Value, out: &mut String) -> Result<(), AllocError> {
    match value {
        Value::Text(text) => write!(out, "'{}'", text.as_str()),
        Value::Number(text) => write!(out, "#{}", text.as_str()),
        Value::Bool(holds) => write!(out, "{}", *holds),
        Value::Array(items) => {
            out.push('[')?;
            for (i, item) in items.iter().enumerate() {
                if i > 0 {
                    out.push_str(", ")?;
                }
                show(item, out)?;
            }
            out.push(']')
        }
        Value::Dict(entries) => {
            out.push('{')?;
            for (i, (key, item)) in entries.iter().enumerate() {
                if i > 0 {
                    out.push_str(", ")?;
                }
                write!(out, "{}: ", key.as_str())?;
                show(item, out)?;
            }
            out.push('}')
        }
        Value::Other => out.push_str("other"),
    }
}

// The value of a text.
fn value_of(alloc: Global, text: &str) -> Result<Value, Stop> {
    let tree = markup::read(alloc, text.as_bytes())?;
    read(alloc, &tree)
}

// What is wrong with a text: the kind of its fault, the length of the item, and the numbers. None where it has a value.
fn fault_of(alloc: Global, text: &str) -> Option<(Kind, usize, [u64; 2], [i64; 2])> {
    match value_of(alloc, text) {
        Err(Stop::At(spot)) => Some((
            spot.kind,
            spot.item.as_str().len(),
            [spot.at, spot.also],
            [spot.first, spot.second],
        )),
        _ => None,
    }
}

// The fault NotPlist at this offset.
fn not_plist(at: u64) -> Option<(Kind, usize, [u64; 2], [i64; 2])> {
    Some((Kind::NotPlist, 0, [at, 0], [0, 0]))
}

// The value of a text as a line, or what is wrong with it.
fn line_of(alloc: Global, text: &str) -> Result<String, AllocError> {
    match value_of(alloc, text) {
        Ok(value) => {
            let mut line = String::new(alloc);
            show(&value, &mut line)?;
            Ok(line)
        }
        Err(Stop::At(spot)) => format!(in alloc; "{} at {}", spot.kind.name(), spot.at),
        Err(Stop::NoMemory) => String::from_str(alloc, "NoMemory"),
    }
}

#[test]
fn reads_values(rt: HostRuntime) -> Result<(), Fail> {
    let apple =
        "<?xml version='1.0' encoding='UTF-8'?>\n<!DOCTYPE plist PUBLIC '-//Apple//DTD PLIST 1.0//EN' 'http://www.apple.com/DTDs/PropertyList-1.0.dtd'>\n<plist version='1.0'>";
    for start in ["<plist>", apple] {
        for (inside, want) in VALUES {
            let text = format!(in rt.alloc(); "{start}{inside}</plist>")?;
            let line = line_of(rt.alloc(), text.as_str())?;
            assert_eq!(rt; line.as_str(), want, "{inside}");
        }
    }
    Ok(())
}

#[test]
fn finds_faults(rt: HostRuntime) -> Result<(), Fail> {
    for (text, at) in FAULTS {
        assert_eq!(rt; fault_of(rt.alloc(), text), not_plist(at), "{text}");
    }
    for (text, at) in FIRST_OF_TWO {
        assert_eq!(rt; fault_of(rt.alloc(), text), not_plist(at), "{text}");
    }
    for name in ["string", "integer", "real", "true", "false", "date", "data"] {
        let text = format!(in rt.alloc(); "<plist><{name}>x<true/></{name}></plist>")?;
        let at = "<plist><>x".len() as u64 + name.len() as u64;
        assert_eq!(rt;
            fault_of(rt.alloc(), text.as_str()),
            not_plist(at),
            "{name}"
        );
    }
    Ok(())
}

// Each kind of value, seen by each accessor.
#[test]
fn answers_by_kind(rt: HostRuntime) -> Result<(), Fail> {
    let text =
        "<plist><dict><key>t</key><string>1</string><key>n</key><integer>1</integer><key>b</key><false/><key>a</key><array><true/></array><key>o</key><data/></dict></plist>";
    let Ok(dict) = value_of(rt.alloc(), text) else {
        assert!(rt; false, "refused");
        return Ok(());
    };
    let mut seen = String::new(rt.alloc());
    for key in ["t", "n", "b", "a", "o", "T", ""] {
        match dict.get(key) {
            Some(value) => write!(
                seen,
                "{:?} {:?} {:?} {:?} {:?}|",
                value.as_text(),
                value.as_number(),
                value.as_bool(),
                value.as_array().map(|items| items.len()),
                value.as_dict().is_some() || value.get(key).is_some(),
            )?,
            None => seen.push_str("absent|")?,
        }
    }
    let want =
        "Some(\"1\") None None None false|None Some(\"1\") None None false|None None Some(false) None false|None None None Some(1) false|None None None None false|absent|absent|";
    assert_eq!(rt; seen.as_str(), want);
    assert_eq!(rt; dict.as_dict().map(|entries| entries.len()), Some(5));
    assert_eq!(rt;
        (dict.as_text(), dict.as_number(), dict.as_bool()),
        (None, None, None)
    );
    assert_eq!(rt; dict.as_array().map(|items| items.len()), None);
    Ok(())
}

// Elements 64 deep, the deepest that a text may have.
#[test]
fn goes_64_deep(rt: HostRuntime) -> Result<(), Fail> {
    let mut text = String::from_str(rt.alloc(), "<plist>")?;
    let mut want = String::new(rt.alloc());
    for _ in 0..62 {
        text.push_str("<array>")?;
        want.push('[')?;
    }
    text.push_str("<true/>")?;
    want.push_str("true")?;
    for _ in 0..62 {
        text.push_str("</array>")?;
        want.push(']')?;
    }
    text.push_str("</plist>")?;
    let line = line_of(rt.alloc(), text.as_str())?;
    assert_eq!(rt; line.as_str(), want.as_str());
    Ok(())
}

// Of 40,000 entries with 32,510 keys the first of each key stay, in order.
#[test]
fn keeps_first_of_many(rt: HostRuntime) -> Result<(), Fail> {
    let keys = 32_510;
    let mut text = String::from_str(rt.alloc(), "<plist><dict>")?;
    for i in 0..40_000 {
        let key = i % keys;
        write!(text, "<key>k{key}</key><integer>{i}</integer>")?;
    }
    text.push_str("</dict></plist>")?;
    let Ok(dict) = value_of(rt.alloc(), text.as_str()) else {
        assert!(rt; false, "refused");
        return Ok(());
    };
    let entries = dict.as_dict().unwrap_or(&[]);
    assert_eq!(rt; entries.len(), keys);
    for (i, (key, value)) in entries.iter().enumerate() {
        let want = format!(in rt.alloc(); "k{i} {i}")?;
        let number = value.as_number().unwrap_or("");
        let found = format!(in rt.alloc(); "{} {number}", key.as_str())?;
        assert_eq!(rt; found.as_str(), want.as_str());
    }
    Ok(())
}
