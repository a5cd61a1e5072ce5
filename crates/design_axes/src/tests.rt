//! The axes of documents and their first faults, worked out by hand.

use crate::{Axis, first_named, named, read_axes};
use basics::{Seq, Spot, Stop};
use fixpoint::Fix;
use norm_loc::Span;
use std::alloc::{AllocError, Global};
use std::fmt::Write;
use std::process::Abort;
use std::test::Fail;

// In the tables `%` stands for the axis `AXIS`, `$` for its values, and `~` for a text of 101 units. An answer is
// each axis as its tag, its name, its label, whether it is hidden, its user values and its design values; or a
// fault's kind, item and four numbers. The element whose offset it tells has the mark `@`, which isn't part of the text.

/// An axis.
const AXIS: &str = "<axis tag='wght' name='Weight' minimum='100' default='400' maximum='900'/>";

/// The values of that axis.
const VALUES: &str = " minimum='100' default='400' maximum='900'";

/// A text of 101 units.
const LONG: &str =
    "123456789 123456789 123456789 123456789 123456789 123456789 123456789 123456789 123456789 123456789 1";

/// Documents, and what they tell.
const DOCUMENTS: [(&str, &str); 7] = [
    ("<designspace/>", "NoAxes - 0 0 0 0"),
    (
        "<designspace><axes/><axes>%</axes></designspace>",
        "NoAxes - 0 0 0 0",
    ),
    (
        "<designspace>%<x><axes>%</axes></x></designspace>",
        "NoAxes - 0 0 0 0",
    ),
    (
        "<designspace><axes><x>%</x><mappings><mapping/></mappings></axes></designspace>",
        "NoAxes - 0 0 0 0",
    ),
    ("<axes>%</axes>", "NoAxes - 0 0 0 0"),
    (
        "<designspace><sources/><axes elidedfallbackname='Regular'><x/>%<mappings/></axes><axes>%%</axes></designspace>",
        "wght Weight/Weight 100 400 900 to 100 400 900;",
    ),
    (
        "<x><axes><axis/><axis/><axis/><axis/><axis/><axis/><axis/><axis/><axis/></axes></x>",
        "TooManyAxes - 0 0 9 0",
    ),
];

/// What stands in `axes`, and the axes that it tells.
const READ: [(&str, &str); 12] = [
    (
        "<axis maximum='900' minimum='100' name='' default='400' hidden='1' tag='wg'/>",
        "wg   / hidden 100 400 900 to 100 400 900;",
    ),
    (
        "<axis tag=' !a' name='Weight' minimum=' -12.5 ' default='+0' maximum='0.0' hidden='true'/>",
        " !a  Weight/Weight hidden raw -819200 0 0 to raw -819200 0 0;",
    ),
    (
        "<axis tag='a' name='1'$ hidden='True'/><axis tag='b' name='2'$ hidden='0'/><axis tag='A' name='3'$ hidden=''/>",
        "a    1/1 100 400 900 to 100 400 900;b    2/2 100 400 900 to 100 400 900;A    3/3 100 400 900 to 100 400 900;",
    ),
    (
        "<axis tag='wght' name='Weight' minimum='5' default='5' maximum='5'/>",
        "wght Weight/Weight 5 5 5 to 5 5 5;",
    ),
    (
        "<axis tag='wght' name='Weight'$><labelname xml:lang='de'>~</labelname><labelname xml:lang='en'>Heft</labelname><labelname xml:lang='en'>~</labelname></axis>",
        "wght Weight/Heft 100 400 900 to 100 400 900;",
    ),
    (
        "<axis tag='wght' name='Weight'$><labelname>A</labelname><labelname xml:lang='en-GB'>B</labelname><labelname lang='en'>C</labelname><x xml:lang='en'>D</x></axis>",
        "wght Weight/Weight 100 400 900 to 100 400 900;",
    ),
    (
        "<axis tag='wght' name='Weight'$><labelname xml:lang='en'/></axis>",
        "wght Weight/ 100 400 900 to 100 400 900;",
    ),
    (
        "<axis tag='wght' name='Weight'$><map input='100' output='20'/><x/><map output='80' input='400'/><map input='700' output='150'/><map input='900' output='200'/></axis>",
        "wght Weight/Weight 100 400 900 to 20 80 200;",
    ),
    (
        "<axis tag='wght' name='Weight'$><map input='0' output='0'/><map input='1000' output='2000'/></axis>",
        "wght Weight/Weight 100 400 900 to 200 800 1800;",
    ),
    (
        "<axis tag='wght' name='Weight'$><map input='100' output='50'/></axis>",
        "wght Weight/Weight 100 400 900 to 50 350 850;",
    ),
    (
        "<axis tag='wght' name='Weight' minimum='0' default='0' maximum='32767'><map input='0' output='0'/></axis>",
        "wght Weight/Weight 0 0 32767 to 0 0 32767;",
    ),
    (
        "<axis tag='1' name='1'$/><axis tag='2' name='2'$/><axis tag='3' name='3'$/><axis tag='4' name='4'$/><axis tag='5' name='5'$/><axis tag='6' name='6'$/><axis tag='7' name='7'$/>%",
        "1    1/1 100 400 900 to 100 400 900;2    2/2 100 400 900 to 100 400 900;3    3/3 100 400 900 to 100 400 900;4    4/4 100 400 900 to 100 400 900;5    5/5 100 400 900 to 100 400 900;6    6/6 100 400 900 to 100 400 900;7    7/7 100 400 900 to 100 400 900;wght Weight/Weight 100 400 900 to 100 400 900;",
    ),
];

/// What stands in `axes`, and its first fault, of the attributes of an axis.
const REFUSED: [(&str, &str); 16] = [
    ("%<axis values=''/>", "DiscreteAxis - 1 0 0 0"),
    ("@<axis$/>", "MissingAttribute tag @ 0 0 0"),
    ("%@<axis tag=''/>", "BadTag - @ 0 0 0"),
    ("@<axis tag='weight'/>", "BadTag weight @ 0 0 0"),
    ("@<axis tag='wg\u{e9}'/>", "BadTag wg\u{e9} @ 0 0 0"),
    ("@<axis tag='wght'/>", "MissingAttribute name @ 0 0 0"),
    ("@<axis tag='wght' name='~'/>", "NameLength name @ 0 101 0"),
    (
        "@<axis tag='wght' name='a' default='x'/>",
        "MissingAttribute minimum @ 0 0 0",
    ),
    (
        "@<axis tag='wght' name='a' default='x' minimum='1e2'/>",
        "NotNumber minimum @ 0 0 0",
    ),
    (
        "@<axis tag='wght' name='a' minimum='32768'/>",
        "NumberRange minimum @ 0 0 0",
    ),
    (
        "@<axis tag='wght' name='a' maximum='x' minimum='9'/>",
        "MissingAttribute default @ 0 0 0",
    ),
    (
        "@<axis tag='wght' name='a' maximum='x' minimum='9' default=''/>",
        "NotNumber default @ 0 0 0",
    ),
    (
        "@<axis tag='wght' name='a' minimum='9' default='-32768'/>",
        "NumberRange default @ 0 0 0",
    ),
    (
        "@<axis tag='wght' name='a' minimum='9' default='1'/>",
        "MissingAttribute maximum @ 0 0 0",
    ),
    (
        "@<axis tag='wght' name='a' minimum='9' default='1' maximum='x'/>",
        "NotNumber maximum @ 0 0 0",
    ),
    (
        "@<axis tag='wght' name='a' minimum='9' default='1' maximum='32767.99999999'/>",
        "NumberRange maximum @ 0 0 0",
    ),
];

/// The same, of axes that are told apart.
const REFUSED_TOGETHER: [(&str, &str); 9] = [
    (
        "%<axis tag='wght' name='Weight' minimum='5' default='1' maximum='9'/>",
        "AxisOrder - 1 0 0 0",
    ),
    (
        "<axis tag='wght' name='a' minimum='1' default='9' maximum='5'/>",
        "AxisOrder - 0 0 0 0",
    ),
    (
        "%<axis tag='wght' name='Width'$><labelname xml:lang='en'>~</labelname></axis>",
        "DuplicateAxis - 0 1 0 0",
    ),
    (
        "%<axis tag='wdth' name='Weight'$/>",
        "DuplicateAxis - 0 1 0 0",
    ),
    (
        "<axis tag='a' name='1'$/><axis tag='b' name='2'$/><axis tag='b  ' name='1'$/>",
        "DuplicateAxis - 0 2 0 0",
    ),
    (
        "<axis tag='a' name='1'$/><axis tag='b' name='2'$/><axis tag='a' name='2'$/>",
        "DuplicateAxis - 0 2 0 0",
    ),
    (
        "%<axis tag='b' name='2'$/><axis tag='b' name='3'$/>",
        "DuplicateAxis - 1 2 0 0",
    ),
    (
        "<axis tag='wght' name='a'$>@<labelname xml:lang='en'>~</labelname><map/></axis>",
        "NameLength labelname @ 0 101 0",
    ),
    (
        "<mappings/>%@<mappings><x/></mappings><mappings><x/></mappings>",
        "CrossAxisMap - @ 0 0 0",
    ),
];

/// The same, of maps.
const REFUSED_MAPS: [(&str, &str); 14] = [
    (
        "<axis tag='wght' name='a'$><map input='1' output='1'/><map input='1' output='1'/>@<map output='x'/></axis>",
        "MissingAttribute input @ 0 0 0",
    ),
    (
        "<axis tag='wght' name='a'$>@<map input='x'/></axis>",
        "NotNumber input @ 0 0 0",
    ),
    (
        "<axis tag='wght' name='a'$>@<map input='40000' output='x'/></axis>",
        "NumberRange input @ 0 0 0",
    ),
    (
        "<axis tag='wght' name='a'$>@<map input='1'/><map/></axis>",
        "MissingAttribute output @ 0 0 0",
    ),
    (
        "<axis tag='wght' name='a'$>@<map input='1' output='1 2'/></axis>",
        "NotNumber output @ 0 0 0",
    ),
    (
        "<axis tag='wght' name='a'$>@<map input='1' output='-32768'/></axis>",
        "NumberRange output @ 0 0 0",
    ),
    // Beside the order the range is wrong.
    (
        "<axis tag='wght' name='a' minimum='0' default='0' maximum='32767'><map input='0' output='1'/><map input='0' output='2'/></axis>",
        "MapOrder - 0 1 0 0",
    ),
    (
        "%<axis tag='a' name='a'$><map input='1' output='1'/><map input='2' output='2'/><map input='3' output='2'/></axis>",
        "MapOrder - 1 2 0 0",
    ),
    // The least value becomes -32777, and nothing is left between the default and the greatest, since raw 1 of 7 is 0.
    (
        "<axis tag='wght' name='a' minimum='-32767' default='0' maximum='0.00001'><map input='0' output='-10'/><map input='0.0001' output='-9.99999'/></axis>",
        "MapRange - 0 0 0 0",
    ),
    (
        "%<axis tag='a' name='a' minimum='0' default='0' maximum='32767'><map input='0' output='1'/></axis><axis/>",
        "MapRange - 1 0 0 0",
    ),
    // The least value becomes -11.
    (
        "<axis tag='wght' name='a' minimum='-1' default='0' maximum='0.00001'><map input='0' output='-10'/><map input='0.0001' output='-9.99999'/></axis>",
        "MapCollapse - 0 2 0 0",
    ),
    // 0.001 of 1000 is 0 once it is normalised, and 500 of 1000 is a half.
    (
        "%<axis tag='a' name='a' minimum='0' default='0' maximum='1000'><map input='0' output='0'/><map input='0.001' output='500'/><map input='1000' output='1000'/></axis><axis values='1'/>",
        "MapCollapse - 1 1 0 0",
    ),
    (
        "<mappings><x/></mappings>%<axis values='1'/>",
        "DiscreteAxis - 1 0 0 0",
    ),
    (
        "<mappings><x/></mappings><axis tag='wght' name='a'$><map input='1' output='1'/><map input='1' output='1'/></axis>",
        "MapOrder - 0 1 0 0",
    ),
];

/// A number as it is written, where it is whole, or its raw number.
fn number(alloc: Global, value: Fix<16>) -> Result<String, AllocError> {
    let raw = value.raw();
    if raw % 65_536 == 0 {
        format!(in alloc; "{}", raw / 65_536)
    } else {
        format!(in alloc; "raw {raw}")
    }
}

/// The three values of a span.
fn span(alloc: Global, span: Span) -> Result<String, AllocError> {
    let min = number(alloc, span.min)?;
    let default = number(alloc, span.default)?;
    let max = number(alloc, span.max)?;
    format!(in alloc; "{min} {default} {max}")
}

/// The axes that are read, as text.
fn shown(alloc: Global, axes: &[Axis]) -> Result<String, AllocError> {
    let mut shown = String::new(alloc);
    for axis in axes {
        let tag = std::str::from_utf8(axis.tag.as_slice()).unwrap_or("?");
        let hidden = if axis.hidden { " hidden" } else { "" };
        let user = span(alloc, axis.map.user())?;
        let design = span(alloc, axis.map.design())?;
        let name = axis.name.as_str();
        let label = axis.label.as_str();
        write!(shown, "{tag} {name}/{label}{hidden} {user} to {design};")?;
    }
    Ok(shown)
}

/// A fault, as text; `@` stands for the offset of the mark, if there is one.
fn shown_fault(alloc: Global, spot: &Spot, mark: Option<usize>) -> Result<String, AllocError> {
    let item = spot.item.as_str();
    let item = if item.is_empty() { "-" } else { item };
    let mut shown = format!(in alloc; "{} {item} ", spot.kind.name())?;
    match mark {
        Some(mark) if mark as u64 == spot.at => shown.push_str("@")?,
        _ => write!(shown, "{}", spot.at)?,
    }
    write!(shown, " {} {} {}", spot.also, spot.first, spot.second)?;
    Ok(shown)
}

/// The text with what its signs stand for.
fn written_out(alloc: Global, text: &str) -> Result<String, AllocError> {
    let mut all = String::new(alloc);
    for sign in text.chars() {
        match sign {
            '%' => all.push_str(AXIS)?,
            '$' => all.push_str(VALUES)?,
            '~' => all.push_str(LONG)?,
            _ => all.push(sign)?,
        }
    }
    Ok(all)
}

/// The axes of a text.
fn axes_of(alloc: Global, text: &str) -> Result<Seq<Axis>, Stop> {
    let tree = markup::read(alloc, text.as_bytes())?;
    read_axes(alloc, &tree)
}

/// What reading a document answers, as text.
fn answer(alloc: Global, document: &str) -> Result<String, AllocError> {
    let document = written_out(alloc, document)?;
    let mark = document.as_str().find('@');
    let (before, after) = document
        .as_str()
        .split_once('@')
        .unwrap_or(("", document.as_str()));
    let text = format!(in alloc; "{before}{after}")?;
    match axes_of(alloc, text.as_str()) {
        Ok(axes) => shown(alloc, axes.as_slice()),
        Err(Stop::NoMemory) => String::from_str(alloc, "no memory"),
        Err(Stop::At(spot)) => shown_fault(alloc, &spot, mark),
    }
}

/// Stops the test where reading answers something else of what stands in `axes`.
fn expect_inside(rt: &impl Abort, alloc: Global, rows: &[(&str, &str)]) -> Result<(), Fail> {
    for (inside, wanted) in rows {
        let document = format!(in alloc; "<designspace><axes>{inside}</axes></designspace>")?;
        let answer = answer(alloc, document.as_str())?;
        assert_eq!(rt; answer.as_str(), *wanted, "{inside}");
    }
    Ok(())
}

#[test]
fn documents(rt: HostRuntime) -> Result<(), Fail> {
    for (document, wanted) in &DOCUMENTS {
        let answer = answer(rt.alloc(), document)?;
        assert_eq!(rt; answer.as_str(), *wanted, "{document}");
    }
    Ok(())
}

#[test]
fn axes_read(rt: HostRuntime) -> Result<(), Fail> {
    expect_inside(&rt, rt.alloc(), &READ)
}

#[test]
fn axes_refused(rt: HostRuntime) -> Result<(), Fail> {
    expect_inside(&rt, rt.alloc(), &REFUSED)?;
    expect_inside(&rt, rt.alloc(), &REFUSED_TOGETHER)?;
    expect_inside(&rt, rt.alloc(), &REFUSED_MAPS)
}

// A name of 50 characters of two units each is the longest, one letter more is too long.
#[test]
fn names_at_the_limit(rt: HostRuntime) -> Result<(), Fail> {
    let alloc = rt.alloc();
    let mut name = String::new(alloc);
    for _ in 0..50 {
        name.push('\u{1f600}')?;
    }
    let long = format!(in alloc; "{name}\u{e9}")?;
    for (name, wanted) in [(name, false), (long, true)] {
        let document = format!(in alloc;
            "<d><axes><axis tag='a' name='{name}'{VALUES}/></axes></d>"
        )?;
        let answer = answer(alloc, document.as_str())?;
        assert_eq!(rt; answer.as_str() == "NameLength name 9 0 101 0", wanted);
    }
    Ok(())
}

#[test]
fn children_by_name(rt: HostRuntime) -> Result<(), Fail> {
    let tree = markup::read(rt.alloc(), b"<a><b/><c><b/></c><b><d/></b><B/></a>");
    let tree = tree.ok().ok_or("a tree")?;
    let found = named(rt.alloc(), "b", &tree)?;
    assert_eq!(rt; found.len(), 2);
    assert_eq!(rt; found[0].offset(), 3);
    assert_eq!(rt; found[1].offset(), 18);
    assert_eq!(rt;
        first_named("c", &tree).map(|child| child.offset()),
        Some(7)
    );
    assert!(rt; first_named("d", &tree).is_none());
    Ok(())
}
