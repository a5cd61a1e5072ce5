//! What no clause says: that calls succeed where there is enough memory, and their answers worked out by hand.

use crate::{Designspace, Instance, Rule, Source, read};
use basics::{Seq, Spot, Stop};
use rule_boxes::Condition;
use std::alloc::{AllocError, Global};
use std::test::Fail;

/// The axes of most documents here. The first has the design values 20, 80 and 180.
const AXES: &str =
    "<axes><axis tag='wght' name='Weight' minimum='100' default='400' maximum='900'><map input='100' output='20'/><map input='400' output='80'/><map input='900' output='180'/></axis><axis tag='wdth' name='Width' minimum='50' default='100' maximum='150'/></axes>";

/// Documents, and what is answered: that they are read, or the kind, the item, the two numbers and the two values.
const ROOTS: [(&str, &str); 10] = [
    // The root, then its format, then the axes.
    ("<designspaces/>", "NotDesignspace - 0 0 0 0"),
    ("<designspace/>", "FormatVersion - 0 0 -1 0"),
    ("<designspace format=''/>", "FormatVersion - 0 0 -1 0"),
    ("<designspace format='3.9'/>", "FormatVersion - 0 0 3 0"),
    ("<designspace format='45'/>", "FormatVersion - 0 0 45 0"),
    ("<designspace format='-4'/>", "FormatVersion - 0 0 -4 0"),
    ("<designspace format='5,0'/>", "FormatVersion - 0 0 -1 0"),
    ("<designspace format=' 4.x.y'/>", "NoAxes - 0 0 0 0"),
    (
        "<designspace format='5'><sources><source/></sources></designspace>",
        "NoAxes - 0 0 0 0",
    ),
    (
        "<designspace format='5'><axes/><axes><axis/></axes></designspace>",
        "NoAxes - 0 0 0 0",
    ),
];

/// What follows the axes of a document, and what is answered.
const PARTS: [(&str, &str); 22] = [
    ("", "read"),
    (
        "<sources><source name='a'><location><dimension/></location></source></sources>",
        "MissingAttribute filename 291 0 0 0",
    ),
    (
        "<sources><source filename='a'/><source/></sources>",
        "MissingAttribute filename 313 0 0 0",
    ),
    // Dimensions: the axis, then heights, then the design value, then the user value.
    (
        "<sources><source filename='a'><location><dimension yvalue='1'/></location></source></sources>",
        "MissingAttribute name 322 0 0 0",
    ),
    (
        "<sources><source filename='a'><location><dimension name='weight' yvalue='1'/></location></source></sources>",
        "UnknownAxis weight 322 0 0 0",
    ),
    (
        "<sources><source filename='a'><location><dimension name='Weight' yvalue='1' xvalue='x'/></location></source></sources>",
        "Anisotropic - 322 0 0 0",
    ),
    (
        "<sources><source filename='a'><location><dimension name='Weight' xvalue='1e2' uservalue='y'/></location></source></sources>",
        "NotNumber xvalue 322 0 0 0",
    ),
    (
        "<sources><source filename='a'><location><dimension name='Weight' xvalue='32768'/></location></source></sources>",
        "NumberRange xvalue 322 0 0 0",
    ),
    (
        "<sources><source filename='a'><location><dimension name='Weight' xvalue='1' uservalue='y'/></location></source></sources>",
        "read",
    ),
    (
        "<sources><source filename='a'><location><dimension name='Weight' uservalue='y'/></location></source></sources>",
        "NotNumber uservalue 322 0 0 0",
    ),
    (
        "<sources><source filename='a'><location><dimension name='Weight'/></location></source></sources>",
        "MissingAttribute xvalue 322 0 0 0",
    ),
    (
        "<sources><source filename='a'><location><dimension name='Weight' xvalue=''/><dimension name='Weight' xvalue='20'/></location></source></sources>",
        "NotNumber xvalue 322 0 0 0",
    ),
    (
        "<sources><source filename='a'><location/><location><dimension/></location></source></sources>",
        "read",
    ),
    (
        "<sources><source filename='a'><dimension/></source></sources>",
        "read",
    ),
    (
        "<rules><rule><sub/><conditionset><condition/></conditionset><condition name='x'/></rule></rules>",
        "MissingAttribute name 315 0 0 0",
    ),
    (
        "<rules><rule><conditionset/><condition name='Slant' minimum='x'/><conditionset><condition/></conditionset></rule></rules>",
        "UnknownAxis Slant 310 0 0 0",
    ),
    (
        "<rules><rule><condition name='Width' minimum='x' maximum='y'/></rule></rules>",
        "NotNumber minimum 295 0 0 0",
    ),
    (
        "<rules><rule><condition name='Width' minimum='1' maximum='40000'/></rule></rules>",
        "NumberRange maximum 295 0 0 0",
    ),
    (
        "<rules><rule><sub with='a'/></rule><rule><condition/></rule></rules>",
        "MissingAttribute name 295 0 0 0",
    ),
    (
        "<rules><rule><sub name='a'/></rule></rules>",
        "MissingAttribute with 295 0 0 0",
    ),
    (
        "<rules><rule><conditionset><sub/></conditionset></rule></rules>",
        "read",
    ),
    (
        "<instances><instance><location><dimension name='Height'/></location></instance><instance name=''/></instances>",
        "UnknownAxis Height 313 0 0 0",
    ),
];

/// The same where a part is repeated so many times between two others.
const COUNTS: [(&str, &str, usize, &str, &str); 19] = [
    // Sources: how many there are, then each of them.
    (
        "<sources>",
        "<source filename='a'/>",
        128,
        "</sources>",
        "read",
    ),
    (
        "<sources>",
        "<source/>",
        129,
        "</sources>",
        "TooManySources - 0 0 129 0",
    ),
    (
        "<sources><source filename='a'/></sources><sources>",
        "<source/>",
        129,
        "</sources>",
        "read",
    ),
    // Rules: sources before them, how many there are, what is told of them, then each of them.
    (
        "<rules>",
        "<rule/>",
        65,
        "</rules><sources><source/></sources>",
        "MissingAttribute filename 761 0 0 0",
    ),
    (
        "<rules processing='x'>",
        "<rule/>",
        65,
        "</rules>",
        "TooManyRules - 0 0 65 0",
    ),
    (
        "<rules processing='first'>",
        "<rule/>",
        64,
        "</rules>",
        "read",
    ),
    (
        "<rules processing='Last'><rule>",
        "<conditionset/>",
        17,
        "</rule></rules>",
        "NotDesignspace - 282 0 0 0",
    ),
    // A rule: its sets, its substitutions, then its conditions in their order, then its substitutions.
    (
        "<rules><rule/><rule><condition/>",
        "<conditionset/>",
        16,
        "</rule></rules>",
        "TooManySets - 1 0 17 0",
    ),
    (
        "<rules><rule><condition/>",
        "<conditionset/>",
        15,
        "</rule></rules>",
        "MissingAttribute name 295 0 0 0",
    ),
    (
        "<rules><rule>",
        "<sub/>",
        4097,
        "<condition/></rule></rules>",
        "TooManySubs - 0 0 4097 0",
    ),
    (
        "<rules><rule><conditionset/><conditionset/><conditionset/><conditionset/><conditionset/><conditionset/><conditionset/><conditionset/><conditionset/><conditionset/><conditionset/><conditionset/><conditionset/><conditionset/><conditionset/><conditionset/><conditionset/>",
        "<sub/>",
        4097,
        "</rule></rules>",
        "TooManySets - 0 0 17 0",
    ),
    (
        "<rules><rule>",
        "<sub name='a' with='b'/>",
        4096,
        "</rule></rules>",
        "read",
    ),
    // Instances: rules before them, how many there are, then each of them, its name first.
    (
        "<instances>",
        "<instance stylename='a'/>",
        257,
        "</instances><rules><rule><sub/></rule></rules>",
        "MissingAttribute name 6743 0 0 0",
    ),
    (
        "<instances>",
        "<instance><location><dimension/></location></instance>",
        257,
        "</instances>",
        "TooManyInstances - 0 0 257 0",
    ),
    (
        "<instances><instance location='a'/>",
        "<instance/>",
        256,
        "</instances>",
        "read",
    ),
    (
        "<instances><instance name='a' stylename='",
        "a",
        101,
        "'><location><dimension/></location></instance></instances>",
        "NameLength stylename 293 0 101 0",
    ),
    (
        "<instances><instance name='",
        "é",
        101,
        "'/></instances>",
        "NameLength name 293 0 101 0",
    ),
    (
        "<instances><instance name='",
        "😀",
        51,
        "'/></instances>",
        "NameLength name 293 0 102 0",
    ),
    (
        "<instances><instance stylename='a' name='",
        "a",
        101,
        "'/></instances>",
        "read",
    ),
];

/// The folder of a document, the file name of a source, and the path of the source.
const PATHS: [(&str, &str, &str); 7] = [
    ("a", "b.ufo", "a/b.ufo"),
    ("/a/b", "../c.ufo", "/a/b/../c.ufo"),
    ("", "b.ufo", "b.ufo"),
    ("/", "b.ufo", "/b.ufo"),
    ("a", "/b.ufo", "/b.ufo"),
    ("/", "/b.ufo", "/b.ufo"),
    ("a", "", "a/"),
];

/// A family in the form in which families are published.
const FAMILY: &str = "
<rules processing='last'>
<rule>
<conditionset><condition name='Weight' minimum='130'/><condition name='Width' maximum='75'/></conditionset>
<condition name='Weight' maximum='50'/>
<conditionset/>
<condition name='Width' minimum='100' maximum='125'/>
<sub name='dollar' with='dollar.rvrn'/><sub name='cent' with='cent.rvrn'/>
</rule>
<rule>
<conditionset><condition name='Weight' minimum='180'/></conditionset>
<conditionset><condition name='Weight' minimum='180.1'/></conditionset>
<conditionset><condition name='Weight' maximum='19.9'/></conditionset>
<conditionset><condition name='Weight' minimum='130.001' maximum='130'/></conditionset>
<conditionset><condition name='Width'/></conditionset>
</rule>
</rules>
<sources>
<source filename='Light.ufo'><location><dimension name='Weight' xvalue='20'/></location></source>
<source filename='Regular.ufo' layer='text'/>
<source filename='/fonts/Bold.ufo' layer=''><location><dimension name='Width' xvalue='75'/><dimension name='Weight' uservalue='900'/></location></source>
<source filename='Semi.ufo'><location><dimension name='Weight' xvalue='20'/><dimension name='Weight' uservalue='900' xvalue='130'/></location></source>
<source filename='Out.ufo'><location><dimension name='Weight' uservalue='250'/><dimension name='Width' xvalue='1000'/></location></source>
</sources>
<instances>
<instance stylename='Bold' name='Family Bold'><location><dimension name='Weight' xvalue='180'/></location></instance>
<instance location='Regular' stylename='Twice'/>
<instance name='Semi'><location><dimension name='Weight' xvalue='130'/><dimension name='Width' uservalue='62.5'/></location></instance>
<instance><location><dimension name='Weight' uservalue='1000'/><dimension name='Width' xvalue='0'/></location></instance>
</instances>
</designspace>";

/// What it tells, line by line: raw numbers of 14 binary places for sources and conditions, of 16 for instances.
const TOLD: &str = "axis Weight
axis Width
source sources/Light.ufo none -16384 0
source sources/Regular.ufo text 0 0
source /fonts/Bold.ufo  16384 -8192
source sources/Semi.ufo none 8192 0
source sources/Out.ufo none -8192 16384
rule
set 0 -16384 -8192 1 0 8192
set 0 8192 16384 1 -16384 -8192
set
sub dollar dollar.rvrn
sub cent cent.rvrn
rule
set 0 16384 16384
set 0 16384 -16384
set 0 16384 -16384
set 0 16384 -16384
set 1 -16384 16384
last true
instance Bold 58982400 6553600
instance Semi 42598400 4096000
instance Instance 3 58982400 3276800
";

/// The kind, the item, the numbers and the values of a fault.
fn fault(alloc: Global, spot: &Spot) -> Result<String, AllocError> {
    let item = if spot.item.as_str() == "" {
        "-"
    } else {
        spot.item.as_str()
    };
    format!(in alloc;
        "{} {} {} {} {} {}",
        spot.kind.name(),
        item,
        spot.at,
        spot.also,
        spot.first,
        spot.second
    )
}

/// What is answered of a document.
fn answer(alloc: Global, text: &str) -> Result<String, AllocError> {
    let answer = match markup::read(alloc, text.as_bytes()) {
        Ok(tree) => read(alloc, &tree, "folder"),
        Err(stop) => Err(stop),
    };
    match answer {
        Ok(_) => String::from_str(alloc, "read"),
        Err(Stop::At(spot)) => fault(alloc, &spot),
        Err(Stop::NoMemory) => String::from_str(alloc, "NoMemory"),
    }
}

/// A document with these parts after its axes.
fn document(
    alloc: Global,
    start: &str,
    repeated: &str,
    times: usize,
    end: &str,
) -> Result<String, AllocError> {
    let mut text = format!(in alloc; "<designspace format='5.0'>{AXES}{start}")?;
    for _ in 0..times {
        text.push_str(repeated)?;
    }
    text.push_str(end)?;
    text.push_str("</designspace>")?;
    Ok(text)
}

#[test]
fn roots(rt: HostRuntime) -> Result<(), Fail> {
    for (text, wanted) in &ROOTS {
        assert_eq!(rt; answer(rt.alloc(), text)?.as_str(), *wanted, "{text}");
    }
    Ok(())
}

#[test]
fn parts(rt: HostRuntime) -> Result<(), Fail> {
    for (part, wanted) in &PARTS {
        let text = document(rt.alloc(), part, "", 0, "")?;
        assert_eq!(rt;
            answer(rt.alloc(), text.as_str())?.as_str(),
            *wanted,
            "{part}"
        );
    }
    Ok(())
}

#[test]
fn counts(rt: HostRuntime) -> Result<(), Fail> {
    for (start, repeated, times, end, wanted) in &COUNTS {
        let text = document(rt.alloc(), start, repeated, *times, end)?;
        assert_eq!(rt;
            answer(rt.alloc(), text.as_str())?.as_str(),
            *wanted,
            "{start}"
        );
    }
    Ok(())
}

/// The path of the one source of a document.
fn path(alloc: Global, folder: &str, filename: &str) -> Result<String, Stop> {
    let source = format!(in alloc; "<sources><source filename='{filename}'/></sources>")?;
    let text = document(alloc, source.as_str(), "", 0, "")?;
    let tree = markup::read(alloc, text.as_bytes())?;
    let told = read(alloc, &tree, folder)?;
    let mut paths = String::new(alloc);
    for source in told.sources.as_slice() {
        paths.push_str(source.path.as_str())?;
    }
    Ok(paths)
}

#[test]
fn paths(rt: HostRuntime) -> Result<(), Fail> {
    for (folder, filename, wanted) in &PATHS {
        let path = path(rt.alloc(), folder, filename).ok().ok_or("no path")?;
        assert_eq!(rt; path.as_str(), *wanted);
    }
    Ok(())
}

/// Adds the line of a source.
fn push_source(alloc: Global, told: &mut String, source: &Source) -> Result<(), AllocError> {
    let layer = match &source.layer {
        Some(layer) => layer.as_str(),
        None => "none",
    };
    let line = format!(in alloc; "source {} {layer}", source.path.as_str())?;
    told.push_str(line.as_str())?;
    for coordinate in source.location.as_slice() {
        let number = format!(in alloc; " {}", coordinate.raw())?;
        told.push_str(number.as_str())?;
    }
    told.push_str("\n")
}

/// Adds the line of a set of conditions.
fn push_set(alloc: Global, told: &mut String, set: &Seq<Condition>) -> Result<(), AllocError> {
    told.push_str("set")?;
    for condition in set.as_slice() {
        let (axis, low, high) = (condition.axis, condition.low.raw(), condition.high.raw());
        let bounds = format!(in alloc; " {axis} {low} {high}")?;
        told.push_str(bounds.as_str())?;
    }
    told.push_str("\n")
}

/// Adds the lines of a rule.
fn push_rule(alloc: Global, told: &mut String, rule: &Rule) -> Result<(), AllocError> {
    told.push_str("rule\n")?;
    for set in rule.sets.as_slice() {
        push_set(alloc, told, set)?;
    }
    for (name, substitute) in rule.subs.as_slice() {
        let line = format!(in alloc; "sub {} {}\n", name.as_str(), substitute.as_str())?;
        told.push_str(line.as_str())?;
    }
    Ok(())
}

/// Adds the line of an instance.
fn push_instance(alloc: Global, told: &mut String, instance: &Instance) -> Result<(), AllocError> {
    let line = format!(in alloc; "instance {}", instance.name.as_str())?;
    told.push_str(line.as_str())?;
    for value in instance.user.as_slice() {
        let number = format!(in alloc; " {}", value.raw())?;
        told.push_str(number.as_str())?;
    }
    told.push_str("\n")
}

/// What a document tells, line by line.
fn lines(alloc: Global, designspace: &Designspace) -> Result<String, AllocError> {
    let mut told = String::new(alloc);
    for axis in designspace.axes.as_slice() {
        let line = format!(in alloc; "axis {}\n", axis.name.as_str())?;
        told.push_str(line.as_str())?;
    }
    for source in designspace.sources.as_slice() {
        push_source(alloc, &mut told, source)?;
    }
    for rule in designspace.rules.as_slice() {
        push_rule(alloc, &mut told, rule)?;
    }
    let line = format!(in alloc; "last {}\n", designspace.last)?;
    told.push_str(line.as_str())?;
    for instance in designspace.instances.as_slice() {
        push_instance(alloc, &mut told, instance)?;
    }
    Ok(told)
}

/// What the family tells.
fn family_lines(alloc: Global) -> Result<String, Stop> {
    let text = format!(in alloc; "<designspace format='5.1'>{AXES}{FAMILY}")?;
    let tree = markup::read(alloc, text.as_bytes())?;
    Ok(lines(alloc, &read(alloc, &tree, "sources")?)?)
}

#[test]
fn family(rt: HostRuntime) -> Result<(), Fail> {
    let told = family_lines(rt.alloc()).ok().ok_or("not read")?;
    assert_eq!(rt; told.as_str(), TOLD);
    Ok(())
}
