//! What no clause says: that the call succeeds where there is enough memory, with answers worked out by hand.

ghost use Rattle.std.specs.Prelude.{IsTrue, All};
ghost use Rattle.designspace.specs.Limits.{IsConditionOn, IsRuleOn};

use crate::{Substitutions, substitutions_of};
use arrayvec::ArrayVec;
use basics::{Name, NoMemory, Seq};
use designspace::Rule;
use fixpoint::Fix;
use indexmap::IndexMap;
use rule_boxes::Condition;
use source_files::ReadStop;
use std::alloc::Global;
use std::fmt::Write;
use std::process::Abort;
use std::test::Fail;

/// The glyphs of a font, in glyph order.
const GLYPHS: [&str; 4] = [".notdef", "a", "b", "c"];

/// Rules parted by `|`: each an axis, the least and the greatest coordinate, and pairs of glyphs. And what comes of them.
const RULES: [(&str, &str); 9] = [
    ("", ""),
    (
        "0 8192 16384 a>b",
        " [(1, 2)] [8192, -16384]..[16384, 16384]:[0]",
    ),
    // The first pair of a glyph is kept with the others.
    (
        "1 5 5 a>b a>c",
        " [(1, 2), (1, 3)] [-16384, 5]..[16384, 5]:[0]",
    ),
    // Each rule has its pairs, also one without any, and one that never holds.
    (
        "0 16384 -16384 c>a|0 0 16384",
        " [(3, 1)] [] [0, -16384]..[16384, 16384]:[1]",
    ),
    ("0 0 9 a>a", " [(1, 1)] [0, -16384]..[9, 16384]:[0]"),
    // The first glyph that isn't there, by rule and substitution; the one that is replaced before its substitute.
    ("0 0 9 a>b|0 0 9 a>b c>x y>z", "f RuleGlyphUnknown x 1 1 0"),
    ("0 0 9 x>y", "f RuleGlyphUnknown x 0 0 0"),
    ("0 0 9 a>y x>y", "f RuleGlyphUnknown y 0 0 0"),
    ("0 0 9 >a", "f RuleGlyphUnknown  0 0 0"),
];

/// A number of 16 bits.
fn number_of(text: &str) -> i32 {
    text.parse::<i32>().unwrap_or(0)
}

/// The rule that is written so.
fn rule_of(alloc: Global, written: &str) -> Result<Rule, NoMemory> {
    let mut numbers = Vec::new(alloc);
    let mut subs = Seq::new(alloc);
    for word in written.split(' ') {
        match word.split_once('>') {
            Some((glyph, substitute)) => {
                subs.push((
                    Name::from_str(alloc, glyph)?,
                    Name::from_str(alloc, substitute)?,
                ))?;
            }
            None => numbers.push(number_of(word))?,
        }
    }
    let mut set = Seq::new(alloc);
    if let [axis, low, high] = numbers.as_slice() {
        set.push(Condition {
            axis: u32::try_from(*axis).unwrap_or(0),
            low: Fix::from_raw(*low),
            high: Fix::from_raw(*high),
        })?;
    }
    let mut sets = Seq::new(alloc);
    sets.push(set)?;
    Ok(Rule { sets, subs })
}

/// The numbers of the glyphs by their names.
fn names_of(alloc: Global) -> Result<IndexMap<Name, u16>, NoMemory> {
    let mut names = IndexMap::new(alloc);
    for (number, name) in GLYPHS.iter().enumerate() {
        names.insert(Name::from_str(alloc, name)?, number as u16)?;
    }
    Ok(names)
}

/// The coordinates, as raw numbers.
fn raws(alloc: Global, at: &ArrayVec<Fix<14>, 8>) -> Result<Vec<i32>, NoMemory> {
    let mut raws = Vec::new(alloc);
    for coordinate in at.as_slice() {
        raws.push(coordinate.raw())?;
    }
    Ok(raws)
}

/// Pairs and boxes as a line.
fn found_line(alloc: Global, found: &Substitutions) -> Result<String, NoMemory> {
    let mut line = String::new(alloc);
    for pairs in found.subs.as_slice() {
        write!(line, " {:?}", pairs.as_slice())?;
    }
    for cell in found.cells.as_slice() {
        let (low, high) = (raws(alloc, &cell.low)?, raws(alloc, &cell.high)?);
        write!(line, " {low:?}..{high:?}:{:?}", cell.rules.as_slice())?;
    }
    Ok(line)
}

/// A stop as a line.
fn stop_line(alloc: Global, stop: &ReadStop) -> Result<String, NoMemory> {
    let mut line = String::new(alloc);
    match stop {
        ReadStop::Refused(fault) => {
            let spot = &fault.spot;
            let (path, item) = (fault.path.as_str(), spot.item.as_str());
            write!(
                line,
                "{path} {} {item} {} {} ",
                spot.kind.name(),
                spot.at,
                spot.also
            )?;
            write!(line, "{}", spot.first)?;
        }
        ReadStop::ReadFault(_) => line.push_str("read fault")?,
        ReadStop::NoMemory => line.push_str("no memory")?,
    }
    Ok(line)
}

/// Whether all conditions of a set are on the two axes.
fn is_set_on(set: &Seq<Condition>) -> bool
    ensures { IsTrue result → All (IsConditionOn 2) set.now }
{
    set.as_slice().iter().all(|condition| condition.axis < 2)
}

/// Whether those of a rule are, and it has no more parts than it may have.
fn is_rule_on(rule: &Rule) -> bool
    ensures { IsTrue result → IsRuleOn 2 rule.now }
{
    let sets = rule.sets.as_slice();
    sets.len() <= 16 && rule.subs.len() <= 4096 && sets.iter().all(|set| is_set_on(set))
}

/// Whether all rules do.
fn are_on(rules: &[Rule]) -> bool
    ensures { IsTrue result → All (IsRuleOn 2) rules.now }
{
    rules.iter().all(|rule| is_rule_on(rule))
}

/// What the rules are answered as, on two axes.
fn answer_line(rt: &impl Abort, alloc: Global, rules: &[Rule]) -> Result<String, NoMemory> {
    assert!(rt; rules.len() <= 64);
    assert!(rt; are_on(rules));
    match substitutions_of(alloc, "f", rules, &names_of(alloc)?, 2) {
        Ok(found) => found_line(alloc, &found),
        Err(stop) => stop_line(alloc, &stop),
    }
}

#[test]
fn numbers_and_boxes(rt: HostRuntime) -> Result<(), Fail> {
    let alloc = rt.alloc();
    for (written, answer) in RULES {
        let mut rules = Vec::new(alloc);
        for rule in written.split('|') {
            if !rule.is_empty() {
                rules.push(rule_of(alloc, rule)?)?;
            }
        }
        let line = answer_line(&rt, alloc, rules.as_slice())?;
        assert_eq!(rt; line.as_str(), answer);
    }
    Ok(())
}

/// A rule of these conditions, each in a set of its own: from each of up to 15 steps on.
fn fine_rule(alloc: Global, axis: u32, from: i32, to: i32) -> Result<Rule, NoMemory> {
    let mut sets = Seq::new(alloc);
    for step in from..to {
        let mut set = Seq::new(alloc);
        set.push(Condition {
            axis,
            low: Fix::from_raw(step),
            high: Fix::from_raw(16384),
        })?;
        sets.push(set)?;
    }
    Ok(Rule {
        sets,
        subs: Seq::new(alloc),
    })
}

/// The first steps of each rule, of 15 sets.
const STEPS: [i32; 12] = [0, 15, 30, 45, 60, 75, 90, 105, 120, 135, 150, 165];

/// On each of two axes 180 conditions that begin one step after another, and those from 1000 to this end.
fn fine_rules(alloc: Global, ends: [i32; 2]) -> Result<Vec<Rule>, NoMemory> {
    let mut rules = Vec::new(alloc);
    for (axis, end) in [(0, ends[0]), (1, ends[1])] {
        for from in STEPS {
            rules.push(fine_rule(alloc, axis, from, from + 15)?)?;
        }
        rules.push(fine_rule(alloc, axis, 1000, end)?)?;
    }
    Ok(rules)
}

#[test]
fn grids(rt: HostRuntime) -> Result<(), Fail> {
    let alloc = rt.alloc();
    let fine = fine_rules(alloc, [1001, 1001])?;
    let line = answer_line(&rt, alloc, fine.as_slice())?;
    assert_eq!(rt; line.as_str(), "f TooManyCells  0 0 33124");
    let fine = fine_rules(alloc, [1001, 1000])?;
    let line = answer_line(&rt, alloc, fine.as_slice())?;
    assert_eq!(rt; line.as_str(), "f TooManyCells  0 0 32942");
    let rules = fine_rules(alloc, [1000, 1000])?;
    let line = answer_line(&rt, alloc, rules.as_slice())?;
    assert!(rt; line.starts_with(" [] ["));
    Ok(())
}
