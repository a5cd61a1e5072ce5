ghost use Rattle.std.specs.Prelude.{◌≡◌, ◌≤◌, ◌<◌, ◌^◌, length, map, option_map, All, IfOk};
ghost use Rattle.basics.specs.Reading.{Gives, each, each_numbered};
ghost use Rattle.markup.specs.Plain.{plain};
ghost use Rattle.designspace.specs.Limits.{IsRuleOn};
ghost use Rattle.designspace.specs.Rules as words;

use crate::parts::check_few;
use crate::sets::read_sets;
use attributes::{fault, needed};
use basics::{Kind, Name, NoMemory, Seq, Stop};
use design_axes::{Axis, first_named, named};
use markup::Element;
use rule_boxes::Sets;
use std::alloc::Global;

/// A rule of substitution (Designspace, "rule").
#[derive(Drop)]
pub struct Rule {
    /// Where it holds: the sets of its conditions, at most 16.
    pub sets: Sets,
    /// The name of a glyph, and of the one that replaces it where the rule holds; at most 4,096. Of several for one
    /// glyph the first counts.
    pub subs: Seq<(Name, Name)>,
}

/// The rules of a document.
#[derive(Drop)]
pub(crate) struct Rules {
    /// The rules, in their order.
    pub(crate) rules: Seq<Rule>,
    /// Whether they act after other substitutions.
    pub(crate) last: bool,
}

/// How many rules a document may have, a rule sets, and a rule substitutions.
const RULES: usize = 64;

const SETS: usize = 16;

const SUBS: usize = 4096;

/// A substitution.
#[tactic(auto, unfolding(crate::specs::Rules::sub_of))]
fn read_sub(alloc: Global, sub: &Element) -> Result<(Name, Name), Stop>
    ensures { Gives (λ sub. sub) result (words.sub_of (plain sub.now)) }
{
    let name = needed(alloc, "name", sub)?;
    let substitute = needed(alloc, "with", sub)?;
    Ok((
        Name::from_str(alloc, name)?,
        Name::from_str(alloc, substitute)?,
    ))
}

/// The substitutions of these elements.
fn read_subs(alloc: Global, elements: &[&Element]) -> Result<Seq<(Name, Name)>, Stop>
    ensures exact { Gives (λ subs. subs) result (each words.sub_of (map (λ element. plain element.now) elements.now)) }
    ensures count { IfOk result (λ subs. length subs ≡ length elements.now) }
{
    let mut subs = Seq::new(alloc);
    for element in elements {
        subs.push(read_sub(alloc, element)?)?;
    }
    Ok(subs)
}

/// How many sets of conditions a rule has.
#[tactic(auto, unfolding(crate::specs::Rules::set_count))]
fn set_count(alloc: Global, rule: &Element) -> Result<usize, NoMemory>
    ensures value { IfOk result (λ count. count ≡ words.set_count (plain rule.now)) }
    ensures within { IfOk result (λ count. count < 2 ^ 63) }
{
    let sets = named(alloc, "conditionset", rule)?;
    match first_named("condition", rule) {
        Some(_) => Ok(sets.len() + 1),
        None => Ok(sets.len()),
    }
}

/// The rule with this number.
#[tactic(auto, unfolding(crate::specs::Rules::rule_of, crate::specs::Rules::subs_of))]
fn read_rule(alloc: Global, axes: &[Axis], number: u64, rule: &Element) -> Result<Rule, Stop>
    requires { length axes.now ≤ 8 }
    ensures exact { Gives (λ rule. rule) result (words.rule_of axes.now number (plain rule.now)) }
    ensures within { IfOk result (IsRuleOn (length axes.now)) }
{
    let count = set_count(alloc, rule)?;
    check_few(alloc, Kind::TooManySets, number, SETS, count)?;
    let elements = named(alloc, "sub", rule)?;
    check_few(alloc, Kind::TooManySubs, number, SUBS, elements.len())?;
    let sets = read_sets(alloc, axes, rule)?;
    let subs = read_subs(alloc, elements.as_slice())?;
    Ok(Rule { sets, subs })
}

/// Whether rules of this `processing` act last.
fn is_last(alloc: Global, rules: &Element, processing: Option<&str>) -> Result<bool, Stop>
    ensures { Gives (λ last. last) result (words.is_last_by (plain rules.now) (option_map (λ text. text.now) processing.entry)) }
{
    let Some(processing) = processing else {
        return Ok(false);
    };
    if processing == "first" {
        Ok(false)
    } else if processing == "last" {
        Ok(true)
    } else {
        Err(fault(alloc, Kind::NotDesignspace, rules))
    }
}

/// The rules of these elements.
fn read_each(alloc: Global, axes: &[Axis], elements: &[&Element]) -> Result<Seq<Rule>, Stop>
    requires { length axes.now ≤ 8 }
    ensures exact { Gives (λ list. list) result (each_numbered (words.rule_of axes.now) 0 (map (λ element. plain element.now) elements.now)) }
    ensures within { IfOk result (All (IsRuleOn (length axes.now))) }
    ensures count { IfOk result (λ list. length list ≡ length elements.now) }
{
    let mut list = Seq::new(alloc);
    for (number, element) in elements.iter().enumerate() {
        list.push(read_rule(alloc, axes, number as u64, element)?)?;
    }
    Ok(list)
}

/// The rules of an element `rules`.
#[tactic(auto, unfolding(crate::specs::Rules::rules_in))]
fn read_element(alloc: Global, axes: &[Axis], rules: &Element) -> Result<Rules, Stop>
    requires { length axes.now ≤ 8 }
    ensures exact { Gives (λ found. found) result (words.rules_in axes.now (plain rules.now)) }
    ensures within { IfOk result (λ found. All (IsRuleOn (length axes.now)) found.rules) }
    ensures few { IfOk result (λ found. length found.rules ≤ 64) }
{
    let elements = named(alloc, "rule", rules)?;
    check_few(alloc, Kind::TooManyRules, 0, RULES, elements.len())?;
    let last = is_last(alloc, rules, rules.attribute("processing"))?;
    let list = read_each(alloc, axes, elements.as_slice())?;
    Ok(Rules { rules: list, last })
}

/// The rules of a document.
#[tactic(auto, unfolding(crate::specs::Rules::rules_of))]
pub(crate) fn read_rules(alloc: Global, axes: &[Axis], designspace: &Element) -> Result<Rules, Stop>
    requires { length axes.now ≤ 8 }
    ensures exact { Gives (λ found. found) result (words.rules_of axes.now (plain designspace.now)) }
    ensures within { IfOk result (λ found. All (IsRuleOn (length axes.now)) found.rules) }
    ensures few { IfOk result (λ found. length found.rules ≤ 64) }
{
    match first_named("rules", designspace) {
        Some(element) => read_element(alloc, axes, element),
        None => Ok(Rules {
            rules: Seq::new(alloc),
            last: false,
        }),
    }
}
