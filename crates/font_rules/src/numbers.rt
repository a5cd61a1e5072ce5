ghost use Rattle.std.specs.Prelude.{◌≡◌, ◌<◌, length, All, IfOk};
ghost use Rattle.basics.specs.Reading.{each_numbered};
ghost use Rattle.source_files.specs.Stops.{Answers, NeverFails};
ghost use Rattle.font_rules.specs.RuleNumbers as words;

use basics::{Fault, Kind, Name, NoMemory, Seq, Spot};
use designspace::Rule;
use indexmap::IndexMap;
use source_files::ReadStop;
use std::alloc::Global;

/// The fault of a substitution, by the numbers of its rule and its own, that names a glyph which the font hasn't; the
/// path is that of the document.
fn unknown_fault(
    alloc: Global,
    path: &str,
    rule: usize,
    sub: usize,
    name: &Name,
) -> Result<Fault, NoMemory>
    ensures { IfOk result (λ fault. fault ≡ words.unknown_fault path.now rule sub name.now) }
{
    Ok(Fault {
        path: Name::from_str(alloc, path)?,
        spot: Spot {
            kind: Kind::RuleGlyphUnknown,
            item: name.try_copy(alloc)?,
            at: rule as u64,
            also: sub as u64,
            first: 0,
            second: 0,
        },
    })
}

/// The number of the glyph of this name.
fn number_of(names: &IndexMap<Name, u16>, name: &Name) -> Option<u16>
    ensures { result ≡ words.number_of names.now.entries name.now }
{
    names.get(name).copied()
}

/// The number of the glyph that a substitution names.
fn number_or(
    alloc: Global,
    path: &str,
    rule: usize,
    sub: usize,
    name: &Name,
    names: &IndexMap<Name, u16>,
) -> Result<u16, ReadStop>
    ensures answers { Answers (λ number. number) result (words.number_or path.now rule sub name.now (words.number_of names.now.entries name.now)) }
    ensures never { NeverFails result }
{
    match number_of(names, name) {
        Some(number) => Ok(number),
        None => Err(ReadStop::Refused(unknown_fault(alloc, path, rule, sub, name)?)),
    }
}

/// The numbers of both glyphs of a substitution.
fn pair_of(
    alloc: Global,
    path: &str,
    rule: usize,
    sub: usize,
    pair: &(Name, Name),
    names: &IndexMap<Name, u16>,
) -> Result<(u16, u16), ReadStop>
    ensures answers { Answers (λ pair. pair) result (words.pair_of path.now names.now.entries rule sub pair.now) }
    ensures never { NeverFails result }
{
    let glyph = number_or(alloc, path, rule, sub, &pair.0, names)?;
    let substitute = number_or(alloc, path, rule, sub, &pair.1, names)?;
    Ok((glyph, substitute))
}

/// The pairs of the rule of this number.
#[tactic(auto, unfolding(crate::specs::RuleNumbers::pairs_of))]
fn pairs_of(
    alloc: Global,
    path: &str,
    number: usize,
    rule: &Rule,
    names: &IndexMap<Name, u16>,
) -> Result<Seq<(u16, u16)>, ReadStop>
    ensures answers { Answers (λ pairs. pairs) result (words.pairs_of path.now names.now.entries number rule.now) }
    ensures never { NeverFails result }
{
    let mut pairs = Seq::new(alloc);
    for (sub, pair) in rule.subs.as_slice().iter().enumerate() {
        pairs.push(pair_of(alloc, path, number, sub, pair, names)?)?;
    }
    Ok(pairs)
}

/// The pairs of each rule, by the numbers of the glyphs that they name.
pub(crate) fn all_pairs_of(
    alloc: Global,
    path: &str,
    rules: &[Rule],
    names: &IndexMap<Name, u16>,
) -> Result<Seq<Seq<(u16, u16)>>, ReadStop>
    ensures answers { Answers (λ subs. subs) result (words.all_pairs_of path.now names.now.entries rules.now) }
    ensures never { NeverFails result }
{
    let mut subs = Seq::new(alloc);
    for (number, rule) in rules.iter().enumerate() {
        subs.push(pairs_of(alloc, path, number, rule, names)?)?;
    }
    Ok(subs)
}
