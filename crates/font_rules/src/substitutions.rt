ghost use Rattle.std.specs.Prelude.{◌≡◌, ◌≤◌, length, All, IfOk};
ghost use Rattle.source_files.specs.Stops.{Answers, NeverFails};
ghost use Rattle.designspace.specs.Limits.{IsRuleOn};
ghost use Rattle.rule_boxes.specs.Cells.{AreCells};
ghost use Rattle.font_rules.specs.RuleNumbers as words;

use crate::boxes::boxes_of;
use crate::numbers::all_pairs_of;
use basics::{Name, Seq};
use designspace::Rule;
use indexmap::IndexMap;
use rule_boxes::Cell;
use source_files::ReadStop;
use std::alloc::Global;

/// What the rules of a document substitute, and where.
#[derive(Drop)]
pub struct Substitutions {
    /// For each rule, in the document's order, the numbers of the glyphs of its substitutions: the one that is replaced,
    /// and its substitute.
    pub subs: Seq<Seq<(u16, u16)>>,
    /// The boxes in which some rules hold, each with the numbers of these.
    pub cells: Seq<Cell>,
}

/// The substitutions of these rules, at most 64 with conditions on so many axes, 1 to 8, for a font of these glyphs.
///
/// # Errors
///
/// The first fault, with the document's path, which this is: RuleGlyphUnknown, by rule and substitution, the glyph that
/// is replaced before its substitute; then TooManyCells.
#[tactic(auto, unfolding(crate::specs::RuleNumbers::substitutions_of))]
pub fn substitutions_of(
    alloc: Global,
    path: &str,
    rules: &[Rule],
    names: &IndexMap<Name, u16>,
    axes: u32,
) -> Result<Substitutions, ReadStop>
    requires some { 1 ≤ axes }
    requires axes { axes ≤ 8 }
    requires few { length rules.now ≤ 64 }
    requires rules { All (IsRuleOn axes) rules.now }
    ensures answers { Answers (λ found. found.subs) result (words.substitutions_of path.now names.now.entries axes rules.now) }
    ensures never { NeverFails result }
    ensures numbered { IfOk result (λ found. words.AreAllNumbered names.now.entries rules.now found.subs) }
    ensures cells { IfOk result (λ found. AreCells axes (words.sets_of rules.now) found.cells) }
{
    let subs = all_pairs_of(alloc, path, rules, names)?;
    let cells = boxes_of(alloc, path, rules, axes)?;
    Ok(Substitutions { subs, cells })
}
