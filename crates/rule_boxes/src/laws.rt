ghost use Rattle.rule_boxes.specs.Laws.{NeverHolds, AreDisjoint, SubstitutesAsRuled};

/// A condition whose `low` is above its `high` never holds.
pub fn never_law()
    ensures { NeverHolds }
{}

/// No location is in two of the boxes of rules.
pub fn disjoint_law()
    ensures { AreDisjoint }
{}

/// The boxes of rules make of each glyph what the rules do, one after another; `A` is what names a glyph.
pub fn substitution_law<A>()
    ensures { SubstitutesAsRuled A }
{}
