ghost use Rattle.font_rules.specs.Laws.{SubstitutesByName};

/// By boxes and numbers a glyph becomes the one whose name the rules make of its name.
pub fn names_law()
    ensures { SubstitutesByName }
{}
