ghost use Rattle.gvar_table.specs.Laws.{OneSpelling, OneTable};

/// Tuples have one spelling: the bytes that `glyph_data` and `table` write are the only such bytes.
pub fn spelling_law()
    ensures glyph { OneSpelling }
    ensures table { OneTable }
{}
