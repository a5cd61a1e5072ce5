ghost use Rattle.glyph_variations.specs.Draws.{ModelsAreDrawn};
ghost use Rattle.glyph_variations.specs.Variations.{VariationsOnce};

/// The law that the tuple variations of a glyph draw its model: drawn over the default's outline (OpenType, "gvar"),
/// they give the model's value of each coordinate and of the advance at every location, and so, rounded with a tie
/// going up, each master's drawing at its location.
pub fn drawing_law()
    ensures { ModelsAreDrawn }
{}

/// The law that a glyph has one list of tuple variations.
pub fn variations_law()
    ensures { VariationsOnce }
{}
