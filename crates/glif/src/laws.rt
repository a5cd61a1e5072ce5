ghost use Rattle.std.specs.Prelude.{◌≡◌, All, Ok};
ghost use Rattle.markup_rules.specs.Tree.{Tree};
ghost use Rattle.glif.specs.Glyphs.{drawing_of};
ghost use Rattle.glif.specs.Limits.{IsOffsetWithin, IsWithinLimits};
ghost use Rattle.glif.specs.declared.shape.Drawing.{Drawing};

/// The drawing that a tree means is within limits, and so are the offsets of its components.
pub fn limits_law()
    ensures limits { (tree : Tree) (drawing : Drawing) → drawing_of tree ≡ Ok drawing → IsWithinLimits drawing.outline }
    ensures offsets { (tree : Tree) (drawing : Drawing) → drawing_of tree ≡ Ok drawing → All IsOffsetWithin drawing.components }
{}
