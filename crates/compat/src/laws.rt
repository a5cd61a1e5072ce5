ghost use Rattle.std.specs.Prelude.{◌≡◌, List};
ghost use Rattle.glif.specs.declared.shape.Point.{Point};
ghost use Rattle.glif.specs.declared.shape.Outline.{Outline};
ghost use Rattle.glif.specs.declared.shape.Drawing.{Drawing};
ghost use Rattle.compat.specs.Flattened.{IsFlattened, IsFirstRefusal, AreFlattened};
ghost use Rattle.compat.specs.declared.refusal.Refusal.{Refusal};

/// A drawing has at most one flattened outline.
pub fn flattened_law()
    ensures { (drawings : List Drawing) (drawing : Drawing) (a b : List (List Point)) → IsFlattened drawings drawing a → IsFlattened drawings drawing b → a ≡ b }
{}

/// Drawings have at most one first fault, and none where they have flattened outlines. So `flatten` refuses exactly
/// where there is a fault.
pub fn refusal_law()
    ensures one { (drawings : List Drawing) (a b : Refusal) → IsFirstRefusal drawings a → IsFirstRefusal drawings b → a ≡ b }
    ensures none { (drawings : List Drawing) (outlines : List Outline) (refusal : Refusal) → AreFlattened drawings outlines → ¬ IsFirstRefusal drawings refusal }
{}
