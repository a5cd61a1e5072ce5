ghost use Rattle.std.specs.Prelude.{◌≡◌, ℕ, List, Ok};
ghost use Rattle.glif.specs.Printed.{IsPrinted};
ghost use Rattle.glif.specs.Texts.{drawing_of_text};
ghost use Rattle.glif.specs.declared.shape.Drawing.{Drawing};

/// Every plain drawing, a file of fixed lines into which a name, an advance width and the points of contours are filled,
/// is read by the rules of source texts and of GLIF as the drawing that it means; it does nothing.
pub fn printing_law()
    ensures { (text : List ℕ) (drawing : Drawing) → IsPrinted text drawing → drawing_of_text text ≡ Ok drawing }
{}
