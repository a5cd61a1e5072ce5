ghost use Rattle.std.specs.Prelude.{◌≡◌, ℤ, length, map, sum_by};
ghost use Rattle.glif.specs.declared.shape.Outline.{Outline};
ghost use Rattle.glif.specs.Shapes.{contour_kinds};
ghost use Rattle.filters.specs.Reverse.{turned, reversed};
ghost use Rattle.filters.specs.Shift.{shifted};

/// What `reverse` makes has as many points, their kinds are turned as the points are, and twice it gives the outline
/// back.
pub fn reverse_law()
    ensures points { (outline : Outline) → sum_by length (reversed outline).contours ≡ sum_by length outline.contours }
    ensures kinds { (outline : Outline) → contour_kinds (reversed outline) ≡ map turned (contour_kinds outline) }
    ensures twice { (outline : Outline) → reversed (reversed outline) ≡ outline }
{}

/// What `shift` makes has as many points, of the same kinds.
pub fn shift_law()
    ensures points { (dx dy : ℤ) (outline : Outline) → sum_by length (shifted dx dy outline).contours ≡ sum_by length outline.contours }
    ensures kinds { (dx dy : ℤ) (outline : Outline) → contour_kinds (shifted dx dy outline) ≡ contour_kinds outline }
{}
