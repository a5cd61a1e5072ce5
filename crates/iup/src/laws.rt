ghost use Rattle.iup.specs.Laws.{InfersAsFilled, RowsBound};

/// A set infers the deltas exactly where filling the untouched points from it gives every delta; it does
/// nothing.
pub fn fill_law()
    ensures { InfersAsFilled }
{}

/// Right rows of the starts of a pivot bound the size of every set that infers the deltas; it does
/// nothing.
pub fn bound_law()
    ensures { RowsBound }
{}
