ghost use Rattle.delta_solve.specs.Deltas.{MastersReturn, RowsSuffice};

/// The law that the masters come back: the deltas of regions that are whole at their own master's location, and have
/// no influence at any earlier one's, give each master's value at its location, rounded with a tie going up.
pub fn masters_law()
    ensures { MastersReturn }
{}

/// The law that a master's row needs the scalars of the earlier regions alone.
pub fn rows_law()
    ensures { RowsSuffice }
{}
