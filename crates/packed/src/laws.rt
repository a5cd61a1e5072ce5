ghost use Rattle.packed.specs.Laws.{OneSpellingOfDeltas, OneSpellingOfPoints};

/// Each list has one spelling in maximal runs: the bytes that `pack_deltas` and `pack_points` write are the only
/// such bytes.
pub fn spelling_law()
    ensures deltas { OneSpellingOfDeltas }
    ensures points { OneSpellingOfPoints }
{}
