ghost use Rattle.norm_loc.specs.Laws.{NodesAreMet, PairsAreSegments, PairsMap, PairsRise};

/// Of every map without a fault: at each node on the axis the pairs lead from its normalised user value to
/// its normalised design value.
pub fn nodes_law()
    ensures { NodesAreMet }
{}

/// The pairs of every map rise strictly by their first numbers.
pub fn pairs_law()
    ensures { PairsRise }
{}

/// The pairs of every map whose spans rise weakly are coordinates from -1 to 1, the first and the last of them those
/// of -1 and 1. There are at most 32,769, one for each number of F2DOT14 from -1 to 1.
pub fn segments_law()
    ensures { PairsAreSegments }
{}

/// By the rule of table `avar` the pairs of every map whose spans rise weakly take each coordinate from -1 to 1 to what
/// `avar_at` answers.
pub fn mapping_law()
    ensures { PairsMap }
{}
