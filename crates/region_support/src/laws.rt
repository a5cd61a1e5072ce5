ghost use Rattle.region_support.specs.Laws.{KeysTellApart, OneOrder, OwnOneLaterNothing};

/// The keys by which masters are ordered tell any two locations of as many axes apart.
pub fn keys_law()
    ensures { KeysTellApart }
{}

/// Locations have one order of masters at most.
pub fn order_law()
    ensures { OneOrder }
{}

/// At each master's location the master's own region is whole, and the regions of all later masters have no
/// influence. So the model gives back each master's values where it stands.
pub fn regions_law()
    ensures { OwnOneLaterNothing }
{}
