ghost use Rattle.std.specs.Prelude.{◌≡◌};

use basics::{NoMemory, Seq};
use region_support::Location;

/// A box of the design space, with the rules that hold at each of its locations (OpenType, "FeatureVariations table":
/// one record).
#[derive(Drop)]
pub struct Cell {
    /// The least normalised coordinate of each axis (F2DOT14), from -16384 to 16384.
    pub low: Location,
    /// The greatest normalised coordinate of each axis, not below the least; it belongs to the box.
    pub high: Location,
    /// The numbers of the rules that hold, from 0 in document order. They rise, and there is at least one.
    pub rules: Seq<u32>,
}

/// Why there are no boxes for rules.
#[derive(Debug, Drop, PartialEq, Eq)]
pub enum RuleStop {
    /// The conditions cut the design space into more than 32,768 cells: the number of cells on the first axes, as
    /// many as it takes to be above that.
    TooManyCells(u64),
    /// Memory ran out.
    NoMemory,
}

impl From<NoMemory> for RuleStop {
    ghost use Rattle.rule_boxes.specs.declared.cell.RuleStop.TheVariants.{NoMemory};

    ghost from_gives = { λ _ stop. stop ≡ NoMemory };

    fn from(_: NoMemory) -> RuleStop {
        RuleStop::NoMemory
    }
}
