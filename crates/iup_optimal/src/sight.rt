//! What the points seen after the first reference of an arc leave open for the second one, in one
//! coordinate: on the side of greater coordinates and on that of smaller ones, which mirror one another,
//! and at the first reference's own coordinate, where all points move as it does, or none moves.
//!
//! ```text
//!      below (turned)            above
//!   <------------------- first ------------------->  coordinate
//!                    level, still
//! ```

ghost use Rattle.std.specs.Prelude.{◌≡◌, ℤ, ◌↔◌, IsTrue};
ghost use Rattle.variation_rules.specs.FontUnits.{IsReference};
ghost use Rattle.iup_optimal.specs.Sides.{IsSight, Admits, BetweenThem};
ghost use Rattle.variation_rules.specs.declared.inferred.Reference.{Reference};

use crate::side::{Relative, Side};
use variation_rules::Reference;

/// What the points seen so far after the first reference of an arc leave open for the second one, in one
/// coordinate.
#[derive(Clone, Copy)]
pub struct Sight {
    first: Reference,
    // All move as much as the first reference.
    level: bool,
    // None moves.
    still: bool,
    above: Side,
    below: Side,
}

impl Sight {
    /// No point is seen.
    pub fn new(first: Reference) -> Sight
        requires { IsReference first }
        ensures sight { IsSight result }
        ensures first { result.first ≡ first }
        ensures admits { (end : Reference) → IsReference end → Admits result end }
    {
        Sight {
            first,
            level: true,
            still: true,
            above: Side::new(),
            below: Side::new(),
        }
    }

    /// One more point is seen.
    pub fn see(&mut self, point: Reference)
        requires sight { IsSight self.old }
        requires point { IsReference point }
        ensures sight { IsSight self.new }
        ensures first { self.new.first ≡ self.old.first }
        ensures admits { (end : Reference) → (Admits self.new end ↔ (Admits self.old end × BetweenThem self.old.first end point)) }
    {
        let relative = Relative::between(self.first, point);
        let level = self.level && relative.step == 0;
        let still = self.still && point.delta == 0;
        self.level = level;
        self.still = still;
        self.above.see(relative);
        self.below.see(relative.turned());
    }

    /// Whether all points seen are inferred from the first reference and this second one.
    pub fn admits(&self, end: Reference) -> bool
        requires sight { IsSight self.now }
        requires end { IsReference end }
        ensures { IsTrue result ↔ Admits self.now end }
    {
        let relative = Relative::between(self.first, end);
        if 0 < relative.way {
            self.above.allows(relative)
        } else if relative.way < 0 {
            self.below.allows(relative.turned())
        } else if relative.step == 0 {
            self.level
        } else {
            self.still
        }
    }

    /// Whether no second reference is left open, after these points and after any more.
    pub fn is_closed(&self) -> bool
        requires { IsSight self.now }
        ensures { IsTrue result → (end : Reference) → Admits self.now end → ⊥ }
    {
        if self.level || self.still {
            return false;
        }
        self.above.is_closed() && self.below.is_closed()
    }
}
