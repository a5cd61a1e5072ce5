//! What the points seen after the first reference of an arc leave open for the second one, on one side of
//! the first, in one coordinate.
//!
//! A point is told by its way from the first reference and by its step, how much more it moves. Where `E`
//! is the second reference, each point between the two in the contour has to be inferred from them:
//!
//! ```text
//!   step
//!    |                         E . . . . . .   at E and beyond: the step of E
//!    |                    , '
//!    |              N , '                      before E: on the line to E
//!    |         , '
//!    |    , '
//!  --0-------------------------------------> way
//!    behind: the step 0
//! ```
//!
//! So two pairs of numbers tell which ends are left, however many points were seen:
//!
//! - The points before `E` lie on one line through the first reference. The nearest point `N` of all fixes
//!   that line, and the least way of a point off it, `off`, bounds `E`: `E` lies at or before `N`, or on the
//!   line of `N` and not beyond `off`.
//! - The points at `E` and beyond have one step. The farthest point `F` of all fixes it, and the greatest
//!   way of a point with another step, `torn`, bounds `E` from the other end: `E` lies beyond `F`, or has
//!   the step of `F` and lies beyond `torn`.
//!
//! One more point takes the place of `N` or `F`, or lowers `off` or raises `torn`, or says nothing new. Where
//! `off` is no greater than `torn` no end is left, and none ever will be.

ghost use Rattle.std.specs.Prelude.{◌≡◌, ℤ, pos, ◌<ℤ◌, ◌≤ℤ◌, ◌-ℤ◌, ◌*ℤ◌, ◌↔◌, IsTrue};
ghost use Rattle.variation_rules.specs.FontUnits.{IsReference};
ghost use Rattle.iup_optimal.specs.Sides.{Collinear, IsSpan, IsRelative, Follows, IsNearest, AllowsNear, IsFarthest, AllowsFar, IsSide, Allows, turned};
ghost use Rattle.iup_optimal.specs.declared.side.Relative.{Relative};

use variation_rules::Reference;

/// A point of a contour seen from the first reference of an arc, in one coordinate.
#[derive(Clone, Copy)]
pub struct Relative {
    /// How far the point lies from the reference.
    pub way: i64,
    /// How much more it moves.
    pub step: i64,
}

/// The points of a side on the line of the nearest, as bounds of the second reference.
#[derive(Clone, Copy)]
pub struct Nearest {
    /// The nearest point: an end at or before it is left open.
    at: Relative,
    /// The least way of a point that isn't on its line: an end on the line is left open up to it.
    off: i64,
}

/// The points of a side that move as much as the farthest, as bounds from the other end.
#[derive(Clone, Copy)]
pub struct Farthest {
    /// The farthest point, at first the reference itself: an end beyond it is left open.
    at: Relative,
    /// The greatest way of a point that moves otherwise: an end that moves as the farthest is left open beyond it.
    torn: i64,
}

/// What the points seen so far leave open for the second reference of an arc, on the side of positive
/// ways. One more point is taken in, and an end is tested, in a few steps.
#[derive(Clone, Copy)]
pub struct Side {
    level_behind: bool,
    nearest: Nearest,
    farthest: Farthest,
}

// The greatest way that there is from one coordinate to another: at first it bounds what is left open, so
// that no end is left out.
const WIDEST: i64 = 65536;

impl Relative {
    /// The point as it is seen from the reference.
    pub fn between(first: Reference, point: Reference) -> Relative
        requires first { IsReference first }
        requires point { IsReference point }
        ensures value { result ≡ record { way = point.at -ℤ first.at; step = point.delta -ℤ first.delta } }
        ensures within { IsRelative result }
    {
        Relative {
            way: point.at - first.at,
            step: point.delta - first.delta,
        }
    }

    /// The same way on the other side.
    pub fn turned(self) -> Relative
        requires { IsRelative self }
        ensures value { result ≡ turned self }
        ensures within { IsRelative result }
    {
        Relative {
            way: -self.way,
            step: self.step,
        }
    }

    // Whether both lie on one line through the reference.
    fn is_on_line(self, other: Relative) -> bool
        requires own { IsRelative self }
        requires other { IsRelative other }
        ensures { IsTrue result ↔ Collinear self other }
    {
        self.step * other.way == self.way * other.step
    }
}

impl Nearest {
    // One more point of the side is seen.
    fn seeing(self, point: Relative) -> Nearest
        requires nearest { IsNearest self }
        requires point { IsRelative point }
        requires ahead { pos 0 <ℤ point.way }
        ensures nearest { IsNearest result }
        ensures allows { (end : Relative) → pos 0 <ℤ end.way → (AllowsNear result end ↔ (AllowsNear self end × (point.way <ℤ end.way → Collinear point end))) }
    {
        if point.is_on_line(self.at) {
            if point.way < self.at.way {
                Nearest {
                    at: point,
                    off: self.off,
                }
            } else {
                self
            }
        } else if point.way < self.at.way {
            Nearest {
                at: point,
                off: self.at.way,
            }
        } else if point.way < self.off {
            Nearest {
                at: self.at,
                off: point.way,
            }
        } else {
            self
        }
    }

    fn allows(self, end: Relative) -> bool
        requires nearest { IsNearest self }
        requires end { IsRelative end }
        ensures { IsTrue result ↔ AllowsNear self end }
    {
        if end.way <= self.at.way {
            true
        } else if end.way <= self.off {
            self.at.is_on_line(end)
        } else {
            false
        }
    }
}

impl Farthest {
    // One more point of the side is seen.
    fn seeing(self, point: Relative) -> Farthest
        requires { IsFarthest self }
        ensures farthest { IsFarthest result }
        ensures allows { (end : Relative) → (AllowsFar result end ↔ (AllowsFar self end × (end.way ≤ℤ point.way → point.step ≡ end.step))) }
    {
        if point.step == self.at.step {
            if self.at.way < point.way {
                Farthest {
                    at: point,
                    torn: self.torn,
                }
            } else {
                self
            }
        } else if self.at.way < point.way {
            Farthest {
                at: point,
                torn: self.at.way,
            }
        } else if self.torn < point.way {
            Farthest {
                at: self.at,
                torn: point.way,
            }
        } else {
            self
        }
    }

    fn allows(self, end: Relative) -> bool
        ensures { IsTrue result ↔ AllowsFar self end }
    {
        if self.at.way < end.way {
            true
        } else if self.torn < end.way {
            self.at.step == end.step
        } else {
            false
        }
    }
}

impl Side {
    /// No point is seen.
    pub fn new() -> Side
        ensures side { IsSide result }
        ensures allows { (end : Relative) → pos 0 <ℤ end.way → IsRelative end → Allows result end }
    {
        Side {
            level_behind: true,
            nearest: Nearest {
                at: Relative {
                    way: WIDEST,
                    step: 0,
                },
                off: WIDEST,
            },
            farthest: Farthest {
                at: Relative { way: 0, step: 0 },
                torn: 0,
            },
        }
    }

    /// One more point is seen.
    pub fn see(&mut self, point: Relative)
        requires side { IsSide self.old }
        requires point { IsRelative point }
        ensures side { IsSide self.new }
        ensures allows { (end : Relative) → pos 0 <ℤ end.way → (Allows self.new end ↔ (Allows self.old end × Follows end point)) }
    {
        if point.way <= 0 {
            let level_behind = self.level_behind && point.step == 0;
            self.level_behind = level_behind;
        } else {
            self.nearest = self.nearest.seeing(point);
            self.farthest = self.farthest.seeing(point);
        }
    }

    /// Whether all points seen follow from the first reference and this second one.
    pub fn allows(&self, end: Relative) -> bool
        requires side { IsSide self.now }
        requires end { IsRelative end }
        ensures { IsTrue result ↔ Allows self.now end }
    {
        self.level_behind && self.nearest.allows(end) && self.farthest.allows(end)
    }

    /// Whether no second reference is left open: some point at or before the first one moves otherwise, or
    /// the first point off the nearest one's line is no farther than the last one that moves otherwise
    /// than the farthest. What is closed stays closed, since each point seen leaves less open.
    pub fn is_closed(&self) -> bool
        requires { IsSide self.now }
        ensures { IsTrue result → (end : Relative) → Allows self.now end → ⊥ }
    {
        !self.level_behind || self.nearest.off <= self.farthest.torn
    }
}
