ghost use Rattle.std.specs.Prelude.{ℕ, ◌+◌, ◌<◌, ◌≤◌, ◌↔◌, IsTrue, length};
ghost use Rattle.iup.specs.Arcs.{IsContour, Spans};
ghost use Rattle.iup_optimal.specs.Views.{IsView, SeenTo, AllowsNone};

use crate::sight::Sight;
use fixpoint::Pair;
use iup::{horizontal, vertical};

/// What the points seen so far after the first point of an arc leave open for its last one, in x and in y.
#[derive(Clone, Copy)]
pub struct View {
    across: Sight,
    upward: Sight,
}

impl View {
    /// The view from a place of the rolled-out contour, before any point is seen.
    pub fn new(points: &[Pair], deltas: &[Pair], from: usize) -> View
        requires contour { IsContour points.now deltas.now }
        requires from { from < length points.now }
        ensures { SeenTo points.now deltas.now from (from + 1) result }
    {
        View {
            across: Sight::new(horizontal(points, deltas, from)),
            upward: Sight::new(vertical(points, deltas, from)),
        }
    }

    /// Whether the arc to the next place holds; its point is seen then.
    pub fn pass(&mut self, points: &[Pair], deltas: &[Pair], to: usize) -> bool
        requires contour { IsContour points.now deltas.now }
        requires view { IsView self.old }
        ensures sees { (from : ℕ) → from < to → SeenTo points.now deltas.now from to self.old → SeenTo points.now deltas.now from (to + 1) self.new }
        ensures holds { (from : ℕ) → from < to → SeenTo points.now deltas.now from to self.old → (IsTrue result ↔ Spans points.now deltas.now from to) }
    {
        let x = horizontal(points, deltas, to);
        let y = vertical(points, deltas, to);
        let holds = self.across.admits(x) && self.upward.admits(y);
        self.across.see(x);
        self.upward.see(y);
        holds
    }

    /// Whether no arc that is longer holds.
    pub fn is_closed(&self) -> bool
        requires { IsView self.now }
        ensures { IsTrue result → AllowsNone self.now }
    {
        self.across.is_closed() || self.upward.is_closed()
    }
}
