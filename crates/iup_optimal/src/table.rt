ghost use Rattle.std.specs.Prelude.{◌≡◌, ℕ, ◌+◌, ◌*◌, ◌%◌, ◌<◌, ◌≤◌, ◌↔◌, IsTrue, IfOk, length};
ghost use Rattle.iup.specs.Arcs.{IsContour};
ghost use Rattle.iup.specs.Bounds.{Reaches};
ghost use Rattle.iup_optimal.specs.Tables.{TellsArcs, IsNextEnd};

use crate::bits::Bits;
use crate::view::View;
use basics::NoMemory;
use fixpoint::Pair;
use std::alloc::Global;

/// The arcs of a contour, one bit each: for each point in turn whether the arc of one point holds, of two
/// and so on.
#[derive(Drop)]
pub struct Table<'a> {
    points: &'a [Pair],
    deltas: &'a [Pair],
    arcs: Bits,
    ghost contour: { IsContour points.now deltas.now },
    ghost room: { length points.now * length points.now ≤ 64 * length arcs.words.items },
    ghost tells: { TellsArcs points.now deltas.now (length points.now * length points.now) arcs.words.items },
}

impl<'a> Table<'a> {
    /// Tests the arcs of a contour: from each point on until no longer one can hold.
    pub fn new(alloc: Global, points: &'a [Pair], deltas: &'a [Pair]) -> Result<Table<'a>, NoMemory>
        requires { IsContour points.now deltas.now }
        ensures points { IfOk result (λ table. table.points.now ≡ points.now) }
        ensures deltas { IfOk result (λ table. table.deltas.now ≡ deltas.now) }
    {
        let count = points.len();
        let mut arcs = Bits::new(alloc, count * count)?;
        for point in 0..count {
            insert_arcs(&mut arcs, points, deltas, point);
        }
        Ok(Table {
            points,
            deltas,
            arcs,
        })
    }

    /// How many points the contour has.
    pub fn len(&self) -> usize
        ensures { result ≡ length self.now.points.now }
    {
        self.points.len()
    }

    /// Whether an arc leads from one place of the first two rounds of the rolled-out contour to another.
    pub fn reaches(&self, from: usize, to: usize) -> bool
        requires rounds { from < length self.now.points.now + length self.now.points.now }
        requires ahead { from < to }
        requires within { to ≤ from + length self.now.points.now }
        ensures { IsTrue result ↔ Reaches self.now.points.now self.now.deltas.now from to }
    {
        self.arcs.contains(self.row(from) + (to - from - 1))
    }

    /// The nearest place to which an arc leads from one of the first two rounds, but none before `low`.
    pub fn next_end(&self, from: usize, low: usize) -> Option<usize>
        requires rounds { from < length self.now.points.now + length self.now.points.now }
        requires ahead { from < low }
        requires within { low ≤ from + length self.now.points.now + 1 }
        ensures { IsNextEnd self.now.points.now self.now.deltas.now from low result }
    {
        let count = self.points.len();
        let row = self.row(from);
        match self.arcs.next(row + (low - from - 1), row + count) {
            Some(next) => Some(from + (next - row) + 1),
            None => None,
        }
    }

    // The bit of the arc of one point from a place.
    fn row(&self, from: usize) -> usize
        requires { from < length self.now.points.now + length self.now.points.now }
        ensures is { result ≡ from % length self.now.points.now * length self.now.points.now }
        ensures room { result + length self.now.points.now ≤ length self.now.points.now * length self.now.points.now }
    {
        let count = self.points.len();
        let point = if from < count { from } else { from - count };
        point * count
    }
}

// The arcs from one point, the shortest first, until none can hold. What the points so far leave open for
// the end of an arc is kept in a few numbers, so each arc takes a few steps, however long it is.
fn insert_arcs(arcs: &mut Bits, points: &[Pair], deltas: &[Pair], from: usize)
    requires contour { IsContour points.now deltas.now }
    requires from { from < length points.now }
    requires room { length points.now * length points.now ≤ 64 * length arcs.old.words.items }
    requires tells { TellsArcs points.now deltas.now (from * length points.now) arcs.old.words.items }
    ensures room { length arcs.new.words.items ≡ length arcs.old.words.items }
    ensures tells { TellsArcs points.now deltas.now ((from + 1) * length points.now) arcs.new.words.items }
{
    let row = from * points.len();
    let mut view = View::new(points, deltas, from);
    for to in from + 1..from + points.len() + 1 {
        if view.is_closed() {
            return;
        }
        if view.pass(points, deltas, to) {
            arcs.insert(row + (to - from - 1));
        }
    }
}
