ghost use Rattle.std.specs.Prelude.{◌≡◌};
ghost use Rattle.rule_boxes.specs.Conditions.{meets, rule_holds, set_holds};

use basics::Seq;
use fixpoint::Fix;
use region_support::Location;

/// Bounds on one axis. The condition holds where the coordinate on the axis is between them, both ends included;
/// where `low` is above `high` it never holds.
#[derive(Clone, Copy, Debug, PartialEq, Eq)]
pub struct Condition {
    /// The number of the axis, in the font's order of axes, from 0.
    pub axis: u32,
    /// The least normalised coordinate (F2DOT14).
    pub low: Fix<14>,
    /// The greatest normalised coordinate (F2DOT14).
    pub high: Fix<14>,
}

/// The sets of conditions of a rule.
pub type Sets = Seq<Seq<Condition>>;

impl Condition {
    /// Whether the condition holds. On an axis that the location hasn't, the coordinate counts as 0.
    fn meets(&self, at: &Location) -> bool
        ensures { result ≡ meets self.now at.now.items }
    {
        let value = match at.as_slice().get(self.axis as usize) {
            Some(value) => value.raw(),
            None => 0,
        };
        self.low.raw() <= value && value <= self.high.raw()
    }
}

/// Whether all conditions of the set hold.
fn set_holds(set: &Seq<Condition>, at: &Location) -> bool
    ensures { result ≡ set_holds set.now at.now.items }
{
    set.as_slice().iter().all(|condition| condition.meets(at))
}

/// Whether a rule of these sets holds at the location: whether one of its sets does. The conditions are on axes of
/// the location; on any other one the coordinate counts as 0.
pub fn holds(rule: &Sets, at: &Location) -> bool
    ensures { result ≡ rule_holds rule.now at.now.items }
{
    rule.as_slice().iter().any(|set| set_holds(set, at))
}
