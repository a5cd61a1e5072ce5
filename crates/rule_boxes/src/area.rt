ghost use Rattle.std.specs.Prelude.{◌≡◌, ◌+◌, ◌++◌, ◌<◌, ◌≤◌, length, All, IfOk};
ghost use Rattle.rule_boxes.specs.Areas.{whole, shared, do_meet, below, above, interval_of, with_conditions};

use crate::Condition;

/// The coordinates of one axis from `low` to `high`, both included.
#[derive(Clone, Copy, Debug, PartialEq, Eq)]
pub(crate) struct Interval {
    pub low: i32,
    pub high: i32,
}

/// A box: an interval for each axis. The axes beyond the last one are whole.
pub(crate) type Area = [Interval; 8];

/// A box and the rules that are known to hold in it, by a flag for each rule.
#[derive(Clone, Copy)]
pub(crate) struct Zone {
    pub area: Area,
    pub rules: [bool; 64],
}

/// The whole design space.
pub(crate) fn whole() -> Area
    ensures { result ≡ whole }
{
    let axis = Interval {
        low: -16384,
        high: 16384,
    };
    [axis; 8]
}

/// The values of both intervals.
pub(crate) fn shared(a: Interval, b: Interval) -> Interval
    ensures { result ≡ shared a b }
{
    Interval {
        low: a.low.max(b.low),
        high: a.high.min(b.high),
    }
}

/// Whether the areas have a location in common.
pub(crate) fn do_meet(area: &[Interval], other: &[Interval]) -> bool
    ensures { result ≡ do_meet area.now other.now }
{
    let [a, area @ ..] = area else {
        return true;
    };
    let [b, other @ ..] = other else {
        return true;
    };
    let both = shared(*a, *b);
    both.low <= both.high && do_meet(area, other)
}

/// What of the interval is below the set's.
pub(crate) fn below(set: Interval, interval: Interval) -> Option<Interval>
    ensures { result ≡ below set interval }
{
    if interval.low < set.low {
        Some(Interval {
            low: interval.low,
            high: set.low - 1,
        })
    } else {
        None
    }
}

/// What of the interval is above the set's.
pub(crate) fn above(set: Interval, interval: Interval) -> Option<Interval>
    ensures { result ≡ above set interval }
{
    if set.high < interval.high {
        Some(Interval {
            low: set.high + 1,
            high: interval.high,
        })
    } else {
        None
    }
}

// Where the condition holds on its axis.
fn interval_of(condition: &Condition) -> Interval
    ensures { result ≡ interval_of condition.now }
{
    Interval {
        low: condition.low.raw(),
        high: condition.high.raw(),
    }
}

/// The area in which all conditions of the set hold.
pub(crate) fn area_of(set: &[Condition]) -> Area
    requires { All (λ condition. condition.axis < 8) set.now }
    ensures { result ≡ with_conditions whole set.now }
{
    let mut area = whole();
    for condition in set {
        let axis = condition.axis as usize;
        area[axis] = shared(interval_of(condition), area[axis]);
    }
    area
}
