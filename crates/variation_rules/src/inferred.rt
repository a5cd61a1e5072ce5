ghost use Rattle.std.specs.Prelude.{◌≡◌, ℤ, pos, ◌-ℤ◌, ◌*ℤ◌, ◌<ℤ◌, ◌≤ℤ◌, ◌↔◌, IsTrue, MatchOption, IfSome};
ghost use Rattle.variation_rules.specs.InferredDelta.{Between, OnLine};
ghost use Rattle.variation_rules.specs.FontUnits.{IsFWord, IsDifference, IsReference};

/// A point that the deltas of others are inferred from, in one coordinate and in font units.
#[derive(Clone, Copy, Debug, PartialEq, Eq)]
pub struct Reference {
    /// Its coordinate in the default drawing.
    pub at: i64,
    /// Its delta.
    pub delta: i64,
}

/// The delta of a point at a coordinate, inferred from two references (OpenType, "Inferred deltas for
/// un-referenced point numbers"): a reference's own delta at and beyond it, and on the straight line
/// between them. `None` where the line gives no whole number.
pub fn inferred_delta(first: Reference, second: Reference, at: i64) -> Option<i64>
    requires first { IsReference first }
    requires second { IsReference second }
    requires at { IsFWord at }
    ensures value { MatchOption result ((d : ℤ) → Between first.at first.delta second.at second.delta at d → ⊥) (Between first.at first.delta second.at second.delta at) }
    ensures within { IfSome result IsFWord }
{
    if first.at < second.at {
        inferred_upward(first, second, at)
    } else if second.at < first.at {
        inferred_upward(second, first, at)
    } else if first.delta == second.delta {
        Some(first.delta)
    } else {
        Some(0)
    }
}

// The same where the first reference is the lower one.
fn inferred_upward(first: Reference, second: Reference, at: i64) -> Option<i64>
    requires first { IsReference first }
    requires second { IsReference second }
    requires at { IsFWord at }
    requires upward { first.at <ℤ second.at }
    ensures value { MatchOption result ((d : ℤ) → Between first.at first.delta second.at second.delta at d → ⊥) (Between first.at first.delta second.at second.delta at) }
    ensures within { IfSome result IsFWord }
{
    if at <= first.at {
        Some(first.delta)
    } else if second.at <= at {
        Some(second.delta)
    } else {
        on_line(first, second, at)
    }
}

// The same where the coordinate lies between the two.
fn on_line(first: Reference, second: Reference, at: i64) -> Option<i64>
    requires first { IsReference first }
    requires second { IsReference second }
    requires at { IsFWord at }
    requires left { first.at <ℤ at }
    requires right { at <ℤ second.at }
    ensures value { MatchOption result ((d : ℤ) → OnLine first.at first.delta second.at second.delta at d → ⊥) (OnLine first.at first.delta second.at second.delta at) }
    ensures within { IfSome result IsFWord }
{
    match step_to(first, second, at) {
        Some(step) => Some(first.delta + step),
        None => None,
    }
}

// The step from the first delta, which is to the whole rise as the way to the coordinate is to the whole way.
fn step_to(first: Reference, second: Reference, at: i64) -> Option<i64>
    requires first { IsReference first }
    requires second { IsReference second }
    requires at { IsFWord at }
    requires upward { first.at <ℤ second.at }
    ensures { MatchOption result ((q : ℤ) → (q *ℤ (second.at -ℤ first.at)) ≡ ((at -ℤ first.at) *ℤ (second.delta -ℤ first.delta)) → ⊥) (λ q. (q *ℤ (second.at -ℤ first.at)) ≡ ((at -ℤ first.at) *ℤ (second.delta -ℤ first.delta))) }
{
    let way = difference(at, first.at);
    let whole = difference(second.at, first.at);
    let rise = difference(second.delta, first.delta);
    exact_quotient(way * rise, whole)
}

// The whole number that gives the product with the factor, if there is one.
fn exact_quotient(product: i64, factor: i64) -> Option<i64>
    requires { pos 0 <ℤ factor }
    ensures { MatchOption result ((q : ℤ) → (q *ℤ factor) ≡ product → ⊥) (λ q. (q *ℤ factor) ≡ product) }
{
    if product % factor == 0 {
        Some(product / factor)
    } else {
        None
    }
}

fn difference(a: i64, b: i64) -> i64
    requires a { IsFWord a }
    requires b { IsFWord b }
    ensures value { result ≡ a -ℤ b }
    ensures within { IsDifference result }
{
    a - b
}
