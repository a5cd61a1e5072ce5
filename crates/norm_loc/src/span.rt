ghost use Rattle.std.specs.Prelude.{◌≡◌, ◌≤ℤ◌};

use fixpoint::Fix;

/// The values of an axis: the least, the default and the greatest, which rise weakly.
#[derive(Clone, Copy, Debug, PartialEq, Eq)]
pub struct Span {
    /// The least value.
    pub min: Fix<16>,
    /// The default.
    pub default: Fix<16>,
    /// The greatest value.
    pub max: Fix<16>,
    ghost low: { min ≤ℤ default },
    ghost high: { default ≤ℤ max },
}

impl Span {
    ghost use Rattle.std.specs.Option.{SomeIff};
    ghost use Rattle.std.specs.Prelude.{MatchOption};
    ghost use Rattle.norm_loc.specs.Normalising.{Limits, AreRising};
    ghost use Rattle.norm_loc.specs.Spans.{limits};

    /// The span of these three, or `None` exactly where they do not rise weakly.
    pub fn new(min: Fix<16>, default: Fix<16>, max: Fix<16>) -> Option<Span>
        ensures { let three : Limits = record { min = min; default = default; max = max } in
            MatchOption result (AreRising three → ⊥) (λ span. (limits span ≡ three) × AreRising three) }
    {
        if min <= default && default <= max {
            Some(Span { min, default, max })
        } else {
            None
        }
    }
}
