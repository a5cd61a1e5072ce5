ghost use Rattle.std.specs.Prelude.{◌≡◌, ℤ, pos, neg_ℤ, ◌≤ℤ◌, ◌<ℤ◌};
ghost use Rattle.std.specs.Int.{w32};
ghost use Rattle.std.specs.Int.RustNames.{FitsSigned};
ghost use Rattle.norm_loc.specs.Normalising.{AreRising, brought, normalised, normalised_within, share};
ghost use Rattle.norm_loc.specs.Spans.{limits};

use crate::span::Span;
use fixpoint::{Fix, mul_div_up};

/// The value brought between two others.
#[tactic(auto, unfolding(crate::specs::Normalising::brought))]
pub(crate) fn brought(least: i64, greatest: i64, value: i64) -> i64
    requires { least ≤ℤ greatest }
    ensures value { result ≡ brought least greatest value }
    ensures low { least ≤ℤ result }
    ensures high { result ≤ℤ greatest }
{
    if value < least {
        least
    } else if greatest < value {
        greatest
    } else {
        value
    }
}

// 16384 times the fraction, which is between -1 and 1; 0 of a side that is empty.
fn share(part: i64, whole: i64) -> i64
    requires low { neg_ℤ whole ≤ℤ part }
    requires high { part ≤ℤ whole }
    ensures value { result ≡ share part whole }
    ensures low { neg_ℤ (pos 16384) ≤ℤ result }
    ensures high { result ≤ℤ pos 16384 }
{
    if 0 < whole {
        mul_div_up(16384, part, whole)
    } else {
        0
    }
}

// The coordinate of a value between the limits.
#[tactic(auto, unfolding(crate::specs::Normalising::normalised_within))]
fn normalised_within(span: &Span, value: i64) -> i64
    requires low { span.now.min ≤ℤ value }
    requires high { value ≤ℤ span.now.max }
    requires size { FitsSigned w32 value }
    ensures value { result ≡ normalised_within (limits span.now) value }
    ensures low { neg_ℤ (pos 16384) ≤ℤ result }
    ensures high { result ≤ℤ pos 16384 }
{
    let default = span.default.wide();
    if value < default {
        share(value - default, default - span.min.wide())
    } else {
        share(value - default, span.max.wide() - default)
    }
}

/// The normalised coordinate of a value (F2DOT14), from -1 at the least over 0 at the default to 1 at
/// the greatest, rounded to the nearest, ties up. A value beyond the span counts as its end, and a side
/// that is empty as 0.
pub fn normalise(span: &Span, v: Fix<16>) -> Fix<14>
    ensures value { result ≡ normalised (limits span.now) v }
    ensures low { neg_ℤ (pos 16384) ≤ℤ result }
    ensures high { result ≤ℤ pos 16384 }
{
    let value = brought(span.min.wide(), span.max.wide(), v.wide());
    Fix::from_raw(normalised_within(span, value) as i32)
}
