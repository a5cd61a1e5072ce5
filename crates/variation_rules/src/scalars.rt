ghost use Rattle.std.specs.Prelude.{◌≡◌, ℤ, pos, ◌^◌, ◌≤◌, ◌<ℤ◌, ◌≤ℤ◌, FitsSigned};
ghost use Rattle.std.specs.Int.{w32};
ghost use Rattle.variation_rules.specs.Scalar.{is_ignored, height, factor, scaled, scalar_of};

use crate::region::Triple;
use fixpoint::{Fix, scale};

/// A part of a whole: a number from 0 to 1.
#[derive(Clone, Copy)]
struct Fraction {
    part: i64,
    whole: i64,
}

// Whether the axis is left out of the scalar.
fn is_ignored(triple: &Triple) -> bool
    ensures { result ≡ is_ignored triple.now }
{
    let (start, peak, end) = (triple.start.wide(), triple.peak.wide(), triple.end.wide());
    peak == 0 || peak < start || end < peak || (start < 0 && 0 < end)
}

// The factor of an axis that counts.
fn height(triple: &Triple, value: i64) -> Fraction
    requires { FitsSigned w32 value }
    ensures part { result.part ≡ (height triple.now value).0 }
    ensures whole { result.whole ≡ (height triple.now value).1 }
    ensures low { pos 0 ≤ℤ result.part }
    ensures high { result.part ≤ℤ result.whole }
    ensures some { pos 0 <ℤ result.whole }
{
    let (start, peak, end) = (triple.start.wide(), triple.peak.wide(), triple.end.wide());
    if value < peak {
        if value <= start {
            Fraction { part: 0, whole: 1 }
        } else {
            Fraction {
                part: value - start,
                whole: peak - start,
            }
        }
    } else if peak < value {
        if end <= value {
            Fraction { part: 0, whole: 1 }
        } else {
            Fraction {
                part: end - value,
                whole: end - peak,
            }
        }
    } else {
        Fraction { part: 1, whole: 1 }
    }
}

// The factor of any axis.
fn factor(triple: &Triple, value: i64) -> Fraction
    requires { FitsSigned w32 value }
    ensures part { result.part ≡ (factor triple.now value).0 }
    ensures whole { result.whole ≡ (factor triple.now value).1 }
    ensures low { pos 0 ≤ℤ result.part }
    ensures high { result.part ≤ℤ result.whole }
    ensures some { pos 0 <ℤ result.whole }
{
    if is_ignored(triple) {
        Fraction { part: 1, whole: 1 }
    } else {
        height(triple, value)
    }
}

// The scalar so far, one axis more.
#[tactic(auto, unfolding(crate::specs::Scalar::scaled))]
fn scaled(scalar: i64, triple: &Triple, value: i64) -> i64
    requires value { FitsSigned w32 value }
    requires low { pos 0 ≤ℤ scalar }
    ensures value { result ≡ scaled scalar triple.now value }
    ensures low { pos 0 ≤ℤ result }
    ensures high { result ≤ℤ scalar }
{
    let factor = factor(triple, value);
    scale(scalar, factor.part, factor.whole)
}

/// The scalar of a region at a location, which weighs a tuple's deltas there, in units of
/// 2^-`G` (OpenType, "Algorithm for interpolation of instance values"): 1 at the peak, 0 outside the
/// region. After each axis it is rounded to the nearest number, ties up. Axes that only one of the
/// two lists has don't count.
pub fn scalar<const G: u32>(region: &[Triple], at: &[Fix<14>]) -> Fix<G>
    requires { G ≤ 30 }
    ensures value { result ≡ scalar_of G region.now at.now }
    ensures low { pos 0 ≤ℤ result }
    ensures high { result ≤ℤ pos (2 ^ G) }
{
    let mut scalar = Fix::<G>::one().wide();
    for axis in 0..region.len().min(at.len()) {
        scalar = scaled(scalar, &region[axis], at[axis].wide());
    }
    Fix::from_raw(scalar as i32)
}
