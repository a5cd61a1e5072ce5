ghost use Rattle.std.specs.Option.{SomeIff};
ghost use Rattle.fixpoint.specs.Rounding.{round_up};
ghost use Rattle.std.specs.Prelude.{◌*ℤ◌, ◌≤ℤ◌, ◌≡◌, ℕ, ℤ, pos, neg_ℤ, ◌+ℤ◌, ◌-ℤ◌, ◌^◌, ◌≤◌};
ghost use Rattle.std.specs.Int.RustNames.{FitsSigned};
ghost use mir.Syntax.{w32};

use crate::rounding::mul_div_up;
use std::marker::Model;
use std::ops::{Add, Neg, Sub};

/// A signed fixed-point number with `F` binary places, at most 30: it means its raw number / 2^`F`.
/// OpenType's `F2DOT14` has 14 binary places and its `Fixed` 16 ("Data Types"). Contracts see the raw number.
/// Equality, order and hash are those of the raw number, and so of the number meant; sums, differences
/// and negations are those of the numbers, and take a raw result that fits. The default is 0.
#[derive(Clone, Copy, Debug, Default, PartialEq, Eq, PartialOrd, Ord, Hash)]
pub struct Fix<const F: u32> {
    raw: i32,
}

impl<const F: u32> Model for Fix<F> {
    ghost Value = { ℤ };

    ghost view = { λ x. x.raw };

    ghost inverse = { λ z. record { raw = z } };
}

impl<const F: u32> Fix<F> {
    /// The number `raw` / 2^`F`.
    pub fn from_raw(raw: i32) -> Self
        ensures { result ≡ raw }
    {
        Fix { raw }
    }

    /// The raw number: the number times 2^`F`.
    pub fn raw(self) -> i32
        ensures { result ≡ self.entry }
    {
        self.raw
    }

    /// The raw number as an `i64`, in which sums and products of a few such numbers fit.
    pub fn wide(self) -> i64
        ensures value { result ≡ self.entry }
        ensures size { FitsSigned w32 result }
    {
        i64::from(self.raw)
    }

    /// The number 1, whose raw number is 2^`F`.
    pub fn one() -> Self
        requires { F ≤ 30 }
        ensures { result ≡ pos (2 ^ F) }
    {
        Fix { raw: 1 << F }
    }

    /// The same number with `G` binary places, rounded to the nearest such number, a tie going up;
    /// `None` exactly where that number does not fit.
    pub fn refrac<const G: u32>(self) -> Option<Fix<G>>
        requires from { F ≤ 30 }
        requires to { G ≤ 30 }
        ensures { let raw = round_up (self.entry *ℤ pos (2 ^ G)) (2 ^ F) in
            SomeIff result (FitsSigned w32 raw) raw }
    {
        let raw = mul_div_up(self.wide(), unit(G), unit(F));
        let raw = i32::try_from(raw).ok()?;
        Some(Fix { raw })
    }
}

// The raw number of 1 with so many binary places.
fn unit(places: u32) -> i64
    requires { places ≤ 30 }
    ensures { result ≡ pos (2 ^ places) }
{
    1 << places
}

impl<const F: u32> Add for Fix<F> {
    type Output = Fix<F>;

    ghost can_add = { λ x y. FitsSigned w32 (x +ℤ y) };

    ghost add_gives = { λ x y r. r ≡ x +ℤ y };

    fn add(self, rhs: Fix<F>) -> Fix<F> {
        Fix {
            raw: self.raw + rhs.raw,
        }
    }
}

impl<const F: u32> Sub for Fix<F> {
    type Output = Fix<F>;

    ghost can_sub = { λ x y. FitsSigned w32 (x -ℤ y) };

    ghost sub_gives = { λ x y r. r ≡ x -ℤ y };

    fn sub(self, rhs: Fix<F>) -> Fix<F> {
        Fix {
            raw: self.raw - rhs.raw,
        }
    }
}

impl<const F: u32> Neg for Fix<F> {
    type Output = Fix<F>;

    ghost can_neg = { λ x. FitsSigned w32 (neg_ℤ x) };

    ghost neg_gives = { λ x r. r ≡ neg_ℤ x };

    fn neg(self) -> Fix<F> {
        Fix { raw: -self.raw }
    }
}

#[cfg(test)]
mod tests {
    use super::*;

    // Each row: a raw number with 2 places, and its raw number with 4, which fits or does not.
    #[test]
    fn changes_places(rt: HostRuntime) {
        let finer = [
            (-536870913, None),
            (-536870912, Some(i32::MIN)),
            (-1, Some(-4)),
            (536870911, Some(2147483644)),
            (536870912, None),
        ];
        for (raw, want) in finer {
            let found = Fix::<2>::from_raw(raw).refrac::<4>();
            assert_eq!(rt;
                found.map(|fix| fix.raw()),
                want,
                "{raw} with two more places"
            );
        }

        // The same from 16 places to 14, with ties of both signs.
        let coarser = [
            (i32::MIN, -536870912),
            (-6, -1),
            (-3, -1),
            (-2, 0),
            (2, 1),
            (5, 1),
            (6, 2),
            (i32::MAX, 536870912),
        ];
        for (raw, want) in coarser {
            let found = Fix::<16>::from_raw(raw).refrac::<14>();
            assert_eq!(rt;
                found.map(|fix| fix.raw()),
                Some(want),
                "{raw} with two places fewer"
            );
        }
        assert_eq!(rt; Fix::<30>::one().raw(), 1073741824);
        assert_eq!(rt; Fix::<14>::one().refrac::<16>(), Some(Fix::one()));
    }
}
