ghost use Rattle.std.specs.Prelude.{◌≡◌, ℕ, ℤ, pos, ◌*ℤ◌, ◌≤ℤ◌, ◌<ℤ◌, ◌^◌, ◌≤◌};
ghost use Rattle.std.specs.Int.RustNames.{FitsSigned, unsigned_abs};
ghost use Rattle.std.specs.Int.{w64};
ghost use Rattle.fixpoint.specs.Rounding.{round_up, round_down};

/// `a` times `b` over `c`, rounded to the nearest whole number, a tie going up. The product may be of
/// any size.
pub fn mul_div_up(a: i64, b: i64, c: i64) -> i64
    requires positive { pos 0 <ℤ c }
    requires fits { FitsSigned w64 (round_up (a *ℤ b) (unsigned_abs c)) }
    ensures { result ≡ round_up (a *ℤ b) (unsigned_abs c) }
{
    nearest_up(product(a, b), i128::from(c)) as i64
}

/// `a` times `b` over `c`, rounded to the nearest whole number, a tie going down. The product may be
/// of any size.
pub fn mul_div_down(a: i64, b: i64, c: i64) -> i64
    requires positive { pos 0 <ℤ c }
    requires fits { FitsSigned w64 (round_down (a *ℤ b) (unsigned_abs c)) }
    ensures { result ≡ round_down (a *ℤ b) (unsigned_abs c) }
{
    nearest_down(product(a, b), i128::from(c)) as i64
}

/// The part `a / b` of `s`, rounded to the nearest whole number, a tie going up: as a scalar is
/// multiplied by one axis' factor. A part is never more than the whole.
pub fn scale(s: i64, a: i64, b: i64) -> i64
    requires whole { pos 0 ≤ℤ s }
    requires part { pos 0 ≤ℤ a }
    requires within { a ≤ℤ b }
    requires positive { pos 0 <ℤ b }
    ensures value { result ≡ round_up (s *ℤ a) (unsigned_abs b) }
    ensures low { pos 0 ≤ℤ result }
    ensures high { result ≤ℤ s }
{
    mul_div_up(s, a, b)
}

/// `n` over `d`, rounded to the nearest whole number, a tie going up.
pub fn divide_up(n: i64, d: i64) -> i64
    requires { pos 0 <ℤ d }
    ensures value { result ≡ round_up n (unsigned_abs d) }
    ensures size { unsigned_abs result ≤ unsigned_abs n }
{
    mul_div_up(n, 1, d)
}

/// `n` over `d`, rounded to the nearest whole number, a tie going down.
pub fn divide_down(n: i64, d: i64) -> i64
    requires { pos 0 <ℤ d }
    ensures value { result ≡ round_down n (unsigned_abs d) }
    ensures size { unsigned_abs result ≤ unsigned_abs n }
{
    mul_div_down(n, 1, d)
}

// The whole product.
fn product(a: i64, b: i64) -> i128
    ensures value { result ≡ a *ℤ b }
    ensures size { unsigned_abs result ≤ 2 ^ 126 }
{
    i128::from(a) * i128::from(b)
}

// Compares the rest with what it lacks to `d`, since twice the rest could leave the type.
fn nearest_up(n: i128, d: i128) -> i128
    requires size { unsigned_abs n ≤ 2 ^ 126 }
    requires positive { pos 0 <ℤ d }
    ensures value { result ≡ round_up n (unsigned_abs d) }
    ensures size { unsigned_abs result ≤ unsigned_abs n }
{
    let floor = n.div_euclid(d);
    let rest = n.rem_euclid(d);
    if rest < d - rest { floor } else { floor + 1 }
}

// The mirror image of `nearest_up`.
fn nearest_down(n: i128, d: i128) -> i128
    requires size { unsigned_abs n ≤ 2 ^ 126 }
    requires positive { pos 0 <ℤ d }
    ensures { result ≡ round_down n (unsigned_abs d) }
{
    -nearest_up(-n, d)
}

#[cfg(test)]
mod tests {
    use super::*;

    // Each row: a number, then its quarter rounded up and down. Ties lie at odd halves.
    #[test]
    fn rounds_quarters(rt: HostRuntime) {
        let rows = [
            (-6, -1, -2),
            (-5, -1, -1),
            (-3, -1, -1),
            (-2, 0, -1),
            (-1, 0, 0),
            (0, 0, 0),
            (1, 0, 0),
            (2, 1, 0),
            (3, 1, 1),
            (5, 1, 1),
            (6, 2, 1),
            (7, 2, 2),
            (i64::MAX - 1, 2305843009213693952, 2305843009213693951),
            (i64::MIN, -2305843009213693952, -2305843009213693952),
            (i64::MIN + 2, -2305843009213693951, -2305843009213693952),
        ];
        for (n, up, down) in rows {
            assert_eq!(rt; divide_up(n, 4), up, "{n} up");
            assert_eq!(rt; divide_down(n, 4), down, "{n} down");
        }

        // Products past 64 bits, and the greatest that is taken.
        assert_eq!(rt; scale(i64::MAX, i64::MAX - 1, i64::MAX), i64::MAX - 1);
        assert_eq!(rt; scale(3, 1, 2), 2);
        assert_eq!(rt; mul_div_up(i64::MIN, i64::MAX, i64::MAX), i64::MIN);
        assert_eq!(rt; mul_div_up(i64::MIN, -3, 1 << 62), 6);
        assert_eq!(rt; mul_div_up(-3, 5, 2), -7);
        assert_eq!(rt; mul_div_down(-3, 5, 2), -8);
    }
}
