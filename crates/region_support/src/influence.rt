ghost use Rattle.std.specs.Prelude.{◌≡◌, ◌≤◌, ◌≤ℤ◌, ◌^◌, pos};
ghost use Rattle.arrayvec.specs.ArrayVec.{array_vec_len};
ghost use Rattle.variation_rules.specs.Scalar.{scalar_of};

use crate::{Location, Support};
use fixpoint::Fix;

/// How much a master's region counts at a location, in units of 2^-`G` (OpenType, "Algorithm for
/// interpolation of instance values"): 1 at its peak, 0 outside. After each axis it is rounded to the
/// nearest number, ties up.
pub fn scalar<const G: u32>(support: &Support, at: &Location) -> Fix<G>
    requires coordinate_lists { G ≤ 30 }
    requires same_axes { array_vec_len support.now ≡ array_vec_len at.now }
    ensures value { result ≡ scalar_of G support.now.items at.now.items }
    ensures low { pos 0 ≤ℤ result }
    ensures high { result ≤ℤ pos (2 ^ G) }
{
    variation_rules::scalar::<G>(support.as_slice(), at.as_slice())
}
