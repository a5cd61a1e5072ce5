ghost use Rattle.std.specs.Prelude.{◌↔◌, IsTrue};
ghost use Rattle.variation_rules.specs.InferredDelta.{Between};
ghost use Rattle.variation_rules.specs.FontUnits.{IsReference};

use variation_rules::{Reference, inferred_delta};

/// Whether a point has, in one coordinate, the delta that is inferred from two references. Where the
/// line between them gives no whole number, no delta is.
pub fn is_between(first: Reference, second: Reference, point: Reference) -> bool
    requires first { IsReference first }
    requires second { IsReference second }
    requires point { IsReference point }
    ensures { IsTrue result ↔ Between first.at first.delta second.at second.delta point.at point.delta }
{
    match inferred_delta(first, second, point.at) {
        Some(delta) => delta == point.delta,
        None => false,
    }
}
