ghost use Rattle.std.specs.Prelude.{◌≡◌, All};
ghost use Rattle.std.specs.Int.{int_max, int_min};
ghost use Rattle.glif.specs.Limits.{IsPointWithin};
ghost use Rattle.glyf_loca.specs.Bounds.{bounds_of};

use glif::Point;

/// The box round the points of a glyph, off-curve points included, in font units (OpenType, "glyf"). All four
/// numbers are 0 for a glyph without contours.
#[derive(Clone, Copy, Debug, PartialEq, Eq)]
pub struct Bounds {
    /// The least x coordinate.
    pub x_min: i16,
    /// The least y coordinate.
    pub y_min: i16,
    /// The greatest x coordinate.
    pub x_max: i16,
    /// The greatest y coordinate.
    pub y_max: i16,
}

/// The bounds of points.
pub(crate) fn bounds_of(points: &[Point]) -> Bounds
    requires { All IsPointWithin points.now }
    ensures { result ≡ bounds_of points.now }
{
    let [first, rest @ ..] = points else {
        return Bounds {
            x_min: 0,
            y_min: 0,
            x_max: 0,
            y_max: 0,
        };
    };
    let mut bounds = at(first);
    for point in rest {
        bounds = extended(bounds, point);
    }
    bounds
}

/// The bounds of a single point.
fn at(point: &Point) -> Bounds
    requires { IsPointWithin point.now }
    ensures { result ≡ record { x_min = point.now.x; y_min = point.now.y; x_max = point.now.x; y_max = point.now.y } }
{
    let (x, y) = (point.x as i16, point.y as i16);
    Bounds {
        x_min: x,
        y_min: y,
        x_max: x,
        y_max: y,
    }
}

/// The bounds with a point more.
fn extended(bounds: Bounds, point: &Point) -> Bounds
    requires { IsPointWithin point.now }
    ensures x_min { result.x_min ≡ int_min bounds.x_min point.now.x }
    ensures y_min { result.y_min ≡ int_min bounds.y_min point.now.y }
    ensures x_max { result.x_max ≡ int_max bounds.x_max point.now.x }
    ensures y_max { result.y_max ≡ int_max bounds.y_max point.now.y }
{
    let own = at(point);
    Bounds {
        x_min: bounds.x_min.min(own.x_min),
        y_min: bounds.y_min.min(own.y_min),
        x_max: bounds.x_max.max(own.x_max),
        y_max: bounds.y_max.max(own.y_max),
    }
}
