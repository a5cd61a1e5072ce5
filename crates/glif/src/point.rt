ghost use Rattle.std.specs.Prelude.{◌≡◌};
ghost use Rattle.basics.specs.Reading.{Gives};
ghost use Rattle.markup_rules.specs.Tree.{at_of};
ghost use Rattle.glif.specs.Contours.{is_line, is_move, on_by, point_of, type_of};

use crate::numbers::coordinate;
use crate::shape::Point;
use attributes::fault;
use basics::{Kind, Stop};
use markup::Tagged;
use std::alloc::Global;

/// What a point is to its contour, by its attribute `type` (UFO 3, "GLIF", "point").
#[derive(Clone, Copy)]
pub(crate) enum PointType {
    /// Off the curve: `offcurve`, or no type.
    Off,
    /// The end of a straight line: `line`.
    Line,
    /// The end of a quadratic curve: `qcurve`.
    Quadratic,
    /// The end of a cubic curve, which isn't read: `curve`.
    Cubic,
    /// The start of an open contour: `move`.
    Move,
    /// Another text.
    Unknown,
}

/// The type of a point.
pub(crate) fn type_of<T: Tagged>(point: &T) -> PointType
    ensures { result ≡ type_of (T.tree point.now) }
{
    let Some(text) = point.attribute("type") else {
        return PointType::Off;
    };
    if text == "offcurve" {
        PointType::Off
    } else if text == "line" {
        PointType::Line
    } else if text == "qcurve" {
        PointType::Quadratic
    } else if text == "curve" {
        PointType::Cubic
    } else if text == "move" {
        PointType::Move
    } else {
        PointType::Unknown
    }
}

impl PointType {
    /// Whether it is the type `move`.
    pub(crate) fn is_move(self) -> bool
        ensures { result ≡ is_move self }
    {
        matches!(self, PointType::Move)
    }

    /// Whether such a point ends a straight line.
    pub(crate) fn is_line(self) -> bool
        ensures { result ≡ is_line self }
    {
        matches!(self, PointType::Line)
    }
}

/// Whether a point of this type is on the curve. A `move` may stand first, which makes an open contour.
fn is_on<T: Tagged>(
    alloc: Global,
    is_first: bool,
    point: &T,
    point_type: PointType,
) -> Result<bool, Stop>
    ensures { Gives (λ on. on) result (on_by is_first (at_of (T.tree point.now)) point_type) }
{
    match point_type {
        PointType::Off => Ok(false),
        PointType::Line => Ok(true),
        PointType::Quadratic => Ok(true),
        PointType::Cubic => Err(fault(alloc, Kind::Curve, point)),
        PointType::Move => {
            if is_first {
                Ok(true)
            } else {
                Err(fault(alloc, Kind::NotGlif, point))
            }
        }
        PointType::Unknown => Err(fault(alloc, Kind::NotGlif, point)),
    }
}

/// The first point of a contour, or another one, of an element of this type.
#[tactic(auto, unfolding(crate::specs::Contours::point_of))]
pub(crate) fn read_point<T: Tagged>(
    alloc: Global,
    is_first: bool,
    element: &T,
    point_type: PointType,
) -> Result<Point, Stop>
    requires { point_type ≡ type_of (T.tree element.now) }
    ensures { Gives (λ point. point) result (point_of is_first (T.tree element.now)) }
{
    if !element.is_named("point") {
        return Err(fault(alloc, Kind::NotGlif, element));
    }
    let x = coordinate(alloc, "x", element)?;
    let y = coordinate(alloc, "y", element)?;
    let on = is_on(alloc, is_first, element, point_type)?;
    Ok(Point { x, y, on })
}
