use basics::{Name, Seq};

/// A point of a contour, by the element `point` of GLIF (UFO 3, "GLIF", "outline").
#[derive(Clone, Copy, Debug, PartialEq, Eq)]
pub struct Point {
    /// How far right of the origin it is, in font units. −16,384 to 16,383 in a drawing within limits.
    pub x: i32,
    /// How far above the baseline it is, in font units. −16,384 to 16,383 in a drawing within limits.
    pub y: i32,
    /// Whether the contour goes through it. An off-curve point is a control point of a quadratic
    /// curve, as in TrueType (OpenType, "glyf").
    pub on: bool,
}

/// What a glyph draws itself, and how far it moves the pen.
#[derive(Drop)]
pub struct Outline {
    /// The advance width in font units. 0 to 16,383 in a drawing within limits.
    pub advance: i32,
    /// Closed contours, each the list of its points in order. A drawing within limits has 1 to 1,024
    /// points in each, and at most 4,000 in all.
    pub contours: Seq<Seq<Point>>,
}

/// Another glyph drawn within this one, by the element `component` of GLIF (UFO 3, "GLIF", "component").
#[derive(Drop)]
pub struct Component {
    /// The name of the glyph that is drawn.
    pub base: Name,
    /// How far right it is moved, in font units.
    pub dx: i32,
    /// How far up it is moved, in font units.
    pub dy: i32,
}

/// A glyph as one source draws it, by the element `glyph` of GLIF (UFO 3, "GLIF").
#[derive(Drop)]
pub struct Drawing {
    /// The glyph's name.
    pub name: Name,
    /// Its own contours, and the advance width.
    pub outline: Outline,
    /// The glyphs that it draws besides, in order.
    pub components: Seq<Component>,
    /// The Unicode code points that stand for it, in order.
    pub codes: Seq<u32>,
}
