//! What the words of the contracts mean beyond the code.

ghost use Rattle.glyf_loca.specs.Bounds.{BoundsLaw};

/// The bounds of a glyph with points are coordinates of its points, and none of these lies outside them. A law about
/// the definitions; it does nothing.
pub fn bounds_law()
    ensures { BoundsLaw }
{}
