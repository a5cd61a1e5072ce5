ghost use Rattle.explicit_points.specs.ExplicitPoints.{ExplicitOnce, ExplicitFills, ExplicitPhantoms};

/// The law of the explicit points: a glyph has one list of them; what a tuple gives by them fills the
/// contours with all deltas; and each phantom point has its delta.
pub fn explicit_law()
    ensures once { ExplicitOnce }
    ensures fills { ExplicitFills }
    ensures phantoms { ExplicitPhantoms }
{}
