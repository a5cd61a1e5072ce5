ghost use Rattle.std.specs.Prelude.{◌≡◌, ℤ, pos, [], ◌∷◌, codes, map, All, IfOk, IfSome};
ghost use Rattle.basics.specs.Optional.{Agrees};
ghost use Rattle.glif.specs.Limits.{IsWithinLimits, IsPointWithin};
ghost use Rattle.filters.specs.Applied.{Applies};
ghost use Rattle.mirror_filter.specs.Mirror.{IsWidth, mirrored, mirrored_by, mirrored_point, widths_of};

use basics::{NoMemory, Seq};
use filters::{FilterRefusal, GlyphFilter, limited};
use fixpoint::parse_whole;
use glif::{Outline, Point};
use std::alloc::Global;

/// The least number that mirrored coordinates and their originals add up to, in font units.
const LEAST: i32 = -32_768;

/// The greatest one, in font units.
const GREATEST: i32 = 32_766;

/// The filter `mirror`: it turns each x into WIDTH − x, and keeps each y, the order of the points and the advance width. It
/// is configured by `WIDTH`, a whole text (`fixpoint::parse_whole`) of −32,768 to 32,766, in font units: with twice the x
/// of a line the outline is mirrored at that line. Contours go the other way round then; the filter `reverse` turns them
/// back.
#[derive(Drop)]
pub struct Mirror {
    width: i32,
    touched: u64,
    ghost in_range: { IsWidth width },
}

impl Mirror {
    /// A filter that mirrors at the upright line through the origin, with the setting 0. It takes no memory.
    pub fn new() -> Mirror
        ensures setting { ⟦<Mirror as GlyphFilter>⟧.setting result ≡ pos 0 ∷ [] }
        ensures touches { ⟦<Mirror as GlyphFilter>⟧.touches result ≡ 0 }
    {
        Mirror {
            width: 0,
            touched: 0,
        }
    }

    /// The outline, mirrored, where it is within limits then.
    fn image_of(&self, alloc: Global, outline: &Outline) -> Result<Outline, FilterRefusal>
        requires { IsWithinLimits outline.now }
        ensures { Applies (mirrored self.now.width outline.now) result }
    {
        limited(mirrored(alloc, self.width, outline)?)
    }
}

impl GlyphFilter for Mirror {
    ghost called = { λ _. codes "mirror" };

    ghost setting = { λ filter. filter.width ∷ [] };

    ghost setting_of = { λ _ text. widths_of text };

    ghost image = { λ _ setting outline. mirrored_by setting outline };

    ghost kinds = { λ _ _ kinds. kinds };

    ghost touches = { λ filter. filter.touched };

    fn name(&self) -> &str {
        "mirror"
    }

    fn configure(&mut self, text: &str) -> bool {
        match width_of(text) {
            Some(width) => {
                self.width = width;
                true
            }
            None => false,
        }
    }

    fn apply(&mut self, alloc: Global, outline: &Outline) -> Result<Outline, FilterRefusal> {
        let answer = self.image_of(alloc, outline);
        self.touched = self.touched.saturating_add(1);
        answer
    }

    fn touched(&self) -> u64 {
        self.touched
    }
}

/// The width that a whole text writes.
fn width_of(text: &str) -> Option<i32>
    ensures value { Agrees (λ width. width ∷ []) result (widths_of text.now) }
    ensures range { IfSome result IsWidth }
{
    match parse_whole(text) {
        Ok(number) if LEAST <= number && number <= GREATEST => Some(number),
        _ => None,
    }
}

/// The point, mirrored.
fn mirrored_point(width: i32, point: Point) -> Point
    requires width { IsWidth width }
    requires within { IsPointWithin point }
    ensures { result ≡ mirrored_point width point }
{
    Point {
        x: width - point.x,
        y: point.y,
        on: point.on,
    }
}

/// The contour, mirrored.
fn mirrored_contour(alloc: Global, width: i32, points: &[Point]) -> Result<Seq<Point>, NoMemory>
    requires width { IsWidth width }
    requires within { All IsPointWithin points.now }
    ensures { IfOk result (λ contour. contour ≡ map (mirrored_point width) points.now) }
{
    let mut contour = Vec::new(alloc);
    for &point in points {
        contour.push(mirrored_point(width, point))?;
    }
    Ok(Seq::from_vec(contour))
}

/// The outline, mirrored.
fn mirrored(alloc: Global, width: i32, outline: &Outline) -> Result<Outline, NoMemory>
    requires width { IsWidth width }
    requires within { IsWithinLimits outline.now }
    ensures { IfOk result (λ image. image ≡ mirrored width outline.now) }
{
    let mut contours = Vec::new(alloc);
    for contour in outline.contours.as_slice() {
        contours.push(mirrored_contour(alloc, width, contour.as_slice())?)?;
    }
    Ok(Outline {
        advance: outline.advance,
        contours: Seq::from_vec(contours),
    })
}
