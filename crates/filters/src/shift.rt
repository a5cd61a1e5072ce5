ghost use Rattle.std.specs.Prelude.{◌≡◌, ℤ, pos, negsuc, ◌≤ℤ◌, [], ◌∷◌, codes, map, All, IfOk, IfSome};
ghost use Rattle.basics.specs.Optional.{Agrees};
ghost use Rattle.glif.specs.Limits.{IsWithinLimits, IsPointWithin};
ghost use Rattle.filters.specs.Applied.{Applies};
ghost use Rattle.filters.specs.Shift.{IsOffset, offset_of, offsets_of, shifted_point, shifted, shifted_by};

use crate::filter::GlyphFilter;
use crate::refusal::{FilterRefusal, limited};
use basics::{NoMemory, Seq};
use fixpoint::parse_whole;
use glif::{Outline, Point};
use std::alloc::Global;

/// The least number by which an outline is moved, in font units.
const LEAST: i32 = -16_384;

/// The greatest number by which an outline is moved, in font units.
const GREATEST: i32 = 16_383;

/// The filter `shift`: it moves each point by its setting, DX to the right and DY up, and keeps the advance width. It
/// is configured by `DX:DY`, two whole texts (`fixpoint::parse_whole`) of −16,384 to 16,383, in font units.
#[derive(Drop)]
pub struct Shift {
    dx: i32,
    dy: i32,
    touched: u64,
    ghost dx_in_range: { IsOffset dx },
    ghost dy_in_range: { IsOffset dy },
}

impl Shift {
    /// A filter that moves nothing, with the setting 0, 0. It takes no memory.
    pub fn new() -> Shift
        ensures setting { ⟦<Shift as GlyphFilter>⟧.setting result ≡ pos 0 ∷ pos 0 ∷ [] }
        ensures touches { ⟦<Shift as GlyphFilter>⟧.touches result ≡ 0 }
    {
        Shift {
            dx: 0,
            dy: 0,
            touched: 0,
        }
    }

    /// The outline, moved by the setting, where it is within limits then.
    fn image_of(&self, alloc: Global, outline: &Outline) -> Result<Outline, FilterRefusal>
        requires { IsWithinLimits outline.now }
        ensures { Applies (shifted self.now.dx self.now.dy outline.now) result }
    {
        limited(shifted(alloc, self.dx, self.dy, outline)?)
    }
}

impl GlyphFilter for Shift {
    ghost called = { λ _. codes "shift" };

    ghost setting = { λ filter. filter.dx ∷ filter.dy ∷ [] };

    ghost setting_of = { λ _ text. offsets_of text };

    ghost image = { λ _ setting outline. shifted_by setting outline };

    ghost kinds = { λ _ _ kinds. kinds };

    ghost touches = { λ filter. filter.touched };

    fn name(&self) -> &str {
        "shift"
    }

    fn configure(&mut self, text: &str) -> bool {
        match offsets(text) {
            Some((dx, dy)) => {
                self.dx = dx;
                self.dy = dy;
                true
            }
            None => false,
        }
    }

    fn apply(&mut self, alloc: Global, outline: &Outline) -> Result<Outline, FilterRefusal> {
        let answer = self.image_of(alloc, outline);
        self.touched = self.touched.saturating_add(1);
        answer
    }

    fn touched(&self) -> u64 {
        self.touched
    }
}

/// The offset that a whole text writes.
fn offset(text: &str) -> Option<i32>
    ensures value { result ≡ offset_of text.now }
    ensures range { IfSome result IsOffset }
{
    match parse_whole(text) {
        Ok(number) if LEAST <= number && number <= GREATEST => Some(number),
        _ => None,
    }
}

/// The offsets that a text `DX:DY` writes.
fn offsets(text: &str) -> Option<(i32, i32)>
    ensures value { Agrees (λ found. found.0 ∷ found.1 ∷ []) result (offsets_of text.now) }
    ensures range { IfSome result (λ found. IsOffset found.0 × IsOffset found.1) }
{
    let (dx, dy) = text.split_once(':')?;
    Some((offset(dx)?, offset(dy)?))
}

/// The point, moved.
fn shifted_point(dx: i32, dy: i32, point: Point) -> Point
    requires dx { IsOffset dx }
    requires dy { IsOffset dy }
    requires within { IsPointWithin point }
    ensures { result ≡ shifted_point dx dy point }
{
    Point {
        x: point.x + dx,
        y: point.y + dy,
        on: point.on,
    }
}

/// The contour, moved.
fn shifted_contour(
    alloc: Global,
    dx: i32,
    dy: i32,
    points: &[Point],
) -> Result<Seq<Point>, NoMemory>
    requires dx { IsOffset dx }
    requires dy { IsOffset dy }
    requires within { All IsPointWithin points.now }
    ensures { IfOk result (λ contour. contour ≡ map (shifted_point dx dy) points.now) }
{
    let mut contour = Vec::new(alloc);
    for &point in points {
        contour.push(shifted_point(dx, dy, point))?;
    }
    Ok(Seq::from_vec(contour))
}

/// The outline, moved.
fn shifted(alloc: Global, dx: i32, dy: i32, outline: &Outline) -> Result<Outline, NoMemory>
    requires dx { IsOffset dx }
    requires dy { IsOffset dy }
    requires within { IsWithinLimits outline.now }
    ensures { IfOk result (λ image. image ≡ shifted dx dy outline.now) }
{
    let mut contours = Vec::new(alloc);
    for contour in outline.contours.as_slice() {
        contours.push(shifted_contour(alloc, dx, dy, contour.as_slice())?)?;
    }
    Ok(Outline {
        advance: outline.advance,
        contours: Seq::from_vec(contours),
    })
}
