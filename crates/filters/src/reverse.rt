ghost use Rattle.std.specs.Prelude.{◌≡◌, [], codes, map, IfOk, Some, None, nat_eq, length, if◌then◌else◌};
ghost use Rattle.filters.specs.Applied.{Applies};
ghost use Rattle.filters.specs.Reverse.{turned, reversed};

use crate::filter::GlyphFilter;
use crate::refusal::{FilterRefusal, limited};
use basics::{NoMemory, Seq};
use glif::{Outline, Point};
use std::alloc::Global;

/// The filter `reverse`: each contour keeps its first point and has the others in reverse order, so that it runs the
/// other way round. It is configured by the empty text alone, and its setting is empty.
#[derive(Drop)]
pub struct Reverse {
    touched: u64,
}

impl Reverse {
    /// A filter that wasn't applied yet. It takes no memory.
    pub fn new() -> Reverse
        ensures setting { ⟦<Reverse as GlyphFilter>⟧.setting result ≡ [] }
        ensures touches { ⟦<Reverse as GlyphFilter>⟧.touches result ≡ 0 }
    {
        Reverse { touched: 0 }
    }
}

impl GlyphFilter for Reverse {
    ghost called = { λ _. codes "reverse" };

    ghost setting = { λ _. [] };

    ghost setting_of = { λ _ text. if nat_eq (length text) 0 then Some [] else None };

    ghost image = { λ _ _ outline. reversed outline };

    ghost kinds = { λ _ _ kinds. map turned kinds };

    ghost touches = { λ filter. filter.touched };

    fn name(&self) -> &str {
        "reverse"
    }

    fn configure(&mut self, text: &str) -> bool {
        text.is_empty()
    }

    fn apply(&mut self, alloc: Global, outline: &Outline) -> Result<Outline, FilterRefusal> {
        let answer = image_of(alloc, outline);
        self.touched = self.touched.saturating_add(1);
        answer
    }

    fn touched(&self) -> u64 {
        self.touched
    }
}

/// The contour from its first point the other way round.
fn turned(alloc: Global, points: &[Point]) -> Result<Seq<Point>, NoMemory>
    ensures { IfOk result (λ contour. contour ≡ turned points.now) }
{
    let mut contour = Vec::from_slice(alloc, points)?;
    if let [_, others @ ..] = contour.as_mut_slice() {
        others.reverse();
    }
    Ok(Seq::from_vec(contour))
}

/// The outline with each contour the other way round.
fn reversed(alloc: Global, outline: &Outline) -> Result<Outline, NoMemory>
    ensures { IfOk result (λ image. image ≡ reversed outline.now) }
{
    let mut contours = Vec::new(alloc);
    for contour in outline.contours.as_slice() {
        contours.push(turned(alloc, contour.as_slice())?)?;
    }
    Ok(Outline {
        advance: outline.advance,
        contours: Seq::from_vec(contours),
    })
}

/// The outline with each contour the other way round, where it is within limits then.
fn image_of(alloc: Global, outline: &Outline) -> Result<Outline, FilterRefusal>
    ensures { Applies (reversed outline.now) result }
{
    limited(reversed(alloc, outline)?)
}
