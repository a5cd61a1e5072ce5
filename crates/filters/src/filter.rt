ghost use Rattle.std.specs.Prelude.{◌≡◌, ℕ, ℤ, Bool, List, Option, IfOk, is_some, unwrap_or, sum_by, length};
ghost use Rattle.glif.specs.declared.shape.Outline.{Outline};
ghost use Rattle.glif.specs.Limits.{IsWithinLimits};
ghost use Rattle.glif.specs.Shapes.{contour_kinds};
ghost use Rattle.filters.specs.Applied.{Applies, counted};

use crate::refusal::FilterRefusal;
use glif::Outline;
use std::alloc::Global;

/// A filter of outlines. Contracts see of it its name, its setting, the setting of each text, the image of each outline
/// under each setting, the kinds of the image's points, and how often it was applied. No call changes more of these
/// than its setting and that count.
pub trait GlyphFilter: Drop {
    // The text that `name` answers.
    ghost called: { Self → List ℕ };

    // The setting that it has, a list of numbers.
    ghost setting: { Self → List ℤ };

    // The setting that a text asks for, or none.
    ghost setting_of: { Self → List ℕ → Option (List ℤ) };

    // What it makes of an outline under a setting.
    ghost image: { Self → List ℤ → Outline → Outline };

    // Which points of each contour of an image are on the curve, by which of the outline are.
    ghost kinds: { Self → List ℤ → List (List Bool) → List (List Bool) };

    // How often it was applied.
    ghost touches: { Self → ℕ };

    /// The filter's name, by which words of a call ask for it.
    fn name(&self) -> &str
        ensures { result.now ≡ called self.now };

    /// Takes the setting that the text asks for, and answers true exactly where it asks for one. Else nothing changes.
    fn configure(&mut self, text: &str) -> bool
        ensures told { result ≡ is_some (setting_of self.old text.now) }
        ensures taken { setting self.new ≡ unwrap_or (setting_of self.old text.now) (setting self.old) }
        ensures touches_stay { touches self.new ≡ touches self.old }

        ensures name_stays { called self.new ≡ called self.old }
        ensures settings_stay { setting_of self.new ≡ setting_of self.old }
        ensures image_stays { image self.new ≡ image self.old }
        ensures kinds_stay { kinds self.new ≡ kinds self.old };

    /// The image of an outline under the setting. It has as many points as the outline, and its points are on the
    /// curve or off it as `kinds` says.
    ///
    /// # Errors
    ///
    /// `Range` exactly where the image isn't within limits, with its first number out of them, or want of memory. The
    /// call counts in [`GlyphFilter::touched`] then too.
    fn apply(&mut self, alloc: Global, outline: &Outline) -> Result<Outline, FilterRefusal>
        requires { IsWithinLimits outline.now }

        ensures answer { Applies (image self.old (setting self.old) outline.now) result }
        ensures kinds_follow { IfOk result (λ made. contour_kinds made ≡ kinds self.old (setting self.old) (contour_kinds outline.now)) }
        ensures points { IfOk result (λ made. sum_by length made.contours ≡ sum_by length outline.now.contours) }
        // Images of two outlines whose points are of equal kinds have points of equal kinds.
        ensures alike { (a b : Outline) → contour_kinds a ≡ contour_kinds b
            → contour_kinds (image self.old (setting self.old) a) ≡ contour_kinds (image self.old (setting self.old) b) }

        ensures touches_rise { touches self.new ≡ counted (touches self.old) }
        ensures setting_stays { setting self.new ≡ setting self.old }
        ensures name_stays { called self.new ≡ called self.old }
        ensures settings_stay { setting_of self.new ≡ setting_of self.old }
        ensures image_stays { image self.new ≡ image self.old }
        ensures kinds_stay { kinds self.new ≡ kinds self.old };

    /// How often [`GlyphFilter::apply`] was called, whatever it answered. The count stands still at `u64::MAX`.
    fn touched(&self) -> u64
        ensures { result ≡ touches self.now };
}
