ghost use Rattle.std.specs.Prelude.{◌≡◌, ◌<◌, ◌++◌, map, take, drop, fold, length, sum_by, IfOk, IfErr};
ghost use Rattle.glif.specs.Limits.{IsWithinLimits};
ghost use Rattle.glif.specs.Shapes.{contour_kinds};
ghost use Rattle.filters.specs.Applied.{Applies, counted};
ghost use Rattle.filters.specs.InOrder.{through, AppliesAll, applied};

use crate::filter::GlyphFilter;
use crate::refusal::FilterRefusal;
use glif::Outline;
use std::alloc::Global;

/// The image of an outline under one filter.
fn apply_one(
    alloc: Global,
    filter: &mut Box<dyn GlyphFilter>,
    outline: &Outline,
) -> Result<Outline, FilterRefusal>
    requires { IsWithinLimits outline.now }

    ensures answer { Applies (image filter.old (setting filter.old) outline.now) result }
    ensures kinds_follow { IfOk result (λ made. contour_kinds made ≡ kinds filter.old (setting filter.old) (contour_kinds outline.now)) }
    ensures points { IfOk result (λ made. sum_by length made.contours ≡ sum_by length outline.now.contours) }

    ensures touches_rise { touches filter.new ≡ counted (touches filter.old) }
    ensures setting_stays { setting filter.new ≡ setting filter.old }
    ensures name_stays { called filter.new ≡ called filter.old }
    ensures texts_stay { setting_of filter.new ≡ setting_of filter.old }
    ensures image_stays { image filter.new ≡ image filter.old }
    ensures kinds_stay { kinds filter.new ≡ kinds filter.old }
{
    filter.apply(alloc, outline)
}

/// The image of an outline under all filters in order, each applied to the image of the one before. It has as many
/// points as the outline, and they are on the curve or off it as the filters say one after another.
///
/// # Errors
///
/// The number of the first filter that refuses, from 0, and why: `Range` exactly where an image isn't within limits, or
/// want of memory. The filters up to that one are applied once, and the others aren't.
pub fn apply_all(
    alloc: Global,
    filters: &mut [Box<dyn GlyphFilter>],
    outline: Outline,
) -> Result<Outline, (u64, FilterRefusal)>
    requires { IsWithinLimits outline }

    ensures answer { AppliesAll (through 0 (map (λ filter. image filter (setting filter)) filters.old) outline) result }
    ensures within { IfOk result IsWithinLimits }
    ensures number { IfErr result (λ refusal. refusal.0 < length filters.old) }
    ensures kinds_follow { IfOk result (λ made. contour_kinds made
        ≡ fold (λ kinds follow. follow kinds) (contour_kinds outline) (map (λ filter. kinds filter (setting filter)) filters.old)) }
    ensures points { IfOk result (λ made. sum_by length made.contours ≡ sum_by length outline.contours) }

    ensures touches_rise { map touches filters.new
        ≡ map counted (take (applied (length filters.old) result) (map touches filters.old)) ++ drop (applied (length filters.old) result) (map touches filters.old) }
    ensures settings_stay { map setting filters.new ≡ map setting filters.old }
    ensures names_stay { map called filters.new ≡ map called filters.old }
    ensures texts_stay { map setting_of filters.new ≡ map setting_of filters.old }
    ensures images_stay { map image filters.new ≡ map image filters.old }
    ensures kinds_stay { map kinds filters.new ≡ map kinds filters.old }
{
    let mut outline = outline;
    for number in 0..filters.len() {
        match apply_one(alloc, &mut filters[number], &outline) {
            Ok(made) => outline = made,
            Err(refusal) => return Err((number as u64, refusal)),
        }
    }
    Ok(outline)
}
