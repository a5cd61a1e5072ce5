ghost use Rattle.std.specs.Prelude.{◌≡◌, filter, map, option_map, IfSome, IfOk};
ghost use Rattle.std.specs.Str.{bytes_eq};
ghost use Rattle.std.specs.List.{list_any};
ghost use Rattle.commands.specs.Words.{seen_word};
ghost use Rattle.vfb.specs.Named.{without};
ghost use Rattle.vfb.specs.Calls.{image_of, images_of, is_called, only, seen};
ghost use Rattle.vfb.specs.Choosing.{Chooses, Configures};

use crate::ending::Ending;
use crate::misuse::Misuse;
use crate::named::{is_called, take_called};
use basics::NoMemory;
use commands::FilterWord;
use filters::GlyphFilter;
use std::alloc::Global;

/// Whether one of the filters has this name.
fn is_there(handed: &[Box<dyn GlyphFilter>], name: &str) -> bool
    ensures { result ≡ list_any (λ filter. bytes_eq (called filter) name.now) handed.now }
{
    match handed {
        [] => false,
        [first, others @ ..] => is_called(first, name) || is_there(others, name),
    }
}

/// Takes the one filter of this name out of the list, or answers None exactly where no filter has it, or two have. The
/// others stay in their order.
fn take_only(handed: &mut Vec<Box<dyn GlyphFilter>>, name: &str) -> Option<Box<dyn GlyphFilter>>
    ensures taken { option_map (seen called setting_of image) result ≡ only (filter (is_called name.now) (map (seen called setting_of image) handed.old.items)) }
    ensures others { IfSome result (λ _. map (seen called setting_of image) handed.new.items ≡ without (is_called name.now) (map (seen called setting_of image) handed.old.items)) }
{
    let filter = take_called(handed, name)?;
    if is_there(handed.as_slice(), name) {
        return None;
    }
    Some(filter)
}

/// Takes the filter that the word asks for out of the list, configured by the word's text.
fn take_configured(
    handed: &mut Vec<Box<dyn GlyphFilter>>,
    word: &FilterWord<'_>,
) -> Option<Box<dyn GlyphFilter>>
    ensures taken { Configures (λ filter. image filter (setting filter)) (image_of (seen_word word.now) (only (filter (is_called word.now.name.now) (map (seen called setting_of image) handed.old.items)))) word.now.name.now result }
    ensures others { IfSome result (λ _. map (seen called setting_of image) handed.new.items ≡ without (is_called word.now.name.now) (map (seen called setting_of image) handed.old.items)) }
{
    let mut filter = take_only(handed, word.name)?;
    if filter.configure(word.text) {
        Some(filter)
    } else {
        None
    }
}

/// Takes the filters that the words ask for out of the list, configured, in the order of the words.
///
/// # Errors
///
/// The usage of the first word that can't have its filter: where the list has none of its name, or two, or where the
/// filter refuses the word's text; or want of memory.
pub(crate) fn choose<'a>(
    alloc: Global,
    handed: Vec<Box<dyn GlyphFilter>>,
    words: &[FilterWord<'a>],
) -> Result<Vec<Box<dyn GlyphFilter>>, Ending<'a>>
    ensures { Chooses (λ chosen. map (λ filter. image filter (setting filter)) chosen.items) (images_of (map (seen called setting_of image) handed.items) (map seen_word words.now)) result }
{
    let mut handed = handed;
    let mut chosen = Vec::new(alloc);
    for word in words {
        let Some(filter) = take_configured(&mut handed, word) else {
            return Err(Ending::Usage(Misuse::Filter(word.name)));
        };
        chosen.push(filter)?;
    }
    Ok(chosen)
}
