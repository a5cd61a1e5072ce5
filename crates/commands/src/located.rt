ghost use Rattle.std.specs.Prelude.{◌≡◌, ◌≤◌, ◌⊎◌, [], ◌∷◌, ◌++◌, length, map, option_map, None, MatchOption, IsSomeAnd, nat_eq};
ghost use Rattle.std.specs.List.{list_all};
ghost use Rattle.commands.specs.Command.{coordinate_of, location_of, located_of, are_on_axes, drawings_named};
ghost use Rattle.commands.specs.Words.{seen};

use arrayvec::ArrayVec;
use fixpoint::{Fix, parse_whole};
use region_support::Location;

/// A drawing that the words name.
#[derive(Default, Drop)]
pub struct Located<'a> {
    /// The path of its file.
    pub path: &'a str,
    /// Where in the design space it stands.
    pub at: Location,
}

/// A coordinate from -1 to 1 in F2DOT14, as a whole number from -16,384 to 16,384.
#[tactic(auto, unfolding(crate::specs::Command::coordinate_of))]
fn coordinate_of(text: &str) -> Option<Fix<14>>
    ensures { result ≡ coordinate_of text.now }
{
    match parse_whole(text) {
        Ok(raw) if -16_384 <= raw && raw <= 16_384 => Some(Fix::from_raw(raw)),
        _ => None,
    }
}

/// Adds a coordinate to a location of fewer than eight.
fn add_coordinate(at: &mut Location, text: &str) -> Option<()>
    ensures { MatchOption result ((coordinate_of text.now ≡ None) ⊎ (length at.old.items ≡ 8)) (λ _. IsSomeAnd (coordinate_of text.now) (λ value. at.new.items ≡ at.old.items ++ value ∷ []) × (length at.new.items ≤ 8)) }
{
    let coordinate = coordinate_of(text)?;
    match at.try_push(coordinate) {
        Ok(()) => Some(()),
        Err(_) => None,
    }
}

/// Coordinates of at most eight axes, with commas between them.
fn location_of(text: &str) -> Option<Location>
    ensures { option_map (λ at. at.items) result ≡ location_of text.now }
{
    let mut at = Location::new();
    let mut rest = text;
    while let Some((first, more)) = rest.split_once(',') {
        add_coordinate(&mut at, first)?;
        rest = more;
    }
    add_coordinate(&mut at, rest)?;
    Some(at)
}

/// The drawing that a word names: a path, and after its last `@` the location.
fn located_of(word: &str) -> Option<Located<'_>>
    ensures { option_map seen result ≡ located_of word.now }
{
    let (path, location) = word.rsplit_once('@')?;
    Some(Located {
        path,
        at: location_of(location)?,
    })
}

/// Whether all drawings stand on so many axes.
fn have_axes(drawings: &[Located<'_>], axes: usize) -> bool
    ensures { result ≡ list_all (λ located. nat_eq (length located.at.items) axes) drawings.now }
{
    drawings.iter().all(|located| located.at.len() == axes)
}

/// Whether there are drawings, and all stand on the axes of the first.
fn are_on_axes(drawings: &[Located<'_>]) -> bool
    ensures { result ≡ are_on_axes (map seen drawings.now) }
{
    match drawings {
        [] => false,
        [first, more @ ..] => have_axes(more, first.at.len()),
    }
}

/// The drawings that the words name, at most 128, all on the same axes.
pub(crate) fn drawings_named<'a>(words: &[&'a str]) -> Option<ArrayVec<Located<'a>, 128>>
    ensures { option_map (λ drawings. map seen drawings.items) result ≡ drawings_named (map (λ word. word.now) words.now) }
{
    let mut drawings = ArrayVec::new();
    for word in words {
        let located = located_of(word)?;
        match drawings.try_push(located) {
            Ok(()) => {}
            Err(_) => return None,
        }
    }
    if are_on_axes(drawings.as_slice()) {
        Some(drawings)
    } else {
        None
    }
}
