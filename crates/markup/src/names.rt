ghost use Rattle.std.specs.Prelude.{◌≡◌};
ghost use Rattle.markup_rules.specs.Reading.{name_at};
ghost use Rattle.basics.specs.Optional.{Agrees};

use crate::bytes::{as_text, split_name, starts_name};

/// The name at the start, and what follows it: an ASCII letter, `_`, `:` or a character past ASCII, and
/// then these, ASCII digits, `-` and `.`, as many as stand there.
#[tactic(auto, unfolding(markup_rules::specs::Reading::name_at))]
pub(crate) fn name_at(bytes: &[u8]) -> Option<(&str, &[u8])>
    ensures { Agrees (λ found. (found.0.now, found.1.now)) result (name_at bytes.now) }
{
    let (name, rest) = split_name(bytes);
    if !starts_name(bytes) {
        return None;
    }
    let name = as_text(name)?;
    Some((name, rest))
}
