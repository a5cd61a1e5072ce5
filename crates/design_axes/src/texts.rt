ghost use Rattle.basics.specs.Reading.{Gives};
ghost use Rattle.markup.specs.Plain.{plain};
ghost use Rattle.design_axes.specs.Names as rules;

use basics::{Kind, Name, Stop, stop_at};
use font_text::utf16_length;
use markup::Element;
use std::alloc::Global;

/// How many units of UTF-16 a name may take.
const NAME_UNITS: usize = 100;

/// A text of the element, as a name or a label, of at most 100 units of UTF-16.
///
/// # Errors
///
/// NameLength, with `item` as it is given, the element's offset in bytes as `at`, and the number of units as `first`;
/// or want of memory.
#[tactic(auto, unfolding(crate::specs::Names::short_name))]
pub fn short_name(alloc: Global, item: &str, element: &Element, text: &str) -> Result<Name, Stop>
    ensures { Gives (λ text. text) result (rules.short_name item.now (plain element.now) text.now) }
{
    let units = utf16_length(text);
    if units <= NAME_UNITS {
        Ok(Name::from_str(alloc, text)?)
    } else {
        Err(stop_at(
            alloc,
            Kind::NameLength,
            item,
            element.offset(),
            units as i64,
        ))
    }
}
