ghost use Rattle.std.specs.Prelude.{◌≡◌, find, option_map};
ghost use Rattle.basics.specs.Reading.{Gives};
ghost use Rattle.markup.specs.Plain.{plain};
ghost use Rattle.markup_rules.specs.Tree.{children_of};
ghost use Rattle.design_axes.specs.Names as rules;

use crate::texts::short_name;
use basics::{Name, Stop};
use markup::Element;
use std::alloc::Global;

/// Whether the attribute `xml:lang` of a label is English.
fn is_in_english(language: Option<&str>) -> bool
    ensures { result ≡ rules.is_in_english (option_map (λ text. text.now) language.entry) }
{
    match language {
        Some(language) => language == "en",
        None => false,
    }
}

/// Whether the element is a `labelname` in English.
fn is_label(element: &Element) -> bool
    ensures { result ≡ rules.is_label (plain element.now) }
{
    element.is_named("labelname") && is_in_english(element.attribute("xml:lang"))
}

/// The first `labelname` in English.
fn english_label(axis: &Element) -> Option<&Element>
    ensures { option_map (λ label. plain label.now) result ≡ find rules.is_label (children_of (plain axis.now)) }
{
    for child in axis.children() {
        if is_label(child) {
            return Some(child);
        }
    }
    None
}

/// What applications show for the axis of this name.
#[tactic(auto, unfolding(crate::specs::Names::label_of))]
pub(crate) fn read_label(alloc: Global, name: &Name, axis: &Element) -> Result<Name, Stop>
    ensures { Gives (λ label. label) result (rules.label_of name.now (plain axis.now)) }
{
    match english_label(axis) {
        Some(label) => short_name(alloc, "labelname", label, label.text()),
        None => Ok(name.try_copy(alloc)?),
    }
}

/// Whether the text of an attribute sets what it speaks of.
fn is_set(text: Option<&str>) -> bool
    ensures { result ≡ rules.is_set (option_map (λ text. text.now) text.entry) }
{
    match text {
        Some(text) => text == "1" || text == "true",
        None => false,
    }
}

/// Whether applications don't show the axis.
pub(crate) fn is_hidden(axis: &Element) -> bool
    ensures { result ≡ rules.is_hidden (plain axis.now) }
{
    is_set(axis.attribute("hidden"))
}
