ghost use Rattle.std.specs.Prelude.{◌≡◌, map, IfOk, option_map};
ghost use Rattle.markup.specs.Plain.{plain};
ghost use Rattle.design_axes.specs.Elements.{first_named, named};

use basics::NoMemory;
use markup::Element;
use std::alloc::Global;

/// The first child of an element with this name, if there is one.
pub fn first_named<'a>(name: &str, element: &'a Element) -> Option<&'a Element>
    ensures { option_map (λ child. plain child.now) result ≡ first_named name.now (plain element.now) }
{
    for child in element.children() {
        if child.is_named(name) {
            return Some(child);
        }
    }
    None
}

/// The children of an element with this name, in their order.
pub fn named<'a>(
    alloc: Global,
    name: &str,
    element: &'a Element,
) -> Result<Vec<&'a Element>, NoMemory>
    ensures { IfOk result (λ found. map (λ child. plain child.now) found.items ≡ named name.now (plain element.now)) }
{
    let mut found = Vec::new(alloc);
    for child in element.children() {
        if child.is_named(name) {
            found.push(child)?;
        }
    }
    Ok(found)
}
