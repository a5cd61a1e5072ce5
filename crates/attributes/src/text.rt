ghost use Rattle.std.specs.Prelude.{[], pos};
ghost use Rattle.basics.specs.Reading.{Gives, IsStop, spot_of};
ghost use Rattle.markup_rules.specs.Tree.{at_of};
ghost use Rattle.attributes.specs.Attributes.{needed};

use basics::{Kind, Stop, stop_at};
use markup::Tagged;
use std::alloc::Global;

/// The stop at a fault of the element: its offset in bytes is the element's. Its item is empty.
pub fn fault<T: Tagged>(alloc: Global, kind: Kind, element: &T) -> Stop
    ensures { IsStop result (spot_of kind [] (at_of (T.tree element.now)) (pos 0)) }
{
    stop_at(alloc, kind, "", element.offset(), 0)
}

/// The stop at a fault of an attribute of the element: its item is the attribute's name, its offset the
/// element's.
pub fn attribute_fault<T: Tagged>(alloc: Global, kind: Kind, name: &str, element: &T) -> Stop
    ensures { IsStop result (spot_of kind name.now (at_of (T.tree element.now)) (pos 0)) }
{
    stop_at(alloc, kind, name, element.offset(), 0)
}

/// The text of an attribute that has to be there.
///
/// # Errors
///
/// MissingAttribute, or want of memory.
#[tactic(auto, unfolding(crate::specs::Attributes::needed))]
pub fn needed<'a, T: Tagged>(alloc: Global, name: &str, element: &'a T) -> Result<&'a str, Stop>
    ensures { Gives (λ text. text.now) result (needed name.now (T.tree element.now)) }
{
    match element.attribute(name) {
        Some(text) => Ok(text),
        None => Err(attribute_fault(alloc, Kind::MissingAttribute, name, element)),
    }
}
