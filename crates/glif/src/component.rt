ghost use Rattle.basics.specs.Reading.{Gives};
ghost use Rattle.glif.specs.Components.{component_of, matrix, scale};

use crate::numbers::offset;
use crate::shape::Component;
use attributes::{fault, needed, optional_decimal};
use basics::{Kind, Name, Stop};
use fixpoint::Fix;
use markup::Tagged;
use std::alloc::Global;

/// Tests that an attribute of the matrix is absent, or the wanted number when it is rounded to 16 binary places.
#[tactic(auto, unfolding(crate::specs::Components::scale))]
fn scale<T: Tagged>(alloc: Global, wanted: Fix<16>, name: &str, element: &T) -> Result<(), Stop>
    ensures { Gives (λ _. tt) result (scale wanted name.now (T.tree element.now)) }
{
    let number = optional_decimal(alloc, name, element)?.unwrap_or(wanted);
    if number != wanted {
        return Err(fault(alloc, Kind::ScaledComponent, element));
    }
    Ok(())
}

/// Tests that the component draws its base as it is, but moved.
#[tactic(auto, unfolding(crate::specs::Components::matrix))]
fn matrix<T: Tagged>(alloc: Global, element: &T) -> Result<(), Stop>
    ensures { Gives (λ _. tt) result (matrix (T.tree element.now)) }
{
    let (zero, one) = (Fix::from_raw(0), Fix::one());
    scale(alloc, one, "xScale", element)?;
    scale(alloc, one, "yScale", element)?;
    scale(alloc, zero, "xyScale", element)?;
    scale(alloc, zero, "yxScale", element)
}

/// A component.
#[tactic(auto, unfolding(crate::specs::Components::component_of))]
pub(crate) fn read_component<T: Tagged>(alloc: Global, element: &T) -> Result<Component, Stop>
    ensures { Gives (λ component. component) result (component_of (T.tree element.now)) }
{
    let base = needed(alloc, "base", element)?;
    matrix(alloc, element)?;
    let dx = offset(alloc, "xOffset", element)?;
    let dy = offset(alloc, "yOffset", element)?;
    let base = Name::from_str(alloc, base)?;
    Ok(Component { base, dx, dy })
}
