ghost use Rattle.std.specs.Prelude.{◌≡◌};
ghost use Rattle.basics.specs.Reading.{Gives};
ghost use Rattle.attributes.specs.Attributes.{decimal, decimal_in, number_kind, number_or_fault, optional_decimal, optional_whole, ranged, whole, whole_in};

use crate::limits::Limits;
use crate::text::{attribute_fault, needed};
use basics::{Kind, Stop, stop_at};
use fixpoint::{Fix, NumberFault, parse_fix16, parse_whole};
use markup::Tagged;
use std::alloc::Global;

/// What a fault of a number's text is called.
fn number_kind(why: NumberFault) -> Kind
    ensures { result ≡ number_kind why }
{
    match why {
        NumberFault::NotNumber => Kind::NotNumber,
        NumberFault::NotWhole => Kind::NotWhole,
        NumberFault::NumberRange => Kind::NumberRange,
    }
}

/// The decimal number that the text of an attribute writes.
#[tactic(auto, unfolding(crate::specs::Attributes::decimal_in))]
fn decimal_in<T: Tagged>(
    alloc: Global,
    name: &str,
    element: &T,
    text: &str,
) -> Result<Fix<16>, Stop>
    ensures { Gives (λ number. number) result (decimal_in name.now (T.tree element.now) text.now) }
{
    match parse_fix16(text) {
        Ok(number) => Ok(number),
        Err(why) => Err(attribute_fault(alloc, number_kind(why), name, element)),
    }
}

/// The decimal number of an attribute that has to be there, with 16 binary places.
///
/// # Errors
///
/// MissingAttribute, NotNumber or NumberRange, or want of memory.
#[tactic(auto, unfolding(crate::specs::Attributes::decimal))]
pub fn decimal<T: Tagged>(alloc: Global, name: &str, element: &T) -> Result<Fix<16>, Stop>
    ensures { Gives (λ number. number) result (decimal name.now (T.tree element.now)) }
{
    let text = needed(alloc, name, element)?;
    decimal_in(alloc, name, element, text)
}

/// The decimal number of an attribute, if it is there, with 16 binary places.
///
/// # Errors
///
/// NotNumber or NumberRange, or want of memory.
#[tactic(auto, unfolding(crate::specs::Attributes::optional_decimal))]
pub fn optional_decimal<T: Tagged>(
    alloc: Global,
    name: &str,
    element: &T,
) -> Result<Option<Fix<16>>, Stop>
    ensures { Gives (λ number. number) result (optional_decimal name.now (T.tree element.now)) }
{
    match element.attribute(name) {
        Some(text) => Ok(Some(decimal_in(alloc, name, element, text)?)),
        None => Ok(None),
    }
}

/// The number of an attribute, where it is within limits.
#[tactic(auto, unfolding(crate::specs::Attributes::ranged))]
fn ranged<T: Tagged>(
    alloc: Global,
    limits: &Limits,
    name: &str,
    element: &T,
    number: i32,
) -> Result<i32, Stop>
    ensures { Gives (λ number. number) result (ranged limits.now name.now (T.tree element.now) number) }
{
    if limits.least <= number && number <= limits.greatest {
        return Ok(number);
    }
    let number = i64::from(number);
    Err(stop_at(alloc, limits.kind, name, element.offset(), number))
}

/// The whole number within limits that the text of an attribute writes.
#[tactic(auto, unfolding(crate::specs::Attributes::whole_in))]
fn whole_in<T: Tagged>(
    alloc: Global,
    limits: &Limits,
    name: &str,
    element: &T,
    text: &str,
) -> Result<i32, Stop>
    ensures { Gives (λ number. number) result (whole_in limits.now name.now (T.tree element.now) text.now) }
{
    match parse_whole(text) {
        Ok(number) => ranged(alloc, limits, name, element, number),
        Err(why) => Err(attribute_fault(alloc, number_kind(why), name, element)),
    }
}

/// The whole number within limits of an attribute that has to be there.
///
/// # Errors
///
/// MissingAttribute, NotNumber, NotWhole or NumberRange; the kind of the limits, with the number as the value that was
/// met; or want of memory.
#[tactic(auto, unfolding(crate::specs::Attributes::whole))]
pub fn whole<T: Tagged>(
    alloc: Global,
    limits: &Limits,
    name: &str,
    element: &T,
) -> Result<i32, Stop>
    ensures { Gives (λ number. number) result (whole limits.now name.now (T.tree element.now)) }
{
    let text = needed(alloc, name, element)?;
    whole_in(alloc, limits, name, element, text)
}

/// The whole number within limits of an attribute, if it is there.
///
/// # Errors
///
/// NotNumber, NotWhole or NumberRange; the kind of the limits, with the number as the value that was met; or want of
/// memory.
#[tactic(auto, unfolding(crate::specs::Attributes::optional_whole))]
pub fn optional_whole<T: Tagged>(
    alloc: Global,
    limits: &Limits,
    name: &str,
    element: &T,
) -> Result<Option<i32>, Stop>
    ensures { Gives (λ number. number) result (optional_whole limits.now name.now (T.tree element.now)) }
{
    match element.attribute(name) {
        Some(text) => Ok(Some(whole_in(alloc, limits, name, element, text)?)),
        None => Ok(None),
    }
}
