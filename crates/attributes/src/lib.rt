//! Attributes of the elements of source texts, and the numbers in them: the value, or the first fault.
//!
//! An attribute may have to be there. Its number is a decimal text, read with 16 binary places or as a whole number
//! within limits. A fault has the attribute's name as its item and the offset of the element in its text. For one number
//! the order of the tests is MissingAttribute, NotNumber, NotWhole, NumberRange, and then the kind of the limits.
#![tactic(auto)]

mod laws;
mod limits;
mod number;
mod text;

pub use laws::limits_law;
pub use limits::Limits;
pub use number::{decimal, optional_decimal, optional_whole, whole};
pub use text::{attribute_fault, fault, needed};

#[cfg(test)]
mod tests;
