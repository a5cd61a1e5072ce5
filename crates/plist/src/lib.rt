//! Values of property lists in XML, in which UFO 3 keeps all but its glyphs: read off the tree of a source text,
//! or refused for the first fault.
#![tactic(auto)]

mod entries;
mod form;
mod laws;
mod reader;
mod value;

pub use laws::{fault_law, first_key_law, property_list_law};
pub use reader::read;
pub use value::Value;

#[cfg(test)]
mod tests;
