//! Source texts of XML 1.0 without CDATA sections, entities of their own and an internal document type:
//! the tree of a text, or what else a caller keeps of it, or its one fault.
#![tactic(auto)]

mod attributes;
mod bytes;
mod content;
mod element;
mod items;
mod markup;
mod names;
mod part;
mod place;
mod reader;
mod searches;
mod tag;
mod text;
mod trees;

pub use element::Element;
pub use part::Part;
pub use reader::read_part;
pub use tag::{Attribute, Tag, Tagged};
pub use trees::read;

#[cfg(test)]
mod tests;
