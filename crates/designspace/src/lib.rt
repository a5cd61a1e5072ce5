//! Designspace documents (Designspace 4 and 5): the axes of a design space, where its sources and its named instances
//! lie, and its rules of substitution; or the first fault.
#![tactic(auto)]

mod condition;
mod dimension;
mod document;
mod instance;
mod location;
mod parts;
mod rule;
mod sets;
mod source;
#[cfg(test)]
mod tests;

pub use design_axes::Axis;
pub use document::{Designspace, read};
pub use instance::Instance;
pub use rule::Rule;
pub use source::Source;
