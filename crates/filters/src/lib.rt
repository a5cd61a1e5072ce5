//! Filters of outlines: a filter has a name, takes a setting from a text, and makes of each outline another one whose
//! points are of kinds that follow from the kinds before. Callers hold them as `Box<dyn GlyphFilter>`.
#![tactic(auto)]

mod filter;
mod in_order;
mod laws;
mod refusal;
mod reverse;
mod shift;
#[cfg(test)]
mod tests;

pub use filter::GlyphFilter;
pub use in_order::apply_all;
pub use laws::{reverse_law, shift_law};
pub use refusal::{FilterRefusal, limited};
pub use reverse::Reverse;
pub use shift::Shift;
