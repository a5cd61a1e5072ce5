//! Item variation stores: numbers of a font, each with its deltas over regions of the design space. It follows
//! OpenType 1.9, the chapter "Font variations common table formats".
#![tactic(auto)]

mod conditions;
mod item_data;
mod item_store;
mod regions;
#[cfg(test)]
mod tests;

pub use conditions::are_rows;
pub use item_store::store;
