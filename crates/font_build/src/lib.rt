//! The font of a project: all its tables (OpenType 1.9), in the pieces of one file.
#![tactic(auto)]

mod advances;
mod building;
mod built;
mod design_tables;
mod drawn;
mod fixed_tables;
mod list;
mod tables;
mod variations;

pub use building::build;
pub use built::Built;
