//! What the tables of a font are made of, off its project: the outlines that it draws without variation, what its tables
//! of fixed fields tell, its names, and its axes and named instances.
#![tactic(auto)]

mod axes;
mod drawings;
mod fixed_fields;
mod info;
mod instances;
mod naming;
mod postscript;
#[cfg(test)]
mod tests;
mod texts;

pub use axes::axis_records;
pub use drawings::outlines;
pub use fixed_fields::facts;
pub use instances::instance_records;
pub use naming::names;
