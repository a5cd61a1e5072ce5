//! The small types that every crate names: lists and texts as contracts see them, the kinds of refusal,
//! where a fault is, and why a reader stops. Beside them, in `specs/`, stand the words with which
//! every definition of a reading is said: one reading after another, runs of bytes, blanks.
#![tactic(auto)]

mod blanks;
mod fault;
mod kept;
mod kinds;
mod list;
#[cfg(test)]
mod tests;
mod text;

pub use blanks::{after_blanks, are_blanks, is_blank};
pub use fault::{Fault, NoMemory, Spot, Stop, stop_at};
pub use kinds::Kind;
pub use list::Seq;
pub use text::Name;
