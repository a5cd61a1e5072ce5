//! An example: a filter of one's own, written against `filters::GlyphFilter` alone. It mirrors outlines at an upright line.
//!
//! A program hands it in as it does the filters of the crate `filters`: `Box::new(alloc, Mirror::new())?` in the list that
//! `vfb::run` takes. The words `--filter mirror:500` then ask for it.
#![tactic(auto)]

mod mirror;
#[cfg(test)]
mod tests;

pub use mirror::Mirror;
