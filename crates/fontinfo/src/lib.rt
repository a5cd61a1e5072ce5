//! Font information as UFO 3 keeps it in `fontinfo.plist`: the keys that a font is built from, read off the value of
//! the property list, or refused for the first fault.
#![tactic(auto)]

mod classes;
mod info;
mod key;
mod keys;
mod lines;
mod metrics;
mod naming;
mod tables;
mod underline;
mod version;

pub use info::{Info, read};

#[cfg(test)]
mod tests;
