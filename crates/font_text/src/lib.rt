//! Texts as fonts hold them: how many units a name takes, and tags.
#![tactic(auto)]

mod tag;
#[cfg(test)]
mod tests;
mod utf16;

pub use tag::tag_of;
pub use utf16::utf16_length;
