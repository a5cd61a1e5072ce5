//! Sources of a font: folders of UFO 3 read in a stated order, so that of several faults the first is told.
//!
//! [`read`] reads `metainfo.plist`, `fontinfo.plist`, `lib.plist`, `layercontents.plist`, the layer's
//! `contents.plist` and its GLIF files. Each has its module, and its definition in `specs/`; `specs/Folders.antt` puts
//! these together, in the order of reading.
#![tactic(auto)]

mod contents;
mod folder;
mod glyphs;
mod index;
mod information;
mod layers;
mod metainfo;
mod order;
mod paths;
mod property_lists;
mod taken;
#[cfg(test)]
mod tests;
mod wanted;

pub use folder::{Master, read};
pub use source_files::ReadStop;
