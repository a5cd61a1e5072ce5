use basics::{Name, Seq};
use designspace::Designspace;
use fontinfo::Info;
use glif::Drawing;

/// A source of a font as it was read.
#[derive(Drop)]
pub struct SourceGlyphs {
    /// Its UFO folder.
    pub folder: Name,
    /// The units of the em that its font information tells.
    pub units: i32,
    /// Its drawing of each glyph of the font, in glyph order; None where the source lacks it. A `.notdef` that is made
    /// stands here in each source.
    pub glyphs: Seq<Option<Drawing>>,
}

/// Everything that a font is built from.
#[derive(Drop)]
pub struct FontSources {
    /// What the designspace document tells.
    pub design: Designspace,
    /// The numbers of the sources, counted from 0 in the document's order, in the order of masters. The first is that of
    /// the default source.
    pub order: Seq<u32>,
    /// The font information of the default source.
    pub info: Info,
    /// The names of the glyphs in glyph order: `.notdef`, then those that `public.glyphOrder` of the default source
    /// lists, then the rest in byte order.
    pub names: Seq<Name>,
    /// The sources in the document's order.
    pub sources: Seq<SourceGlyphs>,
}
