use basics::{Name, Seq};
use delta_solve::GlyphModel;
use designspace::Designspace;
use fontinfo::Info;
use indexmap::IndexMap;
use region_support::{Location, Support};
use rule_boxes::Cell;

/// What a font is built from.
#[derive(Drop)]
pub struct Project {
    /// The design space: axes, sources, rules and named instances, each in the document's order.
    pub design: Designspace,
    /// What the font says of itself, as the default source has it.
    pub info: Info,
    /// The number of each glyph by its name, in glyph order: `.notdef` is glyph 0.
    pub names: IndexMap<Name, u16>,
    /// The glyph of each code point, by rising code points.
    pub codes: Seq<(u32, u16)>,
    /// The region of influence of each master, in the order of masters.
    pub supports: Seq<Support>,
    /// Where each master stands, in the order of masters: the default first.
    pub sorted: Seq<Location>,
    /// The model of each glyph, in glyph order.
    pub models: Seq<GlyphModel>,
    /// For each rule of the design space, in their order, the numbers of the glyphs of its substitutions: the one that is
    /// replaced, and its substitute.
    pub subs: Seq<Seq<(u16, u16)>>,
    /// The boxes of the design space in which some rules hold, each with the numbers of these.
    pub cells: Seq<Cell>,
}
