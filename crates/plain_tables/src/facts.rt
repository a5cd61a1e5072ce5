use basics::{Name, Seq};
use fontinfo::Info;
use glyf_loca::Bounds;

/// What a font tells in these tables. Names, advance widths, bounds and lengths have one item a glyph, in glyph order.
#[derive(Drop)]
pub struct Facts {
    /// What the font says of itself.
    pub info: Info,
    /// The name of each glyph, 1 to 63 bytes.
    pub names: Seq<Name>,
    /// The advance width of each glyph, 0..16383.
    pub advances: Seq<i32>,
    /// The bounds of each glyph, of which those of a glyph without contours don't count.
    pub bounds: Seq<Bounds>,
    /// How many points and how many contours each glyph has.
    pub lengths: Seq<(u16, u16)>,
    /// The glyph of each code point, by rising code points.
    pub codes: Seq<(u32, u16)>,
    /// Whether the offsets in table `loca` are long.
    pub long: bool,
    /// Whether the font has a table `GSUB`.
    pub substitutes: bool,
}
