ghost use Rattle.std.specs.Prelude.{◌≡◌, IfOk};
ghost use Rattle.font_project.specs.Presence as rules;

use basics::{Name, NoMemory, Seq};
use font_sources::SourceGlyphs;
use glif::Drawing;
use std::alloc::Global;

/// A source that draws every glyph.
#[derive(Drop)]
pub(crate) struct DrawnSource {
    /// Its UFO folder.
    pub(crate) folder: Name,
    /// The drawing of each glyph, in glyph order.
    pub(crate) drawings: Seq<Drawing>,
}

/// The drawings that are there.
fn drawings_in(alloc: Global, glyphs: Seq<Option<Drawing>>) -> Result<Seq<Drawing>, NoMemory>
    ensures { IfOk result (λ drawings. drawings ≡ rules.drawings_in glyphs) }
{
    let mut drawings = Seq::new(alloc);
    for glyph in glyphs.into_vec() {
        if let Some(drawing) = glyph {
            drawings.push(drawing)?;
        }
    }
    Ok(drawings)
}

/// A source with the drawings that it has.
fn drawn_source(alloc: Global, source: SourceGlyphs) -> Result<DrawnSource, NoMemory>
    ensures { IfOk result (λ drawn. drawn ≡ rules.drawn_source source) }
{
    let SourceGlyphs {
        folder,
        units: _,
        glyphs,
    } = source;
    let drawings = drawings_in(alloc, glyphs)?;
    Ok(DrawnSource { folder, drawings })
}

/// The sources with the drawings that they have.
pub(crate) fn drawn_sources(
    alloc: Global,
    sources: Seq<SourceGlyphs>,
) -> Result<Seq<DrawnSource>, NoMemory>
    ensures { IfOk result (λ drawn. drawn ≡ rules.drawn_sources sources) }
{
    let mut drawn = Seq::new(alloc);
    for source in sources.into_vec() {
        drawn.push(drawn_source(alloc, source)?)?;
    }
    Ok(drawn)
}
