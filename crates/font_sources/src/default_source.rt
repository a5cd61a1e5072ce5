ghost use Rattle.std.specs.Prelude.{◌≡◌, length, option_map, IfOk};
ghost use Rattle.source_files.specs.Stops.{Answers, Reads};
ghost use Rattle.ufo_source.specs.Paths.{IsIn};
ghost use Rattle.font_sources.specs.Limits.{IsDefaultWithin};
ghost use Rattle.font_sources.specs.Sources.{default_at, default_of};

use crate::glyph_order::{NOTDEF, glyphs_named, is_among, names_in_order};
use crate::naming::Positions;
use basics::{Name, NoMemory, Seq};
use designspace::Source;
use fontinfo::Info;
use glif::Drawing;
use outside::Sources;
use source_files::ReadStop;
use std::alloc::Global;
use ufo_source::Master;

/// The default source of a font, all of whose glyphs are read.
#[derive(Drop)]
pub(crate) struct DefaultSource {
    /// Its font information.
    pub(crate) info: Info,
    /// Whether a `.notdef` is made, since it has none.
    pub(crate) makes: bool,
    /// The names of its glyphs in glyph order.
    pub(crate) names: Seq<Name>,
    /// Its drawing of each.
    pub(crate) glyphs: Seq<Option<Drawing>>,
}

/// The name of the layer of a source that is drawn, where one is told.
pub(crate) fn layer_of(source: &Source) -> Option<&str>
    ensures { option_map (λ name. name.now) result ≡ source.now.layer }
{
    match &source.layer {
        Some(name) => Some(name.as_str()),
        None => None,
    }
}

/// A source that was read whole, as the default source.
fn default_of(alloc: Global, master: Master) -> Result<DefaultSource, NoMemory>
    requires { length master.glyphs ≡ length master.names }
    ensures { IfOk result (λ default. default ≡ default_of master) }
{
    let Master {
        info,
        order,
        names: all,
        glyphs,
    } = master;
    let positions = Positions::new(alloc, all.as_slice())?;
    let makes = !is_among(&positions, NOTDEF);
    let names = names_in_order(alloc, order.as_slice(), all.as_slice(), &positions)?;
    let glyphs = glyphs_named(alloc, &positions, glyphs, names.as_slice())?;
    Ok(DefaultSource {
        info,
        makes,
        names,
        glyphs,
    })
}

/// Reads the default source.
#[tactic(auto, unfolding(crate::specs::Sources::default_at))]
pub(crate) fn read_default<S: Sources>(
    alloc: Global,
    sources: &mut S,
    source: &Source,
) -> Result<DefaultSource, ReadStop>
    ensures exact { Reads (S.state sources.old) (S.state sources.new) (IsIn source.now.path) (Answers (λ default. default) result (default_at (S.state sources.old).files source.now)) result }
    ensures within { IfOk result IsDefaultWithin }
{
    let master = ufo_source::read(alloc, sources, source.path.as_str(), layer_of(source), None)?;
    Ok(default_of(alloc, master)?)
}
