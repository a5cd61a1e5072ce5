ghost use Rattle.std.specs.Prelude.{IfOk};
ghost use Rattle.font_build.specs.TableSteps.{AreFixed};
ghost use Rattle.plain_tables.specs.Conditions.{AreFacts};

use basics::NoMemory;
use plain_tables::{Facts, head, hhea, hmtx, maxp, os2, post};
use std::alloc::Global;

/// The tables of fixed fields, and of one record a glyph.
#[derive(Drop)]
pub(crate) struct FixedTables {
    pub(crate) head: Vec<u8>,
    pub(crate) hhea: Vec<u8>,
    pub(crate) hmtx: Vec<u8>,
    pub(crate) maxp: Vec<u8>,
    pub(crate) os2: Vec<u8>,
    pub(crate) post: Vec<u8>,
}

/// These tables, of a font that tells this.
pub(crate) fn tell_facts(alloc: Global, facts: &Facts) -> Result<FixedTables, NoMemory>
    requires { AreFacts facts.now }
    ensures { IfOk result (AreFixed facts.now) }
{
    let head = head(alloc, facts)?;
    let hhea = hhea(alloc, facts)?;
    let hmtx = hmtx(alloc, facts)?;
    let maxp = maxp(alloc, facts)?;
    let os2 = os2(alloc, facts)?;
    let post = post(alloc, facts)?;
    Ok(FixedTables {
        head,
        hhea,
        hmtx,
        maxp,
        os2,
        post,
    })
}
