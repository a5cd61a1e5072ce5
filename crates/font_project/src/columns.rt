ghost use Rattle.std.specs.Prelude.{◌≡◌, ◌≢◌, ◌<◌, length, map, All, IfOk};
ghost use Rattle.std.specs.List.{AllPairs};
ghost use Rattle.std.specs.Vec.Iter.{into_iter_items};
ghost use Rattle.font_project.specs.Columns as rules;

use crate::outlined::OutlinedSource;
use basics::{NoMemory, Seq};
use glif::Outline;
use std::alloc::Global;
use std::mem;
use std::vec::IntoIter;

/// The outlines of each master, moved out of the sources of these numbers, which are in the order of masters.
pub(crate) fn rows_in(
    alloc: Global,
    mut sources: Vec<OutlinedSource>,
    order: &[u32],
) -> Result<Vec<Seq<Outline>>, NoMemory>
    requires numbers { All (λ number. number < length sources.items) order.now }
    requires apart { AllPairs (λ first second. first ≢ second) order.now }
    ensures { IfOk result (λ rows. rows.items ≡ rules.rows_in sources.items order.now) }
{
    let mut rows = Vec::new(alloc);
    for number in order {
        let nothing = Seq::new(alloc);
        let row = mem::replace(&mut sources[*number as usize].outlines, nothing);
        rows.push(row)?;
    }
    Ok(rows)
}

/// The rows as they are walked.
pub(crate) fn walks(
    alloc: Global,
    rows: Vec<Seq<Outline>>,
) -> Result<Vec<IntoIter<Outline>>, NoMemory>
    ensures { IfOk result (λ walks. map into_iter_items walks.items ≡ rows.items) }
{
    let mut walks = Vec::new(alloc);
    for row in rows {
        walks.push(row.into_vec().into_iter())?;
    }
    Ok(walks)
}

/// The next outline of a row.
fn next_of(alloc: Global, row: &mut IntoIter<Outline>) -> Outline
    ensures here { result ≡ rules.first_or_nothing (into_iter_items row.old) }
    ensures rest { into_iter_items row.new ≡ rules.rest_of (into_iter_items row.old) }
{
    match row.next() {
        Some(outline) => outline,
        None => Outline {
            advance: 0,
            contours: Seq::new(alloc),
        },
    }
}

/// The outlines of one glyph, and the rows behind them.
pub(crate) struct Column {
    /// One outline a master.
    pub(crate) outlines: Seq<Outline>,
    /// What is left of the rows.
    pub(crate) rest: Vec<IntoIter<Outline>>,
}

/// The next outline of each row.
pub(crate) fn next_column(alloc: Global, walks: Vec<IntoIter<Outline>>) -> Result<Column, NoMemory>
    ensures here { IfOk result (λ column. column.outlines ≡ map rules.first_or_nothing (map into_iter_items walks.items)) }
    ensures rest { IfOk result (λ column. map into_iter_items column.rest.items ≡ map rules.rest_of (map into_iter_items walks.items)) }
{
    let mut outlines = Seq::new(alloc);
    let mut rest = Vec::new(alloc);
    for mut walk in walks {
        outlines.push(next_of(alloc, &mut walk))?;
        rest.push(walk)?;
    }
    Ok(Column { outlines, rest })
}
