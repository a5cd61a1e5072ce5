ghost use Rattle.std.specs.Prelude.{◌≡◌, ◌≤◌, length, IfOk};
ghost use Rattle.font_tables.specs.FontAxes.{axes_from};
ghost use Rattle.font_tables.specs.FontNames as font_names;

use crate::texts::FIRST;
use avar_fvar::AxisRecord;
use basics::{NoMemory, Seq};
use designspace::Axis;
use std::alloc::Global;

/// The axes of a font, in their order: the ids of their names run on from 256.
pub fn axis_records(alloc: Global, axes: &Seq<Axis>) -> Result<Seq<AxisRecord>, NoMemory>
    requires { length axes.now ≤ 8 }
    ensures { IfOk result (λ records. records ≡ axes_from font_names.FIRST axes.now) }
{
    let mut records = Seq::new(alloc);
    let mut id = FIRST;
    for axis in axes.as_slice() {
        let record = axis_record(alloc, id, axis)?;
        records.push(record)?;
        id += 1;
    }
    Ok(records)
}

/// An axis whose name has this id.
fn axis_record(alloc: Global, id: u16, axis: &Axis) -> Result<AxisRecord, NoMemory>
    ensures { IfOk result (λ made. made ≡ record { tag = axis.now.tag; map = axis.now.map; hidden = axis.now.hidden; name_id = id }) }
{
    let map = axis.map.try_copy(alloc)?;
    Ok(AxisRecord {
        tag: axis.tag,
        map,
        hidden: axis.hidden,
        name_id: id,
    })
}
