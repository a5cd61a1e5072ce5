ghost use Rattle.std.specs.Prelude.{◌≡◌, ◌+◌, ◌≤◌, length, IfOk};
ghost use Rattle.font_tables.specs.FontAxes.{instances_from};

use avar_fvar::InstanceRecord;
use basics::{NoMemory, Seq};
use designspace::Instance;
use std::alloc::Global;

/// The named instances of a font, in their order: the ids of their names run on from this one.
pub fn instance_records(
    alloc: Global,
    first: u16,
    instances: &Seq<Instance>,
) -> Result<Seq<InstanceRecord>, NoMemory>
    requires first { first ≤ 264 }
    requires few { length instances.now ≤ 256 }
    ensures { IfOk result (λ records. records ≡ instances_from first instances.now) }
{
    let mut records = Seq::new(alloc);
    let mut id = first;
    for instance in instances.as_slice() {
        let record = instance_record(alloc, id, instance)?;
        records.push(record)?;
        id += 1;
    }
    Ok(records)
}

/// An instance whose name has this id.
fn instance_record(alloc: Global, id: u16, instance: &Instance) -> Result<InstanceRecord, NoMemory>
    ensures { IfOk result (λ made. made ≡ record { name_id = id; user = instance.now.user }) }
{
    let user = Vec::from_slice(alloc, instance.user.as_slice())?;
    Ok(InstanceRecord {
        name_id: id,
        user: Seq::from_vec(user),
    })
}
