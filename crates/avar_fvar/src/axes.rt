ghost use Rattle.std.specs.Prelude.{◌≡◌, ◌++◌, ◌≤◌, ◌<◌, ◌^◌, length, map, All, IfOk, OnOk, Some};
ghost use Rattle.be_bytes.specs.declared.field.Field.TheVariants.{Uint16};
ghost use Rattle.avar_fvar.specs.Axes.{FontAxes, axes_in, axis_of};
ghost use Rattle.avar_fvar.specs.Layout.{axis_bytes, axis_fields, fvar_bytes, fvar_header, instance_bytes};
ghost use Rattle.avar_fvar.specs.Ranges.{FitsAxis, FitsInstance};

use crate::records::{AxisRecord, InstanceRecord};
use basics::{NoMemory, Seq};
use be_bytes::Field::{self, Int32, Tag, Uint16};
use be_bytes::put_fields;
use std::alloc::Global;

/// The bytes of the table before its axes.
const HEADER: u16 = 16;

/// The bytes of an axis.
const AXIS: u16 = 20;

/// The flag of an axis that applications are not to show.
const HIDDEN: u16 = 0x0001;

/// The table of the axes (OpenType, "fvar"): 1 to 8 axes, and at most 256 named instances with one user value an
/// axis, both in their order.
pub fn fvar(
    alloc: Global,
    axes: &Seq<AxisRecord>,
    instances: &Seq<InstanceRecord>,
) -> Result<Vec<u8>, NoMemory>
    requires some { 1 ≤ length axes.now }
    requires few { length axes.now ≤ 8 }
    requires few_instances { length instances.now ≤ 256 }
    requires each { All (λ instance. length instance.user ≡ length axes.now) instances.now }
    ensures written { IfOk result (λ bytes. bytes.items ≡ fvar_bytes (map axis_of axes.now) instances.now) }
    ensures means { IfOk result (λ bytes. axes_in bytes.items ≡ Some (record { axes = map axis_of axes.now; instances = instances.now })) }
{
    let axes = axes.as_slice();
    let instances = instances.as_slice();
    let mut bytes = Vec::new(alloc);
    put_fields(
        &mut bytes,
        &header(axes.len() as u16, instances.len() as u16),
    )?;
    for axis in axes {
        put_axis(&mut bytes, axis)?;
    }
    for instance in instances {
        put_instance(&mut bytes, instance)?;
    }
    Ok(bytes)
}

/// The fields before the axes.
#[tactic(auto, unfolding(crate::specs::Layout::fvar_header))]
fn header(axes: u16, instances: u16) -> [Field; 8]
    requires { axes ≤ 8 }
    ensures { result ≡ fvar_header axes instances }
{
    [
        // majorVersion, minorVersion
        Uint16(1),
        Uint16(0),
        // axesArrayOffset
        Uint16(HEADER),
        // reserved
        Uint16(2),
        // axisCount, axisSize
        Uint16(axes),
        Uint16(AXIS),
        // instanceCount, instanceSize
        Uint16(instances),
        Uint16(4 * axes + 4),
    ]
}

/// The fields of an axis.
#[tactic(auto, unfolding(crate::specs::Layout::axis_fields))]
fn fields_of(axis: &AxisRecord) -> [Field; 6]
    ensures value { result ≡ axis_fields (axis_of axis.now) }
    ensures fits { FitsAxis (axis_of axis.now) }
{
    let user = axis.map.user();
    let flags = if axis.hidden { HIDDEN } else { 0 };
    [
        Tag(axis.tag),
        Int32(user.min.raw()),
        Int32(user.default.raw()),
        Int32(user.max.raw()),
        Uint16(flags),
        name_field(axis.name_id),
    ]
}

/// The field of a name's id.
fn name_field(id: u16) -> Field
    ensures value { result ≡ Uint16 id }
    ensures fits { id < 2 ^ 16 }
{
    Uint16(id)
}

/// Appends an axis.
fn put_axis(out: &mut Vec<u8>, axis: &AxisRecord) -> Result<(), NoMemory>
    ensures written { OnOk result (out.new.items ≡ out.old.items ++ axis_bytes (axis_of axis.now)) }
    ensures fits { OnOk result (FitsAxis (axis_of axis.now)) }
{
    put_fields(out, &fields_of(axis))
}

/// Appends an instance.
fn put_instance(out: &mut Vec<u8>, instance: &InstanceRecord) -> Result<(), NoMemory>
    ensures written { OnOk result (out.new.items ≡ out.old.items ++ instance_bytes instance.now) }
    ensures fits { OnOk result (FitsInstance instance.now) }
{
    put_fields(out, &[name_field(instance.name_id), Uint16(0)])?;
    for coordinate in instance.user.as_slice() {
        put_fields(out, &[Int32(coordinate.raw())])?;
    }
    Ok(())
}
