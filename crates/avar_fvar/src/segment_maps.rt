ghost use Rattle.std.specs.Prelude.{◌≡◌, ◌++◌, ◌≤◌, length, map, IfOk, OnOk, Some};
ghost use Rattle.be_bytes.specs.declared.field.Field.TheVariants.{Int16};
ghost use Rattle.norm_loc.specs.PairBounds.{AreSegments, IsCoordinate};
ghost use Rattle.avar_fvar.specs.Layout.{avar_bytes, segment_map_bytes};
ghost use Rattle.avar_fvar.specs.SegmentMaps.{MapsAsAxes, pairs_of, segment_maps_in};

use crate::records::AxisRecord;
use basics::{NoMemory, Seq};
use be_bytes::Field::{self, Int16, Uint16};
use be_bytes::put_fields;
use fixpoint::Fix;
use norm_loc::avar_pairs;
use std::alloc::Global;

/// The table of the segment maps (OpenType, "avar"), of 1 to 8 axes in their order: of each the pairs that lead
/// from a normalised user value to a normalised design value.
pub fn avar(alloc: Global, axes: &Seq<AxisRecord>) -> Result<Vec<u8>, NoMemory>
    requires some { 1 ≤ length axes.now }
    requires few { length axes.now ≤ 8 }
    ensures written { IfOk result (λ bytes. bytes.items ≡ avar_bytes (map pairs_of axes.now)) }
    ensures means { IfOk result (λ bytes. segment_maps_in bytes.items ≡ Some (map pairs_of axes.now)) }
    ensures maps { IfOk result (λ bytes. MapsAsAxes axes.now bytes.items) }
{
    let axes = axes.as_slice();
    let mut bytes = Vec::new(alloc);
    let count = axes.len() as u16;
    // majorVersion, minorVersion, reserved, axisCount
    let header = [Uint16(1), Uint16(0), Uint16(0), Uint16(count)];
    put_fields(&mut bytes, &header)?;
    for axis in axes {
        put_axis_map(alloc, &mut bytes, axis)?;
    }
    Ok(bytes)
}

/// Appends the segment map of an axis.
fn put_axis_map(alloc: Global, out: &mut Vec<u8>, axis: &AxisRecord) -> Result<(), NoMemory>
    ensures written { OnOk result (out.new.items ≡ out.old.items ++ segment_map_bytes (pairs_of axis.now)) }
    ensures segments { OnOk result (AreSegments (pairs_of axis.now)) }
{
    let pairs = avar_pairs(alloc, &axis.map)?;
    put_pairs(out, pairs.as_slice())
}

/// Appends pairs, and their number before them.
fn put_pairs(out: &mut Vec<u8>, pairs: &[(Fix<14>, Fix<14>)]) -> Result<(), NoMemory>
    requires { AreSegments pairs.now }
    ensures { OnOk result (out.new.items ≡ out.old.items ++ segment_map_bytes pairs.now) }
{
    let count = pairs.len() as u16;
    put_fields(out, &[Uint16(count)])?;
    for (from, to) in pairs {
        put_fields(out, &[coordinate_field(*from), coordinate_field(*to)])?;
    }
    Ok(())
}

/// The field of a coordinate, as F2DOT14.
fn coordinate_field(coordinate: Fix<14>) -> Field
    requires { IsCoordinate coordinate }
    ensures { result ≡ Int16 coordinate }
{
    Int16(coordinate.raw() as i16)
}
