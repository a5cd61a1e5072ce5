ghost use Rattle.std.specs.Prelude.{◌≡◌, ◌++◌, ◌≤◌, length, All, OnOk};
ghost use Rattle.be_bytes.specs.declared.field.Field.TheVariants.{Int16};
ghost use Rattle.region_support.specs.Coordinates.{regions_in};
ghost use Rattle.region_support.specs.Regions.{IsNormalised, IsNormalisedTriple};
ghost use Rattle.item_var_store.specs.Layout.{region_bytes, region_list_bytes, triple_fields};

use basics::NoMemory;
use be_bytes::Field::{self, Int16, Uint16};
use be_bytes::put_fields;
use fixpoint::Fix;
use region_support::{Support, Triple};

/// Appends the list of regions on so many axes.
pub(crate) fn put_region_list(
    out: &mut Vec<u8>,
    axes: u16,
    regions: &[Support],
) -> Result<(), NoMemory>
    requires few { length regions.now ≤ 32767 }
    requires normalised { All (λ region. All IsNormalisedTriple region.items) regions.now }
    ensures { OnOk result (out.new.items ≡ out.old.items ++ region_list_bytes axes (regions_in regions.now)) }
{
    // axisCount, regionCount
    put_fields(out, &[Uint16(axes), Uint16(regions.len() as u16)])?;
    for region in regions {
        put_region(out, region.as_slice())?;
    }
    Ok(())
}

/// Appends a region.
fn put_region(out: &mut Vec<u8>, region: &[Triple]) -> Result<(), NoMemory>
    requires { All IsNormalisedTriple region.now }
    ensures { OnOk result (out.new.items ≡ out.old.items ++ region_bytes region.now) }
{
    for triple in region {
        put_fields(out, &fields_of(triple))?;
    }
    Ok(())
}

/// The fields of one axis of a region.
#[tactic(auto, unfolding(crate::specs::Layout::triple_fields))]
fn fields_of(triple: &Triple) -> [Field; 3]
    requires { IsNormalisedTriple triple.now }
    ensures { result ≡ triple_fields triple.now }
{
    [
        coordinate_field(triple.start),
        coordinate_field(triple.peak),
        coordinate_field(triple.end),
    ]
}

/// The field of a coordinate, as F2DOT14.
fn coordinate_field(coordinate: Fix<14>) -> Field
    requires { IsNormalised coordinate }
    ensures { result ≡ Int16 coordinate }
{
    Int16(coordinate.raw() as i16)
}
