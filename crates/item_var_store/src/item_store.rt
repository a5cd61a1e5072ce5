ghost use Rattle.std.specs.Prelude.{◌≡◌, ◌≤◌, IfOk};
ghost use Rattle.region_support.specs.Coordinates.{regions_in};
ghost use Rattle.item_var_store.specs.Layout.{store_bytes, store_header};
ghost use Rattle.item_var_store.specs.Rows.{AreRows, MeansRows};

use crate::item_data::put_item_data;
use crate::regions::put_region_list;
use basics::{NoMemory, Seq};
use be_bytes::Field::{self, Uint16, Uint32};
use be_bytes::put_fields;
use region_support::Support;
use std::alloc::Global;

/// The bytes before the region list.
const HEADER: u32 = 12;

/// The bytes of the region list before its regions.
const LIST_HEADER: u32 = 4;

/// The bytes of one axis of a region.
const TRIPLE: u32 = 6;

/// An item variation store (OpenType, "Font variations common table formats") for a font of so many axes, 1 to 8: at
/// most 32,767 regions, one triple an axis, with coordinates from -1 to 1, and at most 65,535 rows, which are those of
/// its one item variation data, in their order. A row has one delta of 16 bits for each region.
pub fn store(
    alloc: Global,
    axes: u32,
    regions: &Seq<Support>,
    rows: &Seq<Seq<i32>>,
) -> Result<Vec<u8>, NoMemory>
    requires { AreRows axes regions.now rows.now }
    ensures written { IfOk result (λ bytes. bytes.items ≡ store_bytes axes (regions_in regions.now) rows.now) }
    ensures means { IfOk result (λ bytes. MeansRows axes (regions_in regions.now) rows.now bytes.items) }
{
    let regions = regions.as_slice();
    let rows = rows.as_slice();
    let count = regions.len() as u16;
    let mut bytes = Vec::new(alloc);
    put_fields(&mut bytes, &header(axes as u16, count))?;
    put_region_list(&mut bytes, axes as u16, regions)?;
    put_item_data(&mut bytes, count, rows)?;
    Ok(bytes)
}

/// The fields before the region list.
#[tactic(auto, unfolding(crate::specs::Layout::store_header))]
fn header(axes: u16, regions: u16) -> [Field; 4]
    requires few_axes { axes ≤ 8 }
    requires few_regions { regions ≤ 32767 }
    ensures { result ≡ store_header axes regions }
{
    [
        // format
        Uint16(1),
        // variationRegionListOffset
        Uint32(HEADER),
        // itemVariationDataCount, and the one offset
        Uint16(1),
        Uint32(HEADER + LIST_HEADER + TRIPLE * u32::from(axes) * u32::from(regions)),
    ]
}
