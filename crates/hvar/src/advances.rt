ghost use Rattle.std.specs.Prelude.{◌≡◌, IfOk};
ghost use Rattle.region_support.specs.Coordinates.{regions_in};
ghost use Rattle.item_var_store.specs.Rows.{AreRows};
ghost use Rattle.hvar.specs.Advances.{MeansAdvances};
ghost use Rattle.hvar.specs.Layout.{header_fields, table_bytes};

use basics::{NoMemory, Seq};
use be_bytes::Field::{self, Uint16, Uint32};
use be_bytes::{put_bytes, put_fields};
use item_var_store::store;
use region_support::Support;
use std::alloc::Global;

/// The bytes before the store.
const HEADER: u32 = 20;

/// The table of the advances (OpenType, "HVAR") of a font of so many axes, 1 to 8: at most 32,767 regions, one triple
/// an axis, with coordinates from -1 to 1, and for each glyph, of at most 65,535, a row with one delta of 16 bits for
/// each region. A glyph's row is that of its number, without a map.
pub fn table(
    alloc: Global,
    axes: u32,
    regions: &Seq<Support>,
    rows: &Seq<Seq<i32>>,
) -> Result<Vec<u8>, NoMemory>
    requires { AreRows axes regions.now rows.now }
    ensures written { IfOk result (λ bytes. bytes.items ≡ table_bytes axes (regions_in regions.now) rows.now) }
    ensures means { IfOk result (λ bytes. MeansAdvances axes (regions_in regions.now) rows.now bytes.items) }
{
    let store = store(alloc, axes, regions, rows)?;
    let mut bytes = Vec::new(alloc);
    put_fields(&mut bytes, &header())?;
    put_bytes(&mut bytes, &store)?;
    Ok(bytes)
}

/// The fields before the store.
#[tactic(auto, unfolding(crate::specs::Layout::header_fields))]
fn header() -> [Field; 6]
    ensures { result ≡ header_fields }
{
    [
        // majorVersion, minorVersion
        Uint16(1),
        Uint16(0),
        // itemVariationStoreOffset
        Uint32(HEADER),
        // advanceWidthMappingOffset, lsbMappingOffset, rsbMappingOffset
        Uint32(0),
        Uint32(0),
        Uint32(0),
    ]
}
