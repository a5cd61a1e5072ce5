ghost use Rattle.std.specs.Prelude.{◌≡◌, ◌++◌, ◌≤◌, length, All, FitsSigned, OnOk};
ghost use Rattle.std.specs.Int.{w16};
ghost use Rattle.std.specs.List.{flat_map};
ghost use Rattle.variation_rules.specs.PackedPoints.{count_from};
ghost use Rattle.item_var_store.specs.Layout.{index_bytes, item_data_bytes, row_bytes};

use basics::{NoMemory, Seq};
use be_bytes::Field::Uint16;
use be_bytes::{put_fields, put_i16, put_u16};

/// Appends the item variation data of these rows, each of which has a word for each of so many regions.
pub(crate) fn put_item_data(
    out: &mut Vec<u8>,
    regions: u16,
    rows: &[Seq<i32>],
) -> Result<(), NoMemory>
    requires few { length rows.now ≤ 65535 }
    requires words { All (λ row. All (FitsSigned w16) row) rows.now }
    ensures { OnOk result (out.new.items ≡ out.old.items ++ item_data_bytes regions rows.now) }
{
    // itemCount, wordDeltaCount, regionIndexCount
    let counts = [Uint16(rows.len() as u16), Uint16(regions), Uint16(regions)];
    put_fields(out, &counts)?;
    put_indexes(out, regions)?;
    for row in rows {
        put_row(out, row.as_slice())?;
    }
    Ok(())
}

/// Appends the index of each of so many regions.
fn put_indexes(out: &mut Vec<u8>, regions: u16) -> Result<(), NoMemory>
    ensures { OnOk result (out.new.items ≡ out.old.items ++ flat_map index_bytes (count_from regions 0)) }
{
    for index in 0..regions {
        put_u16(out, index)?;
    }
    Ok(())
}

/// Appends a row.
fn put_row(out: &mut Vec<u8>, row: &[i32]) -> Result<(), NoMemory>
    requires { All (FitsSigned w16) row.now }
    ensures { OnOk result (out.new.items ≡ out.old.items ++ row_bytes row.now) }
{
    for delta in row {
        put_i16(out, *delta as i16)?;
    }
    Ok(())
}
