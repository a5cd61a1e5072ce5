ghost use Rattle.std.specs.Prelude.{◌≡◌, ◌↔◌, length, IsTrue, All, FitsSigned};
ghost use Rattle.std.specs.Int.{w16};
ghost use Rattle.arrayvec.specs.ArrayVec.{array_vec_len};
ghost use Rattle.region_support.specs.Regions.{IsNormalised, IsNormalisedTriple};
ghost use Rattle.item_var_store.specs.Rows.{AreRows};

use basics::Seq;
use fixpoint::Fix;
use region_support::{Support, Triple};

/// Whether rows can be written over these regions on so many axes: what `store` asks for.
pub fn are_rows(axes: u32, regions: &Seq<Support>, rows: &Seq<Seq<i32>>) -> bool
    ensures { IsTrue result → AreRows axes regions.now rows.now }
{
    let regions = regions.as_slice();
    let rows = rows.as_slice();
    (1..=8).contains(&axes)
        && regions.len() <= 32767
        && rows.len() <= 65535
        && are_on(axes as usize, regions)
        && are_normalised(regions)
        && are_of(regions.len(), rows)
        && are_words(rows)
}

/// Whether each region has so many axes.
fn are_on(axes: usize, regions: &[Support]) -> bool
    ensures { IsTrue result → All (λ region. array_vec_len region ≡ axes) regions.now }
{
    regions.iter().all(|region| region.len() == axes)
}

/// Whether all coordinates of the regions are from -1 to 1.
fn are_normalised(regions: &[Support]) -> bool
    ensures { IsTrue result → All (λ region. All IsNormalisedTriple region.items) regions.now }
{
    regions.iter().all(|region| is_region(region.as_slice()))
}

/// Whether all coordinates of the region are.
fn is_region(region: &[Triple]) -> bool
    ensures { IsTrue result → All IsNormalisedTriple region.now }
{
    region.iter().all(|triple| is_triple(triple))
}

/// Whether all three coordinates are.
fn is_triple(triple: &Triple) -> bool
    ensures { IsTrue result → IsNormalisedTriple triple.now }
{
    is_normalised(triple.start) && is_normalised(triple.peak) && is_normalised(triple.end)
}

/// Whether a coordinate is.
fn is_normalised(coordinate: Fix<14>) -> bool
    ensures { IsTrue result → IsNormalised coordinate }
{
    (-16384..=16384).contains(&coordinate.raw())
}

/// Whether each row has so many deltas.
fn are_of(columns: usize, rows: &[Seq<i32>]) -> bool
    ensures { IsTrue result → All (λ row. length row ≡ columns) rows.now }
{
    rows.iter().all(|row| row.len() == columns)
}

/// Whether all deltas of the rows have 16 bits.
fn are_words(rows: &[Seq<i32>]) -> bool
    ensures { IsTrue result → All (λ row. All (FitsSigned w16) row) rows.now }
{
    rows.iter().all(|row| is_row(row.as_slice()))
}

/// Whether all deltas of the row have.
fn is_row(row: &[i32]) -> bool
    ensures { IsTrue result → All (FitsSigned w16) row.now }
{
    row.iter().all(|delta| is_word(*delta))
}

/// Whether a delta has.
fn is_word(delta: i32) -> bool
    ensures { IsTrue result → FitsSigned w16 delta }
{
    (-32768..=32767).contains(&delta)
}
