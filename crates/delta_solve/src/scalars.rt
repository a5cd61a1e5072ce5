ghost use Rattle.std.specs.Prelude.{◌≡◌, ℤ, ◌≤◌, All, List, length, IfOk};
ghost use Rattle.arrayvec.specs.ArrayVec.{array_vec_len};
ghost use Rattle.region_support.specs.Coordinates.{coordinates_of, regions_in};
ghost use Rattle.delta_solve.specs.Deltas.{rows_of, scalars_at};
ghost use Rattle.delta_solve.specs.Tables.{IsRow, IsScalar, IsTable};

use arrayvec::ArrayVec;
use basics::{NoMemory, Seq};
use region_support::{Location, Support};
use std::alloc::Global;
use std::marker::Model;
use variation_rules::scalar;

/// The most masters that a model has.
const MASTERS: usize = 128;

/// How much the regions of earlier masters count at each master's location, in 65536ths: for each master in the order of
/// masters one scalar for each master before it. Contracts see it as these rows.
#[derive(Drop)]
pub struct ScalarTable {
    rows: Seq<Seq<i32>>,
}

impl Model for ScalarTable {
    ghost Value = { List (List ℤ) };

    ghost view = { λ table. table.rows };

    ghost invariant = { λ table. IsTable table.rows };
}

impl ScalarTable {
    /// The rows.
    pub(crate) fn rows(&self) -> &[Seq<i32>]
        ensures value { result.now ≡ self.now }
        ensures are { IsTable self.now }
    {
        self.rows.as_slice()
    }
}

/// How much each region counts at a location, in 65536ths.
pub(crate) fn scalars_at(supports: &[Support], at: &Location) -> ArrayVec<i32, MASTERS>
    requires { length supports.now ≤ 128 }
    ensures value { result.items ≡ scalars_at (regions_in supports.now) at.now.items }
    ensures scalars { All IsScalar result.items }
    ensures one_each { array_vec_len result ≡ length supports.now }
{
    let mut scalars = ArrayVec::new();
    for support in supports {
        scalars.push(scalar::<16>(support.as_slice(), at.as_slice()).raw());
    }
    scalars
}

// The row of a master at this location, after masters with these regions.
fn row_at(alloc: Global, earlier: &[Support], at: &Location) -> Result<Seq<i32>, NoMemory>
    requires { length earlier.now ≤ 128 }
    ensures value { IfOk result (λ row. row ≡ scalars_at (regions_in earlier.now) at.now.items) }
    ensures are { IfOk result (IsRow (length earlier.now)) }
{
    let scalars = scalars_at(earlier, at);
    let row = Vec::from_slice(alloc, scalars.as_slice())?;
    Ok(Seq::from_vec(row))
}

/// The scalars that the deltas of masters are made with. The regions and the locations are those of the masters in their
/// order, one each and at most 128; `boxes` of `region_support` gives the regions.
pub fn table(
    alloc: Global,
    supports: &Seq<Support>,
    sorted: &Seq<Location>,
) -> Result<ScalarTable, NoMemory>
    requires one_each { length supports.now ≡ length sorted.now }
    requires few { length sorted.now ≤ 128 }
    ensures rows { IfOk result (λ table. table ≡ rows_of (regions_in supports.now) (coordinates_of sorted.now)) }
    ensures one_each { IfOk result (λ table. length table ≡ length sorted.now) }
{
    let supports = supports.as_slice();
    let sorted = sorted.as_slice();
    let mut rows = Vec::new(alloc);
    for master in 0..sorted.len() {
        let row = row_at(alloc, &supports[..master], &sorted[master])?;
        rows.push(row)?;
    }
    Ok(ScalarTable {
        rows: Seq::from_vec(rows),
    })
}
