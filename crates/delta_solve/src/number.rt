ghost use Rattle.std.specs.Prelude.{◌≡◌, ℤ, ◌≤◌, All, List, length, IfOk, IfErr, Some, None};
ghost use Rattle.variation_rules.specs.FontUnits.{IsFWord};
ghost use Rattle.variation_rules.specs.declared.region.Triple.{Triple};
ghost use Rattle.region_support.specs.Regions.{AreTriangular};
ghost use Rattle.delta_solve.specs.Deltas.{ComeBack, deltas_by, deltas_of, next_delta, rows_of};
ghost use Rattle.delta_solve.specs.GlyphModels.{IsStopOf, misfit, number_fault};
ghost use Rattle.delta_solve.specs.Tables.{IsScalar, IsTable};

use crate::model::DeltaStop;
use crate::scalars::ScalarTable;
use crate::sums::{dot, left_of};
use basics::Seq;
use std::alloc::Global;

/// The delta of a master, where it fits 16 bits.
pub(crate) fn fitting(master: u32, point: u32, y: bool, value: i64) -> Result<i32, DeltaStop>
    ensures delta { IfOk result (λ delta. delta ≡ value) }
    ensures within { IfOk result IsFWord }
    ensures fits { IfOk result (λ _. misfit master point y value ≡ None) }
    ensures stops { IfErr result (λ stop. misfit master point y value ≡ Some stop) }
{
    if -32768 <= value && value <= 32767 {
        Ok(value as i32)
    } else {
        Err(DeltaStop::DeltaRange {
            master,
            point,
            y,
            value,
        })
    }
}

// What a master's value leaves to its delta, after the earlier ones.
#[tactic(auto, unfolding(crate::specs::Deltas::next_delta))]
fn number_left(row: &[i32], earlier: &[i32], value: i32) -> i64
    requires few { length row.now ≤ 128 }
    requires scalars { All IsScalar row.now }
    requires earlier { All IsFWord earlier.now }
    ensures { result ≡ next_delta row.now value earlier.now }
{
    left_of(value, dot(row, earlier))
}

// The deltas of all masters.
fn number_deltas(alloc: Global, values: &[i32], rows: &[Seq<i32>]) -> Result<Seq<i32>, DeltaStop>
    requires one_each { length values.now ≡ length rows.now }
    requires rows { IsTable rows.now }
    ensures deltas { IfOk result (λ deltas. deltas ≡ deltas_by rows.now values.now) }
    ensures within { IfOk result (All IsFWord) }
    ensures fits { IfOk result (λ _. number_fault (deltas_by rows.now values.now) ≡ None) }
    ensures stops { IfErr result (IsStopOf (number_fault (deltas_by rows.now values.now))) }
{
    let mut deltas = Vec::new(alloc);
    for master in 0..values.len() {
        let left = number_left(rows[master].as_slice(), &deltas, values[master]);
        let delta = fitting(master as u32, 0, false, left)?;
        deltas.push(delta)?;
    }
    Ok(Seq::from_vec(deltas))
}

/// The deltas of one number over all masters (OpenType, "Algorithm for interpolation of instance values"): each is what
/// the earlier ones leave of the master's value at its location, rounded to the nearest number, a tie going down. The
/// values are in font units, one for each row of the table in the order of masters.
///
/// Stops with the first delta that doesn't fit 16 bits, as one of point 0 in x. Where the regions of the masters are
/// made for their locations, the model's value at each master's location, rounded with a tie going up, is the master's.
pub fn solve(alloc: Global, values: &Seq<i32>, table: &ScalarTable) -> Result<Seq<i32>, DeltaStop>
    requires { length values.now ≡ length table.now }
    ensures deltas { IfOk result (λ deltas. deltas ≡ deltas_by table.now values.now) }
    ensures within { IfOk result (All IsFWord) }
    ensures fits { IfOk result (λ _. number_fault (deltas_by table.now values.now) ≡ None) }
    ensures stops { IfErr result (IsStopOf (number_fault (deltas_by table.now values.now))) }
    ensures of_regions { IfOk result (λ deltas. (regions : List (List Triple)) (locations : List (List ℤ)) → table.now ≡ rows_of regions locations → deltas ≡ deltas_of regions locations values.now) }
    ensures comes_back { IfOk result (λ deltas. (regions : List (List Triple)) (locations : List (List ℤ)) → table.now ≡ rows_of regions locations → AreTriangular regions locations → ComeBack regions deltas locations values.now) }
{
    number_deltas(alloc, values.as_slice(), table.rows())
}
