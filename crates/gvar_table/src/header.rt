ghost use Rattle.std.specs.Prelude.{◌≡◌, ℕ, ◌++◌, map, All, FitsSigned, OnOk};
ghost use Rattle.std.specs.Int.{w16};
ghost use Rattle.std.specs.List.{flat_map};
ghost use Rattle.variation_rules.specs.Fields.{signed_word};
ghost use Rattle.variation_rules.specs.TupleVariations.{header_bytes};
ghost use Rattle.gvar_table.specs.Layout.{coordinate_of, header_of, is_implied, is_implied_axis};
ghost use Rattle.gvar_table.specs.Tuples.{IsRegionAxis};

use basics::NoMemory;
use be_bytes::{put_i16, put_u16};
use fixpoint::Fix;
use variation_rules::Triple;

/// The tupleIndex of an embedded peak and private points.
const IMPLIED: u16 = 0x8000 | 0x2000;

/// The same with the flag of an intermediate region.
const INTERMEDIATE: u16 = IMPLIED | 0x4000;

/// One of the three coordinates of an axis.
#[derive(Clone, Copy, Debug, PartialEq, Eq)]
pub enum Coordinate {
    /// Up to which the factor is 0.
    Start,
    /// At which the factor is 1.
    Peak,
    /// From which on the factor is 0.
    End,
}

/// Adds the header of a tuple with this region and a packed part of this size: an embedded peak, private
/// points, and start and end where the region isn't plain.
pub(crate) fn push_header(
    headers: &mut Vec<u8>,
    size: u16,
    region: &[Triple],
) -> Result<(), NoMemory>
    requires { All IsRegionAxis region.now }
    ensures { OnOk result (headers.new.items ≡ headers.old.items ++ header_bytes size (header_of region.now)) }
{
    put_u16(headers, size)?;
    if is_implied(region) {
        put_u16(headers, IMPLIED)?;
        push_coordinates(headers, Coordinate::Peak, region)
    } else {
        put_u16(headers, INTERMEDIATE)?;
        push_coordinates(headers, Coordinate::Peak, region)?;
        push_coordinates(headers, Coordinate::Start, region)?;
        push_coordinates(headers, Coordinate::End, region)
    }
}

/// Whether each axis reaches from the default to its peak.
fn is_implied(region: &[Triple]) -> bool
    ensures { result ≡ is_implied region.now }
{
    region.iter().all(is_implied_axis)
}

/// Whether the axis reaches from the default to its peak.
fn is_implied_axis(axis: &Triple) -> bool
    ensures { result ≡ is_implied_axis axis.now }
{
    let peak = axis.peak.raw();
    axis.start.raw() == 0.min(peak) && axis.end.raw() == 0.max(peak)
}

/// Adds one coordinate an axis.
fn push_coordinates(
    headers: &mut Vec<u8>,
    which: Coordinate,
    region: &[Triple],
) -> Result<(), NoMemory>
    requires { All IsRegionAxis region.now }
    ensures { OnOk result (headers.new.items ≡ headers.old.items ++ flat_map signed_word (map (coordinate_of which) region.now)) }
{
    for axis in region {
        put_i16(headers, word_of(which, axis))?;
    }
    Ok(())
}

/// One coordinate of an axis.
fn word_of(which: Coordinate, axis: &Triple) -> i16
    requires { IsRegionAxis axis.now }
    ensures { result ≡ coordinate_of which axis.now }
{
    let coordinate: Fix<14> = match which {
        Coordinate::Start => axis.start,
        Coordinate::Peak => axis.peak,
        Coordinate::End => axis.end,
    };
    coordinate.raw() as i16
}
