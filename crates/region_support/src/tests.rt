ghost use Rattle.std.specs.Prelude.{◌≡◌, ◌≤◌, length, All, IfOk};
ghost use Rattle.arrayvec.specs.ArrayVec.{array_vec_len};

use crate::{Location, ModelStop, Support, Triple, boxes, in_order, order, scalar};
use arrayvec::ArrayVec;
use basics::{NoMemory, Seq};
use fixpoint::Fix;
use std::alloc::Global;

type Axis = (i32, i32, i32);

// An axis that a region leaves out.
const NONE: Axis = (0, 0, 0);

fn axis(start: i32, peak: i32, end: i32) -> Triple {
    Triple {
        start: Fix::from_raw(start),
        peak: Fix::from_raw(peak),
        end: Fix::from_raw(end),
    }
}

fn location<const N: usize>(values: &[i32; N]) -> Location
    requires { N ≤ 8 }
    ensures { array_vec_len result ≡ N }
{
    let mut at = ArrayVec::from([Fix::from_raw(0); 8]);
    at.truncate(N);
    for axis in 0..N {
        at[axis] = Fix::from_raw(values[axis]);
    }
    at
}

fn locations<const N: usize>(alloc: Global, listed: &[[i32; N]]) -> Result<Seq<Location>, NoMemory>
    requires { N ≤ 8 }
    ensures lengths { IfOk result (λ ats. All (λ at. array_vec_len at ≡ N) ats) }
    ensures count { IfOk result (λ ats. length ats ≡ length listed.now) }
{
    let mut locations = Seq::new(alloc);
    for values in listed {
        locations.push(location(values))?;
    }
    Ok(locations)
}

fn is_wanted(support: &Support, wanted: &[Axis]) -> bool {
    if support.len() != wanted.len() {
        return false;
    }
    for (triple, (start, peak, end)) in support.as_slice().iter().zip(wanted) {
        if *triple != axis(*start, *peak, *end) {
            return false;
        }
    }
    true
}

// Whether the masters have this order, and their regions in it are these.
fn has_regions<const N: usize>(
    alloc: Global,
    listed: &[[i32; N]],
    numbers: &[u32],
    wanted: &[[Axis; N]],
) -> Result<bool, ModelStop>
    requires axes { N ≤ 8 }
    requires few { length listed.now ≤ 128 }
{
    let locations = locations(alloc, listed)?;
    let order = order(alloc, &locations)?;
    if order.as_slice() != numbers {
        return Ok(false);
    }
    let sorted = in_order(alloc, &locations, &order)?;
    let supports = boxes(alloc, &sorted)?;
    if supports.len() != wanted.len() {
        return Ok(false);
    }
    for (support, region) in supports.as_slice().iter().zip(wanted) {
        if !is_wanted(support, region) {
            return Ok(false);
        }
    }
    Ok(true)
}

// Why these have no order.
fn stop_of<const N: usize>(alloc: Global, listed: &[[i32; N]]) -> Option<ModelStop>
    requires axes { N ≤ 8 }
    requires few { length listed.now ≤ 128 }
{
    let locations = match locations(alloc, listed) {
        Ok(locations) => locations,
        Err(_) => return Some(ModelStop::NoMemory),
    };
    order(alloc, &locations).err()
}

// On one axis a master's region goes to its neighbours, but for the first one on a side, whose region
// goes on to the farthest.
#[test]
fn one_axis(rt: HostRuntime) {
    let alloc = rt.alloc();
    // the nearer one is first, and cuts the other
    let found = has_regions(
        alloc,
        &[[16384], [0], [8192]],
        &[1, 2, 0],
        &[[NONE], [(0, 8192, 16384)], [(8192, 16384, 16384)]],
    );
    assert_eq!(rt; found, Ok(true));
    // the last one is cut twice
    let found = has_regions(
        alloc,
        &[[0], [4096], [16384], [8192]],
        &[0, 1, 3, 2],
        &[
            [NONE],
            [(0, 4096, 16384)],
            [(4096, 8192, 16384)],
            [(8192, 16384, 16384)],
        ],
    );
    assert_eq!(rt; found, Ok(true));
    // both sides, the lower one first; the upper one doesn't meet the lower ones
    let found = has_regions(
        alloc,
        &[[16384], [-16384], [-8192], [0]],
        &[3, 2, 1, 0],
        &[
            [NONE],
            [(-16384, -8192, 0)],
            [(-16384, -16384, -8192)],
            [(0, 16384, 16384)],
        ],
    );
    assert_eq!(rt; found, Ok(true));
    // the side decides before the distance, and a region ends at the farthest master
    let found = has_regions(
        alloc,
        &[[0], [8192], [-16384]],
        &[0, 2, 1],
        &[[NONE], [(-16384, -16384, 0)], [(0, 8192, 8192)]],
    );
    assert_eq!(rt; found, Ok(true));
}

#[test]
fn more_axes(rt: HostRuntime) {
    let alloc = rt.alloc();
    // the axis decides before the side
    let found = has_regions(
        alloc,
        &[[0, 0], [0, -16384], [16384, 0]],
        &[0, 2, 1],
        &[
            [NONE, NONE],
            [(0, 16384, 16384), NONE],
            [NONE, (-16384, -16384, 0)],
        ],
    );
    assert_eq!(rt; found, Ok(true));
    // The corner stands at two axis points and comes before the master inside. It isn't cut by the masters on
    // one axis, nor the master inside by the corner, which is at its end.
    let found = has_regions(
        alloc,
        &[[8192, 8192], [16384, 16384], [0, 16384], [16384, 0], [0, 0]],
        &[4, 3, 2, 1, 0],
        &[
            [NONE, NONE],
            [(0, 16384, 16384), NONE],
            [NONE, (0, 16384, 16384)],
            [(0, 16384, 16384), (0, 16384, 16384)],
            [(0, 8192, 16384), (0, 8192, 16384)],
        ],
    );
    assert_eq!(rt; found, Ok(true));
    // one axis point, 4096 on the second axis, is enough to come first; regions end at 16384 and 8192
    let found = has_regions(
        alloc,
        &[[0, 0], [4096, 0], [0, 4096], [8192, 8192], [16384, 4096]],
        &[0, 1, 2, 4, 3],
        &[
            [NONE, NONE],
            [(0, 4096, 16384), NONE],
            [NONE, (0, 4096, 8192)],
            [(0, 16384, 16384), (0, 4096, 8192)],
            [(0, 8192, 16384), (0, 8192, 8192)],
        ],
    );
    assert_eq!(rt; found, Ok(true));
    // with no master on one axis there is no axis point; fewer axes come first, and a corner of three isn't cut
    // by one of two
    let found = has_regions(
        alloc,
        &[[8192, 16384, 8192], [16384, 0, 16384], [0, 0, 0]],
        &[2, 1, 0],
        &[
            [NONE, NONE, NONE],
            [(0, 16384, 16384), NONE, (0, 16384, 16384)],
            [(0, 8192, 16384), (0, 16384, 16384), (0, 8192, 16384)],
        ],
    );
    assert_eq!(rt; found, Ok(true));
}

// Which axes an earlier master cuts.
#[test]
fn cuts(rt: HostRuntime) {
    let alloc = rt.alloc();
    // ratios 8192 / 16384 and 4096 / 8192 tie: both axes are cut, on either side of the default
    let found = has_regions(
        alloc,
        &[[0, 0, 0], [-8192, 0, 4096], [-16384, 0, 8192]],
        &[0, 1, 2],
        &[
            [NONE, NONE, NONE],
            [(-16384, -8192, 0), NONE, (0, 4096, 8192)],
            [(-16384, -16384, -8192), NONE, (4096, 8192, 8192)],
        ],
    );
    assert_eq!(rt; found, Ok(true));
    // ratios 12288 / 16384 and 8192 / 16384: the first axis alone is cut
    let found = has_regions(
        alloc,
        &[[0, 0], [4096, 8192], [16384, 16384]],
        &[0, 1, 2],
        &[
            [NONE, NONE],
            [(0, 4096, 16384), (0, 8192, 16384)],
            [(4096, 16384, 16384), (0, 16384, 16384)],
        ],
    );
    assert_eq!(rt; found, Ok(true));
    // a value equal to the peak is within, though it is the end; its ratio is 0
    let found = has_regions(
        alloc,
        &[[0, 0], [8192, 16384], [16384, 16384]],
        &[0, 1, 2],
        &[
            [NONE, NONE],
            [(0, 8192, 16384), (0, 16384, 16384)],
            [(8192, 16384, 16384), (0, 16384, 16384)],
        ],
    );
    assert_eq!(rt; found, Ok(true));
    // outside on one axis: no cut at all
    let found = has_regions(
        alloc,
        &[[0, 0], [16384, 16384], [8192, -8192]],
        &[0, 2, 1],
        &[
            [NONE, NONE],
            [(0, 8192, 16384), (-8192, -8192, 0)],
            [(0, 16384, 16384), (0, 16384, 16384)],
        ],
    );
    assert_eq!(rt; found, Ok(true));
    // The second master meets the first with ratios 4096 / 8192 below its peak and 4096 / 12288 above it. The third
    // meets the first with 12288 / 16384 and 8192 / 16384, and then, cut to 4096, the second with 8192 / 12288 and
    // 12288 / 16384.
    let found = has_regions(
        alloc,
        &[[0, 0], [4096, 8192], [8192, 4096], [16384, 16384]],
        &[0, 1, 2, 3],
        &[
            [NONE, NONE],
            [(0, 4096, 16384), (0, 8192, 16384)],
            [(4096, 8192, 16384), (0, 4096, 16384)],
            [(4096, 16384, 16384), (4096, 16384, 16384)],
        ],
    );
    assert_eq!(rt; found, Ok(true));
}

#[test]
fn no_order(rt: HostRuntime) {
    let alloc = rt.alloc();
    assert_eq!(rt;
        stop_of(alloc, &[[8192], [16384]]),
        Some(ModelStop::NoDefault)
    );
    // the missing default is told first
    assert_eq!(rt;
        stop_of(alloc, &[[8192], [8192]]),
        Some(ModelStop::NoDefault)
    );
    // 3 is the least number that repeats one, though 1 is repeated too
    assert_eq!(rt;
        stop_of(alloc, &[[0], [8192], [16384], [16384], [8192]]),
        Some(ModelStop::SameLocation(2, 3))
    );
    // 1 is the least number that 2 repeats
    assert_eq!(rt;
        stop_of(alloc, &[[0, 0], [0, 8192], [0, 8192], [0, 8192]]),
        Some(ModelStop::SameLocation(1, 2))
    );
    // the default itself, twice
    assert_eq!(rt;
        stop_of(alloc, &[[0, 0], [8192, 0], [0, 0]]),
        Some(ModelStop::SameLocation(0, 2))
    );
}

// Half way to its peak a region counts half, and at its peak whole; another axis halves it again.
#[test]
fn influence(rt: HostRuntime) {
    let none = axis(0, 0, 0);
    let mut support = ArrayVec::from([none; 8]);
    support.truncate(3);
    support[0] = axis(0, 16384, 16384);
    support[1] = axis(0, 8192, 16384);
    for (x, y, wanted) in [
        (16384, 8192, 65536),
        (8192, 8192, 32768),
        (8192, 12288, 16384),
        (8192, 16384, 0),
    ] {
        let at = location(&[x, y, 16384]);
        assert_eq!(rt; support.len(), at.len());
        assert_eq!(rt; scalar::<16>(&support, &at).raw(), wanted);
    }
}
