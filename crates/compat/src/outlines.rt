//! The flattened outlines of a list of drawings.

ghost use Rattle.std.specs.Prelude.{◌≡◌, ℕ, ◌≤◌, ◌<◌, None, length, All, IfOk, MatchResult};
ghost use Rattle.glif.specs.FirstOutside.{first_given, point_outside};
ghost use Rattle.compat.specs.Names.{references, first_dangling};
ghost use Rattle.compat.specs.References.{IsOrder};
ghost use Rattle.compat.specs.Flattened.{AreFit, AreFlattened, IsFirstRefusal, IsRefused, IsStopOf, coordinate_outside};
ghost use Rattle.compat.specs.Stops.{StopsAt};
ghost use Rattle.compat.specs.Flats.{HasBases, IsJoined, AreKept, kept_fault, fault_from, IsCounted, IsFew, joined_outlines};

use crate::cycle::first_on_cycle;
use crate::flat::{Flat, joined};
use crate::names::references;
use crate::order::order_of;
use crate::refusal::{FlattenStop, Refusal};
use basics::{Kind, NoMemory, Seq, Spot, Stop};
use glif::{Drawing, Outline, Point, coordinate_outside};
use std::alloc::Global;

/// What is kept of each drawing before anything is made.
fn unknown(alloc: Global, drawings: &[Drawing]) -> Result<Vec<Flat>, NoMemory>
    ensures { IfOk result (λ flats. length flats.items ≡ length drawings.now) }
{
    let mut flats = Vec::new(alloc);
    for _drawing in drawings {
        flats.push(Flat::Unknown)?;
    }
    Ok(flats)
}

/// What is kept of one drawing, made of what is kept of its bases.
fn joined_at(
    alloc: Global,
    drawings: &[Drawing],
    graph: &[Seq<usize>],
    number: usize,
    flats: &[Flat],
) -> Result<Flat, NoMemory>
    requires fit { AreFit drawings.now }
    requires references { graph.now ≡ references drawings.now }
    requires named { first_dangling drawings.now ≡ None }
    requires sizes { length flats.now ≡ length drawings.now }
    requires known { number < length drawings.now }
    requires bases { HasBases drawings.now graph.now flats.now number }
    ensures { IfOk result (IsJoined drawings.now graph.now flats.now number) }
{
    joined(alloc, &drawings[number], graph[number].as_slice(), flats)
}

/// What is kept of each drawing's flattened outline, made in an order in which bases come first.
fn flats_in(
    alloc: Global,
    drawings: &[Drawing],
    graph: &[Seq<usize>],
    order: &[usize],
) -> Result<Vec<Flat>, NoMemory>
    requires fit { AreFit drawings.now }
    requires references { graph.now ≡ references drawings.now }
    requires named { first_dangling drawings.now ≡ None }
    requires order { IsOrder graph.now order.now }
    ensures { IfOk result (λ flats. AreKept drawings.now flats.items) }
{
    let mut flats = unknown(alloc, drawings)?;
    for &number in order {
        let flat = joined_at(alloc, drawings, graph, number, flats.as_slice())?;
        flats[number] = flat;
    }
    Ok(flats)
}

/// The first coordinate out of range of the contours, by contour and point, x before y.
fn coordinate_in(contours: &[Seq<Point>]) -> Option<i64>
    ensures { result ≡ coordinate_outside contours.now }
{
    for contour in contours {
        if let Some(number) = coordinate_outside(contour.as_slice()) {
            return Some(number);
        }
    }
    None
}

/// The fault of a flattened outline: too many points, or else the first coordinate out of range.
fn fault_of(flat: &Flat) -> Option<(Kind, i64)>
    requires { IsCounted flat.now }
    ensures { result ≡ kept_fault flat.now }
{
    match flat {
        Flat::Unknown => None,
        Flat::Few(contours, _) => Some((
            Kind::CoordinateRange,
            coordinate_in(contours.as_slice())?,
        )),
        Flat::Many(count) => Some((Kind::TooManyPoints, *count as i64)),
    }
}

/// The first fault of the flattened outlines, by drawing.
fn first_fault(flats: &[Flat]) -> Option<Refusal>
    requires { All IsCounted flats.now }
    ensures { result ≡ fault_from 0 flats.now }
{
    for (number, flat) in flats.iter().enumerate() {
        if let Some((kind, first)) = fault_of(flat) {
            return Some(Refusal {
                drawing: number,
                kind,
                at: 0,
                first,
            });
        }
    }
    None
}

/// An outline with the drawing's own advance width.
fn outline_of(drawing: &Drawing, contours: Seq<Seq<Point>>) -> Outline
    ensures { result ≡ record { advance = drawing.now.outline.advance; contours = contours } }
{
    Outline {
        advance: drawing.outline.advance,
        contours,
    }
}

/// The flattened outlines, each with the drawing's own advance width.
fn outlines_of(
    alloc: Global,
    drawings: &[Drawing],
    flats: Vec<Flat>,
) -> Result<Seq<Outline>, NoMemory>
    requires sizes { length flats.items ≡ length drawings.now }
    requires few { All IsFew flats.items }
    ensures { IfOk result (λ outlines. outlines ≡ joined_outlines drawings.now flats.items) }
{
    let mut outlines = Vec::new(alloc);
    let mut rest = flats.into_iter();
    for drawing in drawings {
        let Some(flat) = rest.next() else {
            unreachable!();
        };
        outlines.push(outline_of(drawing, flat.into_contours()))?;
    }
    Ok(Seq::from_vec(outlines))
}

/// The flattened outlines, or the first fault, of drawings whose components all name a drawing.
fn outlines_by(
    alloc: Global,
    drawings: &[Drawing],
    graph: &[Seq<usize>],
) -> Result<Seq<Outline>, FlattenStop>
    requires fit { AreFit drawings.now }
    requires references { graph.now ≡ references drawings.now }
    requires named { first_dangling drawings.now ≡ None }
    ensures { MatchResult result (AreFlattened drawings.now) (StopsAt (IsFirstRefusal drawings.now)) }
{
    let Some(order) = order_of(alloc, graph)? else {
        let drawing = first_on_cycle(alloc, graph)?;
        return Err(FlattenStop::Refused(Refusal {
            drawing,
            kind: Kind::ComponentCycle,
            at: 0,
            first: 0,
        }));
    };
    let flats = flats_in(alloc, drawings, graph, order.as_slice())?;
    if let Some(refusal) = first_fault(flats.as_slice()) {
        return Err(FlattenStop::Refused(refusal));
    }
    Ok(outlines_of(alloc, drawings, flats)?)
}

/// The flattened outlines, or the first fault.
fn outlines(alloc: Global, drawings: &[Drawing]) -> Result<Seq<Outline>, FlattenStop>
    requires { AreFit drawings.now }
    ensures { MatchResult result (AreFlattened drawings.now) (StopsAt (IsFirstRefusal drawings.now)) }
{
    let graph = references(alloc, drawings)?;
    outlines_by(alloc, drawings, graph.as_slice())
}

/// A refusal with the glyph's name, or NoMemory.
fn stop_of(alloc: Global, drawings: &[Drawing], refusal: Refusal) -> Stop
    requires { refusal.drawing < length drawings.now }
    ensures { IsStopOf drawings.now refusal result }
{
    match drawings[refusal.drawing].name.try_copy(alloc) {
        Ok(item) => Stop::At(Spot {
            kind: refusal.kind,
            item,
            at: refusal.at as u64,
            also: 0,
            first: refusal.first,
            second: 0,
        }),
        Err(_) => Stop::NoMemory,
    }
}

/// The flattened outline of each drawing of one source: its own contours, and after them, component by component,
/// the flattened outline of the base, moved by the component's offset (UFO 3, "GLIF", "component"). The advance
/// width is the drawing's own. A base is the drawing of that name, the first where there are more.
///
/// There are at most 32,510 drawings, each with an outline within limits, and offsets are from −16,384 to 16,383, in
/// font units. References are followed without use of the stack, and no point is made beyond 4,000 a glyph.
///
/// # Errors
///
/// The number of a drawing, from 0, and its fault, of which `item` is its name. The first of these is answered:
/// DanglingComponent for the first component whose base is no drawing, by drawing and component, with the
/// component's number in `at`; ComponentCycle for the first drawing that reaches itself through components; then by
/// drawing TooManyPoints where the flattened outline has more than 4,000 points, with their number in `first`, or
/// 1,000,000,000 where there are more, and CoordinateRange for its first x or y out of −16,384 to 16,383, by contour
/// and point, with the value in `first`. `Stop::NoMemory` where memory ran out; the number then says nothing.
pub fn flatten(alloc: Global, drawings: &Seq<Drawing>) -> Result<Seq<Outline>, (u64, Stop)>
    requires { AreFit drawings.now }
    ensures { MatchResult result (AreFlattened drawings.now) (λ fault. IsRefused drawings.now fault.0 fault.1) }
{
    match outlines(alloc, drawings.as_slice()) {
        Ok(outlines) => Ok(outlines),
        Err(FlattenStop::Refused(refusal)) => Err((
            refusal.drawing as u64,
            stop_of(alloc, drawings.as_slice(), refusal),
        )),
        Err(FlattenStop::NoMemory) => Err((0, Stop::NoMemory)),
    }
}
