ghost use Rattle.std.specs.Prelude.{◌≡◌, ◌≤◌, ◌<◌, true, false, length, map, ℕ, OnOk};
ghost use Rattle.basics.specs.Reading.{IsStop};
ghost use Rattle.markup_rules.specs.Faults as faults;
ghost use Rattle.markup_rules.specs.Faults.{spot};
ghost use Rattle.markup_rules.specs.Outcome.{State, changed, initial};
ghost use Rattle.markup_rules.specs.Reading.{opens};
ghost use Rattle.markup.specs.Openings.{opened_as};
ghost use Rattle.markup.specs.Parts.{IsAt, Keeping, Steps};
ghost use Rattle.markup.specs.Places.{context_at};
ghost use Rattle.markup.specs.Views.{attribute_view, markup_view};

use crate::items::{item_at, opens};
use crate::markup::{Markup, markup_of, opening_at};
use crate::part::Part;
use crate::place::Place;
use crate::searches::begins;
use crate::tag::{Attribute, Tag};
use basics::{Kind, NoMemory, Stop, stop_at};
use std::alloc::Global;

/// The most elements that may stand one in another.
const DEPTH: usize = 64;

/// The stop at a fault, which has nothing but its kind and its offset.
fn stop(alloc: Global, kind: Kind, at: usize) -> Stop
    ensures { IsStop result (spot kind at) }
{
    stop_at(alloc, kind, "", at as u64, 0)
}

/// Gives a tag to the part: of an element that begins, or with a slash of one that is its tag alone.
fn take_tag<'t, P: Part>(
    alloc: Global,
    place: &mut Place<'t>,
    part: &mut P,
    name: &'t str,
    attributes: &[Attribute<'t>],
    at: u64,
    has_slash: bool,
) -> Result<(), NoMemory>
    ensures { (s : State) → IsAt P.Keeps (context_at place.old) part.old s → faults.is_allowed_at (context_at place.old) (opened_as (record { name = name.now; attributes = map attribute_view attributes.now }) has_slash) ≡ true
        → OnOk result (IsAt P.Keeps (context_at place.new) part.new (changed at (opened_as (record { name = name.now; attributes = map attribute_view attributes.now }) has_slash) s)) }
{
    let tag = Tag {
        name,
        attributes,
        at,
    };
    if has_slash {
        part.empty(alloc, &tag)?;
        place.pass();
    } else {
        part.start(alloc, &tag)?;
        place.enter(name)?;
    }
    Ok(())
}

/// Gives to the part what may stand here and starts no element.
fn take<P: Part>(
    alloc: Global,
    place: &mut Place<'_>,
    part: &mut P,
    markup: Markup<'_>,
) -> Result<(), NoMemory>
    ensures { (at : ℕ) (s : State) → IsAt P.Keeps (context_at place.old) part.old s
        → OnOk result (IsAt P.Keeps (context_at place.new) part.new (changed at (markup_view markup.entry) s)) }
{
    match markup {
        Markup::Finish(_) => {
            part.finish(alloc)?;
            place.leave();
        }
        Markup::Doctype => place.declare(),
        Markup::Content(_, text) => part.add_text(alloc, text.as_str())?,
        Markup::Aside => {}
        Markup::Bad => {}
    }
    Ok(())
}

/// Takes the item at the start of `rest` that starts an element. Its attributes are gathered in `room`, whatever was
/// in it.
fn open<'t, P: Part>(
    alloc: Global,
    place: &mut Place<'t>,
    part: &mut P,
    room: &mut Vec<Attribute<'t>>,
    total: usize,
    rest: &'t [u8],
) -> Result<&'t [u8], Stop>
    requires opening { opens rest.now ≡ true }
    requires within { length rest.now ≤ total }
    ensures { (s : State) → IsAt P.Keeps (context_at place.old) part.old s → Steps P.Keeps result (context_at place.new) part.new total rest.now s }
{
    let at = total - rest.len();
    if place.depth() >= DEPTH {
        return Err(stop(alloc, Kind::TooDeep, at));
    }
    let Some(opening) = opening_at(alloc, room, &rest[1..])? else {
        let (item, _) = item_at(rest);
        if place.lacks_end(item) {
            return Err(stop(alloc, Kind::Unfinished, total));
        }
        return Err(stop(alloc, Kind::BadText, at));
    };
    if place.is_rooted() {
        return Err(stop(alloc, Kind::BadText, at));
    }
    let attributes = room.as_slice();
    take_tag(
        alloc,
        place,
        part,
        opening.name,
        attributes,
        at as u64,
        opening.has_slash,
    )?;
    Ok(opening.rest)
}

/// Takes the item at the start of `rest` that starts no element.
fn pass<'t, P: Part>(
    alloc: Global,
    place: &mut Place<'t>,
    part: &mut P,
    total: usize,
    rest: &'t [u8],
) -> Result<&'t [u8], Stop>
    requires opening { opens rest.now ≡ false }
    requires some { 0 < length rest.now }
    requires within { length rest.now ≤ total }
    ensures { (s : State) → IsAt P.Keeps (context_at place.old) part.old s → Steps P.Keeps result (context_at place.new) part.new total rest.now s }
{
    let (item, after) = item_at(rest);
    if place.lacks_end(item) {
        return Err(stop(alloc, Kind::Unfinished, total));
    }
    let markup = markup_of(alloc, item)?;
    if !place.allows(&markup) {
        return Err(stop(alloc, Kind::BadText, total - rest.len()));
    }
    take(alloc, place, part, markup)?;
    Ok(after)
}

/// Takes the item at the start of `rest`, which is the end of a text of `total` bytes, or stops at its fault, by the
/// order of the tests. What follows the item is left.
fn step<'t, P: Part>(
    alloc: Global,
    place: &mut Place<'t>,
    part: &mut P,
    room: &mut Vec<Attribute<'t>>,
    total: usize,
    rest: &'t [u8],
) -> Result<&'t [u8], Stop>
    requires some { 0 < length rest.now }
    requires within { length rest.now ≤ total }
    ensures { (s : State) → IsAt P.Keeps (context_at place.old) part.old s → Steps P.Keeps result (context_at place.new) part.new total rest.now s }
{
    if opens(rest) {
        open(alloc, place, part, room, total, rest)
    } else {
        pass(alloc, place, part, total, rest)
    }
}

/// The text without the byte order mark that may begin it.
fn after_mark(text: &[u8]) -> &[u8]
    ensures value { result.now ≡ faults.after_mark text.now }
    ensures within { length result.now ≤ length text.now }
{
    if begins(b"\xEF\xBB\xBF", text) {
        &text[3..]
    } else {
        text
    }
}

/// Reads a source text, gives its pieces to the part in their order, and answers the part at the end. What a text is,
/// and which are its faults, is as in [`crate::read`].
///
/// # Errors
///
/// Those of [`crate::read`]: `Stop::At` the fault of the text, or `Stop::NoMemory` where memory ran out, also in the
/// part.
pub fn read_part<P: Part>(alloc: Global, part: P, text: &[u8]) -> Result<P, Stop>
    requires { P.Keeps part initial }
    ensures { Keeping P.Keeps text.now result }
{
    let total = text.len();
    let mut place = Place::new(alloc);
    let mut part = part;
    let mut room = Vec::new(alloc);
    let mut rest = after_mark(text);
    while !rest.is_empty() {
        rest = step(alloc, &mut place, &mut part, &mut room, total, rest)?;
    }
    if place.is_rooted() {
        Ok(part)
    } else {
        Err(stop(alloc, Kind::Unfinished, total))
    }
}
