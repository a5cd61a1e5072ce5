ghost use Rattle.std.specs.Prelude.{◌≡◌, ◌<◌, length, vec_len, IfOk, IfSome, OnOk, if◌then◌else◌};
ghost use Rattle.glif.specs.Limits.{AreDistinct};
ghost use Rattle.font_sources.specs.GlyphOrder as rules;
ghost use Rattle.font_sources.specs.GlyphOrder.{glyph_at, is_among, listed_names, with_name, with_names, without};

use crate::naming::Positions;
use basics::{Name, NoMemory, Seq};
use glif::Drawing;
use indexmap::IndexSet;
use std::alloc::Global;

/// The name of the glyph that is drawn for want of another.
pub(crate) const NOTDEF: &str = ".notdef";

/// Whether a name is among others.
pub(crate) fn is_among(names: &Positions<'_>, name: &str) -> bool
    ensures { result ≡ is_among names.now name.now }
{
    names.get(name).is_some()
}

/// Puts a name after others, where it isn't among them.
fn put_name(alloc: Global, names: &mut IndexSet<Name>, name: &str) -> Result<(), NoMemory>
    ensures { OnOk result (names.new.keys ≡ with_name names.old.keys name.now) }
{
    names.insert(Name::from_str(alloc, name)?)?;
    Ok(())
}

/// The same, of the name of a glyph; another name is passed over.
fn put_listed(
    alloc: Global,
    listed: &mut IndexSet<Name>,
    names: &Positions<'_>,
    name: &str,
) -> Result<(), NoMemory>
    ensures { OnOk result (listed.new.keys ≡ (if is_among names.now name.now then with_name listed.old.keys name.now else listed.old.keys)) }
{
    if is_among(names, name) {
        put_name(alloc, listed, name)
    } else {
        Ok(())
    }
}

/// Those of `.notdef` and the listed names that glyphs have.
fn listed_names(
    alloc: Global,
    order: &[Name],
    names: &Positions<'_>,
) -> Result<IndexSet<Name>, NoMemory>
    ensures { IfOk result (λ listed. listed.keys ≡ listed_names order.now names.now) }
{
    let mut listed = IndexSet::new(alloc);
    put_listed(alloc, &mut listed, names, NOTDEF)?;
    for name in order {
        put_listed(alloc, &mut listed, names, name.as_str())?;
    }
    Ok(listed)
}

/// Names with more after them, each where it isn't among those before it.
fn with_names(
    alloc: Global,
    names: IndexSet<Name>,
    more: &[Name],
) -> Result<IndexSet<Name>, NoMemory>
    ensures { IfOk result (λ all. all.keys ≡ with_names names.keys more.now) }
{
    let mut names = names;
    for name in more {
        put_name(alloc, &mut names, name.as_str())?;
    }
    Ok(names)
}

/// The list of names.
fn listed(alloc: Global, names: IndexSet<Name>) -> Result<Seq<Name>, NoMemory>
    ensures { IfOk result (λ list. list ≡ names.keys) }
{
    let mut list = Seq::new(alloc);
    for name in names {
        list.push(name)?;
    }
    Ok(list)
}

/// The names of glyphs in glyph order: `.notdef` first, then those that the order lists, then the rest.
pub(crate) fn names_in_order(
    alloc: Global,
    order: &[Name],
    names: &[Name],
    positions: &Positions<'_>,
) -> Result<Seq<Name>, NoMemory>
    requires { positions.now ≡ names.now }
    ensures { IfOk result (λ ordered. ordered ≡ rules.names_in_order order.now names.now) }
{
    let first = listed_names(alloc, order, positions)?;
    let all = with_names(alloc, first, names)?;
    listed(alloc, all)
}

/// Takes the glyph of a position out of the list, if there is one.
fn take_glyph(glyphs: &mut Vec<Option<Drawing>>, position: Option<usize>) -> Option<Drawing>
    requires { IfSome position (λ position. position < vec_len glyphs.old) }
    ensures glyph { result ≡ glyph_at glyphs.old.items position }
    ensures left { glyphs.new.items ≡ without glyphs.old.items position }
{
    match position {
        Some(position) => glyphs[position].take(),
        None => None,
    }
}

/// The glyphs of some names, in their order, off all names and glyphs.
pub(crate) fn glyphs_named(
    alloc: Global,
    names: &Positions<'_>,
    glyphs: Seq<Option<Drawing>>,
    wanted: &[Name],
) -> Result<Seq<Option<Drawing>>, NoMemory>
    requires one_each { length glyphs ≡ length names.now }
    requires once { AreDistinct wanted.now }
    ensures { IfOk result (λ found. found ≡ rules.glyphs_named names.now glyphs wanted.now) }
{
    let mut glyphs = glyphs.into_vec();
    let mut found = Vec::new(alloc);
    for name in wanted {
        let position = names.get(name.as_str());
        found.push(take_glyph(&mut glyphs, position))?;
    }
    Ok(Seq::from_vec(found))
}
