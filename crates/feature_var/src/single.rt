ghost use Rattle.std.specs.Prelude.{◌≡◌, ◌++◌, ◌≤◌, length, All, IfOk, OnOk};
ghost use Rattle.std.specs.List.{flat_map};
ghost use Rattle.feature_var.specs.Layout as rules;
ghost use Rattle.feature_var.specs.Layout.{in_glyph_order, single_bytes, word_bytes};
ghost use Rattle.feature_var.specs.Limits.{IsGlyphPair};

use basics::{NoMemory, Seq};
use be_bytes::Field::{self, Uint16};
use be_bytes::{put_fields, put_u16};
use std::alloc::Global;
use std::collections::BTreeMap;

/// A glyph, and the one that stands in its place.
pub(crate) type Pair = (u16, u16);

/// The pairs by rising first glyphs; of several with one first glyph the first alone.
pub(crate) fn ordered(alloc: Global, pairs: &[Pair]) -> Result<Seq<Pair>, NoMemory>
    ensures order { IfOk result (λ ordered. ordered ≡ in_glyph_order pairs.now) }
    ensures glyphs { OnOk result (All IsGlyphPair pairs.now) }
{
    let map = pair_map(alloc, pairs)?;
    let mut ordered = Seq::new(alloc);
    for (first, second) in &map {
        ordered.push((*first, *second))?;
    }
    Ok(ordered)
}

/// What stands in place of each first glyph.
fn pair_map(alloc: Global, pairs: &[Pair]) -> Result<BTreeMap<u16, u16>, NoMemory>
    ensures order { IfOk result (λ map. map.entries ≡ in_glyph_order pairs.now) }
    ensures glyphs { OnOk result (All IsGlyphPair pairs.now) }
{
    let mut map = BTreeMap::new(alloc);
    for number in (0..pairs.len()).rev() {
        let (first, second) = pairs[number];
        map.insert(first, second)?;
    }
    Ok(map)
}

/// Appends the single substitution of pairs whose first glyphs rise.
pub(crate) fn put_single(out: &mut Vec<u8>, pairs: &[Pair]) -> Result<(), NoMemory>
    requires { length pairs.now ≤ 4096 }
    ensures { OnOk result (out.new.items ≡ out.old.items ++ single_bytes pairs.now) }
{
    let count = pairs.len() as u16;
    put_fields(out, &single_fields(count))?;
    put_seconds(out, pairs)?;
    put_fields(out, &coverage_fields(count))?;
    put_firsts(out, pairs)?;
    Ok(())
}

/// The fields before the glyphs that replace others.
#[tactic(auto, unfolding(crate::specs::Layout::single_fields))]
fn single_fields(count: u16) -> [Field; 3]
    requires { count ≤ 4096 }
    ensures { result ≡ rules.single_fields count }
{
    [
        // substFormat, coverageOffset, glyphCount
        Uint16(2),
        Uint16(6 + 2 * count),
        Uint16(count),
    ]
}

/// The fields before the glyphs that are covered.
#[tactic(auto, unfolding(crate::specs::Layout::coverage_fields))]
fn coverage_fields(count: u16) -> [Field; 2]
    ensures { result ≡ rules.coverage_fields count }
{
    [
        // coverageFormat, glyphCount
        Uint16(1),
        Uint16(count),
    ]
}

/// Appends the first glyph of each pair.
fn put_firsts(out: &mut Vec<u8>, pairs: &[Pair]) -> Result<(), NoMemory>
    ensures { OnOk result (out.new.items ≡ out.old.items ++ flat_map (λ pair. word_bytes pair.0) pairs.now) }
{
    for (first, _) in pairs {
        put_u16(out, *first)?;
    }
    Ok(())
}

/// Appends the second glyph of each pair.
fn put_seconds(out: &mut Vec<u8>, pairs: &[Pair]) -> Result<(), NoMemory>
    ensures { OnOk result (out.new.items ≡ out.old.items ++ flat_map (λ pair. word_bytes pair.1) pairs.now) }
{
    for (_, second) in pairs {
        put_u16(out, *second)?;
    }
    Ok(())
}
