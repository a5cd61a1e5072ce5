ghost use Rattle.std.specs.Prelude.{◌≡◌, ℕ, ◌+◌, ◌*◌, ◌++◌, ◌≤◌, List, length, map, All, IfOk, OnOk};
ghost use Rattle.std.specs.List.{flat_map};
ghost use Rattle.feature_var.specs.Layout as rules;
ghost use Rattle.feature_var.specs.Layout.{in_glyph_order, lookup_list_bytes, lookup_offsets, lookups_from, word_bytes};
ghost use Rattle.feature_var.specs.Limits.{IsGlyphPair};

use crate::single::{Pair, ordered, put_single};
use basics::{NoMemory, Seq};
use be_bytes::Field::{self, Uint16, Uint32};
use be_bytes::{put_fields, put_u16};
use std::alloc::Global;

/// The bytes of a lookup with its extension.
const LOOKUP: u16 = 16;

/// The bytes of a lookup before its extension.
const LOOKUP_HEADER: u32 = 8;

/// The bytes of a single substitution without its glyphs.
const SINGLE_HEADER: u32 = 10;

/// The bytes that a pair takes in a single substitution.
const PAIR: u32 = 4;

/// The lookup list, with a lookup for each list of pairs: at most 64 lists of at most 4,096 pairs.
pub(crate) fn lookup_list(alloc: Global, subs: &[Seq<Pair>]) -> Result<Vec<u8>, NoMemory>
    requires few { length subs.now ≤ 64 }
    requires few_pairs { All (λ pairs. length pairs ≤ 4096) subs.now }
    ensures exact { IfOk result (λ bytes. bytes.items ≡ lookup_list_bytes (map in_glyph_order subs.now)) }
    ensures glyphs { OnOk result (All (λ pairs. All IsGlyphPair pairs) subs.now) }
{
    let lists = ordered_lists(alloc, subs)?;
    let mut bytes = Vec::new(alloc);
    put_lookup_list(&mut bytes, lists.as_slice())?;
    Ok(bytes)
}

/// Each list by rising first glyphs.
fn ordered_lists(alloc: Global, subs: &[Seq<Pair>]) -> Result<Seq<Seq<Pair>>, NoMemory>
    ensures order { IfOk result (λ lists. lists ≡ map in_glyph_order subs.now) }
    ensures glyphs { OnOk result (All (λ pairs. All IsGlyphPair pairs) subs.now) }
{
    let mut lists = Seq::new(alloc);
    for pairs in subs {
        lists.push(ordered(alloc, pairs.as_slice())?)?;
    }
    Ok(lists)
}

/// Appends the lookup list of lists by rising first glyphs.
fn put_lookup_list(out: &mut Vec<u8>, lists: &[Seq<Pair>]) -> Result<(), NoMemory>
    requires few { length lists.now ≤ 64 }
    requires few_pairs { All (λ pairs. length pairs ≤ 4096) lists.now }
    ensures { OnOk result (out.new.items ≡ out.old.items ++ lookup_list_bytes lists.now) }
{
    let count = lists.len() as u16;
    put_u16(out, count)?;
    put_lookup_offsets(out, count)?;
    put_lookups(out, lists)?;
    put_singles(out, lists)?;
    Ok(())
}

/// Appends the offsets of so many lookups.
fn put_lookup_offsets(out: &mut Vec<u8>, count: u16) -> Result<(), NoMemory>
    requires { count ≤ 64 }
    ensures { OnOk result (out.new.items ≡ out.old.items ++ flat_map word_bytes (lookup_offsets count)) }
{
    for number in 0..count {
        put_u16(out, 2 + 2 * count + LOOKUP * number)?;
    }
    Ok(())
}

/// Appends the lookups, whose single substitutions stand after all of them.
fn put_lookups(out: &mut Vec<u8>, lists: &[Seq<Pair>]) -> Result<(), NoMemory>
    requires few { length lists.now ≤ 64 }
    requires few_pairs { All (λ pairs. length pairs ≤ 4096) lists.now }
    ensures { OnOk result (out.new.items ≡ out.old.items ++ lookups_from (16 * length lists.now) lists.now) }
{
    // How far the single substitution of the next lookup is from it.
    let mut distance = u32::from(LOOKUP) * lists.len() as u32;
    for pairs in lists {
        put_fields(out, &lookup_fields(distance - LOOKUP_HEADER))?;
        distance = distance + single_size(pairs) - u32::from(LOOKUP);
    }
    Ok(())
}

/// The fields of a lookup and its extension.
#[tactic(auto, unfolding(crate::specs::Layout::lookup_fields))]
fn lookup_fields(offset: u32) -> [Field; 7]
    ensures { result ≡ rules.lookup_fields offset }
{
    [
        // lookupType, lookupFlag, subTableCount, and the one offset
        Uint16(7),
        Uint16(0),
        Uint16(1),
        Uint16(8),
        // substFormat, extensionLookupType, extensionOffset
        Uint16(1),
        Uint16(1),
        Uint32(offset),
    ]
}

/// The bytes of a single substitution.
fn single_size(pairs: &Seq<Pair>) -> u32
    requires { length pairs.now ≤ 4096 }
    ensures { result ≡ rules.single_size pairs.now }
{
    SINGLE_HEADER + PAIR * pairs.len() as u32
}

/// Appends the single substitutions.
fn put_singles(out: &mut Vec<u8>, lists: &[Seq<Pair>]) -> Result<(), NoMemory>
    requires { All (λ pairs. length pairs ≤ 4096) lists.now }
    ensures { OnOk result (out.new.items ≡ out.old.items ++ flat_map rules.single_bytes lists.now) }
{
    for pairs in lists {
        put_single(out, pairs.as_slice())?;
    }
    Ok(())
}
