ghost use Rattle.std.specs.Prelude.{◌≡◌, ◌≤◌, IfOk};
ghost use Rattle.std.specs.Option.{option_map};
ghost use Rattle.feature_var.specs.Layout as rules;
ghost use Rattle.feature_var.specs.Layout.{written_table};
ghost use Rattle.feature_var.specs.Meaning as meaning;
ghost use Rattle.feature_var.specs.Meaning.{AreWritable, IsTableOf};

use crate::lookups::lookup_list;
use crate::variations::put_variations;
use basics::{NoMemory, Seq};
use be_bytes::Field::{self, Tag, Uint16, Uint32};
use be_bytes::{put_bytes, put_fields};
use rule_boxes::Cell;
use std::alloc::Global;

/// The bytes before the lookup list.
const LOOKUP_LIST: u32 = 46;

/// The table `GSUB` of version 1.1 (OpenType, "GSUB" and "FeatureVariations table"), or none where there are no boxes.
///
/// The boxes, at most 32,768, are on the same axes, at most 8, with normalised ends; each names lists of pairs by their
/// numbers, which rise. There are at most 64 lists of at most 4,096 pairs: a glyph, and the one that stands in its place,
/// of which the first pair of a glyph counts. At a location the lists of the first box that has it act, one after
/// another, by the feature `rvrn`, or by `rclt` where they come `last`.
pub fn gsub(
    alloc: Global,
    cells: &Seq<Cell>,
    subs: &Seq<Seq<(u16, u16)>>,
    last: bool,
) -> Result<Option<Vec<u8>>, NoMemory>
    requires { AreWritable cells.now subs.now }
    ensures written { IfOk result (λ table. option_map (λ bytes. bytes.items) table ≡ written_table last cells.now subs.now) }
    ensures means { IfOk result (λ table. IsTableOf last cells.now subs.now (option_map (λ bytes. bytes.items) table)) }
{
    if cells.is_empty() {
        return Ok(None);
    }
    let lookups = lookup_list(alloc, subs.as_slice())?;
    let mut bytes = Vec::new(alloc);
    put_fields(
        &mut bytes,
        &header_fields(LOOKUP_LIST + lookups.len() as u32),
    )?;
    put_fields(&mut bytes, &script_fields())?;
    put_fields(&mut bytes, &feature_fields(feature_tag(last)))?;
    put_bytes(&mut bytes, &lookups)?;
    put_variations(&mut bytes, cells.as_slice())?;
    Ok(Some(bytes))
}

/// The fields of the header, with the offset of the variations.
#[tactic(auto, unfolding(crate::specs::Layout::header_fields))]
fn header_fields(variations: u32) -> [Field; 6]
    ensures { result ≡ rules.header_fields variations }
{
    [
        // majorVersion, minorVersion
        Uint16(1),
        Uint16(1),
        // scriptListOffset, featureListOffset, lookupListOffset, featureVariationsOffset
        Uint16(14),
        Uint16(34),
        Uint16(46),
        Uint32(variations),
    ]
}

/// The fields of the script list, with one script for all texts.
#[tactic(auto, unfolding(crate::specs::Layout::script_fields))]
fn script_fields() -> [Field; 9]
    ensures { result ≡ rules.script_fields }
{
    [
        // scriptCount, scriptTag, scriptOffset
        Uint16(1),
        Tag(*b"DFLT"),
        Uint16(8),
        // defaultLangSysOffset, langSysCount
        Uint16(4),
        Uint16(0),
        // lookupOrderOffset, requiredFeatureIndex, featureIndexCount, and the one index
        Uint16(0),
        Uint16(0xFFFF),
        Uint16(1),
        Uint16(0),
    ]
}

/// The tag of the feature.
fn feature_tag(last: bool) -> [u8; 4]
    ensures { result ≡ meaning.feature_tag last }
{
    if last { *b"rclt" } else { *b"rvrn" }
}

/// The fields of the feature list, with one feature that lists no lookups.
#[tactic(auto, unfolding(crate::specs::Layout::feature_fields))]
fn feature_fields(tag: [u8; 4]) -> [Field; 5]
    ensures { result ≡ rules.feature_fields tag }
{
    [
        // featureCount, featureTag, featureOffset
        Uint16(1),
        Tag(tag),
        Uint16(8),
        // featureParamsOffset, lookupIndexCount
        Uint16(0),
        Uint16(0),
    ]
}
