ghost use Rattle.std.specs.Prelude.{◌≡◌, ◌==◌, option_map, IfOk};
ghost use Rattle.std.specs.List.{before_first};
ghost use Rattle.basics.specs.Reading.{Gives};
ghost use Rattle.markup.specs.Plain.{plain};
ghost use Rattle.designspace.specs.Document as rules;
ghost use Rattle.designspace.specs.Limits.{IsWithinLimits};

use crate::instance::{Instance, read_instances};
use crate::rule::{Rule, Rules, read_rules};
use crate::source::{Source, read_sources};
use attributes::fault;
use basics::{Kind, Seq, Stop, stop_at};
use design_axes::{Axis, read_axes};
use fixpoint::parse_whole;
use markup::Element;
use std::alloc::Global;

/// What a designspace document tells.
#[derive(Drop)]
pub struct Designspace {
    /// The axes, one to eight.
    pub axes: Seq<Axis>,
    /// The sources, at most 128.
    pub sources: Seq<Source>,
    /// The rules of substitution, at most 64.
    pub rules: Seq<Rule>,
    /// Whether the rules act after other substitutions.
    pub last: bool,
    /// The named instances, at most 256.
    pub instances: Seq<Instance>,
}

/// What stands before the first point of a text; the whole text where it has none.
fn before_point(text: &str) -> &str
    ensures { result.now ≡ before_first (λ byte. byte == 46) text.now }
{
    match text.split_once('.') {
        Some((before, _)) => before,
        None => text,
    }
}

/// The version that a text tells, the whole number before the first point; or -1 where it tells none.
#[tactic(auto, unfolding(crate::specs::Document::version_in))]
fn version_in(text: &str) -> i64
    ensures { result ≡ rules.version_in text.now }
{
    match parse_whole(before_point(text)) {
        Ok(version) => i64::from(version),
        Err(_) => -1,
    }
}

/// The version that an attribute tells, or -1 where it is absent.
fn version_of(format: Option<&str>) -> i64
    ensures { result ≡ rules.version_of (option_map (λ text. text.now) format.entry) }
{
    match format {
        Some(text) => version_in(text),
        None => -1,
    }
}

/// Tests that a version is one that is read.
fn check_version(alloc: Global, version: i64) -> Result<(), Stop>
    ensures { Gives (λ _. tt) result (rules.is_version version) }
{
    if version == 4 || version == 5 {
        Ok(())
    } else {
        Err(stop_at(alloc, Kind::FormatVersion, "", 0, version))
    }
}

/// Tests that the document is of a version of the format that is read.
#[tactic(auto, unfolding(crate::specs::Document::format_of))]
fn check_format(alloc: Global, designspace: &Element) -> Result<(), Stop>
    ensures { Gives (λ _. tt) result (rules.format_of (plain designspace.now)) }
{
    check_version(alloc, version_of(designspace.attribute("format")))
}

/// The parts of a document, whose root is a `designspace`.
#[tactic(auto, unfolding(crate::specs::Document::parts_of))]
fn read_parts(alloc: Global, designspace: &Element, folder: &str) -> Result<Designspace, Stop>
    ensures exact { Gives (λ designspace. designspace) result (rules.parts_of folder.now (plain designspace.now)) }
    ensures within { IfOk result IsWithinLimits }
{
    check_format(alloc, designspace)?;
    let axes = read_axes(alloc, designspace)?;
    let sources = read_sources(alloc, folder, axes.as_slice(), designspace)?;
    let Rules { rules, last } = read_rules(alloc, axes.as_slice(), designspace)?;
    let instances = read_instances(alloc, axes.as_slice(), designspace)?;
    Ok(Designspace {
        axes,
        sources,
        rules,
        last,
        instances,
    })
}

/// Reads a designspace document (Designspace 4 and 5) off its tree, whose file lies in the folder: empty for no folder,
/// and `/` for the root of all.
///
/// Of `axes`, `sources`, `rules` and `instances` the first element of each name is read; an absent one has no items. Of
/// these the items alone are read, each an `axis`, a `source`, a `rule` or an `instance`, in their order. Other elements,
/// and attributes that aren't named here, are passed over.
///
/// A `source` has the `filename` of its UFO folder and perhaps a `layer`. It lies at the normalised coordinate, in the
/// design span of each axis, of a design value: the `xvalue` of the last `dimension` with the axis's `name` in its first
/// `location`; or else its `uservalue`, mapped; or the default, where there is no such dimension.
///
/// A `rule` has `condition`s in `conditionset`s, each of these a set, and perhaps in itself: those are one more set, the
/// first. A condition bounds the axis with its `name`, by the design values `minimum` and `maximum`, each of which may be
/// absent. Where no design value of the axis is between them, it is told as 1 to -1, which never holds. A `sub` replaces
/// the glyph `name` by the glyph `with`. The rules act last where their `processing` is `last`, and else first.
///
/// An `instance` with an attribute `location` is passed over. Another one is called by its `stylename`, or else its
/// `name`, or else `Instance` and its number, counted from 1. Its user values are told as the location of a source is, a
/// design value being mapped back, and a user value brought between the axis's least and greatest one.
///
/// # Errors
///
/// `Stop::NoMemory` where memory ran out, or else `Stop::At` with the first fault. Its `at` is the offset in bytes of
/// the element that is named here, `item` and `first` are what is said here, and all else is empty or 0. A number that is
/// faulty is NotNumber or NumberRange, its item being the attribute. Tested are, in this order:
///
/// 1. the root: NotDesignspace where it isn't a `designspace`; FormatVersion where the whole number before the first
///    point of `format` isn't 4 or 5, with `at` 0 and that number as `first`, or -1 where there is none;
/// 2. the axes, as `design_axes::read_axes` says;
/// 3. TooManySources with their count as `first` and `at` 0; then of each source MissingAttribute of the item `filename`,
///    and its dimensions: of each MissingAttribute of the item `name`; UnknownAxis with the name as its item; Anisotropic
///    where there is a `yvalue`; the number `xvalue`, or else the number `uservalue`, or else MissingAttribute of the item
///    `xvalue`;
/// 4. TooManyRules with their count; NotDesignspace at `rules` where `processing` is another text than `first` and
///    `last`; then of each rule TooManySets where it has more than 16 sets, and TooManySubs where it has more than 4,096
///    substitutions, with the rule's number, counted from 0, as `at` and the count as `first`; its conditions, wherever
///    they stand, each MissingAttribute of the item `name`, UnknownAxis, the numbers `minimum` and `maximum`; its
///    substitutions, each MissingAttribute of the item `name` and of the item `with`;
/// 5. TooManyInstances with their count; then of each instance NameLength, where its name has more than 100 units of
///    UTF-16, with the attribute as the item and how many as `first`, and its dimensions as those of a source.
#[tactic(auto, unfolding(crate::specs::Document::designspace_of))]
pub fn read(alloc: Global, tree: &Element, folder: &str) -> Result<Designspace, Stop>
    // Which document it is, and which fault.
    ensures exact { Gives (λ designspace. designspace) result (rules.designspace_of folder.now (plain tree.now)) }
    // What is read is within limits.
    ensures within { IfOk result IsWithinLimits }
{
    if tree.is_named("designspace") {
        read_parts(alloc, tree, folder)
    } else {
        Err(fault(alloc, Kind::NotDesignspace, tree))
    }
}
