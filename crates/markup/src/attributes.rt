ghost use Rattle.std.specs.Prelude.{◌≡◌, ◌++◌, [], ◌∷◌, Some, map, not, ◌==◌, ◌||◌, IfOk, IfSome, OnOk, option_map, if◌then◌else◌};
ghost use Rattle.std.specs.List.{list_any};
ghost use Rattle.std.specs.Str.{bytes_eq};
ghost use Rattle.markup_rules.specs.Syntax.{firsts};
ghost use Rattle.markup_rules.specs.Reading as rules;
ghost use Rattle.markup_rules.proofs.Attributes.{names_of, with_attribute};
ghost use Rattle.markup.specs.Names.{HasNames};
ghost use Rattle.markup.specs.Openings.{attributes_to_end, end_at};
ghost use Rattle.markup.specs.Views.{attribute_view, text_bytes};
ghost use Rattle.basics.specs.Optional.{Agrees};
ghost use Rattle.basics.specs.Bytes.{after_run};

use crate::bytes::{after_blanks, split_unquoted, starts_blank};
use crate::content::content_of;
use crate::names::name_at;
use crate::searches::index_of;
use crate::tag::{Attribute, is_same};
use crate::text::Text;
use basics::{Name, NoMemory};
use std::alloc::Global;
use std::collections::BTreeSet;

/// What follows the blanks at the start, one at least.
#[tactic(auto, unfolding(markup_rules::specs::Reading::blank_at))]
fn blank_at(bytes: &[u8]) -> Option<&[u8]>
    ensures { Agrees (λ rest. rest.now) result (rules.blank_at bytes.now) }
{
    if starts_blank(bytes) {
        Some(after_blanks(bytes))
    } else {
        None
    }
}

/// What follows the `=` at the start.
#[tactic(auto, unfolding(markup_rules::specs::Reading::equals_at))]
fn equals_at(bytes: &[u8]) -> Option<&[u8]>
    ensures { Agrees (λ rest. rest.now) result (rules.equals_at bytes.now) }
{
    match bytes {
        [] => None,
        [byte, rest @ ..] => { if *byte == b'=' { Some(rest) } else { None } }
    }
}

/// What stands between the quote at the start and the next equal one, and what follows that.
#[tactic(auto, unfolding(markup_rules::specs::Reading::quoted_at))]
fn quoted_at(bytes: &[u8]) -> Option<(&[u8], &[u8])>
    ensures { Agrees (λ found. (found.0.now, found.1.now)) result (rules.quoted_at bytes.now) }
{
    match bytes {
        [] => None,
        [quote, rest @ ..] => {
            if *quote == b'"' || *quote == b'\'' {
                let end = index_of(*quote, rest)?;
                Some((&rest[..end], &rest[end + 1..]))
            } else {
                None
            }
        }
    }
}

/// Whether the byte is `"` or `'`.
fn is_quote(byte: u8) -> bool
    ensures { result ≡ ((byte == 34) || (byte == 39)) }
{
    byte == b'"' || byte == b'\''
}

/// What follows the byte at the start, where it is this one.
fn beyond(mark: u8, bytes: &[u8]) -> Option<&[u8]>
    ensures { IfSome result (λ after. bytes.now ≡ mark ∷ after.now) }
{
    match bytes {
        [] => None,
        [byte, after @ ..] => { if *byte == mark { Some(after) } else { None } }
    }
}

/// The value between quotes at the start, where it is ASCII without references and quotes, as most are; and
/// what follows it.
#[tactic(auto, using(crate::proofs::PlainValues::plain_value))]
fn plain_value_at(bytes: &[u8]) -> Option<(&str, &[u8])>
    ensures { IfSome result (λ found. rules.value_at bytes.now ≡ Some (found.0.now, found.1.now)) }
{
    match bytes {
        [] => None,
        [quote, rest @ ..] => {
            if !is_quote(*quote) {
                return None;
            }
            let (value, rest) = split_unquoted(rest);
            let after = beyond(*quote, rest)?;
            Some((value, after))
        }
    }
}

/// The value between quotes at the start, and what follows it.
#[tactic(auto, unfolding(markup_rules::specs::Reading::value_at))]
fn value_at(alloc: Global, bytes: &[u8]) -> Result<Option<(Text<'_>, &[u8])>, NoMemory>
    ensures { IfOk result (λ found. Agrees (λ value. (text_bytes value.0, value.1.now)) found (rules.value_at bytes.now)) }
{
    if let Some((value, rest)) = plain_value_at(bytes) {
        return Ok(Some((Text::Borrowed(value), rest)));
    }
    let Some((value, rest)) = quoted_at(bytes) else {
        return Ok(None);
    };
    match content_of(alloc, value)? {
        Some(text) => Ok(Some((text, rest))),
        None => Ok(None),
    }
}

/// The name before an `=` and what follows that, with blanks before the name and blanks round the `=`.
#[tactic(auto, unfolding(markup_rules::specs::Reading::label_at))]
fn label_at(bytes: &[u8]) -> Option<(&str, &[u8])>
    ensures { Agrees (λ label. (label.0.now, label.1.now)) result (rules.label_at bytes.now) }
{
    let rest = blank_at(bytes)?;
    let (name, rest) = name_at(rest)?;
    let rest = equals_at(after_blanks(rest))?;
    Some((name, after_blanks(rest)))
}

/// The attribute at the start, after a blank at least, and what follows it.
#[tactic(auto, unfolding(markup_rules::specs::Reading::attribute_at))]
fn attribute_at(alloc: Global, bytes: &[u8]) -> Result<Option<(Attribute<'_>, &[u8])>, NoMemory>
    ensures { IfOk result (λ found. Agrees (λ a. (attribute_view a.0, a.1.now)) found (rules.attribute_at bytes.now)) }
{
    let Some((name, rest)) = label_at(bytes) else {
        return Ok(None);
    };
    match value_at(alloc, rest)? {
        Some((value, rest)) => Ok(Some((Attribute { name, value }, rest))),
        None => Ok(None),
    }
}

/// Whether an attribute of this name is among these.
fn has_name(attributes: &[Attribute<'_>], name: &str) -> bool
    ensures { result ≡ list_any (bytes_eq name.now) (names_of (map attribute_view attributes.now)) }
{
    for attribute in attributes {
        if is_same(name, attribute.name) {
            return true;
        }
    }
    false
}

/// The most attributes of a tag that are compared with one another. The names of more are looked up.
const FEW: usize = 16;

/// The names of the attributes kept so far, where there are many.
type Names = Option<BTreeSet<Name>>;

/// The names of some attributes.
fn names_of(alloc: Global, kept: &[Attribute<'_>]) -> Result<BTreeSet<Name>, NoMemory>
    ensures { IfOk result (λ names. HasNames (Some names) (names_of (map attribute_view kept.now))) }
{
    let mut names = BTreeSet::new(alloc);
    for attribute in kept {
        names.insert(Name::from_str(alloc, attribute.name)?)?;
    }
    Ok(names)
}

/// Sees to it that the names are looked up as soon as there are many.
fn look_up_many(alloc: Global, kept: &[Attribute<'_>], names: &mut Names) -> Result<(), NoMemory>
    requires { HasNames names.old (names_of (map attribute_view kept.now)) }
    ensures { OnOk result (HasNames names.new (names_of (map attribute_view kept.now))) }
{
    if names.is_none() && kept.len() >= FEW {
        *names = Some(names_of(alloc, kept)?);
    }
    Ok(())
}

/// Whether none of the attributes kept so far has this name, which counts as kept from now on.
fn is_first(
    alloc: Global,
    kept: &[Attribute<'_>],
    names: &mut Names,
    name: &str,
) -> Result<bool, NoMemory>
    requires { HasNames names.old (names_of (map attribute_view kept.now)) }
    ensures first { IfOk result (λ first. first ≡ not (list_any (bytes_eq name.now) (names_of (map attribute_view kept.now)))) }
    ensures names { IfOk result (λ first. HasNames names.new (if first then names_of (map attribute_view kept.now) ++ name.now ∷ [] else names_of (map attribute_view kept.now))) }
{
    match names {
        Some(names) => Ok(names.insert(Name::from_str(alloc, name)?)?),
        None => Ok(!has_name(kept, name)),
    }
}

/// Adds an attribute, unless one of its name is there.
fn push_first<'a>(
    alloc: Global,
    kept: &mut Vec<Attribute<'a>>,
    names: &mut Names,
    attribute: Attribute<'a>,
) -> Result<(), NoMemory>
    requires { HasNames names.old (names_of (map attribute_view kept.old.items)) }
    ensures kept { OnOk result (map attribute_view kept.new.items ≡ with_attribute (attribute_view attribute.entry) (map attribute_view kept.old.items)) }
    ensures names { OnOk result (HasNames names.new (names_of (map attribute_view kept.new.items))) }
{
    look_up_many(alloc, kept.as_slice(), names)?;
    if is_first(alloc, kept.as_slice(), names, attribute.name)? {
        kept.push(attribute)?;
    }
    Ok(())
}

/// Whether a slash stands before the `>` at the start, and what follows it: blanks come first. None where an
/// attribute is left, or the tag is of no right form.
#[tactic(auto, unfolding(crate::specs::Openings::end_at))]
fn end_at(bytes: &[u8]) -> Option<(bool, &[u8])>
    ensures { Agrees (λ end. (end.0, end.1.now)) result (end_at bytes.now) }
{
    match after_blanks(bytes) {
        [b'>', rest @ ..] => Some((false, rest)),
        [b'/', b'>', rest @ ..] => Some((true, rest)),
        _ => None,
    }
}

/// Gathers in `room`, whatever was in it, the attributes at the start, of those with one name the first. Whether a slash
/// stands after them, and what follows the end of their tag.
pub(crate) fn attributes_to_end<'a>(
    alloc: Global,
    room: &mut Vec<Attribute<'a>>,
    bytes: &'a [u8],
) -> Result<Option<(bool, &'a [u8])>, NoMemory>
    ensures { IfOk result (λ found. Agrees (λ end. ((map attribute_view room.new.items, end.0), end.1.now)) found (attributes_to_end bytes.now)) }
{
    let mut names = None;
    let mut rest = bytes;
    room.clear();
    loop {
        if let Some(end) = end_at(rest) {
            return Ok(Some(end));
        }
        let Some((attribute, after)) = attribute_at(alloc, rest)? else {
            return Ok(None);
        };
        push_first(alloc, room, &mut names, attribute)?;
        rest = after;
    }
}
