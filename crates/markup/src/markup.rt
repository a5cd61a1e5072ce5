ghost use Rattle.std.specs.Prelude.{◌≡◌, IfOk, codes, drop, false, unwrap_or};
ghost use Rattle.markup_rules.specs.Reading as rules;
ghost use Rattle.markup_rules.specs.Bytes.{starts_name};
ghost use Rattle.markup_rules.specs.Reading.{bad};
ghost use Rattle.markup.specs.Openings.{IsNoOpening, opening_at};
ghost use Rattle.markup.specs.Views.{item_view, markup_view, opening_view};
ghost use Rattle.basics.specs.Optional.{Agrees};

use crate::attributes::attributes_to_end;
use crate::bytes::{are_blanks, is_doctype, is_text};
use crate::content::content_of;
use crate::items::Item;
use crate::names::name_at;
use crate::searches::{begins, first_index};
use crate::tag::Attribute;
use crate::text::Text;
use basics::NoMemory;
use std::alloc::Global;

/// The start of an element but for its attributes: its name, whether a slash stands at the end of its tag, and what
/// follows that.
#[derive(Drop)]
pub(crate) struct Opening<'t> {
    pub(crate) name: &'t str,
    pub(crate) has_slash: bool,
    pub(crate) rest: &'t [u8],
}

/// What an item is that starts no element, if it is of a right form.
#[derive(Drop)]
pub(crate) enum Markup<'a> {
    /// The end of an element of this name.
    Finish(&'a str),
    /// A comment or an instruction.
    Aside,
    /// A document type.
    Doctype,
    /// Characters and references, and what they mean.
    Content(&'a [u8], Text<'a>),
    /// Of no right form.
    Bad,
}

/// The start of an element after its `<`, or None where it is of no right form. Its attributes are gathered in `room`,
/// whatever was in it.
#[tactic(auto, unfolding(crate::specs::Openings::opening_at))]
pub(crate) fn opening_at<'t>(
    alloc: Global,
    room: &mut Vec<Attribute<'t>>,
    bytes: &'t [u8],
) -> Result<Option<Opening<'t>>, NoMemory>
    ensures { IfOk result (λ found. Agrees (opening_view room.new.items) found (opening_at bytes.now)) }
{
    let Some((name, rest)) = name_at(bytes) else {
        return Ok(None);
    };
    let Some((has_slash, rest)) = attributes_to_end(alloc, room, rest)? else {
        return Ok(None);
    };
    Ok(Some(Opening {
        name,
        has_slash,
        rest,
    }))
}

/// A tag that ends an element, after its `/`.
#[tactic(auto, unfolding(markup_rules::specs::Reading::end_tag))]
fn end_tag(body: &[u8]) -> Markup<'_>
    ensures { markup_view result ≡ unwrap_or (rules.end_tag body.now) bad }
{
    match name_at(body) {
        Some((name, rest)) => {
            if are_blanks(rest) {
                Markup::Finish(name)
            } else {
                Markup::Bad
            }
        }
        None => Markup::Bad,
    }
}

/// A tag that starts no element.
#[tactic(auto, using(crate::proofs::Prefixes::no_opening), unfolding(markup_rules::specs::Reading::tag_markup))]
fn tag_markup(body: &[u8]) -> Markup<'_>
    requires { starts_name body.now ≡ false }
    ensures { markup_view result ≡ unwrap_or (rules.tag_markup body.now) bad }
{
    match body {
        [] => Markup::Bad,
        [byte, rest @ ..] => {
            if *byte == b'/' {
                end_tag(rest)
            } else {
                Markup::Bad
            }
        }
    }
}

/// Characters and references.
#[tactic(auto, unfolding(markup_rules::specs::Reading::data_markup))]
fn data_markup(alloc: Global, bytes: &[u8]) -> Result<Markup<'_>, NoMemory>
    ensures { IfOk result (λ markup. markup_view markup ≡ unwrap_or (rules.data_markup bytes.now) bad) }
{
    match content_of(alloc, bytes)? {
        Some(text) => Ok(Markup::Content(bytes, text)),
        None => Ok(Markup::Bad),
    }
}

/// A comment.
#[tactic(auto, unfolding(markup_rules::specs::Reading::comment_markup))]
fn comment_markup(body: &[u8]) -> Markup<'_>
    ensures { markup_view result ≡ rules.comment_markup body.now }
{
    if first_index(b"--", body).is_none() && is_text(body) {
        Markup::Aside
    } else {
        Markup::Bad
    }
}

/// An instruction.
#[tactic(auto, unfolding(markup_rules::specs::Reading::instruction_markup))]
fn instruction_markup(body: &[u8]) -> Markup<'_>
    ensures { markup_view result ≡ rules.instruction_markup body.now }
{
    if is_text(body) {
        Markup::Aside
    } else {
        Markup::Bad
    }
}

/// A declaration, which can only be a document type.
#[tactic(auto, unfolding(markup_rules::specs::Reading::declaration_markup))]
fn declaration_markup(body: &[u8]) -> Markup<'_>
    ensures { markup_view result ≡ rules.declaration_markup body.now }
{
    if begins(b"DOCTYPE", body) && is_doctype(&body[7..]) {
        Markup::Doctype
    } else {
        Markup::Bad
    }
}

/// What an item is that starts no element.
#[tactic(auto, unfolding(markup_rules::specs::Reading::markup_of))]
pub(crate) fn markup_of<'a>(alloc: Global, item: Item<'a>) -> Result<Markup<'a>, NoMemory>
    requires { IsNoOpening (item_view item) }
    ensures { IfOk result (λ found. markup_view found ≡ rules.markup_of (item_view item.entry)) }
{
    match item {
        Item::Comment(body) => Ok(comment_markup(body)),
        Item::Instruction(body) => Ok(instruction_markup(body)),
        Item::Declaration(body) => Ok(declaration_markup(body)),
        Item::Tag(body) => Ok(tag_markup(body)),
        Item::Broken => Ok(Markup::Bad),
        Item::Unended => Ok(Markup::Bad),
        Item::DataBetween(bytes) => data_markup(alloc, bytes),
        Item::DataToEnd(bytes) => data_markup(alloc, bytes),
    }
}
