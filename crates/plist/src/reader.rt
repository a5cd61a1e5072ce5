ghost use Rattle.std.specs.Prelude.{◌≡◌, Err, IfErr, IfOk, List, Ok, map};
ghost use Rattle.basics.specs.Reading.{Gives, IsStop, each};
ghost use Rattle.markup_rules.specs.Tree.{trees_of};
ghost use Rattle.markup.specs.Plain.{plain};
ghost use Rattle.basics.specs.declared.fault.Spot.{Spot};
ghost use Rattle.plist.specs.Faults.{IsFault, IsFirstFault};
ghost use Rattle.plist.specs.Reading as rules;
ghost use Rattle.plist.specs.Reading.{value_at, value_of};
ghost use Rattle.plist.specs.Syntax.{HasEachKeyOnce, IsPropertyList};
ghost use Rattle.plist.specs.Values as value;
ghost use Rattle.plist.specs.Values.{PlainValue, plain_entry, plain_value};

use crate::entries::first_of_each;
use crate::form::{Form, form_of};
use crate::value::Value;
use basics::{Kind, Name, Stop, stop_at};
use markup::Element;
use std::alloc::Global;

/// The stop at an element that may not stand where it is, or that lacks a child.
fn fault(alloc: Global, element: &Element) -> Stop
    ensures { IsStop result (rules.spot_at (plain element.now)) }
{
    stop_at(alloc, Kind::NotPlist, "", element.offset(), 0)
}

/// Stops at the first of these elements, since none may stand here.
fn nothing(alloc: Global, elements: &[Element]) -> Result<(), Stop>
    ensures { Gives (λ done. done) result (rules.nothing (map plain elements.now)) }
{
    match elements {
        [] => Ok(()),
        [element, ..] => Err(fault(alloc, element)),
    }
}

/// The text of an element without children.
#[tactic(auto, unfolding(crate::specs::Reading::own_text))]
fn own_text(alloc: Global, element: &Element) -> Result<Name, Stop>
    ensures { Gives (λ text. text) result (rules.own_text (plain element.now)) }
{
    nothing(alloc, element.children())?;
    Ok(Name::from_str(alloc, element.text())?)
}

/// The text of a `key`.
#[tactic(auto, unfolding(crate::specs::Reading::key_of))]
fn read_key(alloc: Global, element: &Element) -> Result<Name, Stop>
    ensures { Gives (λ key. key) result (rules.key_of (plain element.now)) }
{
    if element.is_named("key") {
        own_text(alloc, element)
    } else {
        Err(fault(alloc, element))
    }
}

/// The value of a `string`.
fn read_text(alloc: Global, element: &Element) -> Result<Value, Stop>
    ensures { Gives plain_value result (rules.text_value value.text (plain element.now)) }
{
    Ok(Value::Text(own_text(alloc, element)?))
}

/// The value of an `integer` or a `real`.
fn read_number(alloc: Global, element: &Element) -> Result<Value, Stop>
    ensures { Gives plain_value result (rules.text_value value.number (plain element.now)) }
{
    Ok(Value::Number(own_text(alloc, element)?))
}

/// The value of a `true` or a `false`.
fn read_bool(alloc: Global, element: &Element, holds: bool) -> Result<Value, Stop>
    ensures { Gives plain_value result (rules.leaf_value (value.truth holds) (plain element.now)) }
{
    nothing(alloc, element.children())?;
    Ok(Value::Bool(holds))
}

/// The value of a `date` or a `data`.
fn read_other(alloc: Global, element: &Element) -> Result<Value, Stop>
    ensures { Gives plain_value result (rules.leaf_value value.other (plain element.now)) }
{
    nothing(alloc, element.children())?;
    Ok(Value::Other)
}

/// The values that elements are, in order.
#[cycle(plist)]
fn read_items(alloc: Global, elements: &[Element]) -> Result<Vec<Value>, Stop>
    ensures { Gives (λ values. map plain_value values.items) result (rules.items_of (trees_of (map plain elements.now))) }
{
    let mut values = Vec::new(alloc);
    for element in elements {
        values.push(read_value(alloc, element)?)?;
    }
    Ok(values)
}

/// The value of an `array`.
#[cycle(plist)]
#[tactic(auto, using(markup::proofs::PlainLemmas::children_plain, crate::proofs::PlainLemmas::plain_array))]
fn read_array(alloc: Global, element: &Element) -> Result<Value, Stop>
    ensures { Gives plain_value result (rules.array_of (plain element.now)) }
{
    Ok(Value::Array(read_items(alloc, &element.children)?))
}

/// The entries of a `dict`, a key and a value each, in order.
#[cycle(plist)]
fn read_entries(
    alloc: Global,
    elements: &[Element],
    dict: &Element,
) -> Result<Vec<(Name, Value)>, Stop>
    ensures { Gives (λ entries. map plain_entry entries.items) result (rules.entries_of (plain dict.now) (trees_of (map plain elements.now))) }
{
    let mut entries = Vec::new(alloc);
    let mut pending = None;
    for element in elements {
        pending = match pending {
            None => Some(read_key(alloc, element)?),
            Some(key) => {
                let value = read_value(alloc, element)?;
                entries.push((key, value))?;
                None
            }
        };
    }
    match pending {
        None => Ok(entries),
        Some(_) => Err(fault(alloc, dict)),
    }
}

/// The value of a `dict`.
#[cycle(plist)]
#[tactic(auto, using(markup::proofs::PlainLemmas::children_plain, crate::proofs::PlainLemmas::plain_dict, crate::proofs::EqualKeys::plain_firsts))]
fn read_dict(alloc: Global, element: &Element) -> Result<Value, Stop>
    ensures { Gives plain_value result (rules.dict_of (plain element.now)) }
{
    let entries = read_entries(alloc, &element.children, element)?;
    let entries = first_of_each(alloc, entries)?;
    Ok(Value::Dict(entries))
}

/// The value that an element is, where a value is wanted.
#[cycle(plist)]
#[tactic(auto, using(crate::proofs::Forms::value_is))]
fn read_value(alloc: Global, element: &Element) -> Result<Value, Stop>
    ensures { Gives plain_value result (value_at (plain element.now)) }
{
    match form_of(element.name()) {
        Form::Text => read_text(alloc, element),
        Form::Number => read_number(alloc, element),
        Form::True => read_bool(alloc, element, true),
        Form::False => read_bool(alloc, element, false),
        Form::Array => read_array(alloc, element),
        Form::Dict => read_dict(alloc, element),
        Form::Unread => read_other(alloc, element),
        Form::Unknown => Err(fault(alloc, element)),
    }
}

/// The value of the one element in a `plist`.
fn read_only(alloc: Global, list: &Element, elements: &[Element]) -> Result<Value, Stop>
    ensures { Gives plain_value result (rules.only (plain list.now) (map plain elements.now)) }
{
    match elements {
        [] => Err(fault(alloc, list)),
        [first, later @ ..] => {
            let value = read_value(alloc, first)?;
            nothing(alloc, later)?;
            Ok(value)
        }
    }
}

/// The value of the root of a property list.
#[tactic(auto, unfolding(crate::specs::Reading::value_of))]
fn read_list(alloc: Global, tree: &Element) -> Result<Value, Stop>
    ensures { Gives plain_value result (value_of (plain tree.now)) }
{
    if tree.is_named("plist") {
        read_only(alloc, tree, tree.children())
    } else {
        Err(fault(alloc, tree))
    }
}

/// Reads the value of a property list off its tree. Property lists are Apple's in XML (PropertyList-1.0.dtd), in
/// which UFO 3 keeps all but its glyphs: a `plist` with one value in it. A value is a `string`, which gives its
/// text; an `integer` or a `real`, which gives its text as a number; a `true` or a `false`; an `array` of values;
/// a `dict` of keys with a value each, where of equal keys the first counts, and is the only one in the value;
/// or a `date` or a `data`, which aren't read. Texts and keys are as they stand, with the blanks round them.
/// Attributes, and texts between elements, mean nothing.
///
/// # Errors
///
/// `Stop::At` with the kind NotPlist and an offset alone, exactly where the tree isn't of that form. The offset is
/// the offset in bytes of the first element that may not stand where it is, or of the `plist` or `dict` that
/// lacks a child. An element comes before what is in it, its children come in order, each with all in it, and
/// a missing child comes after them. `Stop::NoMemory` where memory ran out.
#[tactic(auto, using(crate::proofs::Clauses::found_from, crate::proofs::Clauses::only_from, crate::proofs::Clauses::fault_from, crate::proofs::Clauses::faulty_from, crate::proofs::Clauses::keys_from))]
pub fn read(alloc: Global, tree: &Element) -> Result<Value, Stop>
    // Which value it is, and which fault: the words for contracts of other crates.
    ensures exact { Gives plain_value result (value_of (plain tree.now)) }
    // What is read is a property list of that value.
    ensures found { IfOk result (λ value. IsPropertyList (plain tree.now) (plain_value value)) }
    // A property list is read as its value, unless memory runs out.
    ensures only { (value : PlainValue) → IsPropertyList (plain tree.now) value → Gives plain_value result (Ok value) }
    // A fault is the tree's first one.
    ensures fault { IfErr result (IsFirstFault (plain tree.now)) }
    // And a tree with a fault is refused for it, unless memory runs out.
    ensures faulty { (spot : Spot) → IsFault (plain tree.now) spot → Gives plain_value result (Err spot) }
    // No dictionary in the value has a key twice.
    ensures keys { IfOk result (λ value. HasEachKeyOnce (plain_value value)) }
{
    read_list(alloc, tree)
}
