ghost use Rattle.std.specs.Prelude.{◌≡◌, ℕ, ℤ, pos, List, [], IfOk, IfSome};
ghost use Rattle.basics.specs.Reading.{Gives, IsStop, spot_of};
ghost use Rattle.basics.specs.declared.kinds.Kind.TheVariants.{NotPlist};
ghost use Rattle.plist.specs.Values.{as_number, as_text, plain_value};
ghost use Rattle.fontinfo.specs.KeyNames.{key_name};
ghost use Rattle.fontinfo.specs.Keys as rules;
ghost use Rattle.fontinfo.specs.Keys.{IsShort};
ghost use Rattle.fontinfo.specs.Ranges.{IsWithin};

use crate::key::Key;
use basics::{Kind, Name, Stop, stop_at};
use fixpoint::{Fix, NumberFault, divide_up, parse_fix16};
use font_text::{tag_of, utf16_length};
use plist::Value;
use std::alloc::Global;

/// The numbers that are accepted, both ends with them.
#[derive(Clone, Copy)]
pub(crate) struct Range {
    /// The least number.
    pub(crate) least: i32,
    /// The greatest number.
    pub(crate) greatest: i32,
}

/// The numbers that 16 bits with a sign hold, the least one aside.
pub(crate) const METRIC: Range = Range {
    least: -32_767,
    greatest: 32_767,
};

/// How many units of UTF-16 a name may take.
pub(crate) const NAME_UNITS: usize = 100;

/// The stop at a value of the wrong kind.
pub(crate) fn wrong_kind(alloc: Global) -> Stop
    ensures { IsStop result (spot_of NotPlist [] 0 (pos 0)) }
{
    stop_at(alloc, Kind::NotPlist, "", 0, 0)
}

/// The stop at a fault of a key's value.
fn key_fault(alloc: Global, kind: Kind, key: Key) -> Stop
    ensures { IsStop result (spot_of kind (key_name key) 0 (pos 0)) }
{
    stop_at(alloc, kind, key.name(), 0, 0)
}

/// What a fault of a number's text is called.
fn number_kind(why: NumberFault) -> Kind
    ensures { result ≡ rules.number_kind why }
{
    match why {
        NumberFault::NotNumber => Kind::NotNumber,
        NumberFault::NotWhole => Kind::NotWhole,
        NumberFault::NumberRange => Kind::NumberRange,
    }
}

/// The text of a number.
fn number_text(alloc: Global, value: &Value) -> Result<&str, Stop>
    ensures { Gives (λ text. text.now) result (rules.of_kind (as_number (plain_value value.now))) }
{
    match value.as_number() {
        Some(text) => Ok(text),
        None => Err(wrong_kind(alloc)),
    }
}

/// The text of a text.
fn own_text(alloc: Global, value: &Value) -> Result<&str, Stop>
    ensures { Gives (λ text. text.now) result (rules.of_kind (as_text (plain_value value.now))) }
{
    match value.as_text() {
        Some(text) => Ok(text),
        None => Err(wrong_kind(alloc)),
    }
}

/// The number that was found, or the fault of its text.
fn number_or_fault(
    alloc: Global,
    key: Key,
    found: Result<Fix<16>, NumberFault>,
) -> Result<Fix<16>, Stop>
    ensures { Gives (λ number. number) result (rules.number_or_fault key found) }
{
    match found {
        Ok(number) => Ok(number),
        Err(why) => Err(key_fault(alloc, number_kind(why), key)),
    }
}

/// A number with 16 binary places.
#[tactic(auto, unfolding(crate::specs::Keys::fixed_of))]
fn read_fixed(alloc: Global, key: Key, value: &Value) -> Result<Fix<16>, Stop>
    ensures { Gives (λ number. number) result (rules.fixed_of key (plain_value value.now)) }
{
    let text = number_text(alloc, value)?;
    number_or_fault(alloc, key, parse_fix16(text))
}

/// The whole number nearest to the one that is written, a tie going up.
#[tactic(auto, unfolding(crate::specs::Keys::rounded_of))]
pub(crate) fn read_rounded(alloc: Global, key: Key, value: &Value) -> Result<i64, Stop>
    ensures { Gives (λ number. number) result (rules.rounded_of key (plain_value value.now)) }
{
    let number = read_fixed(alloc, key, value)?;
    Ok(divide_up(number.wide(), 65_536))
}

/// The number, where it is in the range.
fn ranged(alloc: Global, range: Range, key: Key, number: i64) -> Result<i32, Stop>
    ensures exact { Gives (λ number. number) result (rules.ranged range key number) }
    ensures within { IfOk result (IsWithin range) }
{
    if i64::from(range.least) <= number && number <= i64::from(range.greatest) {
        Ok(number as i32)
    } else {
        Err(key_fault(alloc, Kind::NumberRange, key))
    }
}

/// A whole number in the range, after rounding.
#[tactic(auto, unfolding(crate::specs::Keys::number_of))]
fn read_number(alloc: Global, range: Range, key: Key, value: &Value) -> Result<i32, Stop>
    ensures exact { Gives (λ number. number) result (rules.number_of range key (plain_value value.now)) }
    ensures within { IfOk result (IsWithin range) }
{
    let number = read_rounded(alloc, key, value)?;
    ranged(alloc, range, key, number)
}

/// The whole number of a key, or the default where the key is absent.
#[tactic(auto, unfolding(crate::specs::Keys::number_or))]
pub(crate) fn number_or(
    alloc: Global,
    range: Range,
    default: i32,
    key: Key,
    info: &Value,
) -> Result<i32, Stop>
    requires { IsWithin range default }
    ensures exact { Gives (λ number. number) result (rules.number_or range default key (plain_value info.now)) }
    ensures within { IfOk result (IsWithin range) }
{
    match info.get(key.name()) {
        Some(value) => read_number(alloc, range, key, value),
        None => Ok(default),
    }
}

/// The whole number of a key that may be absent.
#[tactic(auto, unfolding(crate::specs::Keys::number_if_there))]
pub(crate) fn number_if_there(
    alloc: Global,
    range: Range,
    key: Key,
    info: &Value,
) -> Result<Option<i32>, Stop>
    ensures exact { Gives (λ number. number) result (rules.number_if_there range key (plain_value info.now)) }
    ensures within { IfOk result (λ number. IfSome number (IsWithin range)) }
{
    match info.get(key.name()) {
        Some(value) => Ok(Some(read_number(alloc, range, key, value)?)),
        None => Ok(None),
    }
}

/// The number with 16 binary places of a key, 0 where the key is absent.
#[tactic(auto, unfolding(crate::specs::Keys::fixed_or_zero))]
pub(crate) fn fixed_or_zero(alloc: Global, key: Key, info: &Value) -> Result<Fix<16>, Stop>
    ensures { Gives (λ number. number) result (rules.fixed_or_zero key (plain_value info.now)) }
{
    match info.get(key.name()) {
        Some(value) => read_fixed(alloc, key, value),
        None => Ok(Fix::from_raw(0)),
    }
}

/// The text, where it takes at most so many units of UTF-16.
fn short(alloc: Global, most: usize, key: Key, text: &str) -> Result<Name, Stop>
    ensures exact { Gives (λ text. text) result (rules.short most key text.now) }
    ensures short { IfOk result (IsShort most) }
{
    let units = utf16_length(text);
    if units <= most {
        Ok(Name::from_str(alloc, text)?)
    } else {
        Err(stop_at(alloc, Kind::NameLength, key.name(), 0, units as i64))
    }
}

/// A text of at most so many units of UTF-16.
#[tactic(auto, unfolding(crate::specs::Keys::text_of))]
pub(crate) fn read_text(alloc: Global, most: usize, key: Key, value: &Value) -> Result<Name, Stop>
    ensures exact { Gives (λ text. text) result (rules.text_of most key (plain_value value.now)) }
    ensures short { IfOk result (IsShort most) }
{
    let text = own_text(alloc, value)?;
    short(alloc, most, key, text)
}

/// The text of a key, or the default where the key is absent.
#[tactic(auto, unfolding(crate::specs::Keys::text_or))]
pub(crate) fn text_or(
    alloc: Global,
    most: usize,
    default: &str,
    key: Key,
    info: &Value,
) -> Result<Name, Stop>
    requires { IsShort most default.now }
    ensures exact { Gives (λ text. text) result (rules.text_or most default.now key (plain_value info.now)) }
    ensures short { IfOk result (IsShort most) }
{
    match info.get(key.name()) {
        Some(value) => read_text(alloc, most, key, value),
        None => Ok(Name::from_str(alloc, default)?),
    }
}

/// The text of a key that may be absent.
#[tactic(auto, unfolding(crate::specs::Keys::text_if_there))]
pub(crate) fn text_if_there(
    alloc: Global,
    most: usize,
    key: Key,
    info: &Value,
) -> Result<Option<Name>, Stop>
    ensures exact { Gives (λ text. text) result (rules.text_if_there most key (plain_value info.now)) }
    ensures short { IfOk result (λ text. IfSome text (IsShort most)) }
{
    match info.get(key.name()) {
        Some(value) => Ok(Some(read_text(alloc, most, key, value)?)),
        None => Ok(None),
    }
}

/// The tag that was found in a text, or its fault.
fn tag_or_fault(alloc: Global, text: &str, found: Option<[u8; 4]>) -> Result<[u8; 4], Stop>
    ensures { Gives (λ tag. tag) result (rules.tag_or_fault text.now found) }
{
    match found {
        Some(tag) => Ok(tag),
        None => Err(stop_at(alloc, Kind::BadTag, text, 0, 0)),
    }
}

/// A tag.
#[tactic(auto, unfolding(crate::specs::Keys::tag_value))]
pub(crate) fn read_tag(alloc: Global, value: &Value) -> Result<[u8; 4], Stop>
    ensures { Gives (λ tag. tag) result (rules.tag_value (plain_value value.now)) }
{
    let text = own_text(alloc, value)?;
    tag_or_fault(alloc, text, tag_of(text))
}
