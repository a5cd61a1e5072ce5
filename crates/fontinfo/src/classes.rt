ghost use Rattle.std.specs.Prelude.{◌≡◌, IfOk};
ghost use Rattle.basics.specs.Reading.{Gives};
ghost use Rattle.plist.specs.Values.{plain_value};
ghost use Rattle.fontinfo.specs.Classes as rules;
ghost use Rattle.fontinfo.specs.Classes.{AreClassesWithin, IsClippingWithin};

use crate::key::Key;
use crate::keys::{Range, number_if_there, number_or, read_tag};
use basics::Stop;
use plist::Value;
use std::alloc::Global;

/// Where glyphs are cut off.
#[derive(Clone, Copy)]
pub(crate) struct Clipping {
    /// Above.
    pub(crate) ascent: Option<i32>,
    /// Below, counted down.
    pub(crate) descent: Option<i32>,
}

/// The classes of weight and width, and the vendor.
#[derive(Clone, Copy)]
pub(crate) struct Classes {
    /// The class of weight.
    pub(crate) weight: i32,
    /// The class of width.
    pub(crate) width: i32,
    /// The vendor's tag.
    pub(crate) vendor: [u8; 4],
}

/// The numbers that aren't negative.
const HEIGHT: Range = Range {
    least: 0,
    greatest: 32_767,
};

/// The classes of weight.
const WEIGHT: Range = Range {
    least: 1,
    greatest: 1000,
};

/// The classes of width.
const WIDTH: Range = Range {
    least: 1,
    greatest: 9,
};

/// The vendor's tag, four spaces where it is absent.
#[tactic(auto, unfolding(crate::specs::Classes::vendor_of))]
fn read_vendor(alloc: Global, info: &Value) -> Result<[u8; 4], Stop>
    ensures { Gives (λ tag. tag) result (rules.vendor_of (plain_value info.now)) }
{
    match info.get(Key::VendorId.name()) {
        Some(value) => read_tag(alloc, value),
        None => Ok([b' '; 4]),
    }
}

/// Where glyphs are cut off.
#[tactic(auto, unfolding(crate::specs::Classes::clipping_of))]
pub(crate) fn read_clipping(alloc: Global, info: &Value) -> Result<Clipping, Stop>
    ensures exact { Gives (λ clipping. clipping) result (rules.clipping_of (plain_value info.now)) }
    ensures within { IfOk result IsClippingWithin }
{
    let ascent = number_if_there(alloc, HEIGHT, Key::WinAscent, info)?;
    let descent = number_if_there(alloc, HEIGHT, Key::WinDescent, info)?;
    Ok(Clipping { ascent, descent })
}

/// The classes of weight and width, and the vendor.
#[tactic(auto, unfolding(crate::specs::Classes::classes_of))]
pub(crate) fn read_classes(alloc: Global, info: &Value) -> Result<Classes, Stop>
    ensures exact { Gives (λ classes. classes) result (rules.classes_of (plain_value info.now)) }
    ensures within { IfOk result AreClassesWithin }
{
    let weight = number_or(alloc, WEIGHT, 400, Key::WeightClass, info)?;
    let width = number_or(alloc, WIDTH, 5, Key::WidthClass, info)?;
    let vendor = read_vendor(alloc, info)?;
    Ok(Classes {
        weight,
        width,
        vendor,
    })
}
