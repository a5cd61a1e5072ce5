ghost use Rattle.std.specs.Prelude.{◌≡◌, IfOk};
ghost use Rattle.basics.specs.Reading.{Gives};
ghost use Rattle.plist.specs.Values.{plain_value};
ghost use Rattle.fontinfo.specs.Naming as rules;
ghost use Rattle.fontinfo.specs.Naming.{AreLegalShort, AreNamesShort, AreTextsShort, IsVersionWithin};

use crate::key::Key;
use crate::keys::{NAME_UNITS, Range, number_or, text_if_there, text_or};
use crate::version::version_text;
use basics::{Name, Stop};
use plist::Value;
use std::alloc::Global;

/// What the font is called.
#[derive(Drop)]
pub(crate) struct Names {
    /// The family's name.
    pub(crate) family: Name,
    /// The style's name.
    pub(crate) style: Name,
}

/// The numbers of the font's version.
#[derive(Clone, Copy)]
pub(crate) struct Version {
    /// The one before the point.
    pub(crate) major: i32,
    /// The one after it.
    pub(crate) minor: i32,
}

/// Whose the font is, and its version as a text.
#[derive(Drop)]
pub(crate) struct Legal {
    /// Whose the font is.
    pub(crate) copyright: Option<Name>,
    /// The version as a text.
    pub(crate) version: Name,
}

/// What the font is called, its version, and whose it is.
#[derive(Drop)]
pub(crate) struct Naming {
    /// What the font is called.
    pub(crate) names: Names,
    /// The numbers of its version.
    pub(crate) numbers: Version,
    /// Whose it is, and its version as a text.
    pub(crate) legal: Legal,
}

/// The numbers of a version.
const VERSION: Range = Range {
    least: 0,
    greatest: 999,
};

/// How many units of UTF-16 the copyright may take.
const COPYRIGHT_UNITS: usize = 1000;

/// What the font is called.
#[tactic(auto, using(crate::proofs::Short::untitled_short, crate::proofs::Short::regular_short), unfolding(crate::specs::Naming::names_of))]
fn read_names(alloc: Global, info: &Value) -> Result<Names, Stop>
    ensures exact { Gives (λ names. names) result (rules.names_of (plain_value info.now)) }
    ensures short { IfOk result AreNamesShort }
{
    let family = text_or(alloc, NAME_UNITS, "Untitled", Key::FamilyName, info)?;
    let style = text_or(alloc, NAME_UNITS, "Regular", Key::StyleName, info)?;
    Ok(Names { family, style })
}

/// The numbers of the font's version.
#[tactic(auto, unfolding(crate::specs::Naming::version_of))]
fn read_version(alloc: Global, info: &Value) -> Result<Version, Stop>
    ensures exact { Gives (λ numbers. numbers) result (rules.version_of (plain_value info.now)) }
    ensures within { IfOk result IsVersionWithin }
{
    let major = number_or(alloc, VERSION, 0, Key::VersionMajor, info)?;
    let minor = number_or(alloc, VERSION, 0, Key::VersionMinor, info)?;
    Ok(Version { major, minor })
}

/// Whose the font is, and its version as a text.
#[tactic(auto, unfolding(crate::specs::Naming::legal_of))]
fn read_legal(alloc: Global, numbers: Version, info: &Value) -> Result<Legal, Stop>
    requires { IsVersionWithin numbers }
    ensures exact { Gives (λ legal. legal) result (rules.legal_of numbers (plain_value info.now)) }
    ensures short { IfOk result AreLegalShort }
{
    let copyright = text_if_there(alloc, COPYRIGHT_UNITS, Key::Copyright, info)?;
    let made = version_text(
        alloc,
        numbers.major.unsigned_abs(),
        numbers.minor.unsigned_abs(),
    )?;
    let version = text_or(alloc, NAME_UNITS, made.as_str(), Key::NameVersion, info)?;
    Ok(Legal { copyright, version })
}

/// What the font is called, its version, and whose it is.
#[tactic(auto, unfolding(crate::specs::Naming::naming_of))]
pub(crate) fn read_naming(alloc: Global, info: &Value) -> Result<Naming, Stop>
    ensures exact { Gives (λ naming. naming) result (rules.naming_of (plain_value info.now)) }
    ensures within { IfOk result (λ naming. IsVersionWithin naming.numbers) }
    ensures short { IfOk result AreTextsShort }
{
    let names = read_names(alloc, info)?;
    let numbers = read_version(alloc, info)?;
    let legal = read_legal(alloc, numbers, info)?;
    Ok(Naming {
        names,
        numbers,
        legal,
    })
}
