ghost use Rattle.std.specs.Prelude.{◌≡◌, option_map};
ghost use Rattle.basics.specs.Reading.{Gives};
ghost use Rattle.plist.specs.Values.{plain_value};
ghost use Rattle.source_files.specs.Stops.{Answers, Reads};
ghost use Rattle.ufo_source.specs.Metainfo.{is_version_3, metainfo_at, version_in, version_of};
ghost use Rattle.ufo_source.specs.Paths.{IsIn};

use crate::paths::in_folder;
use crate::property_lists::{entries_of, read_value};
use basics::{Kind, Stop, stop_at};
use fixpoint::parse_whole;
use outside::Sources;
use plist::Value;
use source_files::ReadStop;
use std::alloc::Global;

/// The version that a number's text tells, or −1 where it tells none.
fn version_of(number: Option<&str>) -> i64
    ensures { result ≡ version_of (option_map (λ text. text.now) number.entry) }
{
    match number {
        Some(text) => match parse_whole(text) {
            Ok(version) => i64::from(version),
            Err(_) => -1,
        },
        None => -1,
    }
}

/// The version that the value tells, or −1 where it tells none.
fn version_in(metainfo: &Value) -> i64
    ensures { result ≡ version_in (plain_value metainfo.now) }
{
    match metainfo.get("formatVersion") {
        Some(value) => version_of(value.as_number()),
        None => -1,
    }
}

/// Tests that the value is a dictionary that tells the version 3.
#[tactic(auto, unfolding(crate::specs::Metainfo::is_version_3))]
fn check_version(alloc: Global, metainfo: &Value) -> Result<(), Stop>
    ensures { Gives (λ _. tt) result (is_version_3 (plain_value metainfo.now)) }
{
    entries_of(alloc, metainfo)?;
    let version = version_in(metainfo);
    if version == 3 {
        Ok(())
    } else {
        Err(stop_at(alloc, Kind::FormatVersion, "", 0, version))
    }
}

/// Reads `metainfo.plist`, and tests that the folder is of UFO 3.
#[tactic(auto, using(source_files::proofs::InFile::answers_in_file), unfolding(crate::specs::Metainfo::metainfo_at))]
pub(crate) fn read_metainfo<S: Sources>(
    alloc: Global,
    sources: &mut S,
    folder: &str,
) -> Result<(), ReadStop>
    ensures { Reads (S.state sources.old) (S.state sources.new) (IsIn folder.now) (Answers (λ _. tt) result (metainfo_at (S.state sources.old).files folder.now)) result }
{
    let metainfo = read_value(alloc, sources, folder, "metainfo.plist")?;
    in_folder(
        alloc,
        folder,
        "metainfo.plist",
        check_version(alloc, &metainfo),
    )
}
