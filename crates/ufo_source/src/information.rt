ghost use Rattle.std.specs.Prelude.{IfOk};
ghost use Rattle.basics.specs.Reading.{Gives};
ghost use Rattle.fontinfo.specs.FontInfo as rules;
ghost use Rattle.fontinfo.specs.FontInfo.{AreNumbersWithin, AreTextsWithin};
ghost use Rattle.plist.specs.Values.{plain_value};
ghost use Rattle.source_files.specs.Stops.{Answers, NeverFails, Reads};
ghost use Rattle.source_files.specs.Trees.{in_file};
ghost use Rattle.ufo_source.specs.Information.{fontinfo_path, info_at};
ghost use Rattle.ufo_source.specs.Paths.{IsIn};

use crate::paths::in_folder;
use crate::property_lists::read_value_or_empty;
use basics::Stop;
use fontinfo::Info;
use outside::Sources;
use plist::Value;
use source_files::ReadStop;
use std::alloc::Global;

/// The font information that a value tells.
fn info_of(alloc: Global, value: &Value) -> Result<Info, Stop>
    ensures exact { Gives (λ info. info) result (rules.info_of (plain_value value.now)) }
    ensures numbers { IfOk result AreNumbersWithin }
    ensures texts { IfOk result AreTextsWithin }
{
    fontinfo::read(alloc, value)
}

/// The same, as the answer for `fontinfo.plist`.
#[tactic(auto, using(source_files::proofs::InFile::answers_in_file, source_files::proofs::InFile::kept_in_file))]
fn info_in(alloc: Global, folder: &str, value: &Value) -> Result<Info, ReadStop>
    ensures answers { Answers (λ info. info) result (in_file (fontinfo_path folder.now) (rules.info_of (plain_value value.now))) }
    ensures never { NeverFails result }
    ensures numbers { IfOk result AreNumbersWithin }
    ensures texts { IfOk result AreTextsWithin }
{
    in_folder(alloc, folder, "fontinfo.plist", info_of(alloc, value))
}

/// Reads `fontinfo.plist`, which may be absent: each key has its default then.
#[tactic(auto, unfolding(crate::specs::Information::info_at))]
pub(crate) fn read_info<S: Sources>(
    alloc: Global,
    sources: &mut S,
    folder: &str,
) -> Result<Info, ReadStop>
    ensures exact { Reads (S.state sources.old) (S.state sources.new) (IsIn folder.now) (Answers (λ info. info) result (info_at (S.state sources.old).files folder.now)) result }
    ensures numbers { IfOk result AreNumbersWithin }
    ensures texts { IfOk result AreTextsWithin }
{
    let value = read_value_or_empty(alloc, sources, folder, "fontinfo.plist")?;
    info_in(alloc, folder, &value)
}
