ghost use Rattle.std.specs.Prelude.{◌≡◌, [], pos, map, option_map};
ghost use Rattle.basics.specs.Reading.{Gives, IsStop, spot_of};
ghost use Rattle.basics.specs.declared.kinds.Kind.TheVariants.{NotPlist};
ghost use Rattle.markup.specs.Plain.{plain};
ghost use Rattle.plist.specs.Reading as plist_rules;
ghost use Rattle.plist.specs.Values.{as_array, as_dict, as_text, dict, no_entries, plain_entry, plain_value};
ghost use Rattle.source_files.specs.Stops.{Answers, NeverFails, Reads};
ghost use Rattle.source_files.specs.Trees.{in_file};
ghost use Rattle.ufo_source.specs.Paths.{IsIn, path_in};
ghost use Rattle.ufo_source.specs.PropertyLists.{of_kind, value_at, value_if_there, value_or_empty};

use crate::paths::path_in;
use basics::{Kind, Name, Stop, stop_at};
use markup::Element;
use outside::Sources;
use plist::Value;
use source_files::{ReadStop, in_file, read_tree, read_tree_if_there};
use std::alloc::Global;

/// The stop at a value of the wrong kind.
pub(crate) fn wrong_kind(alloc: Global) -> Stop
    ensures { IsStop result (spot_of NotPlist [] 0 (pos 0)) }
{
    stop_at(alloc, Kind::NotPlist, "", 0, 0)
}

/// The text of a `string`.
pub(crate) fn text_of(alloc: Global, value: &Value) -> Result<&str, Stop>
    ensures { Gives (λ text. text.now) result (of_kind (as_text (plain_value value.now))) }
{
    match value.as_text() {
        Some(text) => Ok(text),
        None => Err(wrong_kind(alloc)),
    }
}

/// The values of an `array`.
pub(crate) fn values_of(alloc: Global, value: &Value) -> Result<&[Value], Stop>
    ensures { Gives (λ values. map plain_value values.now) result (of_kind (as_array (plain_value value.now))) }
{
    match value.as_array() {
        Some(values) => Ok(values),
        None => Err(wrong_kind(alloc)),
    }
}

/// The entries of a `dict`.
pub(crate) fn entries_of(alloc: Global, value: &Value) -> Result<&[(Name, Value)], Stop>
    ensures { Gives (λ entries. map plain_entry entries.now) result (of_kind (as_dict (plain_value value.now))) }
{
    match value.as_dict() {
        Some(entries) => Ok(entries),
        None => Err(wrong_kind(alloc)),
    }
}

/// The value of the tree of the file at `path`.
#[tactic(auto, using(source_files::proofs::InFile::answers_in_file))]
fn value_in(alloc: Global, path: &str, tree: &Element) -> Result<Value, ReadStop>
    ensures answers { Answers plain_value result (in_file path.now (plist_rules.value_of (plain tree.now))) }
    ensures never { NeverFails result }
{
    in_file(alloc, path, plist::read(alloc, tree))
}

/// Reads the value of the property list at `path`.
#[tactic(auto, unfolding(crate::specs::PropertyLists::value_at))]
fn read_at<S: Sources>(alloc: Global, sources: &mut S, path: &str) -> Result<Value, ReadStop>
    ensures { Reads (S.state sources.old) (S.state sources.new) (λ named. named ≡ path.now) (Answers plain_value result (value_at (S.state sources.old).files path.now)) result }
{
    let tree = read_tree(alloc, sources, path)?;
    value_in(alloc, path, &tree)
}

/// Reads the value of the property list at `path`, if there is such a file.
#[tactic(auto, unfolding(crate::specs::PropertyLists::value_if_there))]
fn read_at_if_there<S: Sources>(
    alloc: Global,
    sources: &mut S,
    path: &str,
) -> Result<Option<Value>, ReadStop>
    ensures { Reads (S.state sources.old) (S.state sources.new) (λ named. named ≡ path.now) (Answers (option_map plain_value) result (value_if_there (S.state sources.old).files path.now)) result }
{
    match read_tree_if_there(alloc, sources, path)? {
        Some(tree) => Ok(Some(value_in(alloc, path, &tree)?)),
        None => Ok(None),
    }
}

/// Reads the value of the property list of this name in the folder.
pub(crate) fn read_value<S: Sources>(
    alloc: Global,
    sources: &mut S,
    folder: &str,
    name: &str,
) -> Result<Value, ReadStop>
    ensures { Reads (S.state sources.old) (S.state sources.new) (IsIn folder.now) (Answers plain_value result (value_at (S.state sources.old).files (path_in folder.now name.now))) result }
{
    let path = path_in(alloc, folder, name)?;
    read_at(alloc, sources, path.as_str())
}

/// Reads the value of the property list of this name in the folder, if there is such a file.
pub(crate) fn read_value_if_there<S: Sources>(
    alloc: Global,
    sources: &mut S,
    folder: &str,
    name: &str,
) -> Result<Option<Value>, ReadStop>
    ensures { Reads (S.state sources.old) (S.state sources.new) (IsIn folder.now) (Answers (option_map plain_value) result (value_if_there (S.state sources.old).files (path_in folder.now name.now))) result }
{
    let path = path_in(alloc, folder, name)?;
    read_at_if_there(alloc, sources, path.as_str())
}

/// A dictionary without entries.
#[tactic(auto, using(crate::proofs::Empty::plain_empty))]
fn empty_dict(alloc: Global) -> Value
    ensures { plain_value result ≡ dict no_entries }
{
    Value::Dict(Vec::new(alloc))
}

/// Reads the value of the property list of this name in the folder; a file that is absent means an empty dictionary.
#[tactic(auto, unfolding(crate::specs::PropertyLists::value_or_empty))]
pub(crate) fn read_value_or_empty<S: Sources>(
    alloc: Global,
    sources: &mut S,
    folder: &str,
    name: &str,
) -> Result<Value, ReadStop>
    ensures { Reads (S.state sources.old) (S.state sources.new) (IsIn folder.now) (Answers plain_value result (value_or_empty (S.state sources.old).files (path_in folder.now name.now))) result }
{
    match read_value_if_there(alloc, sources, folder, name)? {
        Some(value) => Ok(value),
        None => Ok(empty_dict(alloc)),
    }
}
