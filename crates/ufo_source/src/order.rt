ghost use Rattle.std.specs.Prelude.{◌≡◌, map, option_map, IfOk, OnOk};
ghost use Rattle.basics.specs.Reading.{Gives};
ghost use Rattle.plist.specs.Values.{as_array, plain_value};
ghost use Rattle.source_files.specs.Stops.{Answers, Reads};
ghost use Rattle.ufo_source.specs.Order as rules;
ghost use Rattle.ufo_source.specs.Order.{order_at, order_by, order_of, texts_of};
ghost use Rattle.ufo_source.specs.Paths.{IsIn};

use crate::paths::in_folder;
use crate::property_lists::{entries_of, read_value_or_empty};
use basics::{Name, NoMemory, Seq, Stop};
use indexmap::IndexSet;
use outside::Sources;
use plist::Value;
use source_files::ReadStop;
use std::alloc::Global;

/// Puts a text after the names, where it isn't among them; another value is passed over.
fn put_text(alloc: Global, names: &mut IndexSet<Name>, value: &Value) -> Result<(), NoMemory>
    ensures { OnOk result (names.new.keys ≡ rules.with_value names.old.keys (plain_value value.now)) }
{
    match value.as_text() {
        Some(text) => {
            names.insert(Name::from_str(alloc, text)?)?;
            Ok(())
        }
        None => Ok(()),
    }
}

/// The names that the texts among values are, each at its first position alone.
fn names_among(alloc: Global, values: &[Value]) -> Result<IndexSet<Name>, NoMemory>
    ensures { IfOk result (λ names. names.keys ≡ rules.names_among (map plain_value values.now)) }
{
    let mut names = IndexSet::new(alloc);
    for value in values {
        put_text(alloc, &mut names, value)?;
    }
    Ok(names)
}

/// The texts among values, in order, of equal ones the first alone.
fn texts_among(alloc: Global, values: &[Value]) -> Result<Seq<Name>, NoMemory>
    ensures { IfOk result (λ texts. texts ≡ rules.names_among (map plain_value values.now)) }
{
    let mut texts = Seq::new(alloc);
    for name in names_among(alloc, values)? {
        texts.push(name)?;
    }
    Ok(texts)
}

/// The texts of an array; a value of another kind has none.
fn texts_of(alloc: Global, value: &Value) -> Result<Seq<Name>, NoMemory>
    ensures { IfOk result (λ texts. texts ≡ texts_of (as_array (plain_value value.now))) }
{
    match value.as_array() {
        Some(values) => texts_among(alloc, values),
        None => Ok(Seq::new(alloc)),
    }
}

/// The texts of a key's value, which may be absent.
fn texts_by(alloc: Global, value: Option<&Value>) -> Result<Seq<Name>, NoMemory>
    ensures { IfOk result (λ texts. texts ≡ order_by (option_map (λ value. plain_value value.now) value.entry)) }
{
    match value {
        Some(value) => texts_of(alloc, value),
        None => Ok(Seq::new(alloc)),
    }
}

/// The glyph names that the value of `lib.plist` lists in order.
#[tactic(auto, unfolding(crate::specs::Order::order_of))]
fn order_of(alloc: Global, value: &Value) -> Result<Seq<Name>, Stop>
    ensures { Gives (λ order. order) result (order_of (plain_value value.now)) }
{
    entries_of(alloc, value)?;
    Ok(texts_by(alloc, value.get("public.glyphOrder"))?)
}

/// Reads `lib.plist`, which may be absent, and answers the names that its `public.glyphOrder` lists.
#[tactic(auto, using(source_files::proofs::InFile::answers_in_file), unfolding(crate::specs::Order::order_at))]
pub(crate) fn read_order<S: Sources>(
    alloc: Global,
    sources: &mut S,
    folder: &str,
) -> Result<Seq<Name>, ReadStop>
    ensures { Reads (S.state sources.old) (S.state sources.new) (IsIn folder.now) (Answers (λ order. order) result (order_at (S.state sources.old).files folder.now)) result }
{
    let value = read_value_or_empty(alloc, sources, folder, "lib.plist")?;
    in_folder(alloc, folder, "lib.plist", order_of(alloc, &value))
}
