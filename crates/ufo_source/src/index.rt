ghost use Rattle.std.specs.Prelude.{◌≡◌, ℕ, List, option_map, IfOk};
ghost use Rattle.ufo_source.specs.Naming.{entry_in, entry_named};

use basics::{Name, NoMemory};
use std::alloc::Global;
use std::collections::HashMap;
use std::marker::Model;

/// Entries that are found by their names, whatever their number, without a walk over them. Contracts see them as the
/// list that they are.
#[derive(Drop)]
pub(crate) struct Index<'a, V> {
    entries: &'a [(Name, V)],
    by_name: HashMap<&'a str, &'a (Name, V)>,
    ghost right: { (name : List ℕ) → entry_in by_name name ≡ entry_named entries.now name },
}

impl<'a, V> Model for Index<'a, V> {
    ghost Value = { List (List ℕ × V) };

    ghost view = { λ index. index.entries.now };
}

/// Each entry by its name, the first of a name alone.
fn by_name<'a, V>(
    alloc: Global,
    entries: &'a [(Name, V)],
) -> Result<HashMap<&'a str, &'a (Name, V)>, NoMemory>
    ensures { IfOk result (λ found. (name : List ℕ) → entry_in found name ≡ entry_named entries.now name) }
{
    let mut found = HashMap::new(alloc);
    // From the last on, so that the first of a name stays.
    for number in (0..entries.len()).rev() {
        let entry = &entries[number];
        found.insert(entry.0.as_str(), entry)?;
    }
    Ok(found)
}

impl<'a, V> Index<'a, V> {
    /// The entries, each of which can be found then.
    pub(crate) fn new(alloc: Global, entries: &'a [(Name, V)]) -> Result<Index<'a, V>, NoMemory>
        ensures { IfOk result (λ index. index ≡ entries.now) }
    {
        let by_name = by_name(alloc, entries)?;
        Ok(Index { entries, by_name })
    }

    /// The first entry of this name.
    pub(crate) fn get(&self, name: &str) -> Option<&'a (Name, V)>
        ensures { option_map (λ entry. entry.now) result ≡ entry_named self.now name.now }
    {
        self.by_name.get(name).copied()
    }
}
