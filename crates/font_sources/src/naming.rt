ghost use Rattle.std.specs.Prelude.{◌≡◌, ◌<◌, ℕ, List, length, IfOk, IfSome};
ghost use Rattle.font_sources.specs.Naming.{position_in, position_of};

use basics::{Name, NoMemory};
use std::alloc::Global;
use std::collections::HashMap;
use std::marker::Model;

/// Names whose positions are found without a walk over them. Contracts see them as the list that they are.
#[derive(Drop)]
pub(crate) struct Positions<'a> {
    names: &'a [Name],
    by_name: HashMap<&'a str, usize>,
    ghost right: { (name : List ℕ) → position_in by_name name ≡ position_of names.now name },
}

impl<'a> Model for Positions<'a> {
    ghost use Rattle.std.specs.Prelude.{ℕ, List};

    ghost Value = { List (List ℕ) };

    ghost view = { λ positions. positions.names.now };
}

/// The position of each name, the first of equal ones.
fn by_name<'a>(alloc: Global, names: &'a [Name]) -> Result<HashMap<&'a str, usize>, NoMemory>
    ensures { IfOk result (λ found. (name : List ℕ) → position_in found name ≡ position_of names.now name) }
{
    let mut found = HashMap::new(alloc);
    // From the last on, so that the first of a name stays.
    for position in (0..names.len()).rev() {
        found.insert(names[position].as_str(), position)?;
    }
    Ok(found)
}

impl<'a> Positions<'a> {
    /// The names, each of which can be found then.
    pub(crate) fn new(alloc: Global, names: &'a [Name]) -> Result<Positions<'a>, NoMemory>
        ensures { IfOk result (λ positions. positions ≡ names.now) }
    {
        let by_name = by_name(alloc, names)?;
        Ok(Positions { names, by_name })
    }

    /// The position of the first name that is this one.
    pub(crate) fn get(&self, name: &str) -> Option<usize>
        ensures value { result ≡ position_of self.now name.now }
        ensures within { IfSome result (λ position. position < length self.now) }
    {
        self.by_name.get(name).copied()
    }
}
