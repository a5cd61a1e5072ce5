ghost use Rattle.std.specs.Prelude.{◌≡◌, ◌||◌, ◌==◌, ℕ, [], ◌∷◌, ◌++◌, find, Some, IfOk};
ghost use Rattle.std.specs.List.{list_any};
ghost use Rattle.std.specs.Ordering.{nat_cmp};
ghost use Rattle.std.specs.BTreeSet.{contains};
ghost use Rattle.ufo_source.specs.Glyphs.{is_taken};

use basics::{NoMemory, Seq};
use glif::Drawing;
use std::alloc::Global;
use std::collections::BTreeSet;
use std::marker::Model;

/// The glyphs that are read so far. Contracts see the list; the set tells quickly whether one of them has a code
/// point.
#[derive(Drop)]
pub(crate) struct Glyphs {
    drawings: Seq<Option<Drawing>>,
    taken: BTreeSet<u32>,
}

impl Model for Glyphs {
    ghost use Rattle.std.specs.Prelude.{◌≡◌, ℕ, List, Option};
    ghost use Rattle.std.specs.Ordering.{nat_cmp};
    ghost use Rattle.std.specs.BTreeSet.{contains};
    ghost use Rattle.glif.specs.declared.shape.Drawing.{Drawing};
    ghost use Rattle.ufo_source.specs.Glyphs.{is_taken};

    ghost Value = { List (Option Drawing) };

    ghost view = { λ g. g.drawings };

    // The set has exactly the code points of the glyphs.
    ghost invariant = { λ g. (q : ℕ) → contains nat_cmp g.taken q ≡ is_taken g.drawings q };
}

/// The code points with more of them.
fn with_codes(taken: BTreeSet<u32>, codes: &[u32]) -> Result<BTreeSet<u32>, NoMemory>
    ensures { IfOk result (λ all. (q : ℕ) → contains nat_cmp all q ≡ (contains nat_cmp taken q || list_any (λ other. other == q) codes.now)) }
{
    let mut taken = taken;
    for code in codes {
        taken.insert(*code)?;
    }
    Ok(taken)
}

impl Glyphs {
    /// No glyphs.
    pub(crate) fn new(alloc: Global) -> Glyphs
        ensures { result ≡ [] }
    {
        Glyphs {
            drawings: Seq::new(alloc),
            taken: BTreeSet::new(alloc),
        }
    }

    /// Whether one of the glyphs has the code point.
    fn has(&self, code: u32) -> bool
        ensures { result ≡ is_taken self.now code }
    {
        let _ = &self.drawings;
        self.taken.contains(&code)
    }

    /// The first of these code points that one of the glyphs has.
    pub(crate) fn first_taken(&self, codes: &[u32]) -> Option<u32>
        ensures { result ≡ find (is_taken self.now) codes.now }
    {
        codes.iter().copied().find(|code| self.has(*code))
    }

    /// The glyphs with one more after them.
    pub(crate) fn with(self, drawing: Drawing) -> Result<Glyphs, NoMemory>
        ensures { IfOk result (λ glyphs. glyphs ≡ self ++ Some drawing ∷ []) }
    {
        let Glyphs {
            mut drawings,
            taken,
        } = self;
        let taken = with_codes(taken, drawing.codes.as_slice())?;
        drawings.push(Some(drawing))?;
        Ok(Glyphs { drawings, taken })
    }

    /// The list of the glyphs.
    pub(crate) fn into_seq(self) -> Seq<Option<Drawing>>
        ensures { result ≡ self }
    {
        self.drawings
    }
}
