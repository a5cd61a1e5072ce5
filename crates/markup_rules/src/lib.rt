//! What source texts mean: the texts of XML 1.0 that this project reads, the tree of each, and the one
//! fault of a text that has none. The definitions stand twice: by what is written, and as a reading from
//! left to right, which the code of crate `markup` follows; the laws here say that the two are one.
#![tactic(auto)]

ghost use Rattle.std.specs.Prelude.{◌≡◌, ◌↔◌, ℕ, List, Some, Ok, Err};
ghost use Rattle.basics.specs.declared.fault.Spot.{Spot};
ghost use Rattle.markup_rules.specs.Tree.{Tree};
ghost use Rattle.markup_rules.specs.Outcome.{outcome};
ghost use Rattle.markup_rules.specs.Faults.{fault_of};
ghost use Rattle.markup_rules.specs.Syntax.{IsTree};

/// The reading comes to a tree exactly where the text is written as a text of that tree. So `outcome` may
/// stand for "the tree of this text, or its fault" in the contracts of other crates.
pub fn tree_law()
    ensures { (text : List ℕ) (tree : Tree) → (outcome text ≡ Ok tree) ↔ IsTree text tree }
{}

/// The reading comes to a fault exactly where that is the text's first fault by items.
pub fn fault_law()
    ensures { (text : List ℕ) (fault : Spot) → (outcome text ≡ Err fault) ↔ (fault_of text ≡ Some fault) }
{}
