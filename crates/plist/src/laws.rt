ghost use Rattle.std.specs.Prelude.{◌≡◌, ◌↔◌, ℕ, List, Ok, Err};
ghost use Rattle.markup_rules.specs.Tree.{Tree};
ghost use Rattle.basics.specs.declared.fault.Spot.{Spot};
ghost use Rattle.plist.specs.Entries.{firsts};
ghost use Rattle.plist.specs.Faults.{IsFault};
ghost use Rattle.plist.specs.Reading.{value_of};
ghost use Rattle.plist.specs.Syntax.{IsPropertyList};
ghost use Rattle.plist.specs.Values.{PlainValue, Entry, at_key};

/// The reading comes to a value exactly where the tree is a property list of that value.
pub fn property_list_law()
    ensures { (tree : Tree) (value : PlainValue) → (value_of tree ≡ Ok value) ↔ IsPropertyList tree value }
{}

/// The reading comes to a fault exactly where that is the tree's first fault.
pub fn fault_law()
    ensures { (tree : Tree) (spot : Spot) → (value_of tree ≡ Err spot) ↔ IsFault tree spot }
{}

/// A key has the value of the first of the entries with this key.
pub fn first_key_law()
    ensures { (key : List ℕ) (entries : List Entry) → at_key key (firsts entries) ≡ at_key key entries }
{}
