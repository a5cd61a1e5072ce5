ghost use Rattle.std.specs.Prelude.{◌≡◌, ℕ, ℤ, List, Ok, Some};
ghost use Rattle.markup_rules.specs.Tree.{Tree};
ghost use Rattle.attributes.specs.Attributes.{IsWithin, optional_whole, whole};
ghost use Rattle.attributes.specs.declared.limits.Limits.{Limits};

/// A whole number that is read is within its limits.
pub fn limits_law()
    ensures needed { (limits : Limits) (name : List ℕ) (tree : Tree) (number : ℤ) → whole limits name tree ≡ Ok number → IsWithin limits number }
    ensures optional { (limits : Limits) (name : List ℕ) (tree : Tree) (number : ℤ) → optional_whole limits name tree ≡ Ok (Some number) → IsWithin limits number }
{}
