use basics::{Name, Seq};

/// An element of a source text.
#[derive(Drop)]
pub struct Element {
    /// The name in its tags.
    pub name: Name,
    /// The names and values of its attributes in their order; of those with one name, the first alone.
    pub attributes: Seq<(Name, Name)>,
    /// The elements in it, in their order.
    pub children: Vec<Element>,
    /// Its own characters and references in their order, without those of its children.
    pub text: Name,
    /// The offset of its `<` in the text, in bytes.
    pub at: u64,
}

impl Element {
    ghost use Rattle.std.specs.Prelude.{◌≡◌, map, option_map};
    ghost use Rattle.markup_rules.specs.Tree.{at_of, attribute_of, attributes_of, children_of, is_named, name_of, text_of};
    ghost use Rattle.markup.specs.Plain.{plain};

    /// The element's name.
    #[tactic(auto, using(crate::proofs::PlainLemmas::name_plain))]
    pub fn name(&self) -> &str
        ensures { result.now ≡ name_of (plain self.now) }
    {
        self.name.as_str()
    }

    /// Whether the element has this name.
    #[tactic(auto, using(crate::proofs::PlainLemmas::name_plain))]
    pub fn is_named(&self, name: &str) -> bool
        ensures { result ≡ is_named name.now (plain self.now) }
    {
        self.name() == name
    }

    /// The names and values of its attributes, in their order; no two have one name.
    #[tactic(auto, using(crate::proofs::PlainLemmas::attributes_plain))]
    pub fn attributes(&self) -> &[(Name, Name)]
        ensures { result.now ≡ attributes_of (plain self.now) }
    {
        self.attributes.as_slice()
    }

    /// The value of an attribute, if the element has it.
    #[tactic(auto, using(crate::proofs::PlainLemmas::attributes_plain))]
    pub fn attribute(&self, name: &str) -> Option<&str>
        ensures { option_map (λ value. value.now) result ≡ attribute_of name.now (plain self.now) }
    {
        for (key, value) in self.attributes.as_slice() {
            if key.as_str() == name {
                return Some(value.as_str());
            }
        }
        None
    }

    /// The elements in it, in their order.
    #[tactic(auto, using(crate::proofs::PlainLemmas::children_plain))]
    pub fn children(&self) -> &[Element]
        ensures { map plain result.now ≡ children_of (plain self.now) }
    {
        self.children.as_slice()
    }

    /// Its own text, without its children's.
    #[tactic(auto, using(crate::proofs::PlainLemmas::text_plain))]
    pub fn text(&self) -> &str
        ensures { result.now ≡ text_of (plain self.now) }
    {
        self.text.as_str()
    }

    /// The offset of its `<` in the text, in bytes.
    #[tactic(auto, using(crate::proofs::PlainLemmas::at_plain))]
    pub fn offset(&self) -> u64
        ensures { result ≡ at_of (plain self.now) }
    {
        self.at
    }
}
