ghost use Rattle.std.specs.Prelude.{◌≡◌, map, option_map};
ghost use Rattle.std.specs.Str.{bytes_eq};
ghost use Rattle.markup_rules.specs.Tree.{Tree, at_of, attribute_of, is_named, lookup, name_of};
ghost use Rattle.markup.specs.Views.{attribute_view, text_bytes};

use crate::element::Element;
use crate::text::Text;

/// An attribute of a tag: its name, and its value, in which references are replaced.
#[derive(Drop)]
pub struct Attribute<'a> {
    pub(crate) name: &'a str,
    pub(crate) value: Text<'a>,
}

impl<'a> Attribute<'a> {
    /// The name, as it stands in the text.
    pub fn name(&self) -> &str
        ensures { result.now ≡ self.now.name.now }
    {
        self.name
    }

    /// What the value means.
    pub fn value(&self) -> &str
        ensures { result.now ≡ text_bytes self.now.value }
    {
        self.value.as_str()
    }
}

/// The start of an element as it stands in the text.
#[derive(Clone, Copy)]
pub struct Tag<'t> {
    /// The name of the element.
    pub(crate) name: &'t str,
    /// Its attributes in their order; of those with one name, the first alone.
    pub(crate) attributes: &'t [Attribute<'t>],
    /// The offset of its `<` in the text, in bytes.
    pub(crate) at: u64,
}

/// Whether two texts are the same. Most that aren't differ in length.
#[inline]
#[tactic(auto, using(crate::proofs::Lengths::apart))]
pub(crate) fn is_same(a: &str, b: &str) -> bool
    ensures { result ≡ bytes_eq a.now b.now }
{
    a.len() == b.len() && a == b
}

/// The value of the attribute of this name, if it is among these.
fn value_of<'a>(attributes: &'a [Attribute<'a>], name: &str) -> Option<&'a str>
    ensures { option_map (λ value. value.now) result ≡ lookup name.now (map attribute_view attributes.now) }
{
    for attribute in attributes {
        if is_same(attribute.name, name) {
            return Some(attribute.value.as_str());
        }
    }
    None
}

/// What has a tag, as an element and its tag alone have: a name, attributes and an offset.
pub trait Tagged {
    // The element; of a tag alone, the element with nothing in it.
    ghost tree: { Self → Tree };

    /// The element's name.
    fn name(&self) -> &str
        ensures { result.now ≡ name_of (tree self.now) };

    /// Whether the element has this name.
    fn is_named(&self, name: &str) -> bool
        ensures { result ≡ is_named name.now (tree self.now) };

    /// The value of an attribute, if the element has it.
    fn attribute(&self, name: &str) -> Option<&str>
        ensures { option_map (λ value. value.now) result ≡ attribute_of name.now (tree self.now) };

    /// The offset of its `<` in the text, in bytes.
    fn offset(&self) -> u64
        ensures { result ≡ at_of (tree self.now) };
}

impl<'t> Tagged for Tag<'t> {
    ghost use Rattle.markup.specs.Tags.{tag_tree};

    ghost tree = { tag_tree };

    #[inline]
    fn name(&self) -> &str {
        self.name
    }

    #[inline]
    fn is_named(&self, name: &str) -> bool {
        is_same(self.name, name)
    }

    #[inline]
    fn attribute(&self, name: &str) -> Option<&str> {
        value_of(self.attributes, name)
    }

    #[inline]
    fn offset(&self) -> u64 {
        self.at
    }
}

impl Tagged for Element {
    ghost use Rattle.markup.specs.Plain.{plain};

    ghost tree = { plain };

    fn name(&self) -> &str {
        Element::name(self)
    }

    fn is_named(&self, name: &str) -> bool {
        Element::is_named(self, name)
    }

    fn attribute(&self, name: &str) -> Option<&str> {
        Element::attribute(self, name)
    }

    fn offset(&self) -> u64 {
        Element::offset(self)
    }
}
