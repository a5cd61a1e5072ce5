ghost use Rattle.std.specs.Prelude.{◌≡◌, ◌++◌, ◌∷◌, [], map, Ok, Err, Some, IfOk, IfErr, OnOk};
ghost use Rattle.basics.specs.Reading.{Gives};
ghost use Rattle.basics.specs.declared.fault.Spot.{Spot};
ghost use Rattle.markup_rules.specs.Faults.{fault_of};
ghost use Rattle.markup_rules.specs.Syntax.{IsTree};
ghost use Rattle.markup_rules.specs.Tree.{Tree, at_of};
ghost use Rattle.markup_rules.specs.Outcome.{State, adopted, begun, closed, initial, outcome, texted};
ghost use Rattle.markup.specs.Plain.{plain};
ghost use Rattle.markup.specs.States.{IsFault, frame_of, state_of};
ghost use Rattle.markup.specs.Tags.{opening_of, tag_tree};
ghost use Rattle.markup.specs.Views.{attribute_view};

use crate::element::Element;
use crate::part::Part;
use crate::reader::read_part;
use crate::tag::{Attribute, Tag};
use basics::{Name, NoMemory, Seq, Stop};
use std::alloc::Global;

/// An element that is open, with what stands in it so far.
#[derive(Drop)]
pub(crate) struct Open {
    name: Name,
    attributes: Seq<(Name, Name)>,
    children: Vec<Element>,
    text: String,
    at: u64,
}

/// The part that keeps the whole: the innermost open element and those around it, the outermost first, and the root
/// where it has ended.
#[derive(Drop)]
pub(crate) struct TreePart {
    innermost: Option<Open>,
    outer: Vec<Open>,
    root: Option<Element>,
}

/// A copy of attributes.
fn copied(alloc: Global, attributes: &[Attribute<'_>]) -> Result<Seq<(Name, Name)>, NoMemory>
    ensures { IfOk result (λ copy. copy ≡ map attribute_view attributes.now) }
{
    let mut copy = Vec::with_capacity(alloc, attributes.len())?;
    for attribute in attributes {
        let name = Name::from_str(alloc, attribute.name)?;
        copy.push((name, Name::from_str(alloc, attribute.value.as_str())?))?;
    }
    Ok(Seq::from_vec(copy))
}

impl Open {
    /// An element that has just begun.
    fn new(alloc: Global, tag: &Tag<'_>) -> Result<Open, NoMemory>
        ensures { IfOk result (λ begun_one. frame_of begun_one ≡ begun (at_of (tag_tree tag.now)) (opening_of tag.now)) }
    {
        Ok(Open {
            name: Name::from_str(alloc, tag.name)?,
            attributes: copied(alloc, tag.attributes)?,
            children: Vec::new(alloc),
            text: String::new(alloc),
            at: tag.at,
        })
    }

    /// The element where it has ended, which takes no more memory than it needs.
    fn end(self, alloc: Global) -> Result<Element, NoMemory>
        ensures { IfOk result (λ element. plain element ≡ Rattle.markup_rules.specs.Outcome.ended (frame_of self)) }
    {
        let mut children = self.children;
        children.shrink_to_fit();
        let text = Name::from_str(alloc, self.text.as_str())?;
        Ok(Element {
            name: self.name,
            attributes: self.attributes,
            children,
            text,
            at: self.at,
        })
    }
}

/// Adds an element to those of its parent. The first takes no room for more, since many parents have one.
fn push_child(children: &mut Vec<Element>, child: Element) -> Result<(), NoMemory>
    ensures { OnOk result (children.new.items ≡ children.old.items ++ child ∷ []) }
{
    if children.is_empty() {
        children.reserve_exact(1)?;
    }
    children.push(child)?;
    Ok(())
}

impl TreePart {
    /// Nothing read so far.
    fn new(alloc: Global) -> TreePart
        ensures { state_of result ≡ initial }
    {
        TreePart {
            innermost: None,
            outer: Vec::new(alloc),
            root: None,
        }
    }

    /// Begins an element in the innermost open one.
    fn begin(&mut self, element: Open) -> Result<(), NoMemory>
        ensures { OnOk result (state_of self.new ≡ record (state_of self.old) { frames = frame_of element ∷ (state_of self.old).frames }) }
    {
        match self.innermost.take() {
            Some(parent) => self.outer.push(parent)?,
            None => self.outer.clear(),
        }
        self.innermost = Some(element);
        Ok(())
    }

    /// Gives an element that has ended to the innermost open one, or makes it the root.
    fn adopt(&mut self, element: Element) -> Result<(), NoMemory>
        ensures { OnOk result (state_of self.new ≡ adopted (plain element) (state_of self.old).frames (state_of self.old)) }
    {
        match &mut self.innermost {
            Some(parent) => push_child(&mut parent.children, element)?,
            None => self.root = Some(element),
        }
        Ok(())
    }

    /// Ends the innermost open element.
    fn close(&mut self, alloc: Global) -> Result<(), NoMemory>
        ensures { OnOk result (state_of self.new ≡ closed (state_of self.old).frames (state_of self.old)) }
    {
        match self.innermost.take() {
            Some(open) => {
                let element = open.end(alloc)?;
                self.innermost = self.outer.pop();
                self.adopt(element)
            }
            None => Ok(()),
        }
    }

    /// Adds characters to the innermost open element.
    fn push_text(&mut self, text: &str) -> Result<(), NoMemory>
        ensures { OnOk result (state_of self.new ≡ texted text.now (state_of self.old).frames (state_of self.old)) }
    {
        if let Some(open) = &mut self.innermost {
            open.text.push_str(text)?;
        }
        Ok(())
    }
}

impl Part for TreePart {
    ghost Keeps = { λ part s. state_of part ≡ s };

    fn start(&mut self, alloc: Global, tag: &Tag<'_>) -> Result<(), NoMemory> {
        self.begin(Open::new(alloc, tag)?)
    }

    fn empty(&mut self, alloc: Global, tag: &Tag<'_>) -> Result<(), NoMemory> {
        let element = Open::new(alloc, tag)?.end(alloc)?;
        self.adopt(element)
    }

    fn finish(&mut self, alloc: Global) -> Result<(), NoMemory> {
        self.close(alloc)
    }

    fn add_text(&mut self, _alloc: Global, text: &str) -> Result<(), NoMemory> {
        self.push_text(text)
    }
}

/// Reads the tree of a text.
fn read_tree(alloc: Global, text: &[u8]) -> Result<Element, Stop>
    ensures { Gives plain result (outcome text.now) }
{
    let part = read_part(alloc, TreePart::new(alloc), text)?;
    let root = part.root;
    match root {
        Some(root) => Ok(root),
        None => Err(Stop::NoMemory),
    }
}

/// Reads the tree of a source text: XML 1.0 in UTF-8, perhaps after the bytes EF BB BF, and without CDATA
/// sections, entities of its own and an internal document type. Comments, instructions and one document
/// type before the root mean nothing. Of two attributes with one name the first counts, and is the only one
/// in the tree. References are those of XML by name, `&amp;`, `&lt;`, `&gt;`, `&quot;` and `&apos;`, and by
/// number. Line ends stay as they are. At most 64 elements may stand one in another. Namespaces are no
/// matter: a colon is a letter of a name.
///
/// # Errors
///
/// `Stop::At` with a `Spot` of a kind and an offset alone, exactly where the text isn't of that form. The offset
/// is an offset in bytes, the three before it included. The text is taken item by item, an item being a
/// comment, an instruction, a declaration, a tag or the characters between; the first faulty item decides.
/// Of one item the kind is TooDeep where it begins an element inside 64 others, at the item; Unfinished
/// where it has no end, at the length of the text; BadText where it isn't of a right form or may not stand
/// there, at the item. Where no item is faulty and no root element has ended, it is Unfinished.
/// `Stop::NoMemory` where memory ran out.
pub fn read(alloc: Global, text: &[u8]) -> Result<Element, Stop>
    // Which tree it is, and which fault: the words for contracts of other crates.
    ensures exact { Gives plain result (outcome text.now) }
    // What is read is written so.
    ensures found { IfOk result (λ element. IsTree text.now (plain element)) }
    // What is written so is read, unless memory runs out.
    ensures only { (tree : Tree) → IsTree text.now tree → Gives plain result (Ok tree) }
    // A fault is the first one of the text by items.
    ensures fault { IfErr result (IsFault text.now) }
    // And a text with a fault is refused for it.
    ensures faulty { (fault : Spot) → fault_of text.now ≡ Some fault → Gives plain result (Err fault) }
{
    read_tree(alloc, text)
}
