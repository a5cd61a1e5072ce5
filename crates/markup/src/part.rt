ghost use Rattle.std.specs.Prelude.{OnOk};
ghost use Rattle.markup_rules.specs.Outcome.{State, changed, closed, texted};
ghost use Rattle.markup_rules.specs.Reading.{start, empty};
ghost use Rattle.markup_rules.specs.Tree.{at_of};
ghost use Rattle.markup.specs.Tags.{opening_of, tag_tree};

use crate::tag::Tag;
use basics::NoMemory;
use std::alloc::Global;

/// What is kept of a text while it is read. Each element, and each run of characters, is told as it comes; what has to
/// be kept of it is copied, since a tag lasts no longer than the call. A call fails for want of memory alone, and is the
/// last one then.
pub trait Part: Drop {
    // The part is what is kept where the open elements, with what stands in them so far, and the root, where it has
    // ended, are those of the state. In each state that is asked about no document type has stood.
    ghost Keeps: { Self → State → Type 0 };

    /// An element begins in the innermost open one.
    fn start(&mut self, alloc: Global, tag: &Tag<'_>) -> Result<(), NoMemory>
        ensures { (s : State) → Keeps self.old s → OnOk result (Keeps self.new (changed (at_of (tag_tree tag.now)) (start (opening_of tag.now)) s)) };

    /// An element that is its tag alone stands in the innermost open one.
    fn empty(&mut self, alloc: Global, tag: &Tag<'_>) -> Result<(), NoMemory>
        ensures { (s : State) → Keeps self.old s → OnOk result (Keeps self.new (changed (at_of (tag_tree tag.now)) (empty (opening_of tag.now)) s)) };

    /// The innermost open element ends.
    fn finish(&mut self, alloc: Global) -> Result<(), NoMemory>
        ensures { (s : State) → Keeps self.old s → OnOk result (Keeps self.new (closed s.frames s)) };

    /// Characters stand in the innermost open element. References among them are replaced.
    fn add_text(&mut self, alloc: Global, text: &str) -> Result<(), NoMemory>
        ensures { (s : State) → Keeps self.old s → OnOk result (Keeps self.new (texted text.now s.frames s)) };
}
