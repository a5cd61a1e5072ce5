ghost use Rattle.std.specs.Prelude.{◌≡◌, true, length, OnOk};
ghost use Rattle.markup_rules.specs.Faults.{beginning, closed_context, is_allowed_at, is_innermost, lacks_end};
ghost use Rattle.markup.specs.Places.{context_at, entered, passed};
ghost use Rattle.markup.specs.Views.{item_view, markup_view};

use crate::bytes::are_blanks;
use crate::items::Item;
use crate::markup::Markup;
use crate::tag::is_same;
use basics::NoMemory;
use std::alloc::Global;

/// Where a reader stands: the names of the innermost open element and of those around it, the outermost first, whether
/// a root has ended, and whether a document type has stood.
#[derive(Drop)]
pub(crate) struct Place<'t> {
    innermost: Option<&'t str>,
    outer: Vec<&'t str>,
    is_rooted: bool,
    is_declared: bool,
}

impl<'t> Place<'t> {
    /// The start of a text.
    pub(crate) fn new(alloc: Global) -> Place<'t>
        ensures { context_at result ≡ beginning }
    {
        Place {
            innermost: None,
            outer: Vec::new(alloc),
            is_rooted: false,
            is_declared: false,
        }
    }

    /// How many elements are open.
    #[inline]
    pub(crate) fn depth(&self) -> usize
        ensures { result ≡ length (context_at self.now).names }
    {
        match &self.innermost {
            Some(_) => self.outer.len() + 1,
            None => 0,
        }
    }

    /// Whether a root has ended.
    #[inline]
    pub(crate) fn is_rooted(&self) -> bool
        ensures { result ≡ (context_at self.now).rooted }
    {
        self.is_rooted
    }

    /// Whether the innermost open element has this name.
    #[inline]
    fn is_innermost(&self, name: &str) -> bool
        ensures { result ≡ is_innermost name.now (context_at self.now).names }
    {
        match self.innermost {
            Some(open) => is_same(name, open),
            None => false,
        }
    }

    /// Whether an item that starts no element is of a right form and may stand here.
    #[inline]
    pub(crate) fn allows(&self, markup: &Markup<'_>) -> bool
        ensures { result ≡ is_allowed_at (context_at self.now) (markup_view markup.now) }
    {
        match markup {
            Markup::Finish(name) => self.is_innermost(name),
            Markup::Aside => true,
            Markup::Doctype => self.innermost.is_none() && !self.is_rooted && !self.is_declared,
            Markup::Content(bytes, _) => self.innermost.is_some() || are_blanks(bytes),
            Markup::Bad => false,
        }
    }

    /// Whether an item of this form isn't ended here.
    #[inline]
    pub(crate) fn lacks_end(&self, item: Item<'_>) -> bool
        ensures { result ≡ lacks_end (context_at self.now) (item_view item.entry) }
    {
        match item {
            Item::Unended => true,
            Item::DataToEnd(_) => self.innermost.is_some(),
            _ => false,
        }
    }

    /// An element of this name begins.
    #[inline]
    pub(crate) fn enter(&mut self, name: &'t str) -> Result<(), NoMemory>
        ensures { OnOk result (context_at self.new ≡ entered name.now (context_at self.old)) }
    {
        match self.innermost.take() {
            Some(parent) => self.outer.push(parent)?,
            None => self.outer.clear(),
        }
        self.innermost = Some(name);
        Ok(())
    }

    /// An element that is its tag alone has ended.
    #[inline]
    pub(crate) fn pass(&mut self)
        ensures { context_at self.new ≡ passed (context_at self.old) }
    {
        if self.innermost.is_none() {
            self.is_rooted = true;
        }
    }

    /// The innermost open element ends.
    #[inline]
    pub(crate) fn leave(&mut self)
        ensures { context_at self.new ≡ closed_context (context_at self.old).names (context_at self.old) }
    {
        if self.innermost.is_some() {
            self.innermost = self.outer.pop();
            self.pass();
        }
    }

    /// A document type has stood.
    #[inline]
    pub(crate) fn declare(&mut self)
        ensures { context_at self.new ≡ record (context_at self.old) { declared = true } }
    {
        self.is_declared = true;
    }
}
