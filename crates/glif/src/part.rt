ghost use Rattle.std.specs.Prelude.{◌≡◌, ℕ, List, [], ◌∷◌, Option, Some, None, Ok, IfOk, OnOk};
ghost use Rattle.basics.specs.Reading.{Gives};
ghost use Rattle.markup_rules.specs.Outcome.{Frame, State, begun, closed, ended};
ghost use Rattle.markup_rules.specs.Tree.{Tree, Trees, at_of};
ghost use Rattle.markup.specs.Tags.{opening_of, tag_tree};
ghost use Rattle.glif.specs.Glyphs.{drawing_of};
ghost use Rattle.glif.specs.Texts.{drawing_of_text};
ghost use Rattle.glif.specs.Parts.{IsInContour, IsInOutline, IsKept, IsPlace, glyph_of, going_on, named, with_child, with_outline, with_points, with_seen};

use crate::contour::Contour;
use crate::glyph::{Seen, drawn, is_first_outline, open_glyph, read_other_child};
use crate::held::held;
use crate::outline::{Shapes, read_component_shape};
use crate::shape::{Drawing, Point};
use basics::{Name, NoMemory, Seq, Spot, Stop};
use markup::{Part, Tag, Tagged, read_part};
use std::alloc::Global;
use std::mem;

/// A glyph with what its elements have given so far.
#[derive(Drop)]
pub(crate) struct Glyph {
    pub(crate) name: Name,
    pub(crate) seen: Seen,
}

/// An outline that is open, in a glyph without a fault so far.
#[derive(Drop)]
pub(crate) struct OpenOutline {
    /// The glyph as it is before the outline.
    pub(crate) glyph: Glyph,
    /// The offset of the outline.
    pub(crate) at: u64,
    /// What its elements have given so far, or the first fault.
    pub(crate) shapes: Result<Shapes, Spot>,
}

/// A contour that is open, in an outline without a fault so far.
#[derive(Drop)]
pub(crate) struct OpenContour {
    /// The glyph as it is before the outline.
    pub(crate) glyph: Glyph,
    /// The offset of the outline.
    pub(crate) outline: u64,
    /// What the outline's elements before the contour have given.
    pub(crate) shapes: Shapes,
    /// The offset of the contour.
    pub(crate) at: u64,
    /// What its elements have given so far.
    pub(crate) contour: Contour,
}

/// Where in a GLIF the text stands, but for what is passed over.
#[derive(Drop)]
pub(crate) enum Place {
    /// Before the root.
    Before,
    /// In the root: the glyph, or the first fault.
    Glyph(Result<Glyph, Spot>),
    /// In the first `outline` of the glyph.
    Outline(OpenOutline),
    /// In a `contour` of the outline.
    Contour(OpenContour),
    /// After the root: the drawing, or the first fault.
    After(Result<Drawing, Spot>),
}

/// What is kept of a GLIF while its text is read: the drawing as far as it is known. Of what is passed over nothing is
/// kept, and after a fault all is.
#[derive(Drop)]
pub(crate) struct DrawingPart {
    pub(crate) place: Place,
    /// How many of the open elements are passed over, one in another.
    pub(crate) passed: u64,
}

/// The place itself.
fn at_place(place: Place) -> DrawingPart
    ensures { result ≡ record { place = place; passed = 0 } }
{
    DrawingPart { place, passed: 0 }
}

/// The place with an element in it that is passed over.
fn passing_at(place: Place) -> DrawingPart
    ensures { result ≡ record { place = place; passed = 1 } }
{
    DrawingPart { place, passed: 1 }
}

/// The glyph of this name, of which this is seen.
fn with_seen(name: Name, seen: Result<Seen, Spot>) -> Result<Glyph, Spot>
    ensures { result ≡ with_seen name seen }
{
    match seen {
        Ok(seen) => Ok(Glyph { name, seen }),
        Err(spot) => Err(spot),
    }
}

/// The glyph of this name, of which nothing is seen.
fn named(alloc: Global, name: Result<Name, Spot>) -> Result<Glyph, Spot>
    ensures { result ≡ named name }
{
    match name {
        Ok(name) => Ok(Glyph {
            name,
            seen: Seen::new(alloc),
        }),
        Err(spot) => Err(spot),
    }
}

/// What is kept where the root begins.
fn start_root(alloc: Global, tag: &Tag<'_>) -> Result<DrawingPart, NoMemory>
    ensures { (root : Option Tree) → IfOk result (λ part. IsKept part root (begun (at_of (tag_tree tag.now)) (opening_of tag.now) ∷ [])) }
{
    let name = held(open_glyph(alloc, tag))?;
    Ok(at_place(Place::Glyph(named(alloc, name))))
}

/// What is kept where an element of a glyph without a fault begins.
fn start_child(alloc: Global, glyph: Glyph, tag: &Tag<'_>) -> Result<DrawingPart, NoMemory>
    ensures { (root : Option Tree) (g : Frame) → glyph_of g ≡ Ok glyph → IfOk result (λ part. IsKept part root (begun (at_of (tag_tree tag.now)) (opening_of tag.now) ∷ g ∷ [])) }
{
    if is_first_outline(&glyph.seen, tag) {
        return Ok(at_place(Place::Outline(OpenOutline {
            glyph,
            at: tag.offset(),
            shapes: Ok(Shapes::new(alloc)),
        })));
    }
    let Glyph { name, seen } = glyph;
    let seen = held(read_other_child(alloc, seen, tag))?;
    Ok(passing_at(Place::Glyph(with_seen(name, seen))))
}

/// What is kept where an element of an outline begins.
fn start_shape(alloc: Global, outline: OpenOutline, tag: &Tag<'_>) -> Result<DrawingPart, NoMemory>
    ensures { (root : Option Tree) (o g : Frame) → IsInOutline outline o g → IfOk result (λ part. IsKept part root (begun (at_of (tag_tree tag.now)) (opening_of tag.now) ∷ o ∷ g ∷ [])) }
{
    let OpenOutline { glyph, at, shapes } = outline;
    let shapes = match shapes {
        Ok(shapes) => shapes,
        Err(spot) => {
            let shapes = Err(spot);
            return Ok(passing_at(Place::Outline(OpenOutline { glyph, at, shapes })));
        }
    };
    if tag.is_named("contour") {
        return Ok(at_place(Place::Contour(OpenContour {
            glyph,
            outline: at,
            shapes,
            at: tag.offset(),
            contour: Contour::new(alloc),
        })));
    }
    let shapes = held(read_component_shape(alloc, shapes, tag))?;
    Ok(passing_at(Place::Outline(OpenOutline { glyph, at, shapes })))
}

/// What is kept where an element of a contour begins.
fn start_point(
    alloc: Global,
    mut contour: OpenContour,
    tag: &Tag<'_>,
) -> Result<DrawingPart, NoMemory>
    ensures { (root : Option Tree) (c o g : Frame) → IsInContour contour c o g → IfOk result (λ part. IsKept part root (begun (at_of (tag_tree tag.now)) (opening_of tag.now) ∷ c ∷ o ∷ g ∷ [])) }
{
    contour.contour.take(alloc, tag)?;
    Ok(passing_at(Place::Contour(contour)))
}

/// What is kept where an element begins in this place.
fn start_in(alloc: Global, place: Place, tag: &Tag<'_>) -> Result<DrawingPart, NoMemory>
    ensures { (root : Option Tree) (frames : List Frame) → IsPlace place root frames → IfOk result (λ part. IsKept part root (begun (at_of (tag_tree tag.now)) (opening_of tag.now) ∷ frames)) }
{
    match place {
        Place::Before => start_root(alloc, tag),
        Place::Glyph(Ok(glyph)) => start_child(alloc, glyph, tag),
        Place::Glyph(Err(spot)) => Ok(passing_at(Place::Glyph(Err(spot)))),
        Place::Outline(outline) => start_shape(alloc, outline, tag),
        Place::Contour(contour) => start_point(alloc, contour, tag),
        Place::After(_) => start_root(alloc, tag),
    }
}

/// The drawing of a glyph that has ended.
fn end_glyph(alloc: Global, glyph: Result<Glyph, Spot>) -> Result<Drawing, Spot>
    ensures { (g : Frame) → glyph_of g ≡ glyph → drawing_of (ended g) ≡ result }
{
    match glyph {
        Ok(Glyph { name, seen }) => Ok(drawn(alloc, name, seen)),
        Err(spot) => Err(spot),
    }
}

/// The glyph with what its first outline draws.
fn with_outline(glyph: Glyph, shapes: Result<Shapes, Spot>) -> Result<Glyph, Spot>
    ensures { result ≡ with_outline glyph shapes }
{
    let Glyph { name, seen } = glyph;
    let Seen { width, codes, .. } = seen;
    match shapes {
        Ok(shapes) => {
            let shapes = Some(shapes);
            let seen = Seen {
                width,
                codes,
                shapes,
            };
            Ok(Glyph { name, seen })
        }
        Err(spot) => Err(spot),
    }
}

/// The glyph after its first outline has ended.
fn end_outline(alloc: Global, outline: OpenOutline) -> Result<Result<Glyph, Spot>, NoMemory>
    ensures { (o g : Frame) → IsInOutline outline o g → IfOk result (λ glyph. glyph_of (with_child g (ended o)) ≡ glyph) }
{
    let OpenOutline { glyph, at, shapes } = outline;
    match shapes {
        Ok(shapes) => Ok(with_outline(glyph, held(shapes.few(alloc, at))?)),
        Err(spot) => Ok(Err(spot)),
    }
}

/// The shapes with a contour after them, where there is one and it has no fault.
fn with_points(
    shapes: Shapes,
    contour: Result<Option<Seq<Point>>, Spot>,
) -> Result<Result<Shapes, Spot>, NoMemory>
    ensures { IfOk result (λ drawn. drawn ≡ with_points shapes contour) }
{
    match contour {
        Ok(points) => Ok(Ok(shapes.with_contour(points)?)),
        Err(spot) => Ok(Err(spot)),
    }
}

/// The outline after a contour of it has ended.
fn end_contour(alloc: Global, contour: OpenContour) -> Result<OpenOutline, NoMemory>
    ensures { (c o g : Frame) → IsInContour contour c o g → IfOk result (λ outline. IsInOutline outline (with_child o (ended c)) g) }
{
    let OpenContour {
        glyph,
        outline,
        shapes,
        at,
        contour,
    } = contour;
    let shapes = with_points(shapes, held(contour.end(alloc, at))?)?;
    Ok(OpenOutline {
        glyph,
        at: outline,
        shapes,
    })
}

/// Where the text stands after the innermost open element has ended, which isn't passed over.
fn end_in(alloc: Global, place: Place) -> Result<Place, NoMemory>
    ensures { (s : State) → IsPlace place s.root s.frames → IfOk result (λ next. IsPlace next (closed s.frames s).root (closed s.frames s).frames) }
{
    match place {
        Place::Before => Ok(Place::Before),
        Place::Glyph(glyph) => Ok(Place::After(end_glyph(alloc, glyph))),
        Place::Outline(outline) => Ok(Place::Glyph(end_outline(alloc, outline)?)),
        Place::Contour(contour) => Ok(Place::Outline(end_contour(alloc, contour)?)),
        Place::After(drawing) => Ok(Place::After(drawing)),
    }
}

impl DrawingPart {
    /// Begins an element in the innermost open one.
    fn begin(&mut self, alloc: Global, tag: &Tag<'_>) -> Result<(), NoMemory>
        ensures { (root : Option Tree) (frames : List Frame) → IsKept self.old root frames → OnOk result (IsKept self.new root (begun (at_of (tag_tree tag.now)) (opening_of tag.now) ∷ frames)) }
    {
        if self.passed > 0 {
            let Some(passed) = self.passed.checked_add(1) else {
                return Err(NoMemory);
            };
            self.passed = passed;
            return Ok(());
        }
        // Most elements are points, so their contour is not moved.
        if let Place::Contour(contour) = &mut self.place {
            contour.contour.take(alloc, tag)?;
            self.passed = 1;
            return Ok(());
        }
        let place = mem::replace(&mut self.place, Place::Before);
        *self = start_in(alloc, place, tag)?;
        Ok(())
    }

    /// Ends the innermost open element.
    fn end(&mut self, alloc: Global) -> Result<(), NoMemory>
        ensures { (s : State) → IsKept self.old s.root s.frames → OnOk result (IsKept self.new (closed s.frames s).root (closed s.frames s).frames) }
    {
        if self.passed > 0 {
            self.passed -= 1;
            return Ok(());
        }
        let place = mem::replace(&mut self.place, Place::Before);
        self.place = end_in(alloc, place)?;
        Ok(())
    }
}

impl Part for DrawingPart {
    ghost use Rattle.glif.specs.Parts.{IsKept};

    ghost Keeps = { λ part s. IsKept part s.root s.frames };

    fn start(&mut self, alloc: Global, tag: &Tag<'_>) -> Result<(), NoMemory> {
        self.begin(alloc, tag)
    }

    fn empty(&mut self, alloc: Global, tag: &Tag<'_>) -> Result<(), NoMemory> {
        self.begin(alloc, tag)?;
        self.end(alloc)
    }

    fn finish(&mut self, alloc: Global) -> Result<(), NoMemory> {
        self.end(alloc)
    }

    fn add_text(&mut self, _alloc: Global, _text: &str) -> Result<(), NoMemory> {
        Ok(())
    }
}

/// The drawing of a whole text.
fn whole(place: Place) -> Result<Drawing, Stop>
    ensures { (tree : Tree) → IsPlace place (Some tree) [] → Gives (λ drawing. drawing) result (drawing_of tree) }
{
    match place {
        Place::After(Ok(drawing)) => Ok(drawing),
        Place::After(Err(spot)) => Err(Stop::At(spot)),
        _ => Err(Stop::NoMemory),
    }
}

/// Reads the drawing of the text of a GLIF.
pub(crate) fn read_drawing_text(alloc: Global, text: &[u8]) -> Result<Drawing, Stop>
    ensures { Gives (λ drawing. drawing) result (drawing_of_text text.now) }
{
    let part = read_part(alloc, at_place(Place::Before), text)?;
    whole(part.place)
}
