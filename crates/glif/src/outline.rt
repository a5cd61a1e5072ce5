ghost use Rattle.std.specs.Prelude.{◌≡◌, codes, false, IfOk};
ghost use Rattle.basics.specs.Reading.{Gives};
ghost use Rattle.markup.specs.Plain.{plain};
ghost use Rattle.markup_rules.specs.Tree.{Tree, at_of, is_named};
ghost use Rattle.glif.specs.Glyphs.{few, no_shapes, outline_of, shape_of, with_contour};

use crate::component::read_component;
use crate::contour::read_contour;
use crate::limits::{GLYPH_POINTS, point_count};
use crate::shape::{Component, Point};
use attributes::fault;
use basics::{Kind, NoMemory, Seq, Stop, stop_at};
use markup::{Element, Tagged};
use std::alloc::Global;

/// What the elements of an `outline` draw, in their order.
#[derive(Drop)]
pub(crate) struct Shapes {
    pub(crate) contours: Seq<Seq<Point>>,
    pub(crate) components: Seq<Component>,
}

impl Shapes {
    /// Nothing drawn.
    pub(crate) fn new(alloc: Global) -> Shapes
        ensures { result ≡ no_shapes }
    {
        Shapes {
            contours: Seq::new(alloc),
            components: Seq::new(alloc),
        }
    }
}

impl Shapes {
    /// The shapes with a contour after them, where there is one.
    pub(crate) fn with_contour(self, contour: Option<Seq<Point>>) -> Result<Shapes, NoMemory>
        ensures { IfOk result (λ shapes. shapes ≡ with_contour self contour) }
    {
        let Shapes {
            mut contours,
            components,
        } = self;
        if let Some(points) = contour {
            contours.push(points)?;
        }
        Ok(Shapes {
            contours,
            components,
        })
    }

    /// The shapes of the outline at this offset, where they have at most 4,000 points in all.
    pub(crate) fn few(self, alloc: Global, at: u64) -> Result<Shapes, Stop>
        ensures { (outline : Tree) → at ≡ at_of outline → Gives (λ shapes. shapes) result (few outline self) }
    {
        let count = point_count(self.contours.as_slice());
        if (GLYPH_POINTS as i64) < count {
            return Err(stop_at(alloc, Kind::TooManyPoints, "", at, count));
        }
        Ok(self)
    }
}

/// What is drawn with one more element of the outline that is no contour.
#[tactic(auto, unfolding(crate::specs::Glyphs::shape_of))]
pub(crate) fn read_component_shape<T: Tagged>(
    alloc: Global,
    mut shapes: Shapes,
    element: &T,
) -> Result<Shapes, Stop>
    requires { is_named (codes "contour") (T.tree element.now) ≡ false }
    ensures { Gives (λ shapes. shapes) result (shape_of shapes (T.tree element.now)) }
{
    if !element.is_named("component") {
        return Err(fault(alloc, Kind::NotGlif, element));
    }
    shapes.components.push(read_component(alloc, element)?)?;
    Ok(shapes)
}

/// What is drawn with one more element of the outline.
#[tactic(auto, unfolding(crate::specs::Glyphs::shape_of))]
fn read_shape(alloc: Global, shapes: Shapes, element: &Element) -> Result<Shapes, Stop>
    ensures { Gives (λ shapes. shapes) result (shape_of shapes (plain element.now)) }
{
    if element.is_named("contour") {
        let contour = read_contour(alloc, element)?;
        return Ok(shapes.with_contour(contour)?);
    }
    read_component_shape(alloc, shapes, element)
}

/// What an outline draws.
#[tactic(auto, unfolding(crate::specs::Glyphs::outline_of))]
pub(crate) fn read_outline(alloc: Global, outline: &Element) -> Result<Shapes, Stop>
    ensures { Gives (λ shapes. shapes) result (outline_of (plain outline.now)) }
{
    let mut shapes = Shapes::new(alloc);
    for element in outline.children() {
        shapes = read_shape(alloc, shapes, element)?;
    }
    shapes.few(alloc, outline.offset())
}
