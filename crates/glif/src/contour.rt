ghost use Rattle.std.specs.Prelude.{◌≡◌, ◌++◌, ◌∷◌, [], List, Ok, OnOk, if◌then◌else◌};
ghost use Rattle.std.specs.Option.{option_or};
ghost use Rattle.basics.specs.Reading.{Gives};
ghost use Rattle.markup.specs.Plain.{plain};
ghost use Rattle.markup_rules.specs.Tree.{Tree, at_of, children_of};
ghost use Rattle.glif.specs.Contours.{closed, contour_of, ends_on, line_after_off, points_of, type_of};
ghost use Rattle.glif.specs.Gathered.{AreDrawn, IsContour, IsDrawn, is_passed, with_point};

use crate::held::held;
use crate::limits::CONTOUR_POINTS;
use crate::point::{PointType, read_point, type_of};
use crate::shape::Point;
use basics::{Kind, NoMemory, Seq, Spot, Stop, stop_at};
use markup::{Element, Tagged};
use std::alloc::Global;

/// What the elements of a contour draw, where none of them is faulty.
#[derive(Drop)]
pub(crate) struct Drawn {
    /// The point of each.
    pub(crate) points: Seq<Point>,
    /// Whether the first one is a `move`, which makes an open contour.
    pub(crate) is_open: bool,
    /// The offset of the first one, where it ends a straight line.
    pub(crate) first_line: Option<u64>,
    /// The offset of the first later one that ends a straight line from a point off the curve.
    pub(crate) later_line: Option<u64>,
}

/// What a contour is by its elements `point`.
#[derive(Clone, Copy)]
pub(crate) enum ContourKind {
    /// There is none.
    Empty,
    /// There is one, a `move`, with which editors of old wrote an anchor.
    Anchor,
    /// There are others.
    Full,
}

/// What the elements of a contour have given so far.
#[derive(Drop)]
pub(crate) struct Contour {
    /// What it is by its elements `point`.
    pub(crate) kind: ContourKind,
    /// What the elements before the first faulty one draw.
    pub(crate) drawn: Drawn,
    /// The first fault.
    pub(crate) fault: Option<Spot>,
}

/// Whether the last point is on the curve, after which the first one follows.
fn ends_on(points: &[Point]) -> bool
    ensures { result ≡ ends_on points.now }
{
    match points.last() {
        Some(point) => point.on,
        None => true,
    }
}

impl Drawn {
    /// Nothing drawn.
    fn new(alloc: Global) -> Drawn
        ensures { IsDrawn result [] }
    {
        Drawn {
            points: Seq::new(alloc),
            is_open: false,
            first_line: None,
            later_line: None,
        }
    }

    /// The first later line where one more element follows, which ends a line of this offset or none.
    fn later_line_with(&self, line: Option<u64>) -> Option<u64>
        ensures { result ≡ (if ends_on self.now.points then self.now.later_line else option_or self.now.later_line line) }
    {
        if ends_on(self.points.as_slice()) {
            self.later_line
        } else {
            self.later_line.or(line)
        }
    }

    /// Adds the point of one more element, which has this type and offset.
    fn push(&mut self, point_type: PointType, at: u64, point: Point) -> Result<(), NoMemory>
        ensures { (trees : List Tree) (tree : Tree) → IsDrawn self.old trees → point_type ≡ type_of tree → at ≡ at_of tree → points_of (trees ++ tree ∷ []) ≡ Ok (self.old.points ++ point ∷ []) → OnOk result (IsDrawn self.new (trees ++ tree ∷ [])) }
    {
        let line = point_type.is_line().then_some(at);
        if self.points.is_empty() {
            self.is_open = point_type.is_move();
            self.first_line = line;
            return self.points.push(point);
        }
        self.later_line = self.later_line_with(line);
        self.points.push(point)
    }

    /// The offset of the first line that comes from a point off the curve, where the last point stands before the
    /// first.
    fn line_after_off(&self) -> Option<u64>
        ensures { (trees : List Tree) → IsDrawn self.now trees → result ≡ line_after_off (ends_on self.now.points) trees self.now.points }
    {
        if ends_on(self.points.as_slice()) {
            self.later_line
        } else {
            self.first_line.or(self.later_line)
        }
    }

    /// The points of the contour at this offset, where there are at most 1,024, the contour is closed, and no line
    /// begins off the curve.
    #[tactic(auto, unfolding(crate::specs::Contours::closed))]
    fn closed(self, alloc: Global, at: u64) -> Result<Seq<Point>, Stop>
        ensures { (contour : Tree) → at ≡ at_of contour → IsDrawn self (children_of contour) → Gives (λ points. points) result (closed contour self.points) }
    {
        let count = self.points.len();
        if CONTOUR_POINTS < count {
            let count = count as i64;
            return Err(stop_at(alloc, Kind::TooManyPoints, "", at, count));
        }
        if self.is_open {
            return Err(stop_at(alloc, Kind::OpenContour, "", at, 0));
        }
        match self.line_after_off() {
            None => Ok(self.points),
            Some(at) => Err(stop_at(alloc, Kind::LineAfterOff, "", at, 0)),
        }
    }
}

impl ContourKind {
    /// What the contour is with one more element `point`, of this type.
    fn with_point(self, point_type: PointType) -> ContourKind
        ensures { result ≡ with_point self point_type }
    {
        match self {
            ContourKind::Empty => {
                if point_type.is_move() {
                    ContourKind::Anchor
                } else {
                    ContourKind::Full
                }
            }
            ContourKind::Anchor => ContourKind::Full,
            ContourKind::Full => ContourKind::Full,
        }
    }

    /// Whether such a contour is passed over unread.
    fn is_passed(self) -> bool
        ensures { result ≡ is_passed self }
    {
        !matches!(self, ContourKind::Full)
    }
}

impl Contour {
    /// No element has given anything.
    pub(crate) fn new(alloc: Global) -> Contour
        ensures { IsContour result [] }
    {
        Contour {
            kind: ContourKind::Empty,
            drawn: Drawn::new(alloc),
            fault: None,
        }
    }

    /// Draws one more element of this type, or keeps its fault. After a fault nothing is drawn any more.
    fn draw<T: Tagged>(
        &mut self,
        alloc: Global,
        element: &T,
        point_type: PointType,
    ) -> Result<(), NoMemory>
        requires { point_type ≡ type_of (T.tree element.now) }
        ensures drawn { (trees : List Tree) → AreDrawn self.old.fault self.old.drawn trees → OnOk result (AreDrawn self.new.fault self.new.drawn (trees ++ T.tree element.now ∷ [])) }
        ensures kind { self.new.kind ≡ self.old.kind }
    {
        if self.fault.is_some() {
            return Ok(());
        }
        let is_first = self.drawn.points.is_empty();
        match held(read_point(alloc, is_first, element, point_type))? {
            Ok(point) => self.drawn.push(point_type, element.offset(), point),
            Err(spot) => {
                self.fault = Some(spot);
                Ok(())
            }
        }
    }

    /// Takes one more element of the contour.
    pub(crate) fn take<T: Tagged>(&mut self, alloc: Global, element: &T) -> Result<(), NoMemory>
        ensures { (trees : List Tree) → IsContour self.old trees → OnOk result (IsContour self.new (trees ++ T.tree element.now ∷ [])) }
    {
        let point_type = type_of(element);
        if element.is_named("point") {
            self.kind = self.kind.with_point(point_type);
        }
        self.draw(alloc, element, point_type)
    }

    /// The points of the contour at this offset, or nothing of one that is passed over.
    #[tactic(auto, unfolding(crate::specs::Contours::contour_of))]
    pub(crate) fn end(self, alloc: Global, at: u64) -> Result<Option<Seq<Point>>, Stop>
        ensures { (contour : Tree) → at ≡ at_of contour → IsContour self (children_of contour) → Gives (λ points. points) result (contour_of contour) }
    {
        let Contour { kind, drawn, fault } = self;
        if kind.is_passed() {
            return Ok(None);
        }
        match fault {
            None => Ok(Some(drawn.closed(alloc, at)?)),
            Some(spot) => Err(Stop::At(spot)),
        }
    }
}

/// The points of a contour, or nothing of one that is passed over.
pub(crate) fn read_contour(alloc: Global, contour: &Element) -> Result<Option<Seq<Point>>, Stop>
    ensures { Gives (λ points. points) result (contour_of (plain contour.now)) }
{
    let mut seen = Contour::new(alloc);
    for element in contour.children() {
        seen.take(alloc, element)?;
    }
    seen.end(alloc, contour.offset())
}
