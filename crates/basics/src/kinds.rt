ghost use Rattle.std.specs.Prelude.{◌≡◌};
ghost use Rattle.basics.specs.Kinds.{kind_name};

/// What a refusal is about. The number of a kind, `kind as u8`, never changes.
#[derive(Clone, Copy, Debug, PartialEq, Eq)]
pub enum Kind {
    /// A file is named that isn't there.
    MissingFile = 1,
    /// A file has more bytes than are read of one.
    FileTooLong = 2,
    /// A source text ends inside something, or before its root element ends.
    Unfinished = 3,
    /// A part of a source text isn't of the form that it begins with, or may not stand where it stands.
    BadText = 4,
    /// A source text has more than 64 elements one in another.
    TooDeep = 5,
    /// An element of a property list may not stand where it stands, or one is missing.
    NotPlist = 6,
    /// An element of a GLIF may not stand where it stands, or a point is of no type that there is.
    NotGlif = 7,
    /// An element of a designspace document may not stand where it stands.
    NotDesignspace = 8,
    /// A text is no decimal number.
    NotNumber = 9,
    /// A number is too great in size.
    NumberRange = 10,
    /// A number has decimals where a whole one is wanted.
    NotWhole = 11,
    /// A coordinate or an advance width is out of its range.
    CoordinateRange = 12,
    /// A point belongs to a cubic curve.
    Curve = 13,
    /// A contour isn't closed.
    OpenContour = 14,
    /// A point at the end of a line stands after a point off the curve.
    LineAfterOff = 15,
    /// A contour or a glyph has more points than the limit.
    TooManyPoints = 16,
    /// A component is scaled, turned or slanted.
    ScaledComponent = 17,
    /// A code point is none that a character can have.
    BadCode = 18,
    /// A glyph's name isn't one that a font can hold.
    GlyphName = 19,
    /// A file is of a version of its format that isn't read.
    FormatVersion = 20,
    /// A source has no layer of the name that is asked for.
    NoLayer = 21,
    /// A file's name leads out of its folder.
    FileName = 22,
    /// Two glyphs have one code point.
    DuplicateCode = 23,
    /// There are more glyphs than the limit.
    TooManyGlyphs = 24,
    /// The units of the em are out of their range.
    UnitsRange = 25,
    /// An element lacks an attribute that it needs.
    MissingAttribute = 26,
    /// A designspace has no axis.
    NoAxes = 27,
    /// A designspace has more axes than the limit.
    TooManyAxes = 28,
    /// A text is no tag of four characters.
    BadTag = 29,
    /// Two axes have one tag or one name.
    DuplicateAxis = 30,
    /// The minimum, default and maximum of an axis don't rise.
    AxisOrder = 31,
    /// An axis has single values in place of a range.
    DiscreteAxis = 32,
    /// A map takes several axes together.
    CrossAxisMap = 33,
    /// The nodes of an axis map don't rise.
    MapOrder = 34,
    /// An axis map leads out of the range of numbers.
    MapRange = 35,
    /// An axis map makes one coordinate of several.
    MapCollapse = 36,
    /// There are more sources than the limit.
    TooManySources = 37,
    /// An axis is named that isn't there.
    UnknownAxis = 38,
    /// A location has two values on one axis.
    Anisotropic = 39,
    /// There are more rules than the limit.
    TooManyRules = 40,
    /// A rule has more sets of conditions than the limit.
    TooManySets = 41,
    /// A rule has more substitutions than the limit.
    TooManySubs = 42,
    /// There are more instances than the limit.
    TooManyInstances = 43,
    /// No source stands at the default of every axis.
    NoDefaultSource = 44,
    /// Two sources stand at one location.
    SameLocation = 45,
    /// A source has other units of the em than the default source.
    UnitsDiffer = 46,
    /// A source lacks a glyph that the default source has.
    GlyphMissing = 47,
    /// A glyph has other components in one source than in the default source.
    ComponentShape = 48,
    /// A component names a glyph that isn't there.
    DanglingComponent = 49,
    /// A glyph draws itself through its components.
    ComponentCycle = 50,
    /// A glyph has another number of contours in one source than in the default source.
    ContourCount = 51,
    /// A contour has another number of points in one source than in the default source.
    PointCount = 52,
    /// A point is on the curve in one source and off it in the default source, or the other way round.
    PointKind = 53,
    /// All sources have more points together than the limit.
    TooMuch = 54,
    /// A filter moves a number out of its range.
    FilterRange = 55,
    /// A rule names a glyph that isn't there.
    RuleGlyphUnknown = 56,
    /// The conditions of the rules cut the design space into more cells than the limit.
    TooManyCells = 57,
    /// A delta doesn't fit 16 bits.
    DeltaRange = 58,
    /// A certificate has more bytes than the limit.
    CertificateSize = 59,
    /// A word names a glyph that isn't there.
    UnknownGlyph = 60,
    /// A name is longer than the limit.
    NameLength = 61,
}

impl Kind {
    /// The kind's name, as it is said after `refused`.
    pub fn name(self) -> &'static str
        ensures { result.now ≡ kind_name self }
    {
        match self {
            Kind::MissingFile => "MissingFile",
            Kind::FileTooLong => "FileTooLong",
            Kind::Unfinished => "Unfinished",
            Kind::BadText => "BadText",
            Kind::TooDeep => "TooDeep",
            Kind::NotPlist => "NotPlist",
            Kind::NotGlif => "NotGlif",
            Kind::NotDesignspace => "NotDesignspace",
            Kind::NotNumber => "NotNumber",
            Kind::NumberRange => "NumberRange",
            Kind::NotWhole => "NotWhole",
            Kind::CoordinateRange => "CoordinateRange",
            Kind::Curve => "Curve",
            Kind::OpenContour => "OpenContour",
            Kind::LineAfterOff => "LineAfterOff",
            Kind::TooManyPoints => "TooManyPoints",
            Kind::ScaledComponent => "ScaledComponent",
            Kind::BadCode => "BadCode",
            Kind::GlyphName => "GlyphName",
            Kind::FormatVersion => "FormatVersion",
            Kind::NoLayer => "NoLayer",
            Kind::FileName => "FileName",
            Kind::DuplicateCode => "DuplicateCode",
            Kind::TooManyGlyphs => "TooManyGlyphs",
            Kind::UnitsRange => "UnitsRange",
            Kind::MissingAttribute => "MissingAttribute",
            Kind::NoAxes => "NoAxes",
            Kind::TooManyAxes => "TooManyAxes",
            Kind::BadTag => "BadTag",
            Kind::DuplicateAxis => "DuplicateAxis",
            Kind::AxisOrder => "AxisOrder",
            Kind::DiscreteAxis => "DiscreteAxis",
            Kind::CrossAxisMap => "CrossAxisMap",
            Kind::MapOrder => "MapOrder",
            Kind::MapRange => "MapRange",
            Kind::MapCollapse => "MapCollapse",
            Kind::TooManySources => "TooManySources",
            Kind::UnknownAxis => "UnknownAxis",
            Kind::Anisotropic => "Anisotropic",
            Kind::TooManyRules => "TooManyRules",
            Kind::TooManySets => "TooManySets",
            Kind::TooManySubs => "TooManySubs",
            Kind::TooManyInstances => "TooManyInstances",
            Kind::NoDefaultSource => "NoDefaultSource",
            Kind::SameLocation => "SameLocation",
            Kind::UnitsDiffer => "UnitsDiffer",
            Kind::GlyphMissing => "GlyphMissing",
            Kind::ComponentShape => "ComponentShape",
            Kind::DanglingComponent => "DanglingComponent",
            Kind::ComponentCycle => "ComponentCycle",
            Kind::ContourCount => "ContourCount",
            Kind::PointCount => "PointCount",
            Kind::PointKind => "PointKind",
            Kind::TooMuch => "TooMuch",
            Kind::FilterRange => "FilterRange",
            Kind::RuleGlyphUnknown => "RuleGlyphUnknown",
            Kind::TooManyCells => "TooManyCells",
            Kind::DeltaRange => "DeltaRange",
            Kind::CertificateSize => "CertificateSize",
            Kind::UnknownGlyph => "UnknownGlyph",
            Kind::NameLength => "NameLength",
        }
    }
}
