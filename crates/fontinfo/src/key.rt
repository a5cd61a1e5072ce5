ghost use Rattle.std.specs.Prelude.{◌≡◌};
ghost use Rattle.fontinfo.specs.KeyNames.{key_name};

/// A key of `fontinfo.plist` that is read (UFO 3, "fontinfo.plist"), in the order in which the keys are read.
#[derive(Clone, Copy)]
pub(crate) enum Key {
    UnitsPerEm,
    Ascender,
    Descender,
    XHeight,
    CapHeight,
    ItalicAngle,
    FamilyName,
    StyleName,
    VersionMajor,
    VersionMinor,
    Copyright,
    NameVersion,
    HheaAscender,
    HheaDescender,
    HheaLineGap,
    TypoAscender,
    TypoDescender,
    TypoLineGap,
    WinAscent,
    WinDescent,
    WeightClass,
    WidthClass,
    VendorId,
    UnderlinePosition,
    UnderlineThickness,
}

impl Key {
    /// The key as it is written.
    #[tactic(auto, unfolding(crate::specs::KeyNames::key_name))]
    pub(crate) fn name(self) -> &'static str
        ensures { result.now ≡ key_name self }
    {
        match self {
            Key::UnitsPerEm => "unitsPerEm",
            Key::Ascender => "ascender",
            Key::Descender => "descender",
            Key::XHeight => "xHeight",
            Key::CapHeight => "capHeight",
            Key::ItalicAngle => "italicAngle",
            Key::FamilyName => "familyName",
            Key::StyleName => "styleName",
            Key::VersionMajor => "versionMajor",
            Key::VersionMinor => "versionMinor",
            Key::Copyright => "copyright",
            Key::NameVersion => "openTypeNameVersion",
            Key::HheaAscender => "openTypeHheaAscender",
            Key::HheaDescender => "openTypeHheaDescender",
            Key::HheaLineGap => "openTypeHheaLineGap",
            Key::TypoAscender => "openTypeOS2TypoAscender",
            Key::TypoDescender => "openTypeOS2TypoDescender",
            Key::TypoLineGap => "openTypeOS2TypoLineGap",
            Key::WinAscent => "openTypeOS2WinAscent",
            Key::WinDescent => "openTypeOS2WinDescent",
            Key::WeightClass => "openTypeOS2WeightClass",
            Key::WidthClass => "openTypeOS2WidthClass",
            Key::VendorId => "openTypeOS2VendorID",
            Key::UnderlinePosition => "postscriptUnderlinePosition",
            Key::UnderlineThickness => "postscriptUnderlineThickness",
        }
    }
}
