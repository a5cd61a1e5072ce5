use crate::filtered::FilterWord;
use crate::located::Located;
use arrayvec::ArrayVec;

/// What the words of `tuples` ask for: the variation data of a glyph.
#[derive(Drop)]
pub struct Tuples<'a> {
    /// The file to write.
    pub out: &'a str,
    /// The drawings, of which there may be so many.
    pub drawings: ArrayVec<Located<'a>, 128>,
}

/// What the words of `build` ask for: a font.
#[derive(Drop)]
pub struct Build<'a> {
    /// The designspace document.
    pub design: &'a str,
    /// The file to write.
    pub out: &'a str,
    /// The filters through which the outlines go, in the order of their words.
    pub filters: Vec<FilterWord<'a>>,
}

/// What the words of a call ask for.
#[derive(Drop)]
pub enum Command<'a> {
    /// The variation data of a glyph.
    Tuples(Tuples<'a>),
    /// A font.
    Build(Build<'a>),
}
