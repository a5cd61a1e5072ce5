/// Two whole numbers of the plane, as a point or a delta: x to the right and y up, in
/// font design units.
#[derive(Clone, Copy, Debug, Default, PartialEq, Eq)]
pub struct Pair {
    /// The horizontal number.
    pub x: i32,
    /// The vertical number.
    pub y: i32,
}
