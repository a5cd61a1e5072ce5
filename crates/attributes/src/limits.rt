use basics::Kind;

/// Which whole numbers an attribute may have.
#[derive(Clone, Copy, Debug, PartialEq, Eq)]
pub struct Limits {
    /// The least of them.
    pub least: i32,
    /// The greatest of them.
    pub greatest: i32,
    /// The fault of an attribute with another number.
    pub kind: Kind,
}
