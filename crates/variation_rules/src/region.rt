use fixpoint::Fix;

/// One axis of a region: where its influence starts, is whole and ends, in normalised coordinates
/// (F2DOT14), as in OpenType's tuple records. A peak of 0 leaves the axis out of the scalar.
#[derive(Clone, Copy, Debug, Default, PartialEq, Eq)]
pub struct Triple {
    /// The coordinate up to which the factor is 0.
    pub start: Fix<14>,
    /// The coordinate at which the factor is 1.
    pub peak: Fix<14>,
    /// The coordinate from which on the factor is 0.
    pub end: Fix<14>,
}
