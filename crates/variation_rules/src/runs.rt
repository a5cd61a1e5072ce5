/// How a run of packed deltas holds its values (OpenType, "Packed deltas").
#[derive(Clone, Copy, Debug, PartialEq, Eq)]
pub enum DeltaClass {
    /// Zeros, which take no bytes.
    Zeros,
    /// Signed bytes.
    Bytes,
    /// Signed 16-bit words, big-endian.
    Words,
}

/// How a run of packed point numbers holds its differences (OpenType, "Packed point numbers").
#[derive(Clone, Copy, Debug, PartialEq, Eq)]
pub enum PointClass {
    /// Unsigned bytes.
    Bytes,
    /// Unsigned 16-bit words, big-endian.
    Words,
}
