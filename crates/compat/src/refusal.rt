ghost use Rattle.std.specs.Prelude.{◌≡◌};

use basics::{Kind, NoMemory};
use std::alloc::{AllocError, AllocFailed};

/// A fault of a list of drawings.
#[derive(Clone, Copy)]
pub(crate) struct Refusal {
    /// The number of the drawing that has it, from 0.
    pub(crate) drawing: usize,
    pub(crate) kind: Kind,
    /// For DanglingComponent the number of the component, else 0.
    pub(crate) at: usize,
    /// The point count or the coordinate out of limits, else 0.
    pub(crate) first: i64,
}

/// Why drawings have no flattened outlines.
#[derive(Clone, Copy)]
pub(crate) enum FlattenStop {
    /// They have this fault.
    Refused(Refusal),
    /// Memory ran out.
    NoMemory,
}

impl From<NoMemory> for FlattenStop {
    ghost use Rattle.compat.specs.declared.refusal.FlattenStop.TheVariants.{NoMemory};

    ghost from_gives = { λ _ stop. stop ≡ NoMemory };

    fn from(_: NoMemory) -> FlattenStop {
        FlattenStop::NoMemory
    }
}

impl From<AllocError> for FlattenStop {
    ghost use Rattle.compat.specs.declared.refusal.FlattenStop.TheVariants.{NoMemory};

    ghost from_gives = { λ _ stop. stop ≡ NoMemory };

    fn from(_: AllocError) -> FlattenStop {
        FlattenStop::NoMemory
    }
}

impl<T: Drop> From<AllocFailed<T>> for FlattenStop {
    ghost use Rattle.compat.specs.declared.refusal.FlattenStop.TheVariants.{NoMemory};

    ghost from_gives = { λ _ stop. stop ≡ NoMemory };

    fn from(_: AllocFailed<T>) -> FlattenStop {
        FlattenStop::NoMemory
    }
}
