ghost use Rattle.std.specs.Prelude.{◌≡◌};
ghost use Rattle.basics.specs.Reading.{IsStop, spot_of};

use crate::kinds::Kind;
use crate::text::Name;
use std::alloc::{AllocError, AllocFailed, Global};

/// Where in a source a fault is, and which. A field that a kind doesn't use is empty or 0.
#[derive(Drop)]
pub struct Spot {
    /// What is wrong.
    pub kind: Kind,
    /// The item concerned, as a glyph or an attribute.
    pub item: Name,
    /// A byte offset or an index, by the kind.
    pub at: u64,
    /// A second one.
    pub also: u64,
    /// A value that was met.
    pub first: i64,
    /// A second value.
    pub second: i64,
}

/// A fault of the sources, with the file or folder that has it; the path is empty where a kind has none.
#[derive(Drop)]
pub struct Fault {
    /// The file or folder.
    pub path: Name,
    /// What is wrong there.
    pub spot: Spot,
}

/// Why a reader of one source stopped.
#[derive(Drop)]
pub enum Stop {
    /// The source has this fault.
    At(Spot),
    /// Memory ran out.
    NoMemory,
}

/// Stops at a fault with this item, offset and value, its other fields being 0; or for want of memory for the
/// item's text.
pub fn stop_at(alloc: Global, kind: Kind, item: &str, at: u64, first: i64) -> Stop
    ensures { IsStop result (spot_of kind item.now at first) }
{
    match Name::from_str(alloc, item) {
        Ok(item) => Stop::At(Spot {
            kind,
            item,
            at,
            also: 0,
            first,
            second: 0,
        }),
        Err(NoMemory) => Stop::NoMemory,
    }
}

/// Memory ran out.
#[derive(Clone, Copy, Debug, PartialEq, Eq)]
pub struct NoMemory;

impl From<AllocError> for NoMemory {
    fn from(_: AllocError) -> NoMemory {
        NoMemory
    }
}

impl<T: Drop> From<AllocFailed<T>> for NoMemory {
    fn from(_: AllocFailed<T>) -> NoMemory {
        NoMemory
    }
}

impl From<NoMemory> for Stop {
    ghost use Rattle.basics.specs.declared.fault.Stop.TheVariants.{NoMemory};

    ghost from_gives = { λ _ stop. stop ≡ NoMemory };

    fn from(_: NoMemory) -> Stop {
        Stop::NoMemory
    }
}

impl From<AllocError> for Stop {
    ghost use Rattle.basics.specs.declared.fault.Stop.TheVariants.{NoMemory};

    ghost from_gives = { λ _ stop. stop ≡ NoMemory };

    fn from(_: AllocError) -> Stop {
        Stop::NoMemory
    }
}

impl<T: Drop> From<AllocFailed<T>> for Stop {
    ghost use Rattle.basics.specs.declared.fault.Stop.TheVariants.{NoMemory};

    ghost from_gives = { λ _ stop. stop ≡ NoMemory };

    fn from(_: AllocFailed<T>) -> Stop {
        Stop::NoMemory
    }
}
