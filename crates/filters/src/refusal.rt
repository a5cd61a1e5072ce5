ghost use Rattle.std.specs.Prelude.{◌≡◌};
ghost use Rattle.filters.specs.Applied.{Applies};

use basics::NoMemory;
use glif::{Outline, within};
use std::alloc::{AllocError, AllocFailed};

/// Why a filter gives no outline.
#[derive(Clone, Copy, Debug, PartialEq, Eq)]
pub enum FilterRefusal {
    /// Memory ran out.
    NoMemory,
    /// The image isn't within limits. This is its first number that is out of them, as [`glif::within`] has it: the
    /// advance width or a coordinate in font units, or a count of points.
    Range(i64),
}

impl From<NoMemory> for FilterRefusal {
    ghost use Rattle.filters.specs.declared.refusal.FilterRefusal.TheVariants.{NoMemory};

    ghost from_gives = { λ _ refusal. refusal ≡ NoMemory };

    fn from(_: NoMemory) -> FilterRefusal {
        FilterRefusal::NoMemory
    }
}

impl From<AllocError> for FilterRefusal {
    ghost use Rattle.filters.specs.declared.refusal.FilterRefusal.TheVariants.{NoMemory};

    ghost from_gives = { λ _ refusal. refusal ≡ NoMemory };

    fn from(_: AllocError) -> FilterRefusal {
        FilterRefusal::NoMemory
    }
}

impl<T: Drop> From<AllocFailed<T>> for FilterRefusal {
    ghost use Rattle.filters.specs.declared.refusal.FilterRefusal.TheVariants.{NoMemory};

    ghost from_gives = { λ _ refusal. refusal ≡ NoMemory };

    fn from(_: AllocFailed<T>) -> FilterRefusal {
        FilterRefusal::NoMemory
    }
}

/// The image, where it is within limits, or else the refusal of it: with this a filter's `apply` ends.
pub fn limited(image: Outline) -> Result<Outline, FilterRefusal>
    ensures { Applies image result }
{
    match within(&image) {
        None => Ok(image),
        Some(number) => Err(FilterRefusal::Range(number)),
    }
}
