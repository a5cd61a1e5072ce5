ghost use Rattle.std.specs.Prelude.{◌≡◌, IfOk, Result};
ghost use Rattle.basics.specs.Reading.{Gives};
ghost use Rattle.basics.specs.declared.fault.Spot.{Spot};

use basics::{NoMemory, Spot, Stop};

/// The answer of a reading with its fault as a value, so that what comes after it can be read on.
pub(crate) fn held<T>(answer: Result<T, Stop>) -> Result<Result<T, Spot>, NoMemory>
    ensures { (reading : Result T Spot) → Gives (λ value. value) answer reading → IfOk result (λ held. held ≡ reading) }
{
    match answer {
        Ok(value) => Ok(Ok(value)),
        Err(Stop::At(spot)) => Ok(Err(spot)),
        Err(Stop::NoMemory) => Err(NoMemory),
    }
}
