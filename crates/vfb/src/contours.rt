ghost use Rattle.std.specs.Prelude.{◌≡◌, length, map, IfOk, Some};
ghost use Rattle.compat.specs.Differences.{outline_difference};
ghost use Rattle.vfb.specs.Masters.{all_alike, difference_fault};
ghost use Rattle.source_files.specs.Stops.{Answers, NeverFails};
ghost use Rattle.commands.specs.Words.{seen};

use crate::faults::difference_fault;
use commands::Located;
use compat::compare;
use glif::Drawing;
use source_files::ReadStop;
use std::alloc::Global;

/// Tests whether every drawing has contours like the default's, of as many points of the same kinds, and refuses
/// the first difference of the first that hasn't.
pub(crate) fn all_alike(
    alloc: Global,
    default: &Drawing,
    located: &[Located<'_>],
    drawings: &[Drawing],
) -> Result<(), ReadStop>
    requires { length drawings.now ≡ length located.now }
    ensures alike { Answers (λ done. done) result (all_alike default.now (map seen located.now) drawings.now) }
    ensures never { NeverFails result }
{
    for (index, drawing) in drawings.iter().enumerate() {
        if let Some(difference) = compare(&default.outline, &drawing.outline) {
            let path = located[index].path;
            return Err(ReadStop::Refused(difference_fault(
                alloc,
                &default.name,
                path,
                difference,
            )?));
        }
    }
    Ok(())
}
