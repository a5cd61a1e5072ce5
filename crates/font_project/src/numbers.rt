ghost use Rattle.std.specs.Prelude.{◌≡◌, IfOk};
ghost use Rattle.font_project.specs.Numbers as rules;

use basics::NoMemory;
use std::alloc::Global;

/// The numbers of so many sources: that of the default, and then the others in the document's order.
#[tactic(auto, unfolding(crate::specs::Numbers::default_first))]
pub(crate) fn default_first(
    alloc: Global,
    default: usize,
    count: usize,
) -> Result<Vec<usize>, NoMemory>
    ensures { IfOk result (λ numbers. numbers.items ≡ rules.default_first default count) }
{
    let mut numbers = Vec::new(alloc);
    numbers.push(default)?;
    for number in 0..count {
        if number != default {
            numbers.push(number)?;
        }
    }
    Ok(numbers)
}
