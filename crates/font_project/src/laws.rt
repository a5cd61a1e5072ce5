ghost use Rattle.font_project.specs.Fonts.{OneAnswer};

use compat::{flattened_law, refusal_law};

/// Files and a path describe one font, or have one first fault, and not both.
pub fn one_answer()
    ensures { OneAnswer }
{
    flattened_law();
    refusal_law();
}
