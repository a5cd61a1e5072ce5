ghost use Rattle.std.specs.Prelude.{◌≡◌, ◌≤◌, IfOk};
ghost use Rattle.fontinfo.specs.Keys.{IsShort};
ghost use Rattle.fontinfo.specs.Version.{version_text};

use basics::{Name, NoMemory};
use std::alloc::Global;

/// The version that stands where none is written: `Version `, the major number, a point, and the minor number in
/// three digits.
#[tactic(auto, using(crate::proofs::Short::version_short), unfolding(crate::specs::Version::version_text))]
pub(crate) fn version_text(alloc: Global, major: u32, minor: u32) -> Result<Name, NoMemory>
    requires major { major ≤ 999 }
    requires minor { minor ≤ 999 }
    ensures exact { IfOk result (λ text. text ≡ version_text major minor) }
    ensures short { IfOk result (IsShort 100) }
{
    let hundreds = minor / 100;
    let tens = minor / 10 % 10;
    let ones = minor % 10;
    let text = format!(in alloc; "Version {major}.{hundreds}{tens}{ones}")?;
    Name::from_str(alloc, text.as_str())
}
