ghost use Rattle.std.specs.Prelude.{◌≡◌, ℕ, ◌≤◌, ◌++◌, List, [], ◌∷◌, All, IfOk, OnOk};
ghost use Rattle.cmap_name.specs.declared.groups.Group.{Group};
ghost use Rattle.cmap_name.specs.Groups as runs;
ghost use Rattle.cmap_name.specs.Groups.{FitsGroup, joined, one};

use basics::NoMemory;
use std::alloc::Global;

/// A run of following characters with following glyphs.
#[derive(Clone, Copy)]
pub(crate) struct Group {
    /// The first character.
    pub(crate) first: u32,
    /// The last character.
    pub(crate) last: u32,
    /// The glyph of the first character.
    pub(crate) glyph: u16,
}

/// The maximal runs of these characters with their glyphs.
pub(crate) fn groups_of(alloc: Global, codes: &[(u32, u16)]) -> Result<Vec<Group>, NoMemory>
    requires { All (λ own. own.0 ≤ 0x10_FFFF) codes.now }
    ensures value { IfOk result (λ groups. groups.items ≡ runs.groups_of codes.now) }
    ensures fit { IfOk result (λ groups. All FitsGroup groups.items) }
{
    let mut groups = Vec::new(alloc);
    if let [(code, glyph), others @ ..] = codes {
        let mut current = alone(*code, *glyph);
        for (code, glyph) in others {
            current = add(&mut groups, current, alone(*code, *glyph))?;
        }
        groups.push(current)?;
    }
    Ok(groups)
}

/// A character by itself.
fn alone(code: u32, glyph: u16) -> Group
    requires { code ≤ 0x10_FFFF }
    ensures value { result ≡ one (code, glyph) }
    ensures fits { FitsGroup result }
{
    Group {
        first: code,
        last: code,
        glyph,
    }
}

/// Gives the current run with the next one added; where it doesn't go on, it is closed, and the next one is current.
fn add(closed: &mut Vec<Group>, current: Group, next: Group) -> Result<Group, NoMemory>
    requires current { FitsGroup current }
    requires next { FitsGroup next }
    requires alone { next.first ≡ next.last }
    requires closed { All FitsGroup closed.old.items }
    ensures written { IfOk result (λ last. (more : List Group) → closed.new.items ++ joined last more ≡ closed.old.items ++ joined current (joined next more)) }
    ensures fits { IfOk result FitsGroup }
    ensures closed_fit { OnOk result (All FitsGroup closed.new.items) }
{
    if goes_on(current, next) {
        return Ok(Group {
            first: current.first,
            last: next.last,
            glyph: current.glyph,
        });
    }
    closed.push(current)?;
    Ok(next)
}

/// Whether the next run begins where this one would go on.
fn goes_on(group: Group, next: Group) -> bool
    requires { FitsGroup group }
    ensures { result ≡ runs.goes_on group next }
{
    next.first == group.last + 1
        && u32::from(next.glyph) == u32::from(group.glyph) + (group.last + 1 - group.first)
}
