ghost use Rattle.std.specs.Prelude.{◌≡◌, ◌++◌, ◌≤◌, length, All, OnOk};
ghost use Rattle.cmap_name.specs.CharacterLayout.{format_12_bytes, format_12_fields, group_bytes, group_fields};

use crate::groups::Group;
use basics::NoMemory;
use be_bytes::Field::{self, Uint16, Uint32};
use be_bytes::put_fields;

/// The bytes of the subtable before its groups.
const HEADER: u32 = 16;

/// The bytes of a group.
const GROUP: u32 = 12;

/// Appends the subtable of these runs in format 12.
pub(crate) fn put_format_12(out: &mut Vec<u8>, groups: &[Group]) -> Result<(), NoMemory>
    requires { length groups.now ≤ 0x11_0000 }
    ensures { OnOk result (out.new.items ≡ out.old.items ++ format_12_bytes groups.now) }
{
    put_fields(out, &header(groups.len() as u32))?;
    for group in groups {
        put_fields(out, &fields_of(*group))?;
    }
    Ok(())
}

/// The fields before the groups.
#[tactic(auto, unfolding(crate::specs::CharacterLayout::format_12_fields))]
fn header(count: u32) -> [Field; 5]
    requires { count ≤ 0x11_0000 }
    ensures { result ≡ format_12_fields count }
{
    [
        // format, reserved
        Uint16(12),
        Uint16(0),
        // length, language
        Uint32(HEADER + GROUP * count),
        Uint32(0),
        // numGroups
        Uint32(count),
    ]
}

/// The fields of a group.
#[tactic(auto, unfolding(crate::specs::CharacterLayout::group_fields))]
fn fields_of(group: Group) -> [Field; 3]
    ensures { result ≡ group_fields group }
{
    [
        Uint32(group.first),
        Uint32(group.last),
        Uint32(u32::from(group.glyph)),
    ]
}
