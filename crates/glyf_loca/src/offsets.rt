ghost use Rattle.std.specs.Prelude.{◌≡◌, ◌≤◌, false, ◌++◌, All, IfOk};
ghost use Rattle.std.specs.List.{flat_map};
ghost use Rattle.glyf_loca.specs.Layout.{offset_bytes, offset_field};

use basics::NoMemory;
use be_bytes::Field::{self, Uint16, Uint32};
use be_bytes::put_fields;
use std::alloc::Global;

/// The greatest even number whose half has 16 bits: the most bytes that short offsets reach over.
pub(crate) const SHORT_REACH: usize = 131_070;

/// The offsets as `loca` has them: long ones, or short ones, which are halves.
pub(crate) fn loca(alloc: Global, offsets: &[u32], long: bool) -> Result<Vec<u8>, NoMemory>
    requires { long ≡ false → All (λ offset. offset ≤ SHORT_REACH) offsets.now }
    ensures { IfOk result (λ bytes. bytes.items ≡ flat_map (offset_bytes long) offsets.now) }
{
    let mut bytes = Vec::new(alloc);
    for offset in offsets {
        put_fields(&mut bytes, &[offset_field(*offset, long)])?;
    }
    Ok(bytes)
}

/// The field of an offset.
fn offset_field(offset: u32, long: bool) -> Field
    requires { long ≡ false → offset ≤ SHORT_REACH }
    ensures { result ≡ offset_field long offset }
{
    if long {
        Uint32(offset)
    } else {
        Uint16((offset / 2) as u16)
    }
}
