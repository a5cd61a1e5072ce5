ghost use Rattle.std.specs.Prelude.{◌≡◌, List, [], ◌∷◌, ◌++◌, OnOk, OnErr};
ghost use Rattle.std.specs.Int.{w16, w32, w64, cast_unsigned, to_be_bytes};

use basics::NoMemory;
use byteorder::{BigEndian, ByteOrder};

/// Appends an 8-bit field. Where memory runs out, `out` is as before.
pub fn put_u8(out: &mut Vec<u8>, value: u8) -> Result<(), NoMemory>
    ensures ok { OnOk result (out.new.items ≡ out.old.items ++ value ∷ []) }
    ensures err { OnErr result (out.new.items ≡ out.old.items) }
{
    put_bytes(out, &[value])
}

/// Appends an unsigned 16-bit field. Where memory runs out, `out` is as before.
pub fn put_u16(out: &mut Vec<u8>, value: u16) -> Result<(), NoMemory>
    ensures ok { OnOk result (out.new.items ≡ out.old.items ++ to_be_bytes w16 value) }
    ensures err { OnErr result (out.new.items ≡ out.old.items) }
{
    let mut field = [0; 2];
    BigEndian::write_u16(&mut field, value);
    put_bytes(out, &field)
}

/// Appends a signed 16-bit field. Where memory runs out, `out` is as before.
pub fn put_i16(out: &mut Vec<u8>, value: i16) -> Result<(), NoMemory>
    ensures ok { OnOk result (out.new.items ≡ out.old.items ++ to_be_bytes w16 (cast_unsigned w16 value)) }
    ensures err { OnErr result (out.new.items ≡ out.old.items) }
{
    let mut field = [0; 2];
    BigEndian::write_i16(&mut field, value);
    put_bytes(out, &field)
}

/// Appends an unsigned 32-bit field. Where memory runs out, `out` is as before.
pub fn put_u32(out: &mut Vec<u8>, value: u32) -> Result<(), NoMemory>
    ensures ok { OnOk result (out.new.items ≡ out.old.items ++ to_be_bytes w32 value) }
    ensures err { OnErr result (out.new.items ≡ out.old.items) }
{
    let mut field = [0; 4];
    BigEndian::write_u32(&mut field, value);
    put_bytes(out, &field)
}

/// Appends a signed 32-bit field. Where memory runs out, `out` is as before.
pub fn put_i32(out: &mut Vec<u8>, value: i32) -> Result<(), NoMemory>
    ensures ok { OnOk result (out.new.items ≡ out.old.items ++ to_be_bytes w32 (cast_unsigned w32 value)) }
    ensures err { OnErr result (out.new.items ≡ out.old.items) }
{
    let mut field = [0; 4];
    BigEndian::write_i32(&mut field, value);
    put_bytes(out, &field)
}

/// Appends a signed 64-bit field. Where memory runs out, `out` is as before.
pub fn put_i64(out: &mut Vec<u8>, value: i64) -> Result<(), NoMemory>
    ensures ok { OnOk result (out.new.items ≡ out.old.items ++ to_be_bytes w64 (cast_unsigned w64 value)) }
    ensures err { OnErr result (out.new.items ≡ out.old.items) }
{
    let mut field = [0; 8];
    BigEndian::write_i64(&mut field, value);
    put_bytes(out, &field)
}

/// Appends the bytes as they are. Where memory runs out, `out` is as before.
pub fn put_bytes(out: &mut Vec<u8>, value: &[u8]) -> Result<(), NoMemory>
    ensures ok { OnOk result (out.new.items ≡ out.old.items ++ value.now) }
    ensures err { OnErr result (out.new.items ≡ out.old.items) }
{
    out.extend_from_slice(value)?;
    Ok(())
}
