ghost use Rattle.std.specs.Prelude.{◌≡◌, ◌++◌, OnOk};
ghost use Rattle.be_bytes.specs.Fields.{field_bytes, fields_bytes};

use crate::fields::{put_bytes, put_i16, put_i32, put_i64, put_u8, put_u16, put_u32};
use basics::NoMemory;

/// A field of a table, by its type in the standard (OpenType, "Data types"). A number with binary places, as F2DOT14
/// and Fixed, is a field by its raw number.
#[derive(Clone, Copy, Debug)]
pub enum Field {
    /// uint8.
    Uint8(u8),
    /// uint16.
    Uint16(u16),
    /// int16, FWORD or F2DOT14.
    Int16(i16),
    /// uint32.
    Uint32(u32),
    /// int32 or Fixed.
    Int32(i32),
    /// LONGDATETIME.
    Int64(i64),
    /// Tag.
    Tag([u8; 4]),
}

/// Appends fields, one after another: a table of fixed fields is a list of them. Where memory runs out, `out` may have
/// some of them.
pub fn put_fields(out: &mut Vec<u8>, fields: &[Field]) -> Result<(), NoMemory>
    ensures { OnOk result (out.new.items ≡ out.old.items ++ fields_bytes fields.now) }
{
    for field in fields {
        put_field(out, field)?;
    }
    Ok(())
}

// Appends a field.
fn put_field(out: &mut Vec<u8>, field: &Field) -> Result<(), NoMemory>
    ensures { OnOk result (out.new.items ≡ out.old.items ++ field_bytes field.now) }
{
    match field {
        Field::Uint8(value) => put_u8(out, *value),
        Field::Uint16(value) => put_u16(out, *value),
        Field::Int16(value) => put_i16(out, *value),
        Field::Uint32(value) => put_u32(out, *value),
        Field::Int32(value) => put_i32(out, *value),
        Field::Int64(value) => put_i64(out, *value),
        Field::Tag(letters) => put_bytes(out, letters),
    }
}
