ghost use Rattle.std.specs.Prelude.{◌≡◌, pos, negsuc, ◌≤ℤ◌, IfOk};
ghost use Rattle.be_bytes.specs.Fields.{fields_bytes};
ghost use Rattle.be_bytes.specs.declared.field.Field.TheVariants.{Int16};
ghost use Rattle.fixpoint.specs.Rounding.{round_up};
ghost use Rattle.fontinfo.specs.Ranges.{IsWithin, metric};
ghost use Rattle.plain_tables.specs.FixedFields.{word};

use basics::NoMemory;
use be_bytes::Field::{self, Int16, Uint16};
use be_bytes::put_fields;
use fixpoint::divide_up;
use std::alloc::Global;

/// A table of these fields.
pub(crate) fn table(alloc: Global, fields: &[Field]) -> Result<Vec<u8>, NoMemory>
    ensures { IfOk result (λ bytes. bytes.items ≡ fields_bytes fields.now) }
{
    let mut bytes = Vec::new(alloc);
    put_fields(&mut bytes, fields)?;
    Ok(bytes)
}

/// The field of a number that isn't negative.
pub(crate) fn word(value: i32) -> Field
    requires least { pos 0 ≤ℤ value }
    requires greatest { value ≤ℤ pos 65535 }
    ensures { result ≡ word value }
{
    Uint16(value as u16)
}

/// The field of a number of the font information.
pub(crate) fn short(value: i32) -> Field
    requires { IsWithin metric value }
    ensures { result ≡ Int16 value }
{
    Int16(value as i16)
}

/// The field of a number over 100, rounded to the nearest number, a tie going up.
pub(crate) fn hundredth(value: i32) -> Field
    requires least { negsuc 3276699 ≤ℤ value }
    requires greatest { value ≤ℤ pos 3276700 }
    ensures { result ≡ Int16 (round_up value 100) }
{
    Int16(divide_up(i64::from(value), 100) as i16)
}

/// The same over 1000.
pub(crate) fn thousandth(value: i32) -> Field
    requires least { negsuc 32766999 ≤ℤ value }
    requires greatest { value ≤ℤ pos 32767000 }
    ensures { result ≡ Int16 (round_up value 1000) }
{
    Int16(divide_up(i64::from(value), 1000) as i16)
}
