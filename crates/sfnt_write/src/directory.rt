ghost use Rattle.std.specs.Prelude.{◌≡◌, ◌+◌, ◌++◌, ◌%◌, ◌^◌, ◌<◌, ◌≤◌, length, map, All, IfOk, OnOk};
ghost use Rattle.std.specs.List.{flat_map};
ghost use Rattle.be_bytes.specs.Fields.{fields_bytes};
ghost use Rattle.be_bytes.specs.WordSum.{word_sum};
ghost use Rattle.search_fields.specs.SearchFields.{AreSearchFields};
ghost use Rattle.sfnt_write.specs.Layout as layout;
ghost use Rattle.sfnt_write.specs.Layout.{header_fields, record_at, record_bytes, record_fields, records_from, tables_offset};
ghost use Rattle.sfnt_write.specs.Steps.{FitsTag, IsDirectory, tables_sum};
ghost use Rattle.sfnt_write.specs.Tables.{slice_of, total_size};

use crate::table::{Table, filling, tag_number};
use basics::NoMemory;
use be_bytes::Field::{self, Uint16, Uint32};
use be_bytes::{put_fields, sum32};
use search_fields::{SearchFields, search_fields};
use std::alloc::Global;

/// The bytes of the directory before its records.
const HEADER: u32 = 12;

/// The bytes of a record.
const RECORD: u16 = 16;

/// The version of a font with outlines in table `glyf`.
const SFNT_VERSION: u32 = 0x0001_0000;

/// The table directory.
#[derive(Drop)]
pub(crate) struct Directory {
    /// Its bytes.
    pub(crate) bytes: Vec<u8>,
    /// The sum of the whole file, in which the adjustment of `head` is 0.
    pub(crate) file_sum: u32,
}

/// The directory of these tables, in which the adjustment of `head` is 0.
pub(crate) fn directory_of(alloc: Global, tables: &[Table]) -> Result<Directory, NoMemory>
    requires some { 1 ≤ length tables.now }
    requires few { length tables.now ≤ 32 }
    requires small { total_size (map slice_of tables.now) < 2 ^ 31 }
    ensures { IfOk result (λ directory. IsDirectory (map slice_of tables.now) directory.bytes.items directory.file_sum) }
{
    let count = tables.len() as u16;
    let search = search_fields(RECORD, count);
    let mut bytes = Vec::new(alloc);
    put_fields(&mut bytes, &header(count, search))?;
    let tables_sum = put_records(&mut bytes, tables)?;
    let file_sum = sum32(&bytes).wrapping_add(tables_sum);
    Ok(Directory { bytes, file_sum })
}

/// The fields before the records.
#[tactic(auto, unfolding(crate::specs::Layout::header_fields))]
fn header(count: u16, search: SearchFields) -> [Field; 5]
    ensures { result ≡ header_fields count search }
{
    [
        // sfntVersion, numTables
        Uint32(SFNT_VERSION),
        Uint16(count),
        // searchRange, entrySelector, rangeShift
        Uint16(search.search_range),
        Uint16(search.entry_selector),
        Uint16(search.range_shift),
    ]
}

/// Appends the records of all tables, and gives the sum of their words.
fn put_records(out: &mut Vec<u8>, tables: &[Table]) -> Result<u32, NoMemory>
    requires few { length tables.now ≤ 32 }
    requires small { total_size (map slice_of tables.now) < 2 ^ 31 }
    ensures written { OnOk result (out.new.items ≡ out.old.items ++ flat_map record_bytes (records_from (tables_offset (length tables.now)) (map slice_of tables.now))) }
    ensures sum { IfOk result (λ sum. sum ≡ tables_sum (map slice_of tables.now) % 2 ^ 32) }
    ensures fit { OnOk result (All FitsTag (map slice_of tables.now)) }
{
    let mut offset = HEADER + u32::from(RECORD) * tables.len() as u32;
    let mut sum = 0u32;
    for table in tables {
        let checksum = sum32(&table.bytes);
        put_record(out, table, checksum, offset)?;
        sum = sum.wrapping_add(checksum);
        offset = end_of(table, offset);
    }
    Ok(sum)
}

/// Appends the record of a table at this offset.
fn put_record(out: &mut Vec<u8>, table: &Table, checksum: u32, offset: u32) -> Result<(), NoMemory>
    requires small { length (slice_of table.now).bytes < 2 ^ 31 }
    requires summed { checksum ≡ word_sum (slice_of table.now).bytes % 2 ^ 32 }
    ensures written { OnOk result (out.new.items ≡ out.old.items ++ record_bytes (record_at offset (slice_of table.now))) }
    ensures fits { OnOk result (FitsTag (slice_of table.now)) }
{
    let size = table.bytes.len() as u32;
    let fields = record(tag_number(table.tag), checksum, offset, size);
    put_fields(out, &fields)
}

/// The fields of a record.
#[tactic(auto, unfolding(crate::specs::Layout::record_fields))]
fn record(tag: u32, checksum: u32, offset: u32, size: u32) -> [Field; 4]
    ensures { result ≡ record_fields (record { tag = tag; checksum = checksum; offset = offset; size = size }) }
{
    [Uint32(tag), Uint32(checksum), Uint32(offset), Uint32(size)]
}

/// Where a table at this offset ends with its filling.
fn end_of(table: &Table, offset: u32) -> u32
    requires { offset + length (slice_of table.now).bytes + 3 < 2 ^ 32 }
    ensures { result ≡ offset + length (layout.filled (slice_of table.now).bytes) }
{
    let size = table.bytes.len();
    offset + (size + filling(size)) as u32
}
