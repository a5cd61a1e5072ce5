//! The fields by which a reader of a font finds a record by halving: of the table directory, and of the character map
//! of format 4.
#![tactic(auto)]

ghost use Rattle.std.specs.Prelude.{◌<◌, ◌≤◌, ◌*◌, ◌^◌};
ghost use Rattle.search_fields.specs.SearchFields.{AreSearchFields, OneAnswer};

#[cfg(test)]
mod tests;

/// The three fields, of so many records of one size (OpenType, "Table directory"; "cmap", format 4).
#[derive(Clone, Copy, Debug, PartialEq, Eq)]
pub struct SearchFields {
    /// The bytes of as many records as the greatest power of two not above their number.
    pub search_range: u16,
    /// The exponent of that power.
    pub entry_selector: u16,
    /// The bytes of all other records.
    pub range_shift: u16,
}

/// The fields of `count` records of `size` bytes each, at least one and under 65536 bytes together.
pub fn search_fields(size: u16, count: u16) -> SearchFields
    requires some { 1 ≤ count }
    requires small { size * count < 2 ^ 16 }
    ensures { AreSearchFields size count result }
{
    let entry_selector = count.ilog2() as u16;
    let search_range = size * (1 << entry_selector);
    SearchFields {
        search_range,
        entry_selector,
        range_shift: size * count - search_range,
    }
}

/// The law that so many records of a size have one answer.
pub fn one_answer_law()
    ensures { OneAnswer }
{}
