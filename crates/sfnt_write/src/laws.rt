ghost use Rattle.sfnt_write.specs.Laws.{HeadIsGiven, TablesAreGiven};

/// The law that the file's table of each tag but `head` is the one that was given. So whatever a table's bytes mean,
/// the file's table means; `proofs/Lift` has it for each meaning.
pub fn tables_law()
    ensures { TablesAreGiven }
{}

/// The law that the file's `head` has all bytes of the one that was given but those of `checksumAdjustment`: its other
/// fields are read as they were.
pub fn head_law()
    ensures { HeadIsGiven }
{}
