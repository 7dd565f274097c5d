// Laws of the definitions.
ghost use Rattle.scan_model.specs.Laws.{ScansKeepRanges, RowsKeepRanges};

/// The law that ranges are kept: a scan leads from a state in range to a state in range, and an allowed row from
/// a pair in range to a pair in range. It does nothing.
pub fn ranges_are_kept()
    ensures scans { ScansKeepRanges }
    ensures rows { RowsKeepRanges }
{}
