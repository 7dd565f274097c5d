// The functions do nothing: their clauses are the laws.
ghost use Rattle.prefix_laws.specs.Laws.{PartIsValidOrCutOff, LongPartIsTooLong, PartWithEndIsValid, ValidHasEnd};

/// A part of a finding, of at most so many bytes as may be judged, is valid, or INVALID by the test that a line ends with its line feed.
pub fn law_part_is_valid_or_cut_off()
    ensures { PartIsValidOrCutOff }
{}

/// A part of a finding that has more bytes than may be judged is answered by M8.
pub fn law_long_part_is_too_long()
    ensures { LongPartIsTooLong }
{}

/// A part of a finding that holds a whole END line, within so many bytes as may be judged, is valid, and its verdict is that of the line.
pub fn law_part_with_end_is_valid()
    ensures { PartWithEndIsValid }
{}

/// A valid finding ends with the END line of its verdict.
pub fn law_valid_has_end()
    ensures { ValidHasEnd }
{}
