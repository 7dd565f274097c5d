// A law of breaks.
ghost use Rattle.verdict_laws.specs.Laws.{NoneBelow};

/// Where there is no break of one row, of two, and so on, there is none that is shorter than that many.
pub fn no_break_below()
    ensures { NoneBelow }
{}
