// Laws of the definitions.
ghost use Rattle.flat_core.specs.FlatLaws.{ScratchDoesNotCount};

/// The law that scratch cells are set before they count: whatever they hold before a scan, it leaves the same cells. It does
/// nothing.
pub fn scratch_does_not_count()
    ensures { ScratchDoesNotCount }
{}
