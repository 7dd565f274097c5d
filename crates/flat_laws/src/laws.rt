// The law of what the flat form is for.
ghost use Rattle.flat_form.specs.FlatLaws.{FlatFormKeepsMeaning};

/// The law that from every state in range a scan of the flat form of a well-typed program leaves the cells that a scan of the program
/// leaves. It does nothing.
pub fn flat_form_keeps_meaning()
    ensures { FlatFormKeepsMeaning }
{}
