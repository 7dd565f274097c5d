// The law of the rules that the flat form keeps.
ghost use Rattle.flat_form.specs.FlatLaws.{FlatFormKeepsRules};

/// The law that the flat form of a well-typed program keeps the rules of flat programs. It does nothing.
pub fn flat_form_keeps_rules()
    ensures { FlatFormKeepsRules }
{}
