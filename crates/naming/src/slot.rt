// Entries of a POU's table of names.
ghost use Rattle.std.specs.Prelude.{◌≡◌};
ghost use Rattle.naming.specs.Slots.{number_by};

/// An entry of a POU's table of names: the number in declared order, from 1, of the first variable of the name, and whether the
/// name is declared twice.
#[derive(Clone, Copy)]
pub struct Slot {
    pub number: usize,
    pub is_doubled: bool,
}

/// The variable of a slot, by its number from 0, where its name is declared once.
pub fn number_by(slot: Option<Slot>) -> Option<usize>
    ensures { result ≡ number_by slot }
{
    match slot {
        Some(slot) if !slot.is_doubled => Some(slot.number.saturating_sub(1)),
        _ => None,
    }
}
