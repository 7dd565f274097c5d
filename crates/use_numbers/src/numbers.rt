// The numbers of a file's uses of names, by the places of the names in the text.
ghost use Rattle.std.specs.Prelude.{◌≡◌, ◌⊎◌, []};
ghost use Rattle.use_numbers.specs.UseNumbers.{number_at, IsKept};

use std::alloc::Global;
use std::marker::Model;

// Half of the bytes that a text has at most.
const MOST_PLACES: usize = 524_288;

/// The numbers of a file's uses of names, by half of the place of the name, since two names never stand so near: of a variable, and of the
/// name of a part of a chart where it is declared, that of its slot, of a step at a transition that of the step among its chart's steps, of an action at a step that of the action among its
/// chart's actions, else that of the entry among the names of the file. Contracts see the list of them. Whoever reads one compares the
/// name of its entry.
#[derive(Drop)]
pub struct UseNumbers {
    by_place: Vec<Option<u32>>,
}

impl Model for UseNumbers {
    ghost use Rattle.std.specs.Prelude.{List, Option, ℕ};

    ghost Value = { List (Option ℕ) };

    ghost view = { λ n. n.by_place.items };
}

impl UseNumbers {
    /// No numbers.
    pub fn new(alloc: Global) -> UseNumbers
        ensures { result ≡ [] }
    {
        UseNumbers {
            by_place: Vec::new(alloc),
        }
    }

    /// Keeps the number of the use at a place. Keeps none where memory is wanting, where the place lies in no text of at most
    /// 1,048,576 bytes, or where the number has more than 32 bits.
    pub fn keep(&mut self, at: usize, number: usize)
        ensures { (self.new ≡ self.old) ⊎ IsKept self.old at number self.new }
    {
        let place = at / 2;
        if place > MOST_PLACES {
            return;
        }
        let Ok(kept) = u32::try_from(number) else {
            return;
        };
        if self.by_place.len() <= place && self.by_place.resize(place + 1, None).is_err() {
            return;
        }
        self.by_place[place] = Some(kept);
    }

    /// The number of the use at a place, where one is kept.
    pub fn get(&self, at: usize) -> Option<usize>
        ensures { result ≡ number_at self.now at }
    {
        match self.by_place.get(at / 2) {
            Some(Some(number)) => Some(*number as usize),
            _ => None,
        }
    }
}
