// Words for numbers.
ghost use Rattle.std.specs.Prelude.{◌≡◌};
ghost use Rattle.command_line.specs.Counts.{first_spelled, count_of};

use itoa::Buffer;

// The number from 1 to the most that a word spells.
fn spelled_to(most: u32, word: &str) -> Option<u32>
    ensures { result ≡ first_spelled 0 most word.now }
{
    let mut digits = Buffer::new();
    for less in 0..most {
        if digits.format(less + 1) == word {
            return Some(less + 1);
        }
    }
    None
}

/// The number from 1 to 341 that a word spells: decimal digits alone, without a zero in front.
pub fn count_of(word: &str) -> Option<u32>
    ensures { result ≡ count_of word.now }
{
    spelled_to(341, word)
}
