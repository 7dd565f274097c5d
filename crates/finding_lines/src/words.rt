// What stands in front of a line.
ghost use Rattle.std.specs.Prelude.{◌≡◌, ◌≢◌, ◌++◌, ℕ, List, MatchOption};
ghost use Rattle.finding_lines.specs.Reading.{Opens};

/// What follows the prefix, if the bytes begin with it.
pub fn after<'a>(bytes: &'a [u8], prefix: &[u8]) -> Option<&'a [u8]>
    ensures { MatchOption result ((more : List ℕ) → bytes.now ≢ prefix.now ++ more) (λ more. bytes.now ≡ prefix.now ++ more.now) }
{
    bytes.strip_prefix(prefix)
}

/// What follows the label, if the bytes begin with it and a space or the end follows.
pub fn take_label<'a>(bytes: &'a [u8], label: &[u8]) -> Option<&'a [u8]>
    ensures { MatchOption result ((more : List ℕ) → Opens more → bytes.now ≢ label.now ++ more) (λ more. Opens more.now × (bytes.now ≡ label.now ++ more.now)) }
{
    let more = after(bytes, label)?;
    if more.is_empty() {
        return Some(more);
    }
    if more[0] == b' ' { Some(more) } else { None }
}
