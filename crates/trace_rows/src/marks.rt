// The UTF-8 mark that may stand before a text.
ghost use Rattle.std.specs.Prelude.{◌≡◌, ◌≤◌, length, slice_index};
ghost use Rattle.source_tree.specs.Tokens.{mark_len};
ghost use Rattle.trace_rows.specs.Traces.{unmarked};

// The byte at a place, or 0 past the end.
fn byte_at(bytes: &[u8], place: usize) -> u8
    ensures { result ≡ slice_index bytes.now place }
{
    bytes.get(place).copied().unwrap_or(0)
}

// How many bytes the mark takes.
fn mark_len(text: &[u8]) -> usize
    ensures len { result ≡ mark_len text.now }
    ensures within { result ≤ length text.now }
{
    if byte_at(text, 0) == 0xef && byte_at(text, 1) == 0xbb && byte_at(text, 2) == 0xbf {
        3
    } else {
        0
    }
}

/// The text behind its mark, or all of it.
pub(crate) fn unmarked(text: &[u8]) -> &[u8]
    ensures { result.now ≡ unmarked text.now }
{
    &text[mark_len(text)..]
}
