// The rules of what stands at the front of a text.
ghost use Rattle.std.specs.Prelude.{◌≡◌};
ghost use Rattle.st_lexer.specs.Fronts.{stuck_rule};

use crate::classes::byte_at;
use rules::Rule;

/// The rule that a text breaks where no gap and no token stands at its front.
pub fn stuck_rule(text: &[u8]) -> Rule
    ensures { result ≡ stuck_rule text.now }
{
    if byte_at(text, 0) == b'(' && byte_at(text, 1) == b'*' {
        Rule::OpenComment
    } else {
        Rule::StrayByte
    }
}
