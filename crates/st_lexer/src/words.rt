// Words by their first letter, in upper case, and what they are for the grammar. The names of the elementary types stand in the
// table of these.
ghost use Rattle.std.specs.Prelude.{◌≡◌, bytes_eq, slice_index};
ghost use Rattle.source_tree.specs.declared.token.Terminal.TheVariants.{Name};
ghost use Rattle.source_tree.specs.SyntaxView.{upper};
ghost use Rattle.source_tree.specs.Terminals.{entry_or, fixed_words, type_words, words};
ghost use Rattle.st_lexer.specs.Tables.{entries_of, entries_of_types, beginning_with};

use crate::classes::byte_at;
use plc_types::{Elementary, Operator};
use source_tree::{Mark, PartWord, Terminal};

static WORDS_A: [(&str, Terminal); 4] = [
    ("ACTION", Terminal::Part(PartWord::Action)),
    ("AND", Terminal::Operator(Operator::And)),
    ("ARRAY", Terminal::LeftOut),
    ("AT", Terminal::LeftOut),
];

static WORDS_B: [(&str, Terminal); 1] = [("BY", Terminal::Mark(Mark::By))];

static WORDS_C: [(&str, Terminal); 3] = [
    ("CONSTANT", Terminal::Mark(Mark::Constant)),
    ("CASE", Terminal::Mark(Mark::Case)),
    ("CONFIGURATION", Terminal::LeftOut),
];

static WORDS_D: [(&str, Terminal); 4] = [
    ("DO", Terminal::Mark(Mark::Do)),
    ("DATE", Terminal::LeftOut),
    ("DATE_AND_TIME", Terminal::LeftOut),
    ("DT", Terminal::LeftOut),
];

static WORDS_E: [(&str, Terminal); 14] = [
    ("END_TYPE", Terminal::Mark(Mark::EndType)),
    ("END_PROGRAM", Terminal::Mark(Mark::EndProgram)),
    ("END_FUNCTION", Terminal::Mark(Mark::EndFunction)),
    ("END_FUNCTION_BLOCK", Terminal::Mark(Mark::EndFunctionBlock)),
    ("END_VAR", Terminal::Mark(Mark::EndVar)),
    ("ELSIF", Terminal::Mark(Mark::Elsif)),
    ("ELSE", Terminal::Mark(Mark::Else)),
    ("END_IF", Terminal::Mark(Mark::EndIf)),
    ("END_CASE", Terminal::Mark(Mark::EndCase)),
    ("END_FOR", Terminal::Mark(Mark::EndFor)),
    ("END_STEP", Terminal::Mark(Mark::EndStep)),
    ("END_TRANSITION", Terminal::Mark(Mark::EndTransition)),
    ("END_ACTION", Terminal::Mark(Mark::EndAction)),
    ("EXIT", Terminal::Exit),
];

static WORDS_F: [(&str, Terminal); 6] = [
    ("FUNCTION", Terminal::Mark(Mark::Function)),
    ("FUNCTION_BLOCK", Terminal::Mark(Mark::FunctionBlock)),
    ("FROM", Terminal::Mark(Mark::From)),
    ("FOR", Terminal::For),
    ("FALSE", Terminal::Truth(false)),
    ("F_EDGE", Terminal::LeftOut),
];

static WORDS_I: [(&str, Terminal); 2] = [
    ("IF", Terminal::Mark(Mark::If)),
    ("INITIAL_STEP", Terminal::Part(PartWord::InitialStep)),
];

static WORDS_L: [(&str, Terminal); 1] = [("LREAL", Terminal::LeftOut)];

static WORDS_M: [(&str, Terminal); 1] = [("MOD", Terminal::Operator(Operator::Mod))];

static WORDS_N: [(&str, Terminal); 2] = [("NOT", Terminal::Not), ("NON_RETAIN", Terminal::LeftOut)];

static WORDS_O: [(&str, Terminal); 2] = [
    ("OF", Terminal::Mark(Mark::Of)),
    ("OR", Terminal::Operator(Operator::Or)),
];

static WORDS_P: [(&str, Terminal); 1] = [("PROGRAM", Terminal::Mark(Mark::Program))];

static WORDS_R: [(&str, Terminal); 6] = [
    ("RETURN", Terminal::Mark(Mark::Return)),
    ("REAL", Terminal::LeftOut),
    ("REPEAT", Terminal::LeftOut),
    ("RETAIN", Terminal::LeftOut),
    ("RESOURCE", Terminal::LeftOut),
    ("R_EDGE", Terminal::LeftOut),
];

static WORDS_S: [(&str, Terminal); 3] = [
    ("STEP", Terminal::Part(PartWord::Step)),
    ("STRING", Terminal::LeftOut),
    ("STRUCT", Terminal::LeftOut),
];

static WORDS_T: [(&str, Terminal); 9] = [
    ("TYPE", Terminal::Mark(Mark::Type)),
    ("THEN", Terminal::Mark(Mark::Then)),
    ("TO", Terminal::Mark(Mark::To)),
    ("TRANSITION", Terminal::Part(PartWord::Transition)),
    ("TRUE", Terminal::Truth(true)),
    ("TIME", Terminal::LeftOut),
    ("TIME_OF_DAY", Terminal::LeftOut),
    ("TOD", Terminal::LeftOut),
    ("TASK", Terminal::LeftOut),
];

static WORDS_V: [(&str, Terminal); 9] = [
    ("VAR", Terminal::Mark(Mark::Var)),
    ("VAR_INPUT", Terminal::Mark(Mark::VarInput)),
    ("VAR_OUTPUT", Terminal::Mark(Mark::VarOutput)),
    ("VAR_TEMP", Terminal::Mark(Mark::VarTemp)),
    ("VAR_IN_OUT", Terminal::LeftOut),
    ("VAR_EXTERNAL", Terminal::LeftOut),
    ("VAR_ACCESS", Terminal::LeftOut),
    ("VAR_GLOBAL", Terminal::LeftOut),
    ("VAR_CONFIG", Terminal::LeftOut),
];

static WORDS_W: [(&str, Terminal); 2] = [
    ("WSTRING", Terminal::LeftOut),
    ("WHILE", Terminal::LeftOut),
];

static WORDS_X: [(&str, Terminal); 1] = [("XOR", Terminal::Operator(Operator::Xor))];

// The words that begin with a letter, which stands in upper case, but for the elementary types.
#[tactic(auto, unfolding(source_tree::specs::Terminals::fixed_words))]
fn words_with(letter: u8) -> &'static [(&'static str, Terminal)]
    ensures { entries_of result.now ≡ beginning_with letter fixed_words }
{
    match letter {
        b'A' => &WORDS_A,
        b'B' => &WORDS_B,
        b'C' => &WORDS_C,
        b'D' => &WORDS_D,
        b'E' => &WORDS_E,
        b'F' => &WORDS_F,
        b'I' => &WORDS_I,
        b'L' => &WORDS_L,
        b'M' => &WORDS_M,
        b'N' => &WORDS_N,
        b'O' => &WORDS_O,
        b'P' => &WORDS_P,
        b'R' => &WORDS_R,
        b'S' => &WORDS_S,
        b'T' => &WORDS_T,
        b'V' => &WORDS_V,
        b'W' => &WORDS_W,
        b'X' => &WORDS_X,
        _ => &[],
    }
}

fn is_same(text: &str, word: &str) -> bool
    ensures { result ≡ bytes_eq (upper text.now) (upper word.now) }
{
    text.eq_ignore_ascii_case(word)
}

// What a table says of a text, or another terminal where the text is not in the table.
fn entry_or(table: &[(&str, Terminal)], text: &str, other: Terminal) -> Terminal
    ensures { result ≡ entry_or other (entries_of table.now) (upper text.now) }
{
    for (word, terminal) in table {
        if is_same(text, word) {
            return *terminal;
        }
    }
    other
}

// One of these types where the text is its name.
fn type_or_name(types: &[Elementary], text: &str) -> Terminal
    ensures { result ≡ entry_or Name (entries_of_types types.now) (upper text.now) }
{
    for kind in types {
        if is_same(text, kind.name()) {
            return Terminal::Type(*kind);
        }
    }
    Terminal::Name
}

// The elementary type that a text names, or a name.
fn elementary_or_name(text: &str) -> Terminal
    ensures { result ≡ entry_or Name type_words (upper text.now) }
{
    type_or_name(Elementary::all(), text)
}

// The first letter of a text, in upper case, or 0 where it has none.
fn first_letter(text: &str) -> u8
    ensures { result ≡ slice_index (upper text.now) 0 }
{
    byte_at(text.as_bytes(), 0).to_ascii_uppercase()
}

/// What a word is, in whatever case it stands.
pub fn word_terminal(text: &str) -> Terminal
    ensures { result ≡ entry_or Name words (upper text.now) }
{
    let other = elementary_or_name(text);
    entry_or(words_with(first_letter(text)), text, other)
}
