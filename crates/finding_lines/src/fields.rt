// Numbers behind their labels, queries and verdicts.
ghost use Rattle.std.specs.Prelude.{◌≡◌, ◌≢◌, ◌++◌, ℕ, ℤ, List, MatchOption};
ghost use Rattle.finding_lines.specs.Numbers.{IsNumber};
ghost use Rattle.finding_lines.specs.Form.{AskedFits, ConclusionFits};
ghost use Rattle.finding_lines.specs.Spelling.{spaced, asked, concluded};
ghost use Rattle.finding_lines.specs.Reading.{Reads, Opens, IsLabel, IsTaken, NoneTaken};
ghost use Rattle.finding_lines.specs.declared.line.Asked.{Asked};

use crate::digits::{after_byte, take_signed};
use crate::line::{Asked, Conclusion};
use crate::words::{after, take_label};
use plc_types::Value;

/// The number in front, behind a space.
#[inline]
pub fn take_number(bytes: &[u8]) -> Option<(Value, &[u8])>
    ensures { MatchOption result (NoneTaken IsNumber spaced bytes.now) (λ p. IsTaken IsNumber spaced bytes.now p.0 p.1.now) }
{
    let rest = after_byte(bytes, b' ')?;
    let (number, more) = take_signed(rest)?;
    Some((number, more))
}

/// The number in front, behind a label.
pub fn take_labelled<'a>(bytes: &'a [u8], label: &[u8]) -> Option<(Value, &'a [u8])>
    ensures { MatchOption result ((n : ℤ) (more : List ℕ) → IsNumber n → Opens more → bytes.now ≢ label.now ++ (spaced n ++ more))
        (λ p. IsNumber p.0 × Opens p.1.now × (bytes.now ≡ label.now ++ (spaced p.0 ++ p.1.now))) }
{
    let rest = after(bytes, label)?;
    let (number, more) = take_number(rest)?;
    Some((number, more))
}

/// The number behind a label, where nothing follows.
pub fn read_labelled(bytes: &[u8], label: &[u8]) -> Option<Value>
    ensures { MatchOption result ((n : ℤ) → IsNumber n → bytes.now ≢ label.now ++ spaced n)
        (λ n. IsNumber n × (bytes.now ≡ label.now ++ spaced n)) }
{
    let (number, rest) = take_labelled(bytes, label)?;
    if rest.is_empty() { Some(number) } else { None }
}

/// Two numbers behind their labels, where nothing follows.
pub fn read_two(bytes: &[u8], first: &[u8], second: &[u8]) -> Option<(Value, Value)>
    requires { IsLabel second.now }
    ensures { MatchOption result ((m n : ℤ) → IsNumber m → IsNumber n → bytes.now ≢ first.now ++ (spaced m ++ (second.now ++ spaced n)))
        (λ p. IsNumber p.0 × IsNumber p.1 × (bytes.now ≡ first.now ++ (spaced p.0 ++ (second.now ++ spaced p.1)))) }
{
    let (one, rest) = take_labelled(bytes, first)?;
    let two = read_labelled(rest, second)?;
    Some((one, two))
}

/// The query in front, behind a space.
pub fn take_asked(bytes: &[u8]) -> Option<(Asked, &[u8])>
    ensures { MatchOption result (NoneTaken AskedFits asked bytes.now) (λ p. IsTaken AskedFits asked bytes.now p.0 p.1.now) }
{
    if let Some(rest) = take_label(bytes, b" FIRST") {
        return Some((Asked::First, rest));
    }
    if let Some(rest) = take_label(bytes, b" STEP") {
        return Some((Asked::Step, rest));
    }
    if let Some(rest) = take_label(bytes, b" GOAL") {
        return Some((Asked::Goal, rest));
    }
    if let Some((depth, rest)) = take_labelled(bytes, b" DEEP") {
        return Some((Asked::Deep(depth), rest));
    }
    let (rows, rest) = take_labelled(bytes, b" WALK")?;
    Some((Asked::Walk(rows), rest))
}

/// The query behind a keyword, where nothing follows.
pub fn read_asked(bytes: &[u8], keyword: &[u8]) -> Option<Asked>
    ensures { MatchOption result ((q : Asked) → AskedFits q → bytes.now ≢ keyword.now ++ asked q)
        (λ q. AskedFits q × (bytes.now ≡ keyword.now ++ asked q)) }
{
    let rest = after(bytes, keyword)?;
    let (query, more) = take_asked(rest)?;
    if more.is_empty() { Some(query) } else { None }
}

/// The query that was spent, and the number of derivations.
pub fn read_spent(bytes: &[u8]) -> Option<(Asked, Value)>
    ensures { MatchOption result ((q : Asked) (n : ℤ) → AskedFits q → IsNumber n → bytes.now ≢ concluded (Conclusion.Spent q n))
        (λ p. AskedFits p.0 × IsNumber p.1 × (bytes.now ≡ concluded (Conclusion.Spent p.0 p.1))) }
{
    let rest = after(bytes, b" SPENT query")?;
    let (query, more) = take_asked(rest)?;
    let number = read_labelled(more, b" conflicts")?;
    Some((query, number))
}

/// How many candidates are kept, of how many, and the depth.
pub fn read_open(bytes: &[u8]) -> Option<(Value, Value, Value)>
    ensures { MatchOption result ((k c n : ℤ) → IsNumber k → IsNumber c → IsNumber n → bytes.now ≢ concluded (Conclusion.Open k c n))
        (λ p. IsNumber p.0 × IsNumber p.1 × IsNumber p.2 × (bytes.now ≡ concluded (Conclusion.Open p.0 p.1 p.2))) }
{
    let (kept, rest) = take_labelled(bytes, b" OPEN kept")?;
    let (candidates, depth) = read_two(rest, b" of", b" depth")?;
    Some((kept, candidates, depth))
}

/// The verdict, behind a space, where nothing follows.
pub fn read_conclusion(bytes: &[u8]) -> Option<Conclusion>
    ensures { Reads ConclusionFits concluded bytes.now result }
{
    if bytes == b" VACUOUS".as_slice() {
        return Some(Conclusion::Vacuous);
    }
    if let Some((kept, candidates)) = read_two(bytes, b" RELATED kept", b" of") {
        return Some(Conclusion::Related(kept, candidates));
    }
    if let Some(scans) = read_labelled(bytes, b" DIFFERENT scans") {
        return Some(Conclusion::Different(scans));
    }
    if let Some((kept, candidates, depth)) = read_open(bytes) {
        return Some(Conclusion::Open(kept, candidates, depth));
    }
    let (query, number) = read_spent(bytes)?;
    Some(Conclusion::Spent(query, number))
}
