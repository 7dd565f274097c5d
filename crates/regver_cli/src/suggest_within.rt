// Suggestions within a time. What is suggested follows from the texts, the seed and the number of pairs; of the time only that number does.
use command_files::AcceptError;
use outside::{SureShelf, SureSink};
use regver_top::regver;
use std::alloc::{AllocError, Global};
use std::time::{Clock, Instant};
use suggest_command::{Asked, Effort, Suggestion, keep_for, suggest_for};

/// The bytes of three files.
#[derive(Clone, Copy)]
pub struct Texts<'a> {
    pub old: &'a [u8],
    pub new: &'a [u8],
    pub relation: &'a [u8],
}

// How many pairs are looked at first where the time is limited.
const FIRST_PAIRS: usize = 250;

// How often the number of pairs may be doubled.
const MOST_ROUNDS: usize = 32;

// How many times as long as a round the next one is expected to take at most, which has twice as many pairs.
const NEXT_ROUND: u128 = 3;

fn suggest_by(
    rt: &impl AllocGlobal,
    texts: &Texts<'_>,
    effort: Effort,
) -> Result<Suggestion, AcceptError> {
    suggest_for(rt.alloc(), texts.old, texts.new, texts.relation, effort)
}

// The time since then, in milliseconds; a clock that cannot be read tells no time.
fn since(rt: &impl Clock, then: Option<Instant>) -> u128 {
    match (Instant::now(rt), then) {
        (Ok(now), Some(then)) => now.duration_since(then).as_millis(),
        _ => 0,
    }
}

// Whether more pairs may tell more: as many were seen as were asked for, and all were related.
fn may_go_on(suggestion: &Suggestion, pairs: usize) -> bool {
    suggestion.unrelated.is_none() && suggestion.pairs >= pairs
}

// What is suggested on twice as many pairs again and again, as long as the next round is expected to end in time.
fn suggest_within(
    rt: &(impl Clock + AllocGlobal),
    texts: &Texts<'_>,
    effort: Effort,
    seconds: u64,
) -> Result<Suggestion, AcceptError> {
    let limit = u128::from(seconds).wrapping_mul(1_000);
    let begun = Instant::now(rt).ok();
    let mut pairs = effort.pairs.min(FIRST_PAIRS);
    for _ in 0..MOST_ROUNDS {
        let round = Instant::now(rt).ok();
        let next = Effort {
            seed: effort.seed,
            pairs,
        };
        let suggestion = suggest_by(rt, texts, next)?;
        let expected = since(rt, round).saturating_mul(NEXT_ROUND);
        let is_late = since(rt, begun).saturating_add(expected) > limit;
        if is_late || pairs >= effort.pairs || !may_go_on(&suggestion, pairs) {
            return Ok(suggestion);
        }
        pairs = pairs.saturating_mul(2).min(effort.pairs);
    }
    suggest_by(rt, texts, effort)
}

// What is suggested for three texts, within a time where one is asked for.
fn suggest_in_time(
    rt: &(impl Clock + AllocGlobal),
    texts: &Texts<'_>,
    asked: &Asked<'_>,
) -> Result<Suggestion, AcceptError> {
    match asked.seconds {
        Some(seconds) => suggest_within(rt, texts, asked.effort, seconds),
        None => suggest_by(rt, texts, asked.effort),
    }
}

// The finding that verify saves on the text of a suggestion, in memory.
fn finding_on(alloc: Global, texts: &Texts<'_>, made: &[u8]) -> Result<Vec<u8>, AllocError> {
    let mut shelf = SureShelf::new(alloc);
    shelf.fill("old", texts.old)?;
    shelf.fill("new", texts.new)?;
    shelf.fill("relation", made)?;
    let mut words: Vec<String> = Vec::new(alloc);
    for word in ["regver", "verify", "old", "new", "relation", "finding"] {
        words.push(String::from_str(alloc, word)?)?;
    }
    let mut out = SureSink::new(alloc);
    let _status = regver(alloc, words, &mut shelf, &mut out);
    Vec::from_slice(alloc, shelf.bytes("finding"))
}

/// What is suggested for three texts, as words ask for it: where lines are to be kept, those that verify drops stand in comments.
pub fn suggest_as_asked(
    rt: &(impl Clock + AllocGlobal),
    texts: &Texts<'_>,
    asked: &Asked<'_>,
) -> Result<Suggestion, AcceptError> {
    let suggestion = suggest_in_time(rt, texts, asked)?;
    if !asked.keeps || suggestion.unrelated.is_some() {
        return Ok(suggestion);
    }
    let alloc = rt.alloc();
    let Ok(finding) = finding_on(alloc, texts, suggestion.text.as_slice()) else {
        return Err(AcceptError::Memory);
    };
    let (old, new, relation) = (texts.old, texts.new, texts.relation);
    keep_for(alloc, old, new, relation, suggestion, finding.as_slice())
}
