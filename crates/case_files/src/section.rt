// The words that begin a section of a case file.

/// The word of a section.
#[derive(Clone, Copy)]
pub enum Word {
    Accept,
    Old,
    New,
    Relation,
    Trace,
    Finding,
    Explain,
    Answer,
    Verdict,
    Flat,
    List,
    Nodes,
    Gates,
    Scan,
    Before,
    After,
    Statements,
    Candidates,
    Clauses,
    Parts,
    Lines,
    Along,
    Held,
    Query,
    Satisfiable,
    Unsatisfiable,
    Words,
    Gen,
    Queries,
    Failing,
    Suggested,
    Formula,
    Decided,
    Checked,
    Shared,
}

/// What runs a case.
#[derive(Clone, Copy)]
pub enum Door {
    Accept,
    Replay,
    Check,
    Explain,
    Verify,
    Flat,
    Scan,
    Relation,
    Query,
    Words,
    Gen,
    Suggest,
    Formula,
}

impl Word {
    /// The word that is spelled so, if there is one.
    pub fn of(text: &str) -> Option<Word> {
        match text {
            "accept" => Some(Word::Accept),
            "old" => Some(Word::Old),
            "new" => Some(Word::New),
            "relation" => Some(Word::Relation),
            "trace" => Some(Word::Trace),
            "answer" => Some(Word::Answer),
            "flat" => Some(Word::Flat),
            "list" => Some(Word::List),
            "nodes" => Some(Word::Nodes),
            "gates" => Some(Word::Gates),
            "scan" => Some(Word::Scan),
            "before" => Some(Word::Before),
            "after" => Some(Word::After),
            "shared" => Some(Word::Shared),
            _ => Word::of_numbers_and_lists(text),
        }
    }

    // The others.
    fn of_numbers_and_lists(text: &str) -> Option<Word> {
        match text {
            "statements" => Some(Word::Statements),
            "candidates" => Some(Word::Candidates),
            "clauses" => Some(Word::Clauses),
            "parts" => Some(Word::Parts),
            "lines" => Some(Word::Lines),
            "along" => Some(Word::Along),
            "held" => Some(Word::Held),
            "query" => Some(Word::Query),
            "satisfiable" => Some(Word::Satisfiable),
            "unsatisfiable" => Some(Word::Unsatisfiable),
            "finding" => Some(Word::Finding),
            "explain" => Some(Word::Explain),
            "verdict" => Some(Word::Verdict),
            _ => Word::of_calls_and_formulas(text),
        }
    }

    // The rest of them.
    fn of_calls_and_formulas(text: &str) -> Option<Word> {
        match text {
            "words" => Some(Word::Words),
            "gen" => Some(Word::Gen),
            "queries" => Some(Word::Queries),
            "failing" => Some(Word::Failing),
            "suggested" => Some(Word::Suggested),
            "formula" => Some(Word::Formula),
            "decided" => Some(Word::Decided),
            "checked" => Some(Word::Checked),
            _ => None,
        }
    }

    /// Its spelling.
    pub fn name(self) -> &'static str {
        match self {
            Word::Accept => "accept",
            Word::Old => "old",
            Word::New => "new",
            Word::Relation => "relation",
            Word::Trace => "trace",
            Word::Finding => "finding",
            Word::Explain => "explain",
            Word::Answer => "answer",
            Word::Verdict => "verdict",
            Word::Flat => "flat",
            Word::List => "list",
            Word::Nodes => "nodes",
            Word::Gates => "gates",
            Word::Scan => "scan",
            Word::Before => "before",
            Word::After => "after",
            Word::Statements => "statements",
            Word::Candidates => "candidates",
            Word::Clauses => "clauses",
            Word::Parts => "parts",
            Word::Lines => "lines",
            Word::Along => "along",
            Word::Held => "held",
            Word::Query => "query",
            Word::Satisfiable => "satisfiable",
            Word::Unsatisfiable => "unsatisfiable",
            Word::Words => "words",
            Word::Gen => "gen",
            Word::Queries => "queries",
            Word::Failing => "failing",
            Word::Suggested => "suggested",
            Word::Formula => "formula",
            Word::Decided => "decided",
            Word::Checked => "checked",
            Word::Shared => "shared",
        }
    }

    /// The one door that has such sections, if there is only one.
    pub fn door(self) -> Option<Door> {
        match self {
            Word::Accept => Some(Door::Accept),
            Word::Trace => Some(Door::Replay),
            Word::Finding => Some(Door::Check),
            Word::Explain => Some(Door::Explain),
            Word::Verdict => Some(Door::Verify),
            Word::Flat | Word::List => Some(Door::Flat),
            Word::Nodes | Word::Gates => Some(Door::Flat),
            Word::Scan | Word::Before | Word::After | Word::Statements => Some(Door::Scan),
            Word::Candidates | Word::Clauses | Word::Parts => Some(Door::Relation),
            Word::Lines | Word::Along | Word::Held => Some(Door::Relation),
            Word::Query | Word::Satisfiable | Word::Unsatisfiable => Some(Door::Query),
            Word::Words => Some(Door::Words),
            Word::Gen => Some(Door::Gen),
            Word::Suggested => Some(Door::Suggest),
            Word::Formula | Word::Decided | Word::Checked => Some(Door::Formula),
            Word::Old | Word::New | Word::Relation => None,
            Word::Answer | Word::Queries | Word::Failing | Word::Shared => None,
        }
    }

    /// Whether a case may have several such sections.
    pub fn may_repeat(self) -> bool {
        matches!(
            self,
            Word::Before | Word::After | Word::Query | Word::Decided
        )
    }

    /// Whether a section may have this behind its word; it is empty where nothing stands there.
    pub fn takes(self, argument: &str) -> bool {
        match self {
            Word::Answer | Word::Verdict | Word::Suggested => argument.parse::<u8>().is_ok(),
            Word::Query | Word::Gen | Word::Decided => !argument.is_empty(),
            Word::Statements | Word::Queries => argument.parse::<u64>().is_ok(),
            Word::New => argument.is_empty() || argument == "same",
            Word::Shared => argument.is_empty() || argument == "none",
            Word::Finding | Word::Explain => argument.is_empty() || argument == "unended",
            Word::List | Word::Candidates => {
                argument.is_empty() || argument.starts_with("refused ")
            }
            Word::Nodes => {
                argument.is_empty()
                    || argument.starts_with("refused ")
                    || argument.parse::<u64>().is_ok()
            }
            _ => argument.is_empty(),
        }
    }

    /// Whether a section with this behind its word has a text.
    pub fn has_text(self, argument: &str) -> bool {
        argument.is_empty()
            || matches!(
                self,
                Word::Answer
                    | Word::Verdict
                    | Word::Finding
                    | Word::Explain
                    | Word::Query
                    | Word::Suggested
                    | Word::Decided
            )
    }
}
