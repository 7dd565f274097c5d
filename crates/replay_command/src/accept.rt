// From the four texts of a replay to its programs, relation and rows.
ghost use Rattle.std.specs.Prelude.{IfOk, IfErr, List, ℕ};
ghost use Rattle.scan_replay.specs.Duos.{AreComparable};
ghost use Rattle.command_files.specs.Kept.{IsKept};
ghost use Rattle.command_files.specs.Texts.{Texts};
ghost use Rattle.command_files.specs.Refused.{IfRefused, IfRefusedOf};
ghost use Rattle.trace_rows.specs.Traces.{IsTrace};
ghost use Rattle.replay_command.specs.Accepting.{Accepts, IsNoTrace, IsRefused};
ghost use Rattle.replay_command.specs.Accepted.{AreAllKept, ReplayIsAccepted};

use command_answers::Source;
use command_files::{AcceptError, KeptTexts, program_in, refused, relation_in};
use program_tree::Program;
use rules::Rule;
use scan_model::Relation;
use std::alloc::Global;
use trace_rows::{TraceRows, read_trace};

/// The texts of the four files; one that is too long is not there.
#[derive(Drop)]
pub struct ReplayTexts {
    pub three: KeptTexts,
    pub trace: Option<Vec<u8>>,
}

/// What is replayed.
#[derive(Drop)]
pub struct Replay {
    pub old: Program,
    pub new: Program,
    pub relation: Relation,
    pub rows: TraceRows,
}

fn rows_in(alloc: Global, width: usize, text: &Option<Vec<u8>>) -> Result<TraceRows, AcceptError>
    ensures ok { (bytes : List ℕ) → IsKept text.now bytes → IfOk result (λ rows. Accepts (IsTrace width bytes) bytes rows) }
    ensures refused { (bytes : List ℕ) → IsKept text.now bytes → IfErr result (IfRefusedOf Source.Trace (IsNoTrace width bytes)) }
{
    let Some(text) = text else {
        return Err(refused(Source::Trace, Rule::TooLong));
    };
    match read_trace(alloc, width, text)? {
        None => Err(refused(Source::Trace, Rule::NoTrace)),
        Some(rows) => Ok(rows),
    }
}

/// What the texts are, or the first rule that the first of them breaks.
pub fn accept(alloc: Global, texts: &ReplayTexts) -> Result<Replay, AcceptError>
    ensures ok { (t : Texts) → AreAllKept texts.now t → IfOk result (ReplayIsAccepted t) }
    ensures comparable { IfOk result (λ r. AreComparable r.old r.new r.relation) }
    ensures refused { (t : Texts) → AreAllKept texts.now t → IfErr result (IfRefused (IsRefused t)) }
{
    let old = program_in(alloc, Source::Old, &texts.three.old)?;
    let new = program_in(alloc, Source::New, &texts.three.new)?;
    let relation = relation_in(alloc, &old, &new, &texts.three.relation)?;
    let rows = rows_in(alloc, relation.inputs.len(), &texts.trace)?;
    Ok(Replay {
        old,
        new,
        relation,
        rows,
    })
}
