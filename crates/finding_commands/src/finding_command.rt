// What a command does with its finding.
ghost use Rattle.std.specs.Prelude.{false, ◌≡◌, ◌≢◌, ◌≤◌, List, ℕ, Some};
ghost use Rattle.outside.specs.Causes.{Rose, NoneFell};
ghost use Rattle.clause_core.specs.Formula.{Formula};
ghost use Rattle.queries.specs.Comparisons.{Comparison};
ghost use Rattle.queries.specs.Questions.{QueryData};
ghost use Rattle.comparison_files.specs.Held.{comparison_in};
ghost use Rattle.command_answers.specs.Answers.{Answers};
ghost use Rattle.command_answers.specs.Reports.{Report};

use command_answers::Status;
use comparison_files::Compared;
use outside::{Shelf, Sink};
use queries::Queries;
use std::alloc::Global;

/// A command that judges a finding.
pub trait FindingCommand {
    /// What is reported on a finding, by a comparison and the formula of each query.
    ghost reports: { Comparison → (QueryData → Formula) → List ℕ → Report → Type 0 };

    /// Judges the finding in a file by what is compared, and puts its report.
    fn answer<Q: Queries, S: Shelf, K: Sink>(
        &self,
        alloc: Global,
        compared: &Compared,
        queries: &Q,
        finding: &str,
        shelf: &mut S,
        out: &mut K,
    ) -> Status
        requires compared { Q.compared queries.now ≡ comparison_in compared.now }
        requires reads { (S.state shelf.old).read_failed ≡ false }
        requires puts { (K.state out.old).put_failed ≡ false }
        ensures kept { (S.state shelf.new).file ≡ (S.state shelf.old).file }
        ensures answer { (file : List ℕ) → (S.state shelf.old).file finding.now ≡ Some file
            → Answers (reports (comparison_in compared.now) (Q.formula queries.now) file) (Rose ((S.state shelf.old).read_faults finding.now) ((S.state shelf.new).read_faults finding.now)) result (K.state out.old).taken (K.state out.new).taken }
        ensures usage { result ≢ Status.Usage }
        ensures read_fault { result ≡ Status.ReadFault → Rose ((S.state shelf.old).read_faults finding.now) ((S.state shelf.new).read_faults finding.now) }
        ensures write_fault { result ≡ Status.WriteFault → Rose (K.state out.old).faults (K.state out.new).faults }
        ensures reads { NoneFell (S.state shelf.old).read_faults (S.state shelf.new).read_faults }
        ensures writes { NoneFell (S.state shelf.old).write_faults (S.state shelf.new).write_faults }
        ensures faults { (K.state out.old).faults ≤ (K.state out.new).faults };
}
