// The names that bodies use, and the FUNCTIONs that they call.
ghost use Rattle.std.specs.Prelude.{◌≡◌, ◌++◌, OnOk};
ghost use Rattle.source_tree.specs.SyntaxView.{body_view};
ghost use Rattle.naming.specs.Broken.{in_body};
ghost use Rattle.naming.specs.Circles.{calls_in_body};
ghost use Rattle.pou_scope.specs.NamesView.{file_in, pou_in};
ghost use Rattle.rules.specs.Outcomes.{outcome_of, both};

use crate::chart::judged_chart;
use crate::scope::Scope;
use crate::walk::walk_stmts;
use rules::Outcome;
use source_tree::Body;
use std::alloc::{AllocError, Global};
use use_numbers::UseNumbers;

/// Keeps what a body breaks and the numbers of its uses of names, and appends the FUNCTIONs that it calls.
pub fn walk_body(
    alloc: Global,
    scope: &Scope<'_, '_>,
    body: &Body,
    outcome: &mut Outcome,
    numbers: &mut UseNumbers,
    calls: &mut Vec<usize>,
) -> Result<(), AllocError>
    ensures judged { OnOk result (outcome.new ≡ both outcome.old (outcome_of (in_body (file_in scope.now.names) (pou_in scope.now.names) (body_view body.now)))) }
    ensures calls { OnOk result (calls.new.items ≡ calls.old.items ++ calls_in_body (file_in scope.now.names) (body_view body.now)) }
{
    match body {
        Body::Statements(stmts) => walk_stmts(scope, stmts, outcome, numbers, calls),
        Body::Chart(chart) => {
            *outcome = outcome.and(judged_chart(alloc, scope, &chart.parts, numbers, calls)?);
            Ok(())
        }
    }
}
