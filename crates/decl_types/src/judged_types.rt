// What types break where they are spelled, and the values that they allow.
ghost use Rattle.std.specs.Prelude.{◌≡◌, IfOk, Bool, if◌then◌else◌};
ghost use Rattle.source_tree.specs.SyntaxView.{type_view};
ghost use Rattle.naming.specs.FileScope.{types_of};
ghost use Rattle.decl_types.specs.Bodies.{file_in};
ghost use Rattle.decl_types.specs.Spelled.{spelled_outcome};
ghost use Rattle.typing.specs.Domains.{domain_of, judged_type};
ghost use Rattle.rules.specs.Judgements.{ok, suppressed};
ghost use Rattle.rules.specs.Outcomes.{outcome_of};
ghost use Rattle.typing.specs.Outcomes.{types_outcome};

use crate::domains::Domains;
use crate::elementary_domains::elementary_domain;
use crate::own_domains::Spelled;
use crate::subranges::judged_subrange_domain;
use rules::Outcome;
use source_tree::TypeName;
use std::alloc::{AllocError, Global};
use typing::Domain;

// A name is whole where its declaration is, and breaks no rule by itself.
fn sound_or_silent(whole: bool) -> Outcome
    ensures { result ≡ outcome_of (if whole then ok else suppressed) }
{
    if whole {
        Outcome::ok()
    } else {
        Outcome::suppressed()
    }
}

/// What a type breaks where it is spelled, and the values that it allows; a type by name is whole where its declaration is.
pub(crate) fn judged_type(
    alloc: Global,
    domains: &Domains<'_>,
    kind: &TypeName,
) -> Result<(Outcome, Domain), AllocError>
    ensures judged { IfOk result (λ r. r.0 ≡ outcome_of (judged_type (file_in domains.now) (type_view kind.now))) }
    ensures domain { IfOk result (λ r. r.1 ≡ domain_of (file_in domains.now) (type_view kind.now)) }
{
    match kind {
        TypeName::Elementary(kind, _) => Ok((Outcome::ok(), elementary_domain(*kind))),
        TypeName::Subrange(kind, at, bounds) => {
            judged_subrange_domain(alloc, &domains.types, *kind, *at, bounds)
        }
        TypeName::Named(name) => {
            let domain = domains.named(name);
            Ok((sound_or_silent(domain.whole), domain))
        }
    }
}

// What a declaration breaks, which was judged or names another type.
fn spelled_outcome(domains: &Domains<'_>, spelled: Spelled<'_>) -> Outcome
    ensures { result ≡ spelled_outcome (file_in domains.now) spelled.entry }
{
    match spelled {
        Spelled::Judged(judged) => judged,
        Spelled::Named(name) => sound_or_silent(domains.named(name).whole),
    }
}

/// What the types of a file break.
pub fn judge_types(domains: &Domains<'_>) -> Outcome
    ensures { result ≡ types_outcome (file_in domains.now) (outcome_of ok) (types_of (file_in domains.now)) }
{
    let mut judged = Outcome::ok();
    for spelled in &domains.judged {
        judged = judged.and(spelled_outcome(domains, *spelled));
    }
    judged
}
