// The domains of types as they are spelled, and what their declarations break.
ghost use Rattle.std.specs.Prelude.{◌≡◌, ℕ, Some, map, IfOk};
ghost use Rattle.source_tree.specs.Syntax.{of_type};
ghost use Rattle.source_tree.specs.SyntaxView.{name_view, names_view, type_view, specification_view};
ghost use Rattle.naming.specs.FileScope.{types_of};
ghost use Rattle.decl_types.specs.Bodies.{file_of};
ghost use Rattle.decl_types.specs.Spelled.{spelled_outcome, values_outcome, declared_outcomes};
ghost use Rattle.rules.specs.Outcomes.{outcome_of};
ghost use Rattle.typing.specs.Domains.{end_domain, judged_type, judged_specification};
ghost use Rattle.typing.specs.OwnDomains.{own_domains};

use crate::elementary_domains::{elementary_domain, enumeration_domain, has_few, no_domain};
use crate::file_types::FileTypes;
use crate::subranges::judged_subrange_domain;
use rules::{Outcome, Rule};
use source_tree::{Name, Specification, TypeName};
use std::alloc::{AllocError, Global};
use typing::Domain;

/// What the declaration of a type breaks: what was judged where it is spelled, or nothing but what the type that it names does.
#[derive(Clone, Copy)]
pub(crate) enum Spelled<'p> {
    Judged(Outcome),
    Named(&'p Name),
}

// The domain of a type that is spelled as that of a variable, and what it breaks.
fn spelled_domain<'p>(
    alloc: Global,
    file: &FileTypes<'_>,
    kind: &'p TypeName,
) -> Result<(Spelled<'p>, Domain), AllocError>
    ensures judged { IfOk result (λ r. spelled_outcome (file_of file.now) r.0 ≡ outcome_of (judged_type (file_of file.now) (type_view kind.now))) }
    ensures domain { IfOk result (λ r. (number : ℕ) → r.1 ≡ end_domain (file_of file.now) number (Some (of_type (type_view kind.now)))) }
{
    match kind {
        TypeName::Elementary(kind, _) => {
            Ok((Spelled::Judged(Outcome::ok()), elementary_domain(*kind)))
        }
        TypeName::Subrange(kind, at, bounds) => {
            let (judged, domain) = judged_subrange_domain(alloc, file, *kind, *at, bounds)?;
            Ok((Spelled::Judged(judged), domain))
        }
        TypeName::Named(name) => Ok((Spelled::Named(name), no_domain())),
    }
}

// M3: an enumeration has few values.
fn judge_values(at: usize, others: &[Name]) -> Outcome
    ensures { result ≡ values_outcome at (names_view others.now) }
{
    if has_few(others) {
        Outcome::ok()
    } else {
        Outcome::breaks(Rule::TooManyValues, at)
    }
}

// The domain of a type as it is spelled, and what its declaration breaks.
fn end_domain<'p>(
    alloc: Global,
    file: &FileTypes<'_>,
    number: usize,
    name: &Name,
    specification: &'p Specification,
) -> Result<(Spelled<'p>, Domain), AllocError>
    ensures judged { IfOk result (λ r. spelled_outcome (file_of file.now) r.0 ≡ outcome_of (judged_specification (file_of file.now) (name_view name.now) (specification_view specification.now))) }
    ensures domain { IfOk result (λ r. r.1 ≡ end_domain (file_of file.now) number (Some (specification_view specification.now))) }
{
    match specification {
        Specification::Type(kind) => spelled_domain(alloc, file, kind),
        Specification::Enumeration(_, _, others) => {
            let judged = judge_values(name.at, others);
            Ok((Spelled::Judged(judged), enumeration_domain(number, others)))
        }
    }
}

/// The domains of all types, each as it is spelled, and what their declarations break.
pub(crate) fn own_domains<'p>(
    alloc: Global,
    file: &FileTypes<'p>,
) -> Result<(Vec<Spelled<'p>>, Vec<Domain>), AllocError>
    ensures judged { IfOk result (λ r. map (spelled_outcome (file_of file.now)) r.0.items ≡ declared_outcomes (file_of file.now) (types_of (file_of file.now))) }
    ensures domains { IfOk result (λ r. r.1.items ≡ own_domains (file_of file.now) 0 (types_of (file_of file.now))) }
{
    let mut spelled = Vec::new(alloc);
    let mut domains = Vec::new(alloc);
    for (number, declaration) in file.types.iter().enumerate() {
        let (judged, domain) = end_domain(
            alloc,
            file,
            number,
            &declaration.name,
            &declaration.specification,
        )?;
        spelled.push(judged)?;
        domains.push(domain)?;
    }
    Ok((spelled, domains))
}
