// What is told of the declarations of POUs: each is judged once.
ghost use Rattle.std.specs.Prelude.{◌≡◌, None, Some, map, option_map, IfOk};
ghost use Rattle.source_tree.specs.SyntaxView.{tree_view, type_view};
ghost use Rattle.file_bindings.specs.Bindings.{HaveBlocks};
ghost use Rattle.naming.specs.Scopes.{block_of};
ghost use Rattle.naming.specs.ScopeView.{variable_view, variables_view};
ghost use Rattle.decl_types.specs.Bodies.{file_in};
ghost use Rattle.decl_types.specs.Told.{told_of, told_in, told_outcome};
ghost use Rattle.decl_types.specs.ToldView.{told_view};
ghost use Rattle.rules.specs.Outcomes.{outcome_of};
ghost use Rattle.typing.specs.Variables.{domain_if, judged_type_if, judged_instance, judged_by_block};

use crate::domains::Domains;
use crate::elementary_domains::elementary_domain;
use crate::initial_values::judged_initial_value;
use crate::judged_types::judged_type;
use expr_types::judge_expr;
use naming::{Declared, Role};
use plc_types::{Elementary, Value};
use rules::{Outcome, Rule};
use source_tree::{Expr, Name, TypeName};
use std::alloc::{AllocError, Global};
use typing::Domain;

/// A declaration that was judged: its name and what it is for, the values that its type allows, the one that it begins with, what
/// it breaks, and of an instance its block, by its number.
#[derive(Clone, Copy)]
pub struct Told<'f> {
    pub name: &'f Name,
    pub role: Role,
    pub domain: Domain,
    pub initial: Value,
    pub judged: Outcome,
    pub block: Option<usize>,
}

// The type of a variable, where it has one; a name of a chart is a BOOL.
fn judged_type_if(
    alloc: Global,
    domains: &Domains<'_>,
    kind: Option<&TypeName>,
) -> Result<(Outcome, Domain), AllocError>
    ensures judged { IfOk result (λ r. r.0 ≡ outcome_of (judged_type_if (file_in domains.now) (option_map (λ t. type_view t.now) kind.entry))) }
    ensures domain { IfOk result (λ r. r.1 ≡ domain_if (file_in domains.now) (option_map (λ t. type_view t.now) kind.entry)) }
{
    match kind {
        None => Ok((Outcome::ok(), elementary_domain(Elementary::Bool))),
        Some(kind) => judged_type(alloc, domains, kind),
    }
}

// An initial value of an instance.
#[tactic(auto, using(typing_laws::proofs::Judging::judging))]
fn judge_given(
    alloc: Global,
    domains: &Domains<'_>,
    at: usize,
    value: &Expr,
) -> Result<Outcome, AllocError>
    ensures { IfOk result (λ o. o ≡ outcome_of (judged_instance (file_in domains.now) at (Some (tree_view value.now)))) }
{
    let judged = judge_expr(alloc, &domains.types, None, value)?;
    Ok(judged.require(false, Rule::ValueType, at))
}

// An instance has no initial value.
fn judge_instance(
    alloc: Global,
    domains: &Domains<'_>,
    at: usize,
    initial: Option<&Expr>,
) -> Result<Outcome, AllocError>
    ensures { IfOk result (λ o. o ≡ outcome_of (judged_instance (file_in domains.now) at (option_map (λ e. tree_view e.now) initial.entry))) }
{
    match initial {
        None => Ok(Outcome::ok()),
        Some(value) => judge_given(alloc, domains, at, value),
    }
}

// What a declaration breaks that is no instance, where these are what its type and its initial value break; or an instance of a block.
#[tactic(auto, using(typing_laws::proofs::Judging::judging))]
fn judge_declared(
    alloc: Global,
    domains: &Domains<'_>,
    variable: &Declared<'_>,
    block: Option<usize>,
    parts: Outcome,
) -> Result<Outcome, AllocError>
    requires { parts ≡ outcome_of (judged_by_block (file_in domains.now) (variable_view variable.now) None) }
    ensures { IfOk result (λ o. o ≡ outcome_of (judged_by_block (file_in domains.now) (variable_view variable.now) block)) }
{
    match block {
        None => Ok(parts),
        Some(_) => judge_instance(alloc, domains, variable.name.at, variable.initial),
    }
}

// What is told of a declaration, of which the block is known where it is an instance.
#[tactic(auto, using(typing_laws::proofs::Judging::judging))]
fn told_of<'f>(
    alloc: Global,
    domains: &Domains<'_>,
    variable: &Declared<'f>,
) -> Result<Told<'f>, AllocError>
    requires { variable.now.block ≡ block_of (file_in domains.now) (variable_view variable.now) }
    ensures { IfOk result (λ t. told_view t ≡ told_of (file_in domains.now) (variable_view variable.now)) }
{
    let at = variable.name.at;
    let (of_type, domain) = judged_type_if(alloc, domains, variable.kind)?;
    let (of_value, initial) = judged_initial_value(
        alloc,
        &domains.types,
        domain,
        at,
        variable.initial,
    )?;
    let block = variable.block;
    let judged = judge_declared(alloc, domains, variable, block, of_type.and(of_value))?;
    Ok(Told {
        name: variable.name,
        role: variable.role,
        domain,
        initial,
        judged,
        block,
    })
}

/// What is told of declarations of a file, in their order, of which the blocks of instances are known.
pub fn told_in<'f>(
    alloc: Global,
    domains: &Domains<'_>,
    variables: &[Declared<'f>],
) -> Result<Vec<Told<'f>>, AllocError>
    requires { HaveBlocks (file_in domains.now) variables.now }
    ensures { IfOk result (λ list. map told_view list.items ≡ told_in (file_in domains.now) (variables_view variables.now)) }
{
    let mut list = Vec::new(alloc);
    for variable in variables.iter() {
        list.push(told_of(alloc, domains, variable)?)?;
    }
    Ok(list)
}

/// What declarations break, behind what was judged so far.
pub fn judge_told(so_far: Outcome, tolds: &[Told<'_>]) -> Outcome
    ensures { result ≡ told_outcome so_far (map told_view tolds.now) }
{
    let mut judged = so_far;
    for told in tolds {
        judged = judged.and(told.judged);
    }
    judged
}
