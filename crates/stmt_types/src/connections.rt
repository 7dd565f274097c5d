// Calls of instances of FUNCTION_BLOCKs (IEC 61131-3, 2.5.2).
ghost use Rattle.std.specs.Prelude.{◌≡◌, ◌++◌, [], map, not, ◌&&◌, is_some, IfOk, OnOk};
ghost use Rattle.std.specs.Str.{bytes_eq};
ghost use Rattle.indexmap.specs.IndexMap.{get_by};
ghost use Rattle.std.specs.List.{list_all};
ghost use Rattle.source_tree.specs.SyntaxView.{name_view, path_view, tree_view, connection_view, connections_view};
ghost use Rattle.program_tree.specs.View.{stmt_view};
ghost use Rattle.typing.specs.Typing.{by_path};
ghost use Rattle.typing.specs.JudgedStatements.{member, judged_input, judged_output, judged_connection, connected, connects_twice, is_input_of_instance, has_right_arrow, judged_invoke};
ghost use Rattle.rules.specs.Judgements.{ok};
ghost use Rattle.rules.specs.Outcomes.{outcome_of, both};
ghost use Rattle.typing.specs.Outcomes.{connections_outcome};
ghost use Rattle.typing.specs.TypedStatements.{typed_inputs, typed_outputs, typed_run, typed_invoke};

use crate::statements::judge_target;
use expr_types::{
    cell_of, judge_and_synthesize, judge_meaning, kind_at, meaning_read, or_dint, type_expr,
};
use indexmap::IndexMap;
use program_tree::TypedStmt;
use rules::{Outcome, Rule};
use source_tree::{Connection, Expr, Name, Path};
use std::alloc::{AllocError, Global};
use typing::{Instance, Meaning, Scope};

// What judging connections finds: what they break, and whether inputs are connected by `:=` and outputs by `=>`.
#[derive(Clone, Copy)]
struct JudgedConnections {
    judged: Outcome,
    right: bool,
}

// The path of an instance's input or output.
fn member(alloc: Global, instance: &Name, name: &Name) -> Result<Path, AllocError>
    ensures { IfOk result (λ path. path_view path ≡ member (name_view instance.now) (name_view name.now)) }
{
    let mut members = Vec::new(alloc);
    members.push(name.copy(alloc)?)?;
    Ok(Path {
        first: instance.copy(alloc)?,
        members,
    })
}

// What an input or output of an instance stands for.
fn meaning_of_member<S: Scope>(
    alloc: Global,
    scope: &S,
    instance: &Name,
    name: &Name,
) -> Result<Option<Meaning>, AllocError>
    ensures { IfOk result (λ m. m ≡ (S.means scope.now).means (by_path (member (name_view instance.now) (name_view name.now)))) }
{
    let path = member(alloc, instance, name)?;
    Ok(scope.meaning(&path))
}

// The value of an input is of its type.
#[tactic(auto, using(typing_laws::proofs::Judging::judging))]
fn judge_input<S: Scope>(
    alloc: Global,
    scope: &S,
    meaning: Option<Meaning>,
    name: &Name,
    value: &Expr,
) -> Result<Outcome, AllocError>
    ensures { IfOk result (λ o. o ≡ outcome_of (judged_input (S.means scope.now) meaning (name_view name.now) (tree_view value.now))) }
{
    let expected = kind_at(meaning);
    let judged = judge_and_synthesize(alloc, scope, expected, value)?;
    let fits = judged.kind(expected).is_same(or_dint(expected));
    let parts = judge_meaning(meaning).and(judged.outcome);
    Ok(parts.require(fits, Rule::ValueType, name.at))
}

// An output is of the type of the target that it is copied to.
#[tactic(auto, using(typing_laws::proofs::Judging::judging))]
fn judge_output(
    controls: &[usize],
    meaning: Option<Meaning>,
    target: Option<Meaning>,
    at: usize,
) -> Outcome
    ensures { result ≡ outcome_of (judged_output controls.now meaning target at) }
{
    let fits = or_dint(kind_at(target)).is_same(or_dint(kind_at(meaning)));
    let parts = judge_meaning(meaning).and(judge_target(controls, target, at));
    parts.require(fits, Rule::ValueType, at)
}

// Whether a name is that of an instance's input.
fn is_input_of_instance(meaning: Option<Meaning>) -> bool
    ensures { result ≡ is_input_of_instance meaning }
{
    match meaning {
        None => false,
        Some(meaning) => meaning.assignable,
    }
}

// A connection's name is looked up once.
fn judge_connection<S: Scope>(
    alloc: Global,
    scope: &S,
    controls: &[usize],
    instance: &Name,
    connection: &Connection,
) -> Result<JudgedConnections, AllocError>
    ensures judged { IfOk result (λ c. c.judged ≡ outcome_of (judged_connection (S.means scope.now) controls.now (name_view instance.now) (connection_view connection.now))) }
    ensures right { IfOk result (λ c. c.right ≡ has_right_arrow (S.means scope.now) (name_view instance.now) (connection_view connection.now)) }
{
    match connection {
        Connection::Input(name, value) => {
            let meaning = meaning_of_member(alloc, scope, instance, name)?;
            Ok(JudgedConnections {
                judged: judge_input(alloc, scope, meaning, name, value)?,
                right: is_input_of_instance(meaning),
            })
        }
        Connection::Output(name, target) => {
            let meaning = meaning_of_member(alloc, scope, instance, name)?;
            let to = scope.meaning(target);
            Ok(JudgedConnections {
                judged: judge_output(controls, meaning, to, target.first.at),
                right: !is_input_of_instance(meaning),
            })
        }
    }
}

// Connections, and one more.
fn with_next(so_far: JudgedConnections, next: JudgedConnections) -> JudgedConnections
    ensures judged { result.judged ≡ both so_far.judged next.judged }
    ensures right { result.right ≡ (so_far.right && next.right) }
{
    JudgedConnections {
        judged: so_far.judged.and(next.judged),
        right: so_far.right && next.right,
    }
}

fn judge_connections<S: Scope>(
    alloc: Global,
    scope: &S,
    controls: &[usize],
    instance: &Name,
    connections: &[Connection],
) -> Result<JudgedConnections, AllocError>
    ensures judged { IfOk result (λ c. c.judged ≡ connections_outcome (S.means scope.now) controls.now (name_view instance.now) (outcome_of ok) (connections_view connections.now)) }
    ensures right { IfOk result (λ c. c.right ≡ list_all (has_right_arrow (S.means scope.now) (name_view instance.now)) (connections_view connections.now)) }
{
    let mut all = JudgedConnections {
        judged: Outcome::ok(),
        right: true,
    };
    for connection in connections {
        let next = judge_connection(alloc, scope, controls, instance, connection)?;
        all = with_next(all, next);
    }
    Ok(all)
}

// The name that is connected.
fn connected(connection: &Connection) -> &Name
    ensures { name_view result.now ≡ connected (connection_view connection.now) }
{
    match connection {
        Connection::Input(name, _) => name,
        Connection::Output(name, _) => name,
    }
}

// Whether a name was seen.
fn is_seen(seen: &IndexMap<&str, ()>, name: &str) -> bool
    ensures { result ≡ is_some (get_by (λ n. bytes_eq name.now n.now) seen.now) }
{
    seen.get(name).is_some()
}

// Whether a name is connected twice.
fn connects_twice(alloc: Global, connections: &[Connection]) -> Result<bool, AllocError>
    ensures { IfOk result (λ twice. twice ≡ connects_twice [] (connections_view connections.now)) }
{
    let mut seen: IndexMap<&str, ()> = IndexMap::new(alloc);
    for connection in connections {
        let name = connected(connection).text.as_str();
        if is_seen(&seen, name) {
            return Ok(true);
        }
        seen.insert(name, ())?;
    }
    Ok(false)
}

// Whether each name is connected once, where it is known whether inputs are connected by `:=` and outputs by `=>`.
fn connects_rightly(
    alloc: Global,
    right: bool,
    connections: &[Connection],
) -> Result<bool, AllocError>
    ensures { IfOk result (λ rightly. rightly ≡ (not (connects_twice [] (connections_view connections.now)) && right)) }
{
    let twice = connects_twice(alloc, connections)?;
    Ok(!twice && right)
}

/// A call of an instance connects each name once, inputs by `:=` and outputs by `=>`.
#[tactic(auto, using(typing_laws::proofs::Judging::judging))]
pub(crate) fn judge_invoke<S: Scope>(
    alloc: Global,
    scope: &S,
    controls: &[usize],
    instance: &Name,
    connections: &[Connection],
) -> Result<Outcome, AllocError>
    ensures { IfOk result (λ o. o ≡ outcome_of (judged_invoke (S.means scope.now) controls.now (name_view instance.now) (connections_view connections.now))) }
{
    let parts = judge_connections(alloc, scope, controls, instance, connections)?;
    let right = connects_rightly(alloc, parts.right, connections)?;
    Ok(
        parts
            .judged
            .require(right, Rule::ArgumentCount, instance.at),
    )
}

// Appends the assignments of the inputs that are given.
fn type_inputs<S: Scope>(
    alloc: Global,
    scope: &S,
    instance: &Name,
    connections: &[Connection],
    list: &mut Vec<TypedStmt>,
) -> Result<(), AllocError>
    ensures { OnOk result (map stmt_view list.new.items ≡ map stmt_view list.old.items ++ typed_inputs (S.means scope.now) (name_view instance.now) (connections_view connections.now)) }
{
    for connection in connections {
        if let Connection::Input(name, value) = connection {
            let meaning = meaning_of_member(alloc, scope, instance, name)?;
            let value = type_expr(alloc, scope, kind_at(meaning), value)?;
            list.push(TypedStmt::Assign(cell_of(meaning), value))?;
        }
    }
    Ok(())
}

// Appends the copies of the outputs that are asked for.
fn type_outputs<S: Scope>(
    alloc: Global,
    scope: &S,
    instance: &Name,
    connections: &[Connection],
    list: &mut Vec<TypedStmt>,
) -> Result<(), AllocError>
    ensures { OnOk result (map stmt_view list.new.items ≡ map stmt_view list.old.items ++ typed_outputs (S.means scope.now) (name_view instance.now) (connections_view connections.now)) }
{
    for connection in connections {
        if let Connection::Output(name, target) = connection {
            let meaning = meaning_of_member(alloc, scope, instance, name)?;
            let to = cell_of(scope.meaning(target));
            list.push(TypedStmt::Assign(to, meaning_read(meaning)))?;
        }
    }
    Ok(())
}

// Appends the run of an instance's body.
fn type_run(instance: Option<Instance>, list: &mut Vec<TypedStmt>) -> Result<(), AllocError>
    ensures { OnOk result (map stmt_view list.new.items ≡ map stmt_view list.old.items ++ typed_run instance) }
{
    match instance {
        None => Ok(()),
        Some(Instance { block, offset }) => {
            list.push(TypedStmt::CallBlock { block, offset })?;
            Ok(())
        }
    }
}

/// Appends what a call of an instance does: the assignments of its inputs, the run of its block's body, and the copies of its
/// outputs.
pub(crate) fn type_invoke<S: Scope>(
    alloc: Global,
    scope: &S,
    instance: &Name,
    connections: &[Connection],
    list: &mut Vec<TypedStmt>,
) -> Result<(), AllocError>
    ensures { OnOk result (map stmt_view list.new.items ≡ map stmt_view list.old.items ++ typed_invoke (S.means scope.now) (name_view instance.now) (connections_view connections.now)) }
{
    type_inputs(alloc, scope, instance, connections, list)?;
    type_run(scope.instance(instance), list)?;
    type_outputs(alloc, scope, instance, connections, list)
}
