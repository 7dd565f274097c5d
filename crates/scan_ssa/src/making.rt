// What is made: nodes, one behind the other, up to a limit.
ghost use Rattle.std.specs.Prelude.{◌≡◌, IfOk, IfErr, OnOk, length};
ghost use Rattle.meaning.specs.Values.{divides};
ghost use Rattle.node_core.specs.Words.{made, faulted, joined, taken};
ghost use Rattle.scan_ssa.specs.Making.{list_view, IsOver};

use crate::fault::NodeFault;
use crate::nodes::Making;
use node_core::Node;
use plc_types::{Elementary, Operator};

/// One node more: the number of its word.
#[tactic(auto, unfolding(node_core::specs::Words::made))]
pub fn make(making: &mut Making, node: Node) -> Result<usize, NodeFault>
    ensures word { IfOk result (λ w. w ≡ (made node (list_view making.old)).word) }
    ensures list { OnOk result (list_view making.new ≡ (made node (list_view making.old)).list) }
    ensures too_many { IfErr result (λ e. e ≡ NodeFault.TooMany → IsOver making.old.limit (length (made node (list_view making.old)).list.nodes)) }
    ensures limit { making.new.limit ≡ making.old.limit }
{
    if let Some(limit) = making.limit
        && making.nodes.len() >= limit
    {
        return Err(NodeFault::TooMany);
    }
    let word = making.starts + making.nodes.len();
    let Ok(()) = making.nodes.push(node) else {
        return Err(NodeFault::Memory);
    };
    Ok(word)
}

/// A word is added to FAULT.
#[tactic(auto, unfolding(node_core::specs::Words::faulted))]
pub fn add_fault(making: &mut Making, word: usize) -> Result<(), NodeFault>
    ensures list { OnOk result (list_view making.new ≡ faulted (taken word (list_view making.old))) }
    ensures too_many { IfErr result (λ e. e ≡ NodeFault.TooMany → IsOver making.old.limit (length (faulted (taken word (list_view making.old))).nodes)) }
    ensures limit { making.new.limit ≡ making.old.limit }
{
    let fault = make(
        making,
        Node::Binary {
            operator: Operator::Or,
            kind: Elementary::Bool,
            left: making.fault,
            right: word,
        },
    )?;
    making.fault = fault;
    Ok(())
}

/// An operator joins two words.
#[tactic(auto, unfolding(node_core::specs::Words::joined))]
pub fn join(
    making: &mut Making,
    operator: Operator,
    kind: Elementary,
    left: usize,
    right: usize,
) -> Result<usize, NodeFault>
    ensures word { IfOk result (λ w. w ≡ (joined operator kind left right (list_view making.old)).word) }
    ensures list { OnOk result (list_view making.new ≡ (joined operator kind left right (list_view making.old)).list) }
    ensures too_many { IfErr result (λ e. e ≡ NodeFault.TooMany → IsOver making.old.limit (length (joined operator kind left right (list_view making.old)).list.nodes)) }
    ensures limit { making.new.limit ≡ making.old.limit }
{
    let word = make(
        making,
        Node::Binary {
            operator,
            kind,
            left,
            right,
        },
    )?;
    if divides(operator) {
        let zero = make(
            making,
            Node::IsZero {
                kind,
                operand: right,
            },
        )?;
        add_fault(making, zero)?;
    }
    Ok(word)
}

// Whether an operator asks for a divisor that is not 0.
fn divides(operator: Operator) -> bool
    ensures { result ≡ divides operator }
{
    matches!(operator, Operator::Divide | Operator::Mod)
}
