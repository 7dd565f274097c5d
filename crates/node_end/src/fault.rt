// Why a text has no nodes.
use rules::Refusal;

/// Why a text has no nodes: it breaks a rule on texts, programs or flat statements; the nodes of its scan are more than 1,000,000
/// (M6, at byte 0), which is asked last; or memory was wanting.
#[derive(Drop)]
pub enum AcceptFault {
    Refused(Refusal),
    TooManyNodes,
    Memory,
}
