// What is made.
ghost use Rattle.std.specs.Prelude.{◌≡◌, ◌≤◌, ◌^◌, true, length};
ghost use Rattle.scan_ssa.specs.Limits.{is_within};

use node_core::Node;

/// The nodes so far, how many there may be, if that is limited, how many start words there are, and the word of FAULT.
#[derive(Drop)]
pub struct Making {
    pub starts: usize,
    pub limit: Option<usize>,
    pub nodes: Vec<Node>,
    pub fault: usize,
    ghost room: { starts ≤ 2 ^ 63 },
    ghost within: { is_within limit (length nodes.items) ≡ true },
}
