// The nodes of a scan, and those of a clause. A word has a number: the start words come first, and behind them the nodes in order.
use crate::node::Node;

/// One scan: how many start words there are, which are the cells before it, FAULT first; its nodes; and the words that the
/// cells hold after it, in their order.
#[derive(Drop)]
pub struct Scan {
    pub starts: usize,
    pub nodes: Vec<Node>,
    pub last: Vec<usize>,
}

/// A clause: how many start words there are, which are OLD's cells, then NEW's, and last a word of its own that is FALSE, where its
/// fault starts; its nodes; and the words of its value and of its fault.
#[derive(Drop)]
pub struct ClauseNodes {
    pub starts: usize,
    pub nodes: Vec<Node>,
    pub value: usize,
    pub fault: usize,
}
