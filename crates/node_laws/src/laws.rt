// The laws. The functions do nothing: their clauses are the laws.
ghost use Rattle.node_core.specs.NodeLaws.{NodesMeanScans, NodesMeanClauses, NodesOfScansAreTyped, NodesOfClausesAreTyped, NodesTakeValues};

/// Where the start words have the values of a state in range, and each node has its value, the last words have those of the
/// cells behind the scan, and the words of a clause have its value and its fault.
pub fn nodes_have_meaning()
    ensures scans { NodesMeanScans }
    ensures clauses { NodesMeanClauses }
{}

/// Each operand is an earlier word of the type that its node asks for, and the last words are of the types of their cells.
pub fn nodes_are_typed()
    ensures scans { NodesOfScansAreTyped }
    ensures clauses { NodesOfClausesAreTyped }
{}

/// Whatever the start words are, typed nodes have values: each in turn takes its own.
pub fn nodes_take_values()
    ensures { NodesTakeValues }
{}
