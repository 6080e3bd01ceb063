//! Nodes of a diagram, after Bryant, and their cofactors.
ghost use Rattle.std.specs.Prelude.{◌≡◌};
ghost use Rattle.bw_diagram.specs.Node.{node_at, child, cofactor};

/// A node of the diagram: its value is that of its high child if variable `v` is 1, else that of
/// its low child. Children are nodes of smaller numbers, of which 0 and 1 are the terminals.
#[derive(Clone, Copy)]
pub struct Node {
    pub v: u32,
    pub low: u32,
    pub high: u32,
}

impl Node {
    /// Returns the child for a bit.
    fn child(self, bit: bool) -> u32
        ensures { result ≡ child bit self }
    {
        if bit { self.high } else { self.low }
    }
}

/// Returns the node of a number, or None for a terminal.
pub(crate) fn node_at(nodes: &[Node], number: u64) -> Option<Node>
    ensures { result ≡ node_at nodes.now number }
{
    if number < 2 {
        return None;
    }
    nodes.get((number - 2) as usize).copied()
}

/// Returns the child of a node for a variable's bit, if the node tests that variable, else the node
/// itself.
#[tactic(auto, unfolding(crate::specs::Node::cofactor))]
pub(crate) fn cofactor(nodes: &[Node], v: u64, bit: bool, number: u32) -> u32
    ensures { result ≡ cofactor nodes.now v bit number }
{
    match node_at(nodes, u64::from(number)) {
        Some(node) if u64::from(node.v) == v => node.child(bit),
        _ => number,
    }
}
