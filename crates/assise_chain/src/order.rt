//! The order of the nodes in a chain.
ghost use Rattle.std.specs.Prelude.{◌≡◌};
ghost use Rattle.assise_chain.specs.Chains.{behind, chain};

/// The node that stands behind a node in the chain of a head: the head comes first, then the full nodes above it and then
/// those below it, each in the order in which they are given. None, where the node is the last or no full one.
pub fn successor(full_nodes: &[u32], head: u32, node: u32) -> Option<u32>
    ensures { result ≡ behind node (chain full_nodes.now head) }
{
    let above = full_nodes.iter().copied().filter(|&other| head <= other);
    let below = full_nodes.iter().copied().filter(|&other| other < head);
    let mut chain = above.chain(below);
    chain.find(|&other| other == node)?;
    chain.next()
}
