//! What is seen of nodes.
ghost use Rattle.std.specs.Prelude.{◌≡◌, [], true, ℕ};
ghost use Rattle.assise_digest.specs.Region.{IsQuiet};
ghost use Rattle.assise_machine_state.specs.NodeValues.{region_in};
ghost use Rattle.assise_machine_state.specs.Places.{IsNumber};

use assise_digest::region::Region;
use assise_machine_state::nodes::Nodes;
use std::alloc::{AllocError, Global};

/// Whether there is a node of this number.
pub(crate) fn has_node(nodes: &Nodes, node: u32) -> bool
    ensures { result ≡ true → IsNumber nodes.now node }
{
    0 < node && node as usize <= nodes.len()
}

/// Whether there is a node of this number, and it has no logs.
pub(crate) fn is_quiet(nodes: &Nodes, node: u32) -> bool
    ensures node { result ≡ true → IsNumber nodes.now node }
    ensures none { result ≡ true → (region_in nodes.now node).logs ≡ [] }
    ensures quiet { result ≡ true → (inode : ℕ) → IsQuiet (region_in nodes.now node) inode }
{
    has_node(nodes, node) && nodes.region(node).clients() == 0
}

/// What each node has of the clients' logs, from node 1 on: of each its first number, that up to which it is digested, and that behind
/// the last.
pub(crate) fn logs_of(alloc: Global, nodes: &Nodes) -> Result<String, AllocError> {
    let mut text = String::new(alloc);
    for node in 1..4 {
        if has_node(nodes, node) {
            put_logs(&mut text, nodes.region(node))?;
        }
    }
    Ok(text)
}

fn put_logs(text: &mut String, region: &Region) -> Result<(), AllocError> {
    for client in 1..3 {
        if client <= region.clients() {
            let (first, end) = (region.log(client).first(), region.log(client).end());
            let digested = region.digested(client);
            write!(text, " {first}..{digested}..{end}")?;
        }
    }
    text.push(';')
}
