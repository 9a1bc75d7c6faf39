//! The logs of a failed node's clients end where they are kept.
ghost use Rattle.std.specs.Prelude.{◌≡◌, ◌≤◌, length, ℕ};
ghost use Rattle.assise_machine_state.specs.Changes.{with_clients_cut, with_clients_failed};
ghost use Rattle.assise_machine_state.specs.ClientValues.{client_in};
ghost use Rattle.assise_machine_state.specs.NodeValues.{HasLog, IsUndigestedFrom, log_in};
ghost use Rattle.assise_machine_failures.specs.Listing.{kept_in};

use assise_machine_state::clients::Clients;
use assise_machine_state::nodes::Nodes;

/// Those of clients 1 to a last one that were opened on a failed node are over: their logs end at these places, at all nodes. It
/// takes no memory.
pub(crate) fn cut_to(nodes: &mut Nodes, clients: &mut Clients, node: u32, kept: &[u64], last: u32)
    requires kept { length kept.now ≡ length clients.old }
    requires last { last ≤ length clients.old }
    requires undigested { (n c : ℕ) → (client_in clients.old c).home ≡ node →
        HasLog nodes.old n c → IsUndigestedFrom (log_in nodes.old n c) (kept_in kept.now c) }
    ensures nodes { nodes.new ≡ with_clients_cut node clients.old
        (kept_in kept.now) last nodes.old }
    ensures clients { clients.new ≡ with_clients_failed node (kept_in kept.now) last clients.old }
{
    for client in 1..=last {
        if clients.get(client).home() == node {
            let end = kept[client as usize - 1];
            nodes.cut_tails(client, end);
            clients.fail(client, end);
        }
    }
}
