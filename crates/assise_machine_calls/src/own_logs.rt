//! The clients' own logs, as they are lent.
ghost use Rattle.std.specs.Prelude.{◌≡◌, ℕ};
ghost use Rattle.assise_manager.specs.Whole.{membership};
ghost use Rattle.assise_machine_state.specs.ClientValues.{client_in};
ghost use Rattle.assise_machine_state.specs.NodeValues.{HasLog};
ghost use Rattle.assise_machine_state.specs.Observed.{own_node};
ghost use Rattle.assise_machine_state.specs.Places.{IsNumber};

use assise_lease_table::views::Views;
use assise_machine_state::clients::Clients;
use assise_machine_state::nodes::Nodes;
use assise_manager::members::Members;
use assise_private_log::log_view::LogView;

/// What clients are lent of their own logs when they are asked for leases: a client's own log is that of its home, and once that
/// failed of the lowest full node.
#[derive(Drop)]
pub(crate) struct OwnLogs<'a> {
    pub(crate) nodes: &'a Nodes,
    pub(crate) members: &'a Members,
    pub(crate) clients: &'a Clients,
    ghost there: { (c : ℕ) → IsNumber clients.now c → HasLog nodes.now (own_node (membership members.now).nodes (client_in clients.now c)) c },
}

impl Views for OwnLogs<'_> {
    ghost use Rattle.assise_manager.specs.Whole.{membership};
    ghost use Rattle.assise_machine_calls.specs.Asked.{client_log};

    ghost view_of = { λ v c. client_log v.nodes.now (membership v.members.now).nodes v.clients.now c };

    fn view(&self, client: u32) -> Option<&LogView> {
        if client == 0 || client as usize > self.clients.len() {
            return None;
        }
        let known = self.clients.get(client);
        let node = if known.has_failed() {
            self.members.full_nodes()[0]
        } else {
            known.home()
        };
        Some(self.nodes.log(node, client).view())
    }
}
