//! Records go from all nodes once all full nodes have digested them.
ghost use Rattle.std.specs.Prelude.{◌≡◌, ◌≤◌, length};
ghost use Rattle.assise_machine_state.specs.Changes.{drops_to};
ghost use Rattle.assise_machine_state.specs.Observed.{world_of};
ghost use Rattle.assise_machine_state.specs.Invariant.{PartsInvariant};
ghost use Rattle.assise_machine_state.specs.Whole.{value_of};

use crate::state::StateOf;
use assise_lease_table::revoker::Revokes;

/// Of clients 1 to a last one, all nodes let the records go that all full nodes have digested. It takes no memory.
pub fn drop_digested<C: Revokes + Drop>(state: &mut StateOf<C>, last: u32)
    requires last { last ≤ length state.old.clients }
    requires parts { PartsInvariant (value_of state.old) }
    ensures drops { value_of state.new ≡ drops_to (value_of state.old) last }
    ensures leases { state.new.leases ≡ state.old.leases }
{
    for client in 1..=last {
        let digested = state.digested(client);
        state.nodes.drop_fronts(client, digested);
    }
}
