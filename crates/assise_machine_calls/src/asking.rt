//! Those who stand in a call's way are asked for their leases.
ghost use Rattle.std.specs.Prelude.{◌≡◌, ◌+◌, ◌≤◌, ◌++◌, None, OnErr, OnOk, false, length, vec_capacity};
ghost use Rattle.assise_lease_table.specs.declared.lease.Asked.{Asked as Answer};
ghost use Rattle.assise_lease_table.specs.Leases.{Among};
ghost use Rattle.assise_lease_tree.specs.Trees.{KeepsRevokers, levels_of, stored_by};
ghost use Rattle.assise_lease_tree.specs.TwoLevels.{is_free_for};
ghost use Rattle.assise_model_events.specs.Faults.{client_fault};
ghost use Rattle.assise_machine_state.specs.Changes.{with_goals};
ghost use Rattle.assise_machine_state.specs.ClientValues.{client_in};
ghost use Rattle.assise_machine_state.specs.Places.{IsNumber};
ghost use Rattle.assise_machine_state.specs.Invariant.{CutsInvariant, ShapeInvariant};
ghost use Rattle.assise_machine_state.specs.Whole.{StateInvariant, machine_of, value_of};
ghost use Rattle.assise_machine_calls.specs.Asked.{AsksThem, CutsAreAnswers};

use crate::own_logs::OwnLogs;
use assise_lease_table::lease::Asked;
use assise_lease_table::revoker::Revokes;
use assise_lease_tree::request::Request;
use assise_machine_state::clients::Clients;
use assise_machine_state::state::StateOf;
use std::alloc::AllocError;
use std::vec::IntoIter;

/// Asks those who stand in the way of a client that lives: their leases are revoked with what their revokers answer for
/// their own logs, and their logs are to be replicated up to there. Without memory it leaves all as it was.
pub(crate) fn ask<C: Revokes + Drop>(
    state: &mut StateOf<C>,
    request: Request,
) -> Result<(), AllocError>
    requires fine { client_fault (machine_of state.old) request.client ≡ None }
    requires home { request.node ≡ (client_in state.old.clients request.client).home }
    requires blocked { is_free_for (levels_of state.old.leases) request.client request.node
        request.inode request.mode ≡ false }
    requires invariant { StateInvariant state.old }
    ensures ok { OnOk result (AsksThem (machine_of state.old) request (machine_of state.new)) }
    ensures err { OnErr result (machine_of state.new ≡ machine_of state.old) }
    ensures cuts { CutsAreAnswers C.answers (stored_by state.old.leases)
        (machine_of state.old) (machine_of state.new) }
    ensures shape { ShapeInvariant (value_of state.new) }
    ensures noted { CutsInvariant (value_of state.new) }
    ensures revokers { KeepsRevokers state.old.leases state.new.leases }
{
    let holders = state.leases.leases(request.inode).len();
    state.cuts.reserve(holders)?;
    let logs = OwnLogs {
        nodes: &state.nodes,
        members: &state.members,
        clients: &state.clients,
    };
    let asked = state.leases.ask(request, &logs)?;
    note_all(&mut state.clients, &mut state.cuts, asked.into_iter());
    Ok(())
}

/// Notes answers, for which there is room: the clients' logs are to be replicated up to them.
fn note_all(clients: &mut Clients, cuts: &mut Vec<Asked>, asked: IntoIter<Asked>)
    requires known { (a : Answer) → Among asked.rest.items a → IsNumber clients.old a.client }
    requires room { length cuts.old.items + length asked.rest.items ≤ vec_capacity cuts.old }
    ensures goals { clients.new ≡ with_goals asked.rest.items clients.old }
    ensures cuts { cuts.new.items ≡ cuts.old.items ++ asked.rest.items }
{
    for answer in asked {
        clients.raise_goal(answer.client, answer.cut);
        cuts.push_reserved(answer);
    }
}
