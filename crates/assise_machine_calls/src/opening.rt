//! A client is opened.
ghost use Rattle.std.specs.Prelude.{◌≡◌, ◌+◌, ◌<◌, IfErr, IsOkUnless, OnErr, OnOk, length};
ghost use Rattle.assise_names.specs.declared.refusal.Refusal.TheVariants.{OutOfMemory};
ghost use Rattle.assise_lease_table.specs.Tables.{Enrols};
ghost use Rattle.assise_lease_tree.specs.Trees.{KeepsRevokers, stored_by};
ghost use Rattle.assise_model_events.specs.ClientEvents.{Opening};
ghost use Rattle.assise_machine_state.specs.Invariant.{ShapeInvariant};
ghost use Rattle.assise_machine_state.specs.Whole.{machine_of, value_of};
ghost use Rattle.assise_machine_calls.specs.Answers.{begun_at, opening_answer};

use crate::faults::open_refusal;
use assise_history::entry::Entry;
use assise_lease_table::revoker::Revokes;
use assise_machine_state::sound::SoundOf;
use assise_machine_state::state::StateOf;
use assise_names::durability::Durability;
use assise_names::refusal::Refusal;
use std::alloc::Global;

/// Opens a client on a node, with this durability, and answers its number. Refused as [`open_refusal`] says, and with
/// [`Refusal::OutOfMemory`]: what is refused leaves all as it was, and gives the revoker back.
pub fn open<C: Revokes + Drop>(
    alloc: Global,
    sound: &mut SoundOf<C>,
    node: u32,
    revoker: C,
    durability: Durability,
) -> Result<u32, (Refusal, C)>
    ensures happens { Opening (machine_of sound.old.state) node durability (opening_answer result)
        (machine_of sound.new.state) }
    ensures given_back { IfErr result (λ back. back.1 ≡ revoker) }
    ensures revokers { OnErr result (KeepsRevokers sound.old.state.leases sound.new.state.leases) }
    ensures stored { OnOk result (Enrols (stored_by sound.old.state.leases)
        (stored_by sound.new.state.leases) (length sound.old.state.clients + 1) revoker) }
{
    let state = &mut sound.state;
    if let Some(refusal) = open_refusal(state, node) {
        return Err((refusal, revoker));
    }
    let client = state.clients.len() as u32 + 1;
    if let Err(refusal) = begin(alloc, state, node) {
        return Err((refusal, revoker));
    }
    if let Err(back) = state.leases.enrol(client, node, revoker) {
        state.nodes.end_logs(client);
        return Err(back);
    }
    state.clients.open(node, durability);
    state.history.push(Entry::open(client, node, durability));
    Ok(client)
}

/// Makes room for an entry, and begins the next client's logs at all full nodes. The one refusal is [`Refusal::OutOfMemory`], and
/// it leaves all as it was.
fn begin<C: Revokes + Drop>(alloc: Global, state: &mut StateOf<C>, node: u32) -> Result<(), Refusal>
    requires shape { ShapeInvariant (value_of state.old) }
    ensures ok { OnOk result (value_of state.new ≡ begun_at (value_of state.old) node) }
    ensures room { OnOk result (0 < state.new.history.room) }
    ensures err { OnErr result (value_of state.new ≡ value_of state.old) }
    ensures revokers { state.new.leases ≡ state.old.leases }
    ensures only_memory { IsOkUnless result OutOfMemory }
{
    state.history.reserve()?;
    state
        .nodes
        .begin_logs(alloc, &state.members, node, state.limit)
}
