//! A client crashes.
ghost use Rattle.assise_lease_tree.specs.Trees.{KeepsRevokers};
ghost use Rattle.assise_model_events.specs.ClientEvents.{Crashing};
ghost use Rattle.assise_machine_state.specs.Whole.{machine_of};
ghost use Rattle.assise_machine_calls.specs.Answers.{crashing_answer};

use crate::faults::client_refusal;
use assise_history::entry::Entry;
use assise_lease_table::revoker::Revokes;
use assise_machine_state::noting::note_all;
use assise_machine_state::sound::SoundOf;
use assise_names::refusal::Refusal;

/// A client crashes: nothing of its log is lost, all of it is to be replicated, and its leases go once all of it is digested. Refused
/// as [`client_refusal`] says, and with [`Refusal::OutOfMemory`]; what is refused leaves all as it was.
pub fn crash<C: Revokes + Drop>(sound: &mut SoundOf<C>, client: u32) -> Result<(), Refusal>
    ensures happens { Crashing (machine_of sound.old.state) client (crashing_answer result)
        (machine_of sound.new.state) }
    ensures revokers { KeepsRevokers sound.old.state.leases sound.new.state.leases }
{
    let state = &mut sound.state;
    if let Some(refusal) = client_refusal(state, client) {
        return Err(refusal);
    }
    state.history.reserve()?;
    let asked = state.leases.unasked_of(client)?;
    state.cuts.reserve(asked.len())?;
    let end = state.own_log(client).end();
    state.clients.crash(client, end);
    state.leases.freeze(client);
    note_all(&mut state.cuts, asked.into_iter());
    state.history.push(Entry::crash(client));
    Ok(())
}
