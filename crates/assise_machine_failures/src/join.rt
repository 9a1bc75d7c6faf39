//! A node that came back is full again.
ghost use Rattle.assise_lease_tree.specs.Trees.{KeepsRevokers};
ghost use Rattle.assise_model_events.specs.MemberEvents.{Joining};
ghost use Rattle.assise_machine_state.specs.Whole.{machine_of};
ghost use Rattle.assise_machine_failures.specs.Answers.{joining_answer};

use assise_history::entry::Entry;
use assise_lease_table::revoker::Revokes;
use assise_machine_state::sound::SoundOf;
use assise_names::refusal::Refusal;
use std::alloc::Global;

/// A node that comes back and lacks no inode is full: it gets the logs of the full node that it was filled from, and an epoch begins.
/// Refused with [`Refusal::BadNode`] where there is no such node, [`Refusal::WrongPhase`] where it doesn't come back,
/// [`Refusal::Busy`] where it may lack an inode, and [`Refusal::OutOfMemory`]; what is refused leaves all as it was.
pub fn join<C: Revokes + Drop>(
    alloc: Global,
    sound: &mut SoundOf<C>,
    node: u32,
) -> Result<(), Refusal>
    ensures happens { Joining (machine_of sound.old.state) node (joining_answer result)
        (machine_of sound.new.state) }
    ensures revokers { KeepsRevokers sound.old.state.leases sound.new.state.leases }
{
    let state = &mut sound.state;
    let donor = state.members.donor(node)?;
    if state.members.lowest_stale(node)?.is_some() {
        return Err(Refusal::Busy);
    }
    // There are never 2^63 entries, and no more epochs: the next epoch's number fits.
    state.history.reserve()?;
    state.nodes.copy_logs(alloc, node, donor)?;
    if let Err(refusal) = state.members.join(node) {
        state.nodes.remove_logs(node);
        return Err(refusal);
    }
    state.history.push(Entry::node_return(node));
    Ok(())
}
