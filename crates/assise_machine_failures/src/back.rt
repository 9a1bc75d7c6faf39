//! A node that was down comes back.
ghost use Rattle.assise_lease_tree.specs.Trees.{KeepsRevokers};
ghost use Rattle.assise_model_events.specs.MemberEvents.{Returning};
ghost use Rattle.assise_machine_state.specs.Whole.{machine_of};
ghost use Rattle.assise_machine_failures.specs.Answers.{returning_answer};

use crate::copies::drop_copies;
use assise_lease_table::revoker::Revokes;
use assise_machine_state::sound::SoundOf;
use assise_names::refusal::Refusal;

/// A node that was down begins to come back: its copies go of all inodes that were written since its first failure, and it is
/// filled with the lowest full node's. It answers how many inodes it may lack. Refused with [`Refusal::BadNode`] where there is no such
/// node, [`Refusal::WrongPhase`] where it isn't down, and [`Refusal::OutOfMemory`]; what is refused leaves all as it was.
pub fn back<C: Revokes + Drop>(sound: &mut SoundOf<C>, node: u32) -> Result<usize, Refusal>
    ensures happens { Returning (machine_of sound.old.state) node (returning_answer result)
        (machine_of sound.new.state) }
    ensures revokers { KeepsRevokers sound.old.state.leases sound.new.state.leases }
{
    let state = &mut sound.state;
    let stale = state.members.back(node)?;
    drop_copies(state, node);
    Ok(stale)
}
