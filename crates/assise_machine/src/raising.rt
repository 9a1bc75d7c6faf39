//! Nodes that are raised to the next version of frames.
ghost use Rattle.assise_lease_tree.specs.Trees.{KeepsRevokers};
ghost use Rattle.assise_model_events.specs.MemberEvents.{Raising};
ghost use Rattle.assise_machine_state.specs.Whole.{machine_of};
ghost use Rattle.assise_machine.specs.Answers.{raising_answer};

use assise_lease_table::revoker::Revokes;
use assise_machine_state::sound::SoundOf;
use assise_names::refusal::Refusal;

/// A full node at the first level is raised: it reads marked frames, and sends them. Refused with [`Refusal::BadNode`] where there is
/// no such node, and [`Refusal::WrongPhase`] where it isn't full or was raised; what is refused leaves all as it was. It takes no
/// memory.
pub(crate) fn raise<C: Revokes + Drop>(sound: &mut SoundOf<C>, node: u32) -> Result<(), Refusal>
    ensures happens { Raising (machine_of sound.old.state) node (raising_answer result)
        (machine_of sound.new.state) }
    ensures revokers { KeepsRevokers sound.old.state.leases sound.new.state.leases }
{
    sound.state.members.raise(node)
}
