//! A node that comes back is filled.
ghost use Rattle.std.specs.Prelude.{◌≡◌, IfOk, IsOkUnless};
ghost use Rattle.std.specs.FinMap as map;
ghost use Rattle.assise_names.specs.declared.refusal.Refusal.TheVariants.{OutOfMemory};
ghost use Rattle.assise_lease_tree.specs.Trees.{KeepsRevokers};
ghost use Rattle.assise_model_events.specs.MemberEvents.{Refilling};
ghost use Rattle.assise_machine_state.specs.NodeValues.{region_in};
ghost use Rattle.assise_machine_state.specs.Places.{IsNumber};
ghost use Rattle.assise_machine_state.specs.Whole.{machine_of};
ghost use Rattle.assise_machine_failures.specs.Answers.{refilling_answer};

use assise_inode_table::inode::Inode;
use assise_lease_table::revoker::Revokes;
use assise_machine_state::nodes::Nodes;
use assise_machine_state::sound::SoundOf;
use assise_names::refusal::Refusal;
use std::alloc::Global;

/// A node that comes back gets the lowest inode that it may lack from the full node that it is filled from, or loses it where that
/// one has none. It answers how many inodes it may lack then. Refused with [`Refusal::BadNode`] where there is no such node,
/// [`Refusal::WrongPhase`] where it doesn't come back, and [`Refusal::OutOfMemory`]; what is refused leaves all as it was.
pub fn refill<C: Revokes + Drop>(
    alloc: Global,
    sound: &mut SoundOf<C>,
    node: u32,
) -> Result<usize, Refusal>
    ensures happens { Refilling (machine_of sound.old.state) node (refilling_answer result)
        (machine_of sound.new.state) }
    ensures revokers { KeepsRevokers sound.old.state.leases sound.new.state.leases }
{
    let state = &mut sound.state;
    let donor = state.members.donor(node)?;
    let Some(inode) = state.members.lowest_stale(node)? else {
        return Ok(0);
    };
    let value = copy_of(alloc, &state.nodes, donor, inode)?;
    state.nodes.refill_one(node, inode, value)?;
    state.members.note_copied(node)
}

/// A copy of a node's inode, if it has one of that number. The one refusal is [`Refusal::OutOfMemory`].
fn copy_of(alloc: Global, nodes: &Nodes, node: u32, inode: u64) -> Result<Option<Inode>, Refusal>
    requires node { IsNumber nodes.now node }
    ensures copied { IfOk result (λ copied. copied ≡ map.get
        (region_in nodes.now node).inodes inode) }
    ensures only_memory { IsOkUnless result OutOfMemory }
{
    match nodes.region(node).peek(inode) {
        Some(value) => Ok(Some(value.copy(alloc)?)),
        None => Ok(None),
    }
}
