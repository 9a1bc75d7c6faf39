//! A node fails.
ghost use Rattle.std.specs.Prelude.{◌≡◌, ◌≤◌, IfOk, IsOkUnless, None, OnErr, OnOk, Some, length, take, true};
ghost use Rattle.std.specs.FinSet as set;
ghost use Rattle.assise_names.specs.declared.refusal.Refusal.TheVariants.{OutOfMemory};
ghost use Rattle.assise_lease_tree.specs.Trees.{KeepsRevokers, levels_of};
ghost use Rattle.assise_manager.specs.Changes.{failure_fault, is_returning};
ghost use Rattle.assise_manager.specs.Standings.{full, standing_of};
ghost use Rattle.assise_manager.specs.Whole.{membership};
ghost use Rattle.assise_model_events.specs.Machine.{MachineInvariant};
ghost use Rattle.assise_model_events.specs.MemberEvents.{Failing};
ghost use Rattle.assise_machine_state.specs.Changes.{after_failure};
ghost use Rattle.assise_machine_state.specs.Invariant.{ShapeInvariant};
ghost use Rattle.assise_machine_state.specs.StateValues.{standings};
ghost use Rattle.assise_machine_state.specs.Whole.{machine_of, value_of};
ghost use Rattle.assise_machine_failures.specs.Answers.{failing_answer};
ghost use Rattle.assise_machine_failures.specs.Copies.{AllLose, AreReturning};
ghost use Rattle.assise_machine_failures.specs.Failures.{RevokesBelow, IsListed};

use crate::copies::drop_copies;
use crate::cutting::cut_to;
use crate::failure::Failure;
use assise_history::entry::Entry;
use assise_lease_table::revoker::Revokes;
use assise_machine_state::dropping::drop_digested;
use assise_machine_state::noting::note_all;
use assise_machine_state::sound::SoundOf;
use assise_machine_state::state::StateOf;
use assise_manager::phase::Phase;
use assise_names::refusal::Refusal;
use std::alloc::Global;

/// A node fails. Of a full one the logs are gone, and its inodes stay. Each of its clients that lives keeps the records that all
/// other full nodes have, and these cut the rest; its leases are revoked until all that was kept is digested. It answers each client that
/// loses a record, by ascending number, with its first lost call, and an epoch begins. A node that comes back is down again, and nothing
/// is lost.
///
/// Refused with [`Refusal::BadNode`] where there is no such node, [`Refusal::WrongPhase`] where it is down, [`Refusal::LastNode`]
/// where it is the only full one, and [`Refusal::OutOfMemory`]; what is refused leaves all as it was.
pub fn fail<C: Revokes + Drop>(
    alloc: Global,
    sound: &mut SoundOf<C>,
    node: u32,
) -> Result<Vec<(u32, u64)>, Refusal>
    ensures happens { Failing (machine_of sound.old.state) node (failing_answer result)
        (machine_of sound.new.state) }
    ensures revokers { KeepsRevokers sound.old.state.leases sound.new.state.leases }
{
    match sound.state.members.phase(node)? {
        Phase::Full => fail_full(alloc, sound, node),
        Phase::Down => Err(Refusal::WrongPhase),
        Phase::Returning => fail_again(alloc, sound, node),
    }
}

/// A full node fails: see [`fail`]. What it comes to is listed first, and from the failure in the manager on nothing asks for memory.
fn fail_full<C: Revokes + Drop>(
    alloc: Global,
    sound: &mut SoundOf<C>,
    node: u32,
) -> Result<Vec<(u32, u64)>, Refusal>
    requires full { standing_of (standings (value_of sound.old.state)) node ≡ Some full }
    ensures happens { Failing (machine_of sound.old.state) node (failing_answer result)
        (machine_of sound.new.state) }
    ensures revokers { KeepsRevokers sound.old.state.leases sound.new.state.leases }
{
    let state = &mut sound.state;
    if state.members.full_nodes().len() == 1 {
        return Err(Refusal::LastNode);
    }
    let failure = Failure::list(alloc, state, node)?;
    let (losses, filled) = take_down(state, node, failure)?;
    drop_filled(state, &filled);
    let last = state.clients.len() as u32;
    drop_digested(state, last);
    Ok(losses)
}

/// A full node is down, and all that its failure comes to is done but for copies and prefixes that go. It answers what was lost, and the
/// nodes that start over from another. The one refusal is [`Refusal::OutOfMemory`], and it leaves all as it was.
fn take_down<C: Revokes + Drop>(
    state: &mut StateOf<C>,
    node: u32,
    failure: Failure,
) -> Result<(Vec<(u32, u64)>, Vec<u32>), Refusal>
    requires full { standing_of (standings (value_of state.old)) node ≡ Some full }
    requires fine { failure_fault (membership state.old.members) node ≡ None }
    requires listed { IsListed (value_of state.old) node failure }
    requires holds { ∥ MachineInvariant (machine_of state.old) ∥₁ }
    requires shape { ShapeInvariant (value_of state.old) }
    ensures down { OnOk result (value_of state.new ≡ after_failure (value_of state.old) node
        (set.from_list failure.inodes.items) (levels_of state.new.leases) failure.asked.items) }
    ensures revoked { OnOk result (RevokesBelow (levels_of state.old.leases)
        (levels_of state.new.leases) node) }
    ensures answer { IfOk result (λ answer. answer ≡ (failure.losses, failure.filled)) }
    ensures err { OnErr result (value_of state.new ≡ value_of state.old) }
    ensures only_memory { IsOkUnless result OutOfMemory }
    ensures revokers { KeepsRevokers state.old.leases state.new.leases }
{
    let Failure {
        kept,
        losses,
        entry,
        inodes,
        asked,
        filled,
    } = failure;
    // There are never 2^63 entries, and no more epochs: the next epoch's number fits.
    state.history.reserve()?;
    state.cuts.reserve(asked.len())?;
    state.members.fail(node, &inodes)?;
    state.nodes.remove_logs(node);
    let last = state.clients.len() as u32;
    cut_to(&mut state.nodes, &mut state.clients, node, &kept, last);
    state.leases.revoke_below(node);
    note_all(&mut state.cuts, asked.into_iter());
    state.history.push(Entry::fail(node, entry));
    Ok((losses, filled))
}

/// Nodes that come back, and start over from another, lose their copies of the inodes that they may lack. It takes no memory.
fn drop_filled<C: Revokes + Drop>(state: &mut StateOf<C>, filled: &[u32])
    requires returning { AreReturning (value_of state.old) filled.now }
    requires shape { ShapeInvariant (value_of state.old) }
    ensures copies { AllLose (value_of state.old) filled.now (value_of state.new) }
    ensures leases { state.new.leases ≡ state.old.leases }
{
    for node in filled {
        drop_copies(state, *node);
    }
}

/// A node that was coming back is down again: see [`fail`].
fn fail_again<C: Revokes + Drop>(
    alloc: Global,
    sound: &mut SoundOf<C>,
    node: u32,
) -> Result<Vec<(u32, u64)>, Refusal>
    requires returning { is_returning (standing_of (standings (value_of sound.old.state)) node) ≡
        true }
    ensures happens { Failing (machine_of sound.old.state) node (failing_answer result)
        (machine_of sound.new.state) }
    ensures revokers { KeepsRevokers sound.old.state.leases sound.new.state.leases }
{
    let state = &mut sound.state;
    // There are never 2^63 entries, and no more epochs: the next epoch's number fits.
    state.history.reserve()?;
    state.members.fail(node, &[])?;
    state.history.push(Entry::fail(node, Vec::new(alloc)));
    Ok(Vec::new(alloc))
}
