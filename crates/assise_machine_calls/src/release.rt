//! Leases that were asked for go, where they may.
ghost use Rattle.std.specs.Prelude.{◌≡◌, ◌++◌, ◌≤◌, drop, filter, length, take};
ghost use Rattle.assise_lease_tree.specs.Trees.{KeepsRevokers};
ghost use Rattle.assise_model_leases.specs.Leases.{AreLeases};
ghost use Rattle.assise_model_events.specs.Events.{released};
ghost use Rattle.assise_model_events.specs.NodeEvents.{Releasing};
ghost use Rattle.assise_manager.specs.Whole.{membership};
ghost use Rattle.assise_machine_state.specs.Observed.{is_full_in, world_of};
ghost use Rattle.assise_machine_state.specs.Places.{IsNumber};
ghost use Rattle.assise_machine_state.specs.Invariant.{CutsInvariant, ShapeInvariant};
ghost use Rattle.assise_machine_state.specs.StateValues.{leases_of};
ghost use Rattle.assise_machine_state.specs.Whole.{machine_of, value_of};
ghost use Rattle.assise_machine_calls.specs.Releasing.{FreesAmong, LetsSomeGo, is_early, is_ripe};

use assise_lease_table::lease::Asked;
use assise_lease_table::revoker::Revokes;
use assise_machine_state::sound::SoundOf;
use assise_machine_state::state::StateOf;
use assise_manager::members::Members;

/// Releases each lease of a client that was asked for and whose cut all full nodes have digested, and then takes all leases of
/// nodes away that aren't full and whose clients hold nothing. It answers how many leases of clients went. It is never refused
/// and takes no memory; it costs the leases that are asked for, and for each node that isn't full a walk over all leases.
pub fn release_ready<C: Revokes + Drop>(sound: &mut SoundOf<C>) -> usize
    ensures happens { Releasing (machine_of sound.old.state) (released result)
        (machine_of sound.new.state) }
    ensures revokers { KeepsRevokers sound.old.state.leases sound.new.state.leases }
{
    let state = &mut sound.state;
    let place = state.cuts.len();
    let count = release_before(state, place);
    let last = state.nodes.len() as u32;
    free_to(state, last);
    count
}

/// Of the answers before a place, releases the lease of each that is ripe, and drops the answer. It answers how many.
pub(crate) fn release_before<C: Revokes + Drop>(state: &mut StateOf<C>, place: usize) -> usize
    requires place { place ≤ length state.old.cuts.items }
    requires leases { AreLeases (world_of (value_of state.old)) (leases_of (value_of state.old)) }
    requires shape { ShapeInvariant (value_of state.old) }
    requires noted { CutsInvariant (value_of state.old) }
    ensures goes { LetsSomeGo (value_of state.old) result (value_of state.new) }
    ensures cuts { state.new.cuts.items ≡ filter (is_early (value_of state.old))
        (take place state.old.cuts.items) ++ drop place state.old.cuts.items }
    ensures few { result ≤ place }
    ensures leases { AreLeases (world_of (value_of state.new)) (leases_of (value_of state.new)) }
    ensures shape { ShapeInvariant (value_of state.new) }
    ensures noted { CutsInvariant (value_of state.new) }
    ensures revokers { KeepsRevokers state.old.leases state.new.leases }
{
    if place == 0 {
        return 0;
    }
    let answer = state.cuts[place - 1];
    if !is_ripe(state, answer) {
        return release_before(state, place - 1);
    }
    state.leases.release(answer.client, answer.inode);
    state.cuts.remove(place - 1);
    release_before(state, place - 1) + 1
}

/// Whether all full nodes have digested what lies before the cut of a client that answered.
fn is_ripe<C: Revokes + Drop>(state: &StateOf<C>, answer: Asked) -> bool
    requires client { IsNumber state.now.clients answer.client }
    requires shape { ShapeInvariant (value_of state.now) }
    ensures { result ≡ is_ripe (value_of state.now) answer }
{
    let cut = state.clients.get(answer.client).cut(answer.cut);
    cut <= state.digested(answer.client)
}

/// Of nodes 1 to a last one, those that aren't full and whose clients hold nothing give up their leases. For each it walks over
/// all leases of clients.
pub(crate) fn free_to<C: Revokes + Drop>(state: &mut StateOf<C>, last: u32)
    requires shape { ShapeInvariant (value_of state.old) }
    requires noted { CutsInvariant (value_of state.old) }
    ensures frees { FreesAmong (value_of state.old) 1 last (value_of state.new) }
    ensures shape { ShapeInvariant (value_of state.new) }
    ensures noted { CutsInvariant (value_of state.new) }
    ensures revokers { KeepsRevokers state.old.leases state.new.leases }
{
    for node in 1..=last {
        free(state, node);
    }
}

/// A node that isn't full and whose clients hold nothing gives up its leases.
fn free<C: Revokes + Drop>(state: &mut StateOf<C>, node: u32)
    requires shape { ShapeInvariant (value_of state.old) }
    requires noted { CutsInvariant (value_of state.old) }
    ensures frees { FreesAmong (value_of state.old) node node (value_of state.new) }
    ensures shape { ShapeInvariant (value_of state.new) }
    ensures noted { CutsInvariant (value_of state.new) }
    ensures revokers { KeepsRevokers state.old.leases state.new.leases }
{
    if is_full(&state.members, node) {
        return;
    }
    if state.leases.is_idle(node) {
        state.leases.free_node(node);
    }
}

/// Whether a node is full.
fn is_full(members: &Members, node: u32) -> bool
    ensures { result ≡ is_full_in (membership members.now).nodes node }
{
    members.full_nodes().contains(&node)
}
