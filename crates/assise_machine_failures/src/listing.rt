//! What a failure lists before anything changes.
ghost use Rattle.std.specs.Prelude.{◌≡◌, ◌+◌, ◌^◌, ◌<◌, IfOk, length, map as mapped};
ghost use Rattle.assise_model_world.specs.NodeSteps.{kept_at_failure};
ghost use Rattle.assise_model_history.specs.Lost.{losses_of};
ghost use Rattle.assise_machine_state.specs.Observed.{world_of};
ghost use Rattle.assise_machine_state.specs.Places.{IsNumber};
ghost use Rattle.assise_machine_state.specs.Invariant.{ShapeInvariant, PartsInvariant};
ghost use Rattle.assise_machine_state.specs.Whole.{value_of};
ghost use Rattle.assise_machine_failures.specs.Answers.{loss_of};
ghost use Rattle.assise_machine_state.specs.StateValues.{standings};
ghost use Rattle.assise_machine_failures.specs.Listing.{filled_from, kept_inodes, kept_to};

use assise_history::call::Loss;
use assise_lease_table::revoker::Revokes;
use assise_machine_state::state::StateOf;
use assise_machine_state::touching::push_touched_from;
use std::alloc::{AllocError, Global};

/// The place up to which a client's log is kept when a node fails: of a client that lives there what all other full nodes have, and
/// of another all. It costs the nodes.
pub(crate) fn kept<C: Revokes + Drop>(state: &StateOf<C>, node: u32, client: u32) -> u64
    requires client { IsNumber state.now.clients client }
    requires shape { ShapeInvariant (value_of state.now) }
    ensures { result ≡ kept_at_failure (world_of (value_of state.now)) node client }
{
    let mut least = state.own_log(client).end();
    let known = state.clients.get(client);
    if known.has_failed() || known.home() != node {
        return least;
    }
    for other in state.members.full_nodes() {
        if *other != node {
            let received = state.nodes.log(*other, client).end();
            least = least.min(received);
        }
    }
    least
}

/// These places of all clients, by their numbers.
pub(crate) fn all_kept<C: Revokes + Drop>(
    alloc: Global,
    state: &StateOf<C>,
    node: u32,
) -> Result<Vec<u64>, AllocError>
    requires few { length state.now.clients < 2 ^ 32 }
    requires shape { ShapeInvariant (value_of state.now) }
    ensures kept { IfOk result (λ kept. kept.items ≡ kept_to (world_of (value_of state.now)) node
        (length state.now.clients)) }
{
    let mut all = Vec::with_capacity(alloc, state.clients.len())?;
    for client in 1..=state.clients.len() as u32 {
        all.push(kept(state, node, client))?;
    }
    Ok(all)
}

/// Each client that loses a record when a node fails, by ascending number, with its first lost call.
pub(crate) fn losses<C: Revokes + Drop>(
    alloc: Global,
    state: &StateOf<C>,
    node: u32,
    kept: &[u64],
) -> Result<Vec<(u32, u64)>, AllocError>
    requires kept { kept.now ≡ kept_to (world_of (value_of state.now)) node
        (length state.now.clients) }
    requires few { length state.now.clients < 2 ^ 32 }
    requires parts { PartsInvariant (value_of state.now) }
    ensures losses { IfOk result (λ losses. mapped loss_of losses.items ≡ losses_of
        (world_of (value_of state.now)) node) }
{
    let mut losses = Vec::new(alloc);
    for (place, end) in kept.iter().enumerate() {
        let client = place as u32 + 1;
        let log = state.own_log(client);
        if let Some(lost) = log.get(*end) {
            losses.push((client, lost.call()))?;
        }
    }
    Ok(losses)
}

/// The same as the history has them.
pub(crate) fn entry_losses(alloc: Global, losses: &[(u32, u64)]) -> Result<Vec<Loss>, AllocError>
    ensures same { IfOk result (λ noted. noted.items ≡ mapped loss_of losses.now) }
{
    let mut noted = Vec::with_capacity(alloc, losses.len())?;
    for (client, first) in losses {
        noted.push(Loss {
            client: *client,
            first: *first,
        })?;
    }
    Ok(noted)
}

/// The inodes that those records touch which are kept when a node fails.
pub(crate) fn touched_inodes<C: Revokes + Drop>(
    alloc: Global,
    state: &StateOf<C>,
    node: u32,
    kept: &[u64],
) -> Result<Vec<u64>, AllocError>
    requires kept { kept.now ≡ kept_to (world_of (value_of state.now)) node
        (length state.now.clients) }
    requires few { length state.now.clients < 2 ^ 32 }
    requires parts { PartsInvariant (value_of state.now) }
    ensures inodes { IfOk result (λ inodes. inodes.items ≡ kept_inodes
        (world_of (value_of state.now)) node (length state.now.clients)) }
{
    let mut inodes = Vec::new(alloc);
    for (place, end) in kept.iter().enumerate() {
        let log = state.own_log(place as u32 + 1);
        let first = log.first();
        push_touched_from(&mut inodes, log, first, (*end - first) as usize)?;
    }
    Ok(inodes)
}

/// The nodes that come back and are filled from a node, by ascending number.
pub(crate) fn filled_from<C: Revokes + Drop>(
    alloc: Global,
    state: &StateOf<C>,
    node: u32,
) -> Result<Vec<u32>, AllocError>
    requires shape { ShapeInvariant (value_of state.now) }
    ensures nodes { IfOk result (λ nodes. nodes.items ≡ filled_from
        (standings (value_of state.now)) node (length state.now.nodes)) }
{
    let mut nodes = Vec::new(alloc);
    for other in 1..=state.nodes.len() as u32 {
        if state.members.donor(other) == Ok(node) {
            nodes.push(other)?;
        }
    }
    Ok(nodes)
}
