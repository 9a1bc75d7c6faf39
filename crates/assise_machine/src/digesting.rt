//! A node digests what all full nodes have.
ghost use Rattle.std.specs.Prelude.{◌≡◌, ◌<◌, ◌≤◌, IfOk, IsOkUnless, OnErr, false, length, min, take, true};
ghost use Rattle.assise_names.specs.declared.refusal.Refusal.TheVariants.{OutOfMemory};
ghost use Rattle.assise_record.specs.Records.{all_effects};
ghost use Rattle.assise_lease_tree.specs.Trees.{KeepsRevokers};
ghost use Rattle.assise_private_log.specs.NumberedLog.{records_from};
ghost use Rattle.assise_manager.specs.Whole.{membership};
ghost use Rattle.assise_model_events.specs.NodeEvents.{Digesting, most_digested, undigested, undigested_to};
ghost use Rattle.assise_machine_state.specs.Observed.{is_full_in, world_of};
ghost use Rattle.assise_machine_state.specs.Places.{IsNumber};
ghost use Rattle.assise_machine_state.specs.Invariant.{PartsInvariant};
ghost use Rattle.assise_machine_state.specs.StateValues.{standings};
ghost use Rattle.assise_machine_state.specs.Whole.{machine_of, value_of};
ghost use Rattle.assise_machine.specs.Answers.{digesting_answer};
ghost use Rattle.assise_machine.specs.Digesting.{EndWithGroups, EndsWithGroup, NoneListed, digests_some, digests_to};

use crate::faults::node_refusal;
use crate::progress::Progress;
use assise_lease_table::revoker::Revokes;
use assise_machine_state::dropping::drop_digested;
use assise_machine_state::sound::SoundOf;
use assise_machine_state::state::StateOf;
use assise_machine_state::touching::push_touched_from;
use assise_names::refusal::Refusal;
use assise_private_log::log::Log;
use std::alloc::Global;

/// The most records of one digest.
const MOST_DIGESTED: usize = 64;

/// A node digests records that all full nodes have, of clients by ascending number, and 64 in all at most: each group whole, up to the
/// first that is longer than what is left of the 64. Then all nodes let go what all full nodes have digested. It answers how many
/// records it digested: fewer than there are to digest where there are more than 64, or where memory runs out after the first
/// group. Refused as [`node_refusal`] says, and with [`Refusal::OutOfMemory`] where memory
/// runs out before the first: then all stays as it was.
pub fn digest<C: Revokes + Drop>(
    alloc: Global,
    sound: &mut SoundOf<C>,
    node: u32,
) -> Result<usize, Refusal>
    ensures happens { Digesting (machine_of sound.old.state) node (digesting_answer result)
        (machine_of sound.new.state) }
    ensures revokers { KeepsRevokers sound.old.state.leases sound.new.state.leases }
{
    let state = &mut sound.state;
    if let Some(refusal) = node_refusal(state, node) {
        return Err(refusal);
    }
    let last = state.clients.len() as u32;
    let progress = digest_to(alloc, state, node, last);
    if progress.refused && progress.count == 0 {
        return Err(Refusal::OutOfMemory);
    }
    drop_digested(state, last);
    Ok(progress.count)
}

/// A node digests records of clients 1 to a last one, one client after another, until the next group is longer than what is left of
/// 64, or memory runs out.
fn digest_to<C: Revokes + Drop>(
    alloc: Global,
    state: &mut StateOf<C>,
    node: u32,
    last: u32,
) -> Progress
    requires full { is_full_in (standings (value_of state.old)) node ≡ true }
    requires last { last ≤ length state.old.clients }
    requires parts { PartsInvariant (value_of state.old) }
    requires lists { NoneListed (value_of state.old).members }
    ensures digests { value_of state.new ≡ digests_to (value_of state.old) node result.count last }
    ensures groups { EndWithGroups (world_of (value_of state.old)) node result.count last }
    ensures few { result.count ≤ min most_digested
        (undigested_to (world_of (value_of state.old)) node last) }
    ensures all { result.ended ≡ false →
        result.count ≡ min most_digested (undigested_to (world_of (value_of state.old)) node last) }
    ensures ended { result.ended ≡ true →
        result.count < undigested_to (world_of (value_of state.old)) node last }
    ensures refused { result.refused ≡ true → result.ended ≡ true }
    ensures some { result.refused ≡ false →
        0 < undigested_to (world_of (value_of state.old)) node last → 0 < result.count }
    ensures revokers { state.new.leases ≡ state.old.leases }
{
    let mut progress = Progress {
        count: 0,
        refused: false,
        ended: false,
    };
    for client in 1..=last {
        if !progress.ended {
            let own = digest_of(alloc, state, node, client, MOST_DIGESTED - progress.count);
            progress = Progress {
                count: progress.count + own.count,
                refused: own.refused,
                ended: own.ended,
            };
        }
    }
    progress
}

/// A node digests at most `at_most` records of a client, until the next group is longer than what is left of them, or memory runs
/// out.
fn digest_of<C: Revokes + Drop>(
    alloc: Global,
    state: &mut StateOf<C>,
    node: u32,
    client: u32,
    at_most: usize,
) -> Progress
    requires full { is_full_in (standings (value_of state.old)) node ≡ true }
    requires client { IsNumber state.old.clients client }
    requires few_most { at_most ≤ 64 }
    requires parts { PartsInvariant (value_of state.old) }
    requires lists { NoneListed (value_of state.old).members }
    ensures digests { value_of state.new ≡ digests_some
        (value_of state.old) node client result.count }
    ensures group { EndsWithGroup (world_of (value_of state.old)) node client result.count }
    ensures few { result.count ≤ min at_most (undigested
        (world_of (value_of state.old)) node client) }
    ensures all { result.ended ≡ false →
        result.count ≡ min at_most (undigested (world_of (value_of state.old)) node client) }
    ensures ended { result.ended ≡ true →
        result.count < min at_most (undigested (world_of (value_of state.old)) node client) }
    ensures refused { result.refused ≡ true → result.ended ≡ true }
    ensures some { result.refused ≡ false → at_most ≡ 64 →
        0 < undigested (world_of (value_of state.old)) node client → 0 < result.count }
    ensures revokers { state.new.leases ≡ state.old.leases }
{
    let acked = state.acked(client);
    let from = state.nodes.digested(node, client);
    let most = at_most.min((acked - from) as usize);
    let wanted = state.nodes.log(node, client).whole_count(from, most);
    if wanted == 0 {
        return Progress {
            count: 0,
            refused: false,
            ended: 0 < most,
        };
    }
    match digest_wanted(alloc, state, node, client, acked, wanted) {
        Ok(count) => Progress {
            count,
            refused: count < wanted,
            ended: count < most,
        },
        Err(_) => Progress {
            count: 0,
            refused: true,
            ended: true,
        },
    }
}

/// A node digests `wanted` records of a client, of those that all full nodes have, or fewer where memory runs out. It answers how
/// many there were. While all nodes are full nothing is to be noted, so no list of inodes is made. The one refusal is
/// [`Refusal::OutOfMemory`], where there was none, and it changes nothing.
fn digest_wanted<C: Revokes + Drop>(
    alloc: Global,
    state: &mut StateOf<C>,
    node: u32,
    client: u32,
    acked: u64,
    wanted: usize,
) -> Result<usize, Refusal>
    requires full { is_full_in (standings (value_of state.old)) node ≡ true }
    requires client { IsNumber state.old.clients client }
    requires wanted { wanted ≤ undigested (world_of (value_of state.old)) node client }
    requires few_wanted { wanted ≤ 64 }
    requires parts { PartsInvariant (value_of state.old) }
    requires lists { NoneListed (value_of state.old).members }
    ensures ok { IfOk result (λ count. value_of state.new ≡ digests_some
        (value_of state.old) node client count) }
    ensures group { IfOk result
        (λ count. EndsWithGroup (world_of (value_of state.old)) node client count) }
    ensures few { IfOk result (λ count. count ≤ wanted) }
    ensures err { OnErr result (value_of state.new ≡ value_of state.old) }
    ensures revokers { state.new.leases ≡ state.old.leases }
    ensures only_memory { IsOkUnless result OutOfMemory }
{
    if state.members.full_nodes().len() < state.nodes.len() {
        return digest_noted(alloc, state, node, client, acked, wanted);
    }
    state.nodes.digest_some(node, client, acked, wanted)
}

/// A node digests `wanted` records of a client, of those that all full nodes have, or fewer where memory runs out, and the manager
/// notes the inodes. It answers how many there were. The one refusal is [`Refusal::OutOfMemory`], where there was none, and it
/// changes nothing.
fn digest_noted<C: Revokes + Drop>(
    alloc: Global,
    state: &mut StateOf<C>,
    node: u32,
    client: u32,
    acked: u64,
    wanted: usize,
) -> Result<usize, Refusal>
    requires full { is_full_in (standings (value_of state.old)) node ≡ true }
    requires client { IsNumber state.old.clients client }
    requires wanted { wanted ≤ undigested (world_of (value_of state.old)) node client }
    requires few_wanted { wanted ≤ 64 }
    requires parts { PartsInvariant (value_of state.old) }
    ensures ok { IfOk result (λ count. value_of state.new ≡ digests_some
        (value_of state.old) node client count) }
    ensures group { IfOk result
        (λ count. EndsWithGroup (world_of (value_of state.old)) node client count) }
    ensures few { IfOk result (λ count. count ≤ wanted) }
    ensures err { OnErr result (value_of state.new ≡ value_of state.old) }
    ensures revokers { state.new.leases ≡ state.old.leases }
    ensures only_memory { IsOkUnless result OutOfMemory }
{
    let from = state.nodes.digested(node, client);
    let mut inodes = Vec::new(alloc);
    push_touched_from(&mut inodes, state.nodes.log(node, client), from, wanted)?;
    state.members.reserve_written(node, inodes.len())?;
    let count = state.nodes.digest_some(node, client, acked, wanted)?;
    let written = effects_from(state.nodes.log(node, client), from, count);
    state.members.note_reserved(node, &inodes[..written]);
    Ok(count)
}

/// How many effects `count` records of a log have, from a number on.
fn effects_from(log: &Log, from: u64, count: usize) -> usize
    requires few { count ≤ 64 }
    ensures { result ≡ length (all_effects (take count (records_from log.now from))) }
{
    let mut effects = 0;
    for record in log.since(from).take(count) {
        effects += record.effects().len();
    }
    effects
}
