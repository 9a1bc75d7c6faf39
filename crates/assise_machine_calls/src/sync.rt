//! A client's syncs: an fsync, and a dsync.
ghost use Rattle.std.specs.Prelude.{◌≡◌, ◌<◌, IfErr, IfOk, None, OnOk, Some};
ghost use Rattle.assise_history.specs.Legal.{durability_of};
ghost use Rattle.assise_lease_tree.specs.Trees.{KeepsRevokers};
ghost use Rattle.assise_model_world.specs.World.{end_of_log, received_by_all};
ghost use Rattle.assise_model_events.specs.ClientEvents.{Noting, Syncing};
ghost use Rattle.assise_model_events.specs.Dsyncs.{Coalescing};
ghost use Rattle.assise_model_events.specs.Faults.{client_fault};
ghost use Rattle.assise_model_events.specs.Happenings.{Dsyncing, Fsyncing};
ghost use Rattle.assise_machine_state.specs.Whole.{machine_of};
ghost use Rattle.assise_machine_calls.specs.Answers.{turn_answer};
ghost use Rattle.assise_machine_calls.specs.SyncCalls.{op_of};
ghost use Rattle.assise_names.specs.declared.durability.Durability.TheVariants.{Optimistic};

use crate::faults::client_refusal;
use crate::turn::Turn;
use assise_history::call::Call;
use assise_history::entry::Entry;
use assise_lease_table::revoker::Revokes;
use assise_machine_state::sound::SoundOf;
use assise_names::call::Op;
use assise_names::durability::Durability;
use assise_names::refusal::Refusal;
use assise_names::reply::Reply;

/// Tries a client's fsync. A pessimistic client's waits, as [`try_dsync`] says. An optimistic client's is answered at once, with
/// one entry of the history, and promises nothing. Refused as [`client_refusal`] says; with [`Refusal::OutOfMemory`] only where
/// it would be answered, and then all stays as it was.
pub fn try_fsync<C: Revokes + Drop>(sound: &mut SoundOf<C>, client: u32) -> Result<Turn, Refusal>
    ensures happens { Fsyncing (durability_of client (machine_of sound.old.state).history)
        (machine_of sound.old.state) client (turn_answer result)
        (machine_of sound.new.state) }
    ensures revokers { KeepsRevokers sound.old.state.leases sound.new.state.leases }
{
    match durability_of_caller(sound, client)? {
        Durability::Pessimistic => sync(sound, client, SyncCall::Fsync),
        Durability::Optimistic => note(sound, client),
    }
}

/// Tries a client's dsync: all of its log is to be replicated, and it is answered once all full nodes have all of it, with one
/// entry of the history. Until then an optimistic client's coalesces what no other full node has and what wasn't to be replicated
/// yet, in groups of 64 records. Refused as [`client_refusal`] says; with [`Refusal::OutOfMemory`] where an optimistic client's
/// would coalesce or where it would be answered, and then all stays as it was.
pub fn try_dsync<C: Revokes + Drop>(sound: &mut SoundOf<C>, client: u32) -> Result<Turn, Refusal>
    ensures happens { Dsyncing (durability_of client (machine_of sound.old.state).history)
        (machine_of sound.old.state) client (turn_answer result)
        (machine_of sound.new.state) }
    ensures revokers { KeepsRevokers sound.old.state.leases sound.new.state.leases }
{
    match durability_of_caller(sound, client)? {
        Durability::Pessimistic => sync(sound, client, SyncCall::Dsync),
        Durability::Optimistic => sync_groups(sound, client),
    }
}

/// The durability of a client that may call. Refused as [`client_refusal`] says.
fn durability_of_caller<C: Revokes + Drop>(
    sound: &SoundOf<C>,
    client: u32,
) -> Result<Durability, Refusal>
    ensures fine { OnOk result (client_fault (machine_of sound.now.state) client ≡ None) }
    ensures ok { IfOk result (λ kept.
        kept ≡ durability_of client (machine_of sound.now.state).history) }
    ensures err { IfErr result (λ refusal.
        client_fault (machine_of sound.now.state) client ≡ Some refusal) }
{
    match client_refusal(&sound.state, client) {
        Some(refusal) => Err(refusal),
        None => Ok(sound.state.clients.get(client).durability()),
    }
}

/// A call that may be a sync.
#[derive(Clone, Copy)]
enum SyncCall {
    /// An fsync.
    Fsync,
    /// A dsync.
    Dsync,
}

fn op_of(which: SyncCall) -> Op
    ensures { result ≡ op_of which }
{
    match which {
        SyncCall::Fsync => Op::Fsync,
        SyncCall::Dsync => Op::Dsync,
    }
}

/// Raises the goal of a client that may call, and answers the call once all full nodes have all of its log. The one refusal is
/// [`Refusal::OutOfMemory`].
fn sync<C: Revokes + Drop>(
    sound: &mut SoundOf<C>,
    client: u32,
    which: SyncCall,
) -> Result<Turn, Refusal>
    requires fine { client_fault (machine_of sound.old.state) client ≡ None }
    ensures happens { Syncing (machine_of sound.old.state) client (op_of which)
        (turn_answer result) (machine_of sound.new.state) }
    ensures revokers { KeepsRevokers sound.old.state.leases sound.new.state.leases }
{
    let state = &mut sound.state;
    let end = state.own_log(client).end();
    if state.acked(client) < end {
        state.clients.raise_goal(client, end);
        return Ok(Turn::NotYet);
    }
    state.history.reserve()?;
    let number = state.clients.get(client).next();
    state.history.push(Entry::call(Call {
        client,
        number,
        op: op_of(which),
        reply: Reply::Done,
    }));
    state.clients.raise_goal(client, end);
    state.clients.note_call(client, false);
    Ok(Turn::Answered(Reply::Done))
}

/// Coalesces the last records of an optimistic client that may call, or answers its dsync once all full nodes have all of its
/// log. The one refusal is [`Refusal::OutOfMemory`].
fn sync_groups<C: Revokes + Drop>(sound: &mut SoundOf<C>, client: u32) -> Result<Turn, Refusal>
    requires fine { client_fault (machine_of sound.old.state) client ≡ None }
    ensures happens { Coalescing (machine_of sound.old.state) client (turn_answer result)
        (machine_of sound.new.state) }
    ensures revokers { KeepsRevokers sound.old.state.leases sound.new.state.leases }
{
    let end = sound.state.own_log(client).end();
    if sound.state.acked(client) < end {
        return coalesce(sound, client);
    }
    sync(sound, client, SyncCall::Dsync)
}

/// Coalesces, in groups, the records of a client that may call which no other full node has and which weren't to be replicated
/// yet, and raises its goal to the end of its log. The one refusal is [`Refusal::OutOfMemory`].
fn coalesce<C: Revokes + Drop>(sound: &mut SoundOf<C>, client: u32) -> Result<Turn, Refusal>
    requires fine { client_fault (machine_of sound.old.state) client ≡ None }
    requires lacking { received_by_all (machine_of sound.old.state).world client
        < end_of_log (machine_of sound.old.state).world client }
    ensures happens { Coalescing (machine_of sound.old.state) client (turn_answer result)
        (machine_of sound.new.state) }
    ensures revokers { KeepsRevokers sound.old.state.leases sound.new.state.leases }
{
    let state = &mut sound.state;
    let from = state.coalesced_from(client);
    let home = state.clients.get(client).home();
    state.nodes.coalesce(home, client, from)?;
    let end = state.nodes.log(home, client).end();
    state.clients.raise_goal(client, end);
    Ok(Turn::NotYet)
}

/// Answers an fsync of an optimistic client that may call. The one refusal is [`Refusal::OutOfMemory`].
fn note<C: Revokes + Drop>(sound: &mut SoundOf<C>, client: u32) -> Result<Turn, Refusal>
    requires fine { client_fault (machine_of sound.old.state) client ≡ None }
    requires optimistic { durability_of client (machine_of sound.old.state).history ≡ Optimistic }
    ensures happens { Noting (machine_of sound.old.state) client (turn_answer result)
        (machine_of sound.new.state) }
    ensures revokers { KeepsRevokers sound.old.state.leases sound.new.state.leases }
{
    let state = &mut sound.state;
    state.history.reserve()?;
    let number = state.clients.get(client).next();
    state.history.push(Entry::call(Call {
        client,
        number,
        op: Op::Fsync,
        reply: Reply::Done,
    }));
    state.clients.note_call(client, false);
    Ok(Turn::Answered(Reply::Done))
}
