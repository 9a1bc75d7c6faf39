//! A call that has its leases is answered.
ghost use Rattle.std.specs.Prelude.{◌≡◌, ◌==◌, ◌+◌, ◌<◌, ◌≤◌, ◌^◌, None, OnErr, OnOk, length, true};
ghost use Rattle.std.specs.List.{list_any};
ghost use Rattle.assise_names.specs.declared.refusal.Refusal.TheVariants.{OutOfMemory};
ghost use Rattle.assise_history.specs.Entries.{calls};
ghost use Rattle.assise_record.specs.Records.{has_some};
ghost use Rattle.assise_inode_table.specs.Effects.{makes};
ghost use Rattle.assise_inode_table.specs.Whole.{CanBeMadeWhole};
ghost use Rattle.assise_inode_plan.specs.Planning.{step_in};
ghost use Rattle.assise_private_log.specs.NumberedLog.{end};
ghost use Rattle.assise_digest.specs.Region.{LogHasRoom};
ghost use Rattle.assise_model_events.specs.ClientEvents.{Calling};
ghost use Rattle.assise_model_events.specs.Faults.{call_fault};
ghost use Rattle.assise_machine_state.specs.ClientValues.{client_in};
ghost use Rattle.assise_machine_state.specs.NodeValues.{HasLog, log_in, with_call_in};
ghost use Rattle.assise_machine_state.specs.Places.{IsNumber};
ghost use Rattle.assise_machine_state.specs.Invariant.{CutsInvariant, ShapeInvariant};
ghost use Rattle.assise_machine_state.specs.Whole.{StateInvariant, machine_of, value_of};
ghost use Rattle.assise_machine_calls.specs.Answers.{turn_answer};
ghost use Rattle.assise_machine_calls.specs.Leasing.{IsReady, room_fault};

use crate::turn::Turn;
use assise_history::call::Call;
use assise_history::entry::Entry;
use assise_inode_plan::plan::Outcome;
use assise_inode_table::numbers::inode_number;
use assise_lease_table::revoker::Revokes;
use assise_machine_state::nodes::Nodes;
use assise_machine_state::state::StateOf;
use assise_names::call::Op;
use assise_names::refusal::Refusal;
use assise_names::reply::Reply;
use assise_record::effect::Effect;
use assise_record::record::Record;
use std::alloc::{AllocError, Global};

/// The most inodes that one client makes.
pub const MOST_INODES: u64 = 1_048_576;

/// Answers a client's call that has its leases: its effects, if it has some, are a record more of the client's log, and the
/// history has an entry more. Refused with [`Refusal::InodesSpent`] where it would make an inode and its client has made
/// 1,048,576, with [`Refusal::LogFull`] where it has effects and the log has no room, and with [`Refusal::OutOfMemory`]: what is
/// refused leaves all as it was.
pub(crate) fn commit<C: Revokes + Drop>(
    alloc: Global,
    state: &mut StateOf<C>,
    client: u32,
    op: &Op,
    outcome: Outcome,
) -> Result<Turn, Refusal>
    requires fine { call_fault (machine_of state.old) client op.now ≡ None }
    requires invariant { StateInvariant state.old }
    requires ready { IsReady (machine_of state.old) client op.now (step_in outcome) }
    requires few { length outcome.effects.items ≤ 4 }
    requires whole { CanBeMadeWhole outcome.effects.items }
    ensures happens { Calling (machine_of state.old) client op.now (turn_answer result)
        (machine_of state.new) }
    ensures shape { ShapeInvariant (value_of state.new) }
    ensures noted { CutsInvariant (value_of state.new) }
    ensures leases { state.new.leases ≡ state.old.leases }
{
    if let Some(refusal) = room_refusal(state, client, &outcome.effects) {
        return Err(refusal);
    }
    let Outcome {
        reply,
        reads,
        effects,
    } = outcome;
    let known = state.clients.get(client);
    let (home, number) = (known.home(), known.next());
    let makes = makes_inode(&effects, inode_number(client, known.made()));
    let entry = Entry::call(Call {
        client,
        number,
        op: op.copy()?,
        reply: reply.copy(alloc)?,
    });
    // There are never 2^63 entries, and no more records: the record's number fits.
    state.history.reserve()?;
    add_record(&mut state.nodes, home, client, number, effects)?;
    state.history.push(entry);
    state.clients.note_call(client, makes);
    touch_all(&mut state.nodes, home, reads.as_slice());
    Ok(Turn::Answered(reply))
}

/// Why a call that has its leases is refused whatever memory there is.
fn room_refusal<C: Revokes + Drop>(
    state: &StateOf<C>,
    client: u32,
    effects: &[Effect],
) -> Option<Refusal>
    requires client { IsNumber state.now.clients client }
    requires few { (client_in state.now.clients client).made ≤ 1048576 }
    requires log { HasLog state.now.nodes (client_in state.now.clients client).home client }
    ensures { result ≡ room_fault (client_in state.now.clients client) client
        (log_in state.now.nodes (client_in state.now.clients client).home client) effects.now }
{
    let known = state.clients.get(client);
    if known.made() == MOST_INODES && makes_inode(effects, inode_number(client, known.made())) {
        return Some(Refusal::InodesSpent);
    }
    let log = state.nodes.log(known.home(), client);
    if log.spare() == 0 && !effects.is_empty() {
        return Some(Refusal::LogFull);
    }
    None
}

/// Whether effects make an inode of this number.
fn makes_inode(effects: &[Effect], inode: u64) -> bool
    ensures { result ≡ list_any (makes inode) effects.now }
{
    effects.iter().any(|effect| makes(effect, inode))
}

/// Whether an effect makes an inode of this number.
fn makes(effect: &Effect, number: u64) -> bool
    ensures { result ≡ makes number effect.now }
{
    match effect {
        Effect::NewFile { inode } | Effect::NewDir { inode } => *inode == number,
        _ => false,
    }
}

/// A call's effects, if it has some, are a record more of its client's log, which has room for it. Without memory it leaves
/// all as it was.
fn add_record(
    nodes: &mut Nodes,
    home: u32,
    client: u32,
    call: u64,
    effects: Vec<Effect>,
) -> Result<(), AllocError>
    requires there { HasLog nodes.old home client }
    requires number_fits { end (log_in nodes.old home client).log + 1 < 2 ^ 64 }
    requires room { has_some effects.items ≡ true → LogHasRoom (log_in nodes.old home client) }
    requires few { length effects.items ≤ 4 }
    requires whole { CanBeMadeWhole effects.items }
    ensures ok { OnOk result (nodes.new ≡ with_call_in nodes.old home client call effects.items) }
    ensures err { OnErr result (nodes.new ≡ nodes.old) }
    ensures nodes { length nodes.new ≡ length nodes.old }
{
    if effects.is_empty() {
        return Ok(());
    }
    match nodes.append(home, client, Record::new(call, effects)) {
        Ok(()) => Ok(()),
        Err((_, _)) => Err(AllocError),
    }
}

/// A node uses inodes, which are hot there then. Of what it uses twice the second use counts.
fn touch_all(nodes: &mut Nodes, node: u32, inodes: &[u64])
    requires node { IsNumber nodes.old node }
    ensures { nodes.new ≡ nodes.old }
{
    for inode in &inodes[repeated(inodes)..] {
        nodes.touch(node, *inode);
    }
}

/// How many of the first inodes follow once more, in the same order, from the second use of the first one on: those of a walk
/// that is made twice.
fn repeated(inodes: &[u64]) -> usize
    ensures { result ≤ length inodes.now }
{
    let [first, later @ ..] = inodes else {
        return 0;
    };
    let Some(place) = later.iter().position(|inode| inode == first) else {
        return 0;
    };
    let again = &later[place..];
    for count in 0..again.len() {
        if again[count] != inodes[count] {
            return count;
        }
    }
    again.len()
}
