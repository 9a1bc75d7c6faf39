//! Frames that a node sends.
ghost use Rattle.std.specs.Prelude.{◌≡◌, [], IfOk, IsOk, IsOkUnless, true};
ghost use Rattle.std.specs.Option.{option_to_list};
ghost use Rattle.assise_names.specs.declared.refusal.Refusal.TheVariants.{OutOfMemory};
ghost use Rattle.assise_model_events.specs.NodeEvents.{Sending, frame_for, next_node};
ghost use Rattle.assise_machine_state.specs.Observed.{is_full_in};
ghost use Rattle.assise_machine_state.specs.Places.{IsNumber};
ghost use Rattle.assise_machine_state.specs.StateValues.{standings};
ghost use Rattle.assise_machine_state.specs.Whole.{machine_of, value_of};
ghost use Rattle.assise_machine.specs.Answers.{sending_answer};

use crate::faults::node_refusal;
use assise_chain::messages::message;
use assise_chain::order::successor;
use assise_lease_table::revoker::Revokes;
use assise_machine_state::sound::SoundOf;
use assise_names::refusal::Refusal;
use assise_record::frame::Frame;
use std::alloc::Global;

/// What a node sends: for each client by ascending number at most one frame, for the node behind it in the chain that begins at the
/// client's home. It has the records that the other lacks, up to the place up to which the client's log is to be replicated, 64
/// at most, and is of the version that the node sends. Payloads are shared. Refused as [`node_refusal`] says, and with
/// [`Refusal::OutOfMemory`].
pub fn outgoing<C: Revokes + Drop>(
    alloc: Global,
    sound: &SoundOf<C>,
    node: u32,
) -> Result<Vec<(Frame, u32)>, Refusal>
    ensures { Sending (machine_of sound.now.state) node (sending_answer result)
        (machine_of sound.now.state) }
{
    let state = &sound.state;
    if let Some(refusal) = node_refusal(state, node) {
        return Err(refusal);
    }
    let mut frames = Vec::new(alloc);
    for client in 1..=state.clients.len() as u32 {
        if let Some(frame) = frame_of(alloc, sound, node, client)? {
            frames.push(frame)?;
        }
    }
    Ok(frames)
}

/// The frame of a client's records that a full node sends, with the node that it is for: none, where no node stands behind it in
/// the client's chain, or that one lacks nothing. The one refusal is [`Refusal::OutOfMemory`], which never comes then.
fn frame_of<C: Revokes + Drop>(
    alloc: Global,
    sound: &SoundOf<C>,
    node: u32,
    client: u32,
) -> Result<Option<(Frame, u32)>, Refusal>
    requires full { is_full_in (standings (value_of sound.now.state)) node ≡ true }
    requires client { IsNumber sound.now.state.clients client }
    ensures frame { IfOk result (λ frame. option_to_list frame ≡ frame_for
        (machine_of sound.now.state) node client
        (next_node (machine_of sound.now.state) node client)) }
    ensures only_memory { IsOkUnless result OutOfMemory }
    ensures nothing_asked { frame_for (machine_of sound.now.state) node client
        (next_node (machine_of sound.now.state) node client) ≡ [] → IsOk result }
{
    let state = &sound.state;
    let known = state.clients.get(client);
    let Some(next) = successor(state.members.full_nodes(), known.home(), node) else {
        return Ok(None);
    };
    let log = state.nodes.log(node, client);
    let from = state.nodes.log(next, client).end();
    let to = known.goal().min(log.end());
    let marked = state.members.level(node).sends_marks();
    let frame = message(alloc, log, marked, state.members.epoch(), client, from, to)?;
    Ok(frame.map(|frame| (frame, next)))
}
